//! The refusals of a request's body.
ghost use Rattle.std.specs.Prelude.{◌≡◌};
ghost use Rattle.cds_wire.specs.declared.error.BodyError.TheVariants.{NoMemory};

use cds_base::Text;
use cds_fields::Refusal;
use std::alloc::{AllocError, AllocFailed};
use thiserror::Error;

/// Why a request's body states nothing.
#[derive(Debug, Drop, Error)]
pub enum BodyError {
    /// The body is no JSON, or no UTF-8.
    #[error("the body is no JSON")]
    Json,
    /// The field of this path is missing, of a wrong kind, out of its range or unknown. A path is the names and the
    /// numbers of entries, which count from 1, with a point between them; that of the whole body is empty.
    #[error("the field {} is refused", .0.as_str())]
    Field(Text),
    /// There was no memory, which says nothing of the body.
    #[error("there was no memory")]
    NoMemory,
}

impl Refusal for BodyError {
    ghost use Rattle.cds_wire.specs.Refusal.{body_refusals};

    ghost told = { body_refusals };

    fn missing(path: Text) -> BodyError {
        BodyError::Field(path)
    }

    fn range(path: Text) -> BodyError {
        BodyError::Field(path)
    }

    fn unknown(path: Text) -> BodyError {
        BodyError::Field(path)
    }

    fn too_many(path: Text) -> BodyError {
        BodyError::Field(path)
    }

    fn no_memory() -> BodyError {
        BodyError::NoMemory
    }
}

impl From<AllocError> for BodyError {
    ghost from_gives = { λ _ e. e ≡ NoMemory };

    fn from(_failed: AllocError) -> BodyError {
        BodyError::NoMemory
    }
}

impl<T: Drop> From<AllocFailed<T>> for BodyError {
    ghost from_gives = { λ _ e. e ≡ NoMemory };

    fn from(_failed: AllocFailed<T>) -> BodyError {
        BodyError::NoMemory
    }
}
