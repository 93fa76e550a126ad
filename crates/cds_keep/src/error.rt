ghost use Rattle.std.specs.Prelude.{◌≡◌};

use std::alloc::{AllocError, AllocFailed};
use thiserror::Error;

/// Why a store could not be loaded.
#[derive(Clone, Copy, Debug, PartialEq, Eq, Error)]
pub enum LoadError {
    /// The device failed, and the store's count of faults rose.
    #[error("the store failed")]
    Failed,
    /// There was no memory.
    #[error("there was no memory")]
    NoMemory,
    /// The store can't delimit the record of this number, which counts from 1.
    #[error("record {0} is damaged")]
    Damaged(u64),
}

impl From<AllocError> for LoadError {
    ghost use Rattle.cds_keep.specs.declared.error.LoadError.TheVariants.{NoMemory};

    ghost from_gives = { λ _ e. e ≡ NoMemory };

    fn from(_failed: AllocError) -> LoadError {
        LoadError::NoMemory
    }
}

/// Why a record could not be put. What the store tells of its content is then as before.
#[derive(Clone, Copy, Debug, PartialEq, Eq, Error)]
pub enum PutError {
    /// The device failed, and the store's count of faults rose. Whether a later load finds the record is left open.
    #[error("the store failed")]
    Failed,
    /// There was no memory.
    #[error("there was no memory")]
    NoMemory,
}

impl From<AllocError> for PutError {
    ghost use Rattle.cds_keep.specs.declared.error.PutError.TheVariants.{NoMemory};

    ghost from_gives = { λ _ e. e ≡ NoMemory };

    fn from(_failed: AllocError) -> PutError {
        PutError::NoMemory
    }
}
