//! The refusals of a method's text.
ghost use Rattle.std.specs.Prelude.{◌≡◌};
ghost use Rattle.cds_rules.specs.declared.error.MethodError.TheVariants.{NoMemory};

use cds_base::{Name, Text};
use cds_fields::Refusal;
use std::alloc::{AllocError, AllocFailed};
use thiserror::Error;

/// Why a text states no method. The first seven have the numbers 1 to 7 in this order. A text is the path of the
/// field: its name, behind the name and the number of its entry where it stands in one, as `component.2.window_ms`.
#[derive(Debug, Drop, Error)]
pub enum MethodError {
    /// The text is no TOML, or no UTF-8.
    #[error("the text is no TOML")]
    NotToml,
    /// A field that must be there isn't.
    #[error("{} is missing", .0.as_str())]
    Missing(Text),
    /// A field that no table of its kind has.
    #[error("{} is no field", .0.as_str())]
    Unknown(Text),
    /// A value of a wrong kind or outside its range.
    #[error("{} is out of its range", .0.as_str())]
    Range(Text),
    /// Two components have this name.
    #[error("two components have one name")]
    TwoComponents(Name),
    /// A list has more entries than it may have.
    #[error("{} has too many entries", .0.as_str())]
    TooMany(Text),
    /// The text is longer than a method's text may be.
    #[error("the text is too long")]
    TooLong,
    /// There was no memory, which says nothing of the text.
    #[error("there was no memory")]
    NoMemory,
}

impl MethodError {
    ghost use Rattle.std.specs.Prelude.{◌≡◌};
    ghost use Rattle.cds_rules.specs.Refusal.{number_of_refusal, field_of_refusal};

    /// The number of the refusal, 1 to 7; None for want of memory.
    pub fn number(&self) -> Option<u8>
        ensures { result ≡ number_of_refusal self.now }
    {
        match self {
            MethodError::NotToml => Some(1),
            MethodError::Missing(_) => Some(2),
            MethodError::Unknown(_) => Some(3),
            MethodError::Range(_) => Some(4),
            MethodError::TwoComponents(_) => Some(5),
            MethodError::TooMany(_) => Some(6),
            MethodError::TooLong => Some(7),
            MethodError::NoMemory => None,
        }
    }

    /// The bytes of the path of the field, or of the component's name, at fault; none where the refusal has neither.
    pub fn field(&self) -> &[u8]
        ensures { result.now ≡ field_of_refusal self.now }
    {
        match self {
            MethodError::Missing(field)
            | MethodError::Unknown(field)
            | MethodError::Range(field)
            | MethodError::TooMany(field) => field.as_str().as_bytes(),
            MethodError::TwoComponents(name) => name.as_bytes(),
            _ => &[],
        }
    }
}

impl Refusal for MethodError {
    ghost use Rattle.cds_rules.specs.Refusal.{method_refusals};

    ghost told = { method_refusals };

    fn missing(path: Text) -> MethodError {
        MethodError::Missing(path)
    }

    fn range(path: Text) -> MethodError {
        MethodError::Range(path)
    }

    fn unknown(path: Text) -> MethodError {
        MethodError::Unknown(path)
    }

    fn too_many(path: Text) -> MethodError {
        MethodError::TooMany(path)
    }

    fn no_memory() -> MethodError {
        MethodError::NoMemory
    }
}

impl From<AllocError> for MethodError {
    ghost from_gives = { λ _ e. e ≡ NoMemory };

    fn from(_failed: AllocError) -> MethodError {
        MethodError::NoMemory
    }
}

impl<T: Drop> From<AllocFailed<T>> for MethodError {
    ghost from_gives = { λ _ e. e ≡ NoMemory };

    fn from(_failed: AllocFailed<T>) -> MethodError {
        MethodError::NoMemory
    }
}
