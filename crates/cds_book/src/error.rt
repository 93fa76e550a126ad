ghost use Rattle.std.specs.Prelude.{◌≡◌};
ghost use Rattle.cds_book.specs.Refusal.{number_of_refusal};
ghost use Rattle.cds_book.specs.declared.error.PlanError.TheVariants.{NoMemory};

use cds_base::Name;
use std::alloc::{AllocError, AllocFailed};
use thiserror::Error;

/// Why a command is refused.
#[derive(Clone, Copy, Debug, PartialEq, Eq, Error)]
pub enum PlanError {
    /// No trace has this name.
    #[error("there is no such trace")]
    NoTrace(Name),
    /// No method of this name has a draft.
    #[error("there is no such method")]
    NoMethod(Name),
    /// The method or the trace of this name has no version of the number that is bound, or none at all.
    #[error("there is no such version")]
    NoVersion(Name),
    /// No sequence has this name.
    #[error("there is no such sequence")]
    NoSequence(Name),
    /// The sequence has no row of this number.
    #[error("there is no row {0}")]
    NoRow(u32),
    /// The sequence has no signature of this number. No command is refused with it.
    #[error("there is no signature {0}")]
    NoRecord(u32),
    /// The edition that was seen isn't the kept one, which is this; 0 where there is no such sequence.
    #[error("the edition is {0}")]
    Edition(u64),
    /// The basis that is signed isn't the kept one, which is this.
    #[error("the basis is {0}")]
    Basis(u64),
    /// The number is not the next one, which is this.
    #[error("the next number is {0}")]
    Number(u32),
    /// The change would pass this limit.
    #[error("the limit of {0} would be passed")]
    Full(u64),
    /// An earlier row has this label too.
    #[error("two rows have one label")]
    TwoLabels(Name),
    /// The row of this number states an amount outside 1 to 10^9, or is no standard and states one.
    #[error("row {0} has an amount that it can't have")]
    BadAmount(u32),
    /// Memory is wanting. This is no refusal.
    #[error("out of memory")]
    NoMemory,
}

impl From<AllocError> for PlanError {
    ghost from_gives = { λ _ e. e ≡ NoMemory };

    fn from(_error: AllocError) -> PlanError {
        PlanError::NoMemory
    }
}

impl<T: Drop> From<AllocFailed<T>> for PlanError {
    ghost from_gives = { λ _ e. e ≡ NoMemory };

    fn from(_failed: AllocFailed<T>) -> PlanError {
        PlanError::NoMemory
    }
}

impl PlanError {
    /// The number of the refusal, 1 to 12 in the order of the refusals. Want of memory has none. The numbers are this
    /// project's own.
    pub fn number(&self) -> Option<u32>
        ensures { result ≡ number_of_refusal self.now }
    {
        match *self {
            PlanError::NoTrace(_) => Some(1),
            PlanError::NoMethod(_) => Some(2),
            PlanError::NoVersion(_) => Some(3),
            PlanError::NoSequence(_) => Some(4),
            PlanError::NoRow(_) => Some(5),
            PlanError::NoRecord(_) => Some(6),
            PlanError::Edition(_) => Some(7),
            PlanError::Basis(_) => Some(8),
            PlanError::Number(_) => Some(9),
            PlanError::Full(_) => Some(10),
            PlanError::TwoLabels(_) => Some(11),
            PlanError::BadAmount(_) => Some(12),
            PlanError::NoMemory => None,
        }
    }
}
