//! Why bytes or samples are no trace.
use std::alloc::{AllocError, AllocFailed};
use thiserror::Error;

/// Why bytes or samples are no trace. The first eight are refusals with the numbers 1 to 8, in this order; where
/// one carries a number, it is that of the record at fault, the header being record 1. The numbers and the order
/// in which the causes are judged are this project's own.
#[derive(Clone, Copy, Debug, PartialEq, Eq, Error)]
pub enum TraceError {
    /// A record behind the header has not two fields.
    #[error("record {0} has not two fields")]
    BadCsv(u32),
    /// There is no record, or the first is not `time_us` and `signal`.
    #[error("the header is not time_us,signal")]
    BadHeader,
    /// A field is no number: no optional `-` and 1 to 12 digits.
    #[error("a field of record {0} is no number")]
    NotNumber(u32),
    /// A time is not the one that the period gives, or the second time is 0.
    #[error("the time of record {0} is not the expected one")]
    Uneven(u32),
    /// There are fewer than two samples.
    #[error("there are fewer than two samples")]
    TooShort,
    /// There are more than 400,000 samples.
    #[error("there are more than 400000 samples")]
    TooLong,
    /// A time is below 0 or above 14,400,000,000 microseconds, or a sample is below -100,000,000 or above
    /// 100,000,000.
    #[error("a number of record {0} is out of range")]
    OutOfRange(u32),
    /// The period is 0, or the last sample would be later than 14,400,000,000 microseconds.
    #[error("the period is 0 or too long")]
    BadPeriod,
    /// Memory is wanting. This is no refusal and has no number.
    #[error("out of memory")]
    NoMemory,
}

impl TraceError {
    ghost use Rattle.std.specs.Prelude.{◌≡◌};
    ghost use Rattle.cds_trace.specs.Refusal.{number_of_refusal, record_of_refusal};

    /// The number of the refusal, 1 to 8; None for want of memory.
    pub fn number(&self) -> Option<u8>
        ensures { result ≡ number_of_refusal self.now }
    {
        match self {
            TraceError::BadCsv(_) => Some(1),
            TraceError::BadHeader => Some(2),
            TraceError::NotNumber(_) => Some(3),
            TraceError::Uneven(_) => Some(4),
            TraceError::TooShort => Some(5),
            TraceError::TooLong => Some(6),
            TraceError::OutOfRange(_) => Some(7),
            TraceError::BadPeriod => Some(8),
            TraceError::NoMemory => None,
        }
    }

    /// The number of the record at fault, the header being record 1; None where the refusal has no record.
    pub fn record(&self) -> Option<u32>
        ensures { result ≡ record_of_refusal self.now }
    {
        match self {
            TraceError::BadCsv(record)
            | TraceError::NotNumber(record)
            | TraceError::Uneven(record)
            | TraceError::OutOfRange(record) => Some(*record),
            _ => None,
        }
    }
}

ghost use Rattle.std.specs.Prelude.{◌≡◌};
ghost use Rattle.cds_trace.specs.declared.error.TraceError.TheVariants.{NoMemory};

impl From<AllocError> for TraceError {
    ghost from_gives = { λ _ e. e ≡ NoMemory };

    fn from(_error: AllocError) -> TraceError {
        TraceError::NoMemory
    }
}

impl<T: Drop> From<AllocFailed<T>> for TraceError {
    ghost from_gives = { λ _ e. e ≡ NoMemory };

    fn from(_failed: AllocFailed<T>) -> TraceError {
        TraceError::NoMemory
    }
}
