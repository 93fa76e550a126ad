use thiserror::Error;

/// A call to the outside did not succeed, and the object's count of faults rose in it.
#[derive(Clone, Copy, Debug, PartialEq, Eq, Error)]
#[error("the device failed")]
pub struct Failed;
