use cds_base::Name;
use cds_sign::Sequence;

/// What a change makes other in what bindings are resolved by.
#[derive(Debug, Drop)]
pub(crate) enum Over {
    /// Nothing.
    Nothing,
    /// The trace of this name has one more version.
    Trace(Name),
    /// The method of this name has one more version.
    Method(Name),
    /// Under this name stands this sequence.
    Sequence(Name, Sequence),
}
