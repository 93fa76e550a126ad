use cds_base::{Bytes, Name};
use cds_sign::{Sequence, Signed};
use cds_trace::Trace;

/// The room that was taken for a change of the thing of this name, the place in byte order of the names to which the
/// change goes, and for each sequence in their order whether its basis rises.
#[derive(Debug, Drop)]
pub(crate) enum Taken {
    /// For one more version of a trace.
    Version {
        name: Name,
        at: usize,
        rises: Vec<bool>,
    },
    /// For a new trace name, with the list that its first version goes into.
    Traces {
        name: Name,
        at: usize,
        versions: Vec<Trace>,
        rises: Vec<bool>,
    },
    /// For another draft of a method. It needs none.
    Draft {
        name: Name,
        at: usize,
    },
    /// For a new method.
    Method {
        name: Name,
        at: usize,
    },
    /// For one more version of a method, with a copy of its draft.
    Freeze {
        name: Name,
        at: usize,
        text: Bytes,
        rises: Vec<bool>,
    },
    /// For a sequence as the change makes it, with its new basis.
    Sequence {
        name: Name,
        made: Sequence,
        rises: Vec<bool>,
    },
    /// For one more signature of a sequence.
    Sign {
        name: Name,
        at: usize,
        signed: Signed,
    },
}
