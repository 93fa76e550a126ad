//! What a request is answered in JSON, before it is written as text.
use cds_base::Text;

/// What a request is answered in JSON.
#[derive(Debug, Drop)]
pub enum Answer {
    /// A trace was put: its number of samples, whether nothing changed, and the version made, or the latest one where
    /// nothing changed.
    Trace {
        samples: u32,
        unchanged: bool,
        version: u32,
    },
    /// A draft was put: whether nothing changed.
    Draft {
        unchanged: bool,
    },
    /// A draft was frozen: whether nothing changed, and the version made, or the latest one where nothing changed.
    Freeze {
        unchanged: bool,
        version: u32,
    },
    /// A sequence was put or changed: its basis and its edition as they are now, and whether nothing changed.
    Sequence {
        basis: u64,
        edition: u64,
        unchanged: bool,
    },
    /// The results of a sequence were signed: the basis and the number of the signature, when it was signed, as the
    /// date of an HTTP message, and whether nothing changed.
    Sign {
        basis: u64,
        number: u32,
        signed: Text,
        unchanged: bool,
    },
    /// A refusal: its word, its number, and what it shows.
    Refusal {
        error: Text,
        number: u32,
        value: Shown,
    },
}

/// What a refusal shows.
#[derive(Debug, Drop)]
pub enum Shown {
    /// A place, a limit, a number of a record or of a version.
    Number(u64),
    /// A name, a path or a method.
    Word(Text),
}
