//! What a user asks of the tables, and what changes them.
use crate::asked::AskedRowList;
use crate::names::NameList;
use crate::row::RowList;
use cds_base::{Bytes, EventList, Name, Text};
use cds_trace::Trace;

/// What a user asks of the tables. An edition is the one that the user saw, 0 for a new sequence.
#[derive(Debug, Drop)]
pub enum Command {
    /// Put a trace under a name. It becomes the next version of the name, unless it is equal to the latest one.
    Trace {
        name: Name,
        trace: Trace,
    },
    /// Put the draft of a method, which is a text that the reader of methods accepts, as it was sent.
    Draft {
        name: Name,
        text: Bytes,
    },
    /// Freeze the draft of a method as the version of this number, which must be the next one.
    Freeze {
        name: Name,
        version: u32,
    },
    /// Put a sequence: the version of its method, 0 for the latest one, the sequences that it lists, and its rows.
    Sequence {
        name: Name,
        edition: u64,
        method: Name,
        version: u32,
        standards: NameList,
        rows: AskedRowList,
    },
    /// Put the manual events of a row, which is numbered from 1.
    Events {
        name: Name,
        edition: u64,
        row: u32,
        events: EventList,
    },
    /// Bind a sequence to a version of its method, 0 for the latest one.
    Rebind {
        name: Name,
        edition: u64,
        version: u32,
    },
    /// Sign the results of a sequence as the signature of this number, which must be the next one, over this basis, which
    /// must be the kept one. The moment, in seconds since the beginning of 1970, and the text are the caller's.
    Sign {
        sequence: Name,
        number: u32,
        basis: u64,
        moment: u64,
        name: Text,
        meaning: Text,
        text: Bytes,
    },
}

/// What changes the tables: an accepted command. An edition is that of the sequence before the change, 0 for a new one.
#[derive(Debug, Drop)]
pub enum Change {
    /// The trace becomes the next version of the name.
    Trace {
        name: Name,
        trace: Trace,
    },
    /// The text becomes the draft of the method.
    Draft {
        name: Name,
        text: Bytes,
    },
    /// The draft of the method becomes its version of this number, counted from 1.
    Freeze {
        name: Name,
        version: u32,
    },
    /// The sequence has this method, bound to this version or to the latest by 0, lists these sequences and has these rows.
    Sequence {
        name: Name,
        edition: u64,
        method: Name,
        version: u32,
        standards: NameList,
        rows: RowList,
    },
    /// The row of this number, counted from 1, has these manual events.
    Events {
        name: Name,
        edition: u64,
        row: u32,
        events: EventList,
    },
    /// The sequence is bound to this version of its method, to the latest by 0.
    Rebind {
        name: Name,
        edition: u64,
        version: u32,
    },
    /// The results of the sequence are signed: the number of the signature, counted from 1, the basis, the moment in
    /// seconds since the beginning of 1970, who signs, what it means, and the text that is signed.
    Sign {
        sequence: Name,
        number: u32,
        basis: u64,
        moment: u64,
        name: Text,
        meaning: Text,
        text: Bytes,
    },
}
