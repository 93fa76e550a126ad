ghost use Rattle.std.specs.Prelude.{◌≡◌, None};
ghost use Rattle.cds_book.specs.Tables.{empty_tables};

use crate::entry::{MethodTexts, SignedSequence};
use crate::room::Taken;
use cds_base::NamedList;
use cds_trace::Trace;
use std::alloc::Global;
use std::marker::Model;

/// The tables: traces under their names in versions, and methods with a draft and frozen versions, all numbered
/// from 1, and sequences with their signatures. They hold texts as they were sent, the samples that they state, and no
/// result. Seen as what they hold, and as the room that was taken for a change. Whatever was done to them, they keep
/// their rules: names are names and rise in byte order, each trace is a trace and each text a method, each version
/// differs from the one before it, the parts of rows and signatures are in their ranges, signatures are numbered from
/// 1, editions and bases are counted from 1 and no basis is past the number of all changes, what sequences bind and
/// list is there, and no count passes its limit.
#[derive(Debug, Drop)]
pub struct Tables {
    /// The versions of each trace name.
    pub(crate) traces: NamedList<Vec<Trace>>,
    /// How many versions all trace names have together.
    pub(crate) trace_versions: u64,
    /// How many samples all versions have together.
    pub(crate) samples: u64,
    /// The texts of each method.
    pub(crate) methods: NamedList<MethodTexts>,
    /// How many versions all methods have together.
    pub(crate) method_versions: u64,
    /// The sequences with their signatures.
    pub(crate) sequences: NamedList<SignedSequence>,
    /// The room that `reserve` took last, if nothing was carried out since.
    pub(crate) room: Option<Taken>,
}

impl Model for Tables {
    ghost use Rattle.cds_book.specs.Tables.{TablesValue};

    ghost Value = { TablesValue };

    ghost use Rattle.cds_book.specs.Held.{tables_held, IsHeld};

    ghost view = { tables_held };

    ghost invariant = { IsHeld };
}

impl Tables {
    /// Tables that hold nothing. They take no memory.
    pub fn new(alloc: Global) -> Tables
        ensures { result ≡ record { state = empty_tables; room = None } }
    {
        Tables {
            traces: NamedList::new(alloc),
            trace_versions: 0,
            samples: 0,
            methods: NamedList::new(alloc),
            method_versions: 0,
            sequences: NamedList::new(alloc),
            room: None,
        }
    }
}
