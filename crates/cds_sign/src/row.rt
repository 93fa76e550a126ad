//! The rows of a sequence.
ghost use Rattle.std.specs.Prelude.{◌≡◌, Decides, IfOk, length, option_copied, slice_get};

use crate::amounts::AmountList;
use crate::same::{Same, are_same};
use cds_base::{EventList, Name, NoMemory};
use std::alloc::Global;
use std::marker::Model;

/// What a row of a sequence is injected for.
#[derive(Clone, Copy, Debug, PartialEq, Eq)]
pub enum RowKind {
    /// Nothing but solvent: its noise is what signals are compared with.
    Blank,
    /// A solution of known amounts, which gives points of the calibration.
    Standard,
    /// One of several injections of one solution, whose spread tells whether the system is suitable.
    Replicate,
    /// A solution whose amounts are to be found.
    Sample,
}

/// A row of a sequence: one injection.
#[derive(Debug, Drop)]
pub struct Row {
    /// What the row is called in its sequence.
    pub label: Name,
    pub kind: RowKind,
    /// The trace that was recorded.
    pub trace: Name,
    /// The version of the trace, counted from 1. In a sequence 0 stands for the latest one.
    pub version: u32,
    /// Whether a standard gives points of the calibration. It says nothing of the other kinds.
    pub used: bool,
    /// The numerator of the dilution, 1 to 1,000,000: what is found is multiplied by `u / v`.
    pub u: u32,
    /// The denominator of the dilution, 1 to 1,000,000.
    pub v: u32,
    /// The amounts that a standard states.
    pub amounts: AmountList,
    /// The manual events, at most 64.
    pub events: EventList,
}

impl Row {
    /// An equal row with memory of its own.
    pub fn copy(&self) -> Result<Row, NoMemory>
        ensures { IfOk result (λ copy. copy ≡ self.now) }
    {
        let amounts = self.amounts.copy()?;
        let events = self.events.copy()?;
        Ok(Row {
            label: self.label,
            kind: self.kind,
            trace: self.trace,
            version: self.version,
            used: self.used,
            u: self.u,
            v: self.v,
            amounts,
            events,
        })
    }
}

impl Same for Row {
    fn same(&self, other: &Row) -> bool {
        self.label == other.label
            && self.kind == other.kind
            && self.trace == other.trace
            && self.version == other.version
            && self.used == other.used
            && self.u == other.u
            && self.v == other.v
            && self.amounts.same(&other.amounts)
            && self.events.same(&other.events)
    }
}

/// The rows of a sequence in their order. They are numbered from 1. Seen as a list.
#[derive(Debug, Drop)]
pub struct RowList {
    items: Vec<Row>,
}

impl Model for RowList {
    ghost use Rattle.std.specs.Prelude.{List};
    ghost use Rattle.cds_sign.specs.declared.row.Row.{Row};

    ghost Value = { List Row };

    ghost view = { λ a. a.items.items };
}

impl RowList {
    /// The list of these items. It takes no memory.
    pub fn from_vec(items: Vec<Row>) -> RowList
        ensures { result ≡ items.items }
    {
        RowList { items }
    }

    /// The rows in their order.
    pub fn as_slice(&self) -> &[Row]
        ensures { result.now ≡ self.now }
    {
        self.items.as_slice()
    }

    /// How many rows there are.
    pub fn len(&self) -> usize
        ensures { result ≡ length self.now }
    {
        self.items.len()
    }

    /// The row at a place, counted from 0. None exactly where there are not so many.
    pub fn get(&self, i: usize) -> Option<&Row>
        ensures { option_copied result ≡ slice_get self.now i }
    {
        self.items.get(i)
    }

    /// Whether two lists have the same rows in the same order.
    pub fn same(&self, other: &RowList) -> bool
        ensures { Decides result (self.now ≡ other.now) }
    {
        are_same(self.as_slice(), other.as_slice())
    }

    /// An equal list with memory of its own.
    pub fn copy(&self) -> Result<RowList, NoMemory>
        ensures { IfOk result (λ copy. copy ≡ self.now) }
    {
        let items = copies_of(*self.items.allocator(), self.as_slice())?;
        Ok(RowList { items })
    }
}

/// Equal rows in the same order, with memory of their own. The only refusal is want of memory.
pub fn copies_of(alloc: Global, rows: &[Row]) -> Result<Vec<Row>, NoMemory>
    ensures { IfOk result (λ copies. copies.items ≡ rows.now) }
{
    let mut copies = Vec::new(alloc);
    for place in 0..rows.len() {
        let copy = rows[place].copy()?;
        copies.push(copy)?;
    }
    Ok(copies)
}
