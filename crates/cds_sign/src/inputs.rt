//! What the results of a sequence rest on.
ghost use Rattle.std.specs.Prelude.{◌≡◌, Decides, length, option_copied, slice_get};

use crate::amounts::AmountList;
use crate::row::RowList;
use crate::same::{Same, are_same};
use cds_base::{EventList, Name};
use std::marker::Model;

/// The inputs of a sequence: all that its results are computed from. Each version is the number of one, never 0 for
/// the latest, so equal inputs give equal results, whatever was put since.
#[derive(Debug, Drop)]
pub struct Inputs {
    /// The method of the sequence.
    pub method: Name,
    /// The version of the method, counted from 1.
    pub version: u32,
    /// All rows of the sequence, each with the version of its trace, counted from 1.
    pub rows: RowList,
    /// The listed sequences, in the order in which they are listed.
    pub standards: ListedList,
}

/// A listed sequence, as far as it calibrates another one.
#[derive(Debug, Drop)]
pub struct Listed {
    pub sequence: Name,
    /// The method of the listed sequence, by which its own standards are evaluated.
    pub method: Name,
    /// The version of that method, counted from 1.
    pub version: u32,
    /// Its standard rows in their order, used or not.
    pub rows: ListedRowList,
}

/// A standard row of a listed sequence.
#[derive(Debug, Drop)]
pub struct ListedRow {
    /// The trace that was recorded.
    pub trace: Name,
    /// The version of the trace, counted from 1.
    pub version: u32,
    /// Whether the row gives points of the calibration.
    pub used: bool,
    /// The amounts that it states.
    pub amounts: AmountList,
    /// Its manual events.
    pub events: EventList,
}

impl Inputs {
    /// Whether two inputs are the same: the method with its version, each row whole and in its place, and each listed
    /// sequence with its standard rows, all with their versions, used flags, amounts and events in their order.
    pub fn same(&self, other: &Inputs) -> bool
        ensures { Decides result (self.now ≡ other.now) }
    {
        self.method == other.method
            && self.version == other.version
            && self.rows.same(&other.rows)
            && self.standards.same(&other.standards)
    }
}

impl Same for Listed {
    fn same(&self, other: &Listed) -> bool {
        self.sequence == other.sequence
            && self.method == other.method
            && self.version == other.version
            && self.rows.same(&other.rows)
    }
}

impl Same for ListedRow {
    fn same(&self, other: &ListedRow) -> bool {
        self.trace == other.trace
            && self.version == other.version
            && self.used == other.used
            && self.amounts.same(&other.amounts)
            && self.events.same(&other.events)
    }
}

/// Listed sequences in their order. Seen as a list.
#[derive(Debug, Drop)]
pub struct ListedList {
    items: Vec<Listed>,
}

impl Model for ListedList {
    ghost use Rattle.std.specs.Prelude.{List};
    ghost use Rattle.cds_sign.specs.declared.inputs.Listed.{Listed};

    ghost Value = { List Listed };

    ghost view = { λ a. a.items.items };
}

impl ListedList {
    /// The list of these items. It takes no memory.
    pub fn from_vec(items: Vec<Listed>) -> ListedList
        ensures { result ≡ items.items }
    {
        ListedList { items }
    }

    /// The listed sequences in their order.
    pub fn as_slice(&self) -> &[Listed]
        ensures { result.now ≡ self.now }
    {
        self.items.as_slice()
    }

    /// How many listed sequences there are.
    pub fn len(&self) -> usize
        ensures { result ≡ length self.now }
    {
        self.items.len()
    }

    /// The listed sequence at a place, counted from 0. None exactly where there are not so many.
    pub fn get(&self, i: usize) -> Option<&Listed>
        ensures { option_copied result ≡ slice_get self.now i }
    {
        self.items.get(i)
    }

    /// Whether two lists have the same listed sequences in the same order.
    pub fn same(&self, other: &ListedList) -> bool
        ensures { Decides result (self.now ≡ other.now) }
    {
        are_same(self.as_slice(), other.as_slice())
    }
}

/// The standard rows of a listed sequence in their order. Seen as a list.
#[derive(Debug, Drop)]
pub struct ListedRowList {
    items: Vec<ListedRow>,
}

impl Model for ListedRowList {
    ghost use Rattle.std.specs.Prelude.{List};
    ghost use Rattle.cds_sign.specs.declared.inputs.ListedRow.{ListedRow};

    ghost Value = { List ListedRow };

    ghost view = { λ a. a.items.items };
}

impl ListedRowList {
    /// The list of these items. It takes no memory.
    pub fn from_vec(items: Vec<ListedRow>) -> ListedRowList
        ensures { result ≡ items.items }
    {
        ListedRowList { items }
    }

    /// The rows in their order.
    pub fn as_slice(&self) -> &[ListedRow]
        ensures { result.now ≡ self.now }
    {
        self.items.as_slice()
    }

    /// How many rows there are.
    pub fn len(&self) -> usize
        ensures { result ≡ length self.now }
    {
        self.items.len()
    }

    /// The row at a place, counted from 0. None exactly where there are not so many.
    pub fn get(&self, i: usize) -> Option<&ListedRow>
        ensures { option_copied result ≡ slice_get self.now i }
    {
        self.items.get(i)
    }

    /// Whether two lists have the same rows in the same order.
    pub fn same(&self, other: &ListedRowList) -> bool
        ensures { Decides result (self.now ≡ other.now) }
    {
        are_same(self.as_slice(), other.as_slice())
    }
}
