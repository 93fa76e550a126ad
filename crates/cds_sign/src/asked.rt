//! The rows that a sequence is asked to have, before their amounts are judged.
ghost use Rattle.std.specs.Prelude.{◌≡◌, length, option_copied, slice_get};

use crate::row::RowKind;
use cds_base::{EventList, Name};
use std::marker::Model;

/// A row that a sequence is asked to have. Its fields are those of a row, but its amounts may be any whole numbers of
/// 64 bits and stand on a row of any kind: whether they are amounts at all is judged with the tables.
#[derive(Debug, Drop)]
pub struct AskedRow {
    /// What the row is to be called in its sequence.
    pub label: Name,
    pub kind: RowKind,
    /// The trace that was recorded.
    pub trace: Name,
    /// The version of the trace, counted from 1, or 0 for the latest one.
    pub version: u32,
    /// Whether a standard gives points of the calibration. It says nothing of the other kinds.
    pub used: bool,
    /// The numerator of the dilution, 1 to 1,000,000.
    pub u: u32,
    /// The denominator of the dilution, 1 to 1,000,000.
    pub v: u32,
    /// The amounts as they are asked, at most 32, in byte order of their names.
    pub amounts: AskedAmountList,
    /// The manual events, at most 64.
    pub events: EventList,
}

/// Asked rows in their order. They are numbered from 1. Seen as a list.
#[derive(Debug, Drop)]
pub struct AskedRowList {
    items: Vec<AskedRow>,
}

impl Model for AskedRowList {
    ghost use Rattle.std.specs.Prelude.{List};
    ghost use Rattle.cds_sign.specs.declared.asked.AskedRow.{AskedRow};

    ghost Value = { List AskedRow };

    ghost view = { λ a. a.items.items };
}

impl AskedRowList {
    /// The list of these items. It takes no memory.
    pub fn from_vec(items: Vec<AskedRow>) -> AskedRowList
        ensures { result ≡ items.items }
    {
        AskedRowList { items }
    }

    /// The rows in their order.
    pub fn as_slice(&self) -> &[AskedRow]
        ensures { result.now ≡ self.now }
    {
        self.items.as_slice()
    }

    /// How many rows there are.
    pub fn len(&self) -> usize
        ensures { result ≡ length self.now }
    {
        self.items.len()
    }

    /// The row at a place, counted from 0. None exactly where there are not so many.
    pub fn get(&self, i: usize) -> Option<&AskedRow>
        ensures { option_copied result ≡ slice_get self.now i }
    {
        self.items.get(i)
    }
}

/// Amounts as they are asked, each of the component of its name. Seen as a list.
#[derive(Debug, Drop)]
pub struct AskedAmountList {
    items: Vec<(Name, i64)>,
}

impl Model for AskedAmountList {
    ghost use Rattle.std.specs.Prelude.{List, ℕ, ℤ};

    ghost Value = { List (List ℕ × ℤ) };

    ghost view = { λ a. a.items.items };
}

impl AskedAmountList {
    /// The list of these items. It takes no memory.
    pub fn from_vec(items: Vec<(Name, i64)>) -> AskedAmountList
        ensures { result ≡ items.items }
    {
        AskedAmountList { items }
    }

    /// The amounts in their order.
    pub fn as_slice(&self) -> &[(Name, i64)]
        ensures { result.now ≡ self.now }
    {
        self.items.as_slice()
    }

    /// How many amounts there are.
    pub fn len(&self) -> usize
        ensures { result ≡ length self.now }
    {
        self.items.len()
    }

    /// The amount at a place, counted from 0. None exactly where there are not so many.
    pub fn get(&self, i: usize) -> Option<&(Name, i64)>
        ensures { option_copied result ≡ slice_get self.now i }
    {
        self.items.get(i)
    }
}
