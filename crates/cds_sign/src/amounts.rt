//! The amounts that a standard states.
ghost use Rattle.std.specs.Prelude.{◌≡◌, Decides, IfOk, length, option_copied, slice_get};

use crate::same::{Same, are_same};
use cds_base::{Name, NoMemory};
use std::marker::Model;

/// The amounts that a standard states, each of the component of its name. Their unit is the user's own; it is the unit in
/// which the amounts of samples are told. Seen as a list.
#[derive(Debug, Drop)]
pub struct AmountList {
    items: Vec<(Name, u32)>,
}

impl Model for AmountList {
    ghost use Rattle.std.specs.Prelude.{List, ℕ};

    ghost Value = { List (List ℕ × ℕ) };

    ghost view = { λ a. a.items.items };
}

impl AmountList {
    /// The list of these items. It takes no memory.
    pub fn from_vec(items: Vec<(Name, u32)>) -> AmountList
        ensures { result ≡ items.items }
    {
        AmountList { items }
    }

    /// The amounts in their order.
    pub fn as_slice(&self) -> &[(Name, u32)]
        ensures { result.now ≡ self.now }
    {
        self.items.as_slice()
    }

    /// How many amounts there are.
    pub fn len(&self) -> usize
        ensures { result ≡ length self.now }
    {
        self.items.len()
    }

    /// The amount at a place, counted from 0. None exactly where there are not so many.
    pub fn get(&self, i: usize) -> Option<&(Name, u32)>
        ensures { option_copied result ≡ slice_get self.now i }
    {
        self.items.get(i)
    }

    /// Whether two lists have the same amounts in the same order.
    pub fn same(&self, other: &AmountList) -> bool
        ensures { Decides result (self.now ≡ other.now) }
    {
        are_same(self.as_slice(), other.as_slice())
    }

    /// An equal list with memory of its own.
    pub fn copy(&self) -> Result<AmountList, NoMemory>
        ensures { IfOk result (λ copy. copy ≡ self.now) }
    {
        let alloc = *self.items.allocator();
        Ok(AmountList {
            items: Vec::from_slice(alloc, &self.items)?,
        })
    }
}

impl Same for (Name, u32) {
    fn same(&self, other: &(Name, u32)) -> bool {
        self.0 == other.0 && self.1 == other.1
    }
}
