//! Names in their order.
ghost use Rattle.std.specs.Prelude.{◌≡◌, Decides, IfOk, length, option_copied, slice_get};

use crate::same::{Same, are_same};
use cds_base::{Name, NoMemory};
use std::marker::Model;

/// Names in their order, as those of the sequences that a sequence lists. Seen as a list.
#[derive(Debug, Drop)]
pub struct NameList {
    items: Vec<Name>,
}

impl Model for NameList {
    ghost use Rattle.std.specs.Prelude.{List, ℕ};

    ghost Value = { List (List ℕ) };

    ghost view = { λ a. a.items.items };
}

impl NameList {
    /// The list of these items. It takes no memory.
    pub fn from_vec(items: Vec<Name>) -> NameList
        ensures { result ≡ items.items }
    {
        NameList { items }
    }

    /// The names in their order.
    pub fn as_slice(&self) -> &[Name]
        ensures { result.now ≡ self.now }
    {
        self.items.as_slice()
    }

    /// How many names there are.
    pub fn len(&self) -> usize
        ensures { result ≡ length self.now }
    {
        self.items.len()
    }

    /// The name at a place, counted from 0. None exactly where there are not so many.
    pub fn get(&self, i: usize) -> Option<&Name>
        ensures { option_copied result ≡ slice_get self.now i }
    {
        self.items.get(i)
    }

    /// Whether two lists have the same names in the same order.
    pub fn same(&self, other: &NameList) -> bool
        ensures { Decides result (self.now ≡ other.now) }
    {
        are_same(self.as_slice(), other.as_slice())
    }

    /// An equal list with memory of its own.
    pub fn copy(&self) -> Result<NameList, NoMemory>
        ensures { IfOk result (λ copy. copy ≡ self.now) }
    {
        let alloc = *self.items.allocator();
        Ok(NameList {
            items: Vec::from_slice(alloc, &self.items)?,
        })
    }
}

impl Same for Name {
    fn same(&self, other: &Name) -> bool {
        self == other
    }
}
