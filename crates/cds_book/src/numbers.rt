//! The edition and the basis that a change gives its sequence.
ghost use Rattle.std.specs.Prelude.{◌≡◌, Some, IfOk, option_map};
ghost use Rattle.cds_book.specs.Numbers.{numbers_of};
ghost use Rattle.cds_book.specs.Plan.{applied, sequence_changed, Accepts};
ghost use Rattle.cds_book.specs.Tables.{sequence_of};

use crate::raise::one_if;
use crate::tables::Tables;
use cds_base::{Name, NoMemory};
use cds_sign::Change;

/// The numbers of a sequence that change with it.
#[derive(Clone, Copy, Debug, PartialEq, Eq)]
pub struct SequenceNumbers {
    /// How often the sequence was put or changed.
    pub edition: u64,
    /// How often its inputs became others, counted from 1.
    pub basis: u64,
}

impl Tables {
    /// The numbers that the sequence of a change has once the change is carried out. The change must be one that `plan`
    /// answers on these tables, and must be one of this sequence. The tables stay as they are. The only refusal is want
    /// of memory.
    pub fn numbers_after(&self, change: &Change, name: Name) -> Result<SequenceNumbers, NoMemory>
        requires accepted { Accepts self.now.state change.now }
        requires own { sequence_changed change.now ≡ Some name }
        ensures { IfOk result (λ numbers.
            option_map numbers_of (sequence_of (applied self.now.state change.now) name) ≡ Some numbers) }
    {
        self.rules();
        let differs = self.inputs_differ(change, name)?;
        Ok(SequenceNumbers {
            edition: self.next_edition(name),
            basis: self.basis(name) + one_if(differs),
        })
    }
}
