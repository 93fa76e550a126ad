//! Which bases rise: those of the sequences whose inputs a change makes other.
ghost use Rattle.std.specs.Prelude.{◌≡◌, ◌<◌, Some, length, slice_get, option_map, IfOk};
ghost use Rattle.cds_book.specs.Held.{bindings_over};
ghost use Rattle.cds_book.specs.Inputs.{bindings_of, inputs_by, inputs_of};
ghost use Rattle.cds_book.specs.Plan.{are_others, carried, inputs_differ, rises_of, sequence_made, with_changed, with_frozen};
ghost use Rattle.cds_book.specs.Same.{same_inputs};
ghost use Rattle.cds_book.specs.Tables.{NamedSequence, draft_of};

use crate::over::Over;
use crate::tables::Tables;
use cds_base::{Name, NoMemory};
use cds_sign::{Change, Inputs};

impl Tables {
    /// Whether a change makes the inputs of a sequence others: true exactly where the sequence is there and its inputs
    /// now differ from those after the change, so that its basis rises by one. The tables stay as they are. The only
    /// refusal is want of memory.
    pub fn inputs_differ(&self, change: &Change, name: Name) -> Result<bool, NoMemory>
        ensures { IfOk result (λ r. r ≡ inputs_differ self.now.state (carried self.now.state change.now) name) }
    {
        let over = self.over(change)?;
        self.differs(change, &over, name)
    }

    // For each sequence in their order whether a change raises its basis.
    pub(crate) fn rises(&self, change: &Change) -> Result<Vec<bool>, NoMemory>
        ensures { IfOk result (λ v. v.items ≡ rises_of self.now.state change.now) }
    {
        let over = self.over(change)?;
        self.rises_over(change, &over)
    }

    // For each sequence in their order whether a change, which makes this other, raises its basis.
    pub(crate) fn rises_over(&self, change: &Change, over: &Over) -> Result<Vec<bool>, NoMemory>
        requires { bindings_over self.now.state over.now ≡ bindings_of (carried self.now.state change.now) }
        ensures { IfOk result (λ v. v.items ≡ rises_of self.now.state change.now) }
    {
        let mut rises = Vec::new(*self.sequences.entries.allocator());
        for place in 0..self.sequence_count() {
            let differs = self.differs(change, over, self.name_at(place))?;
            rises.push(differs)?;
        }
        Ok(rises)
    }

    // The name of the sequence at a place.
    fn name_at(&self, place: usize) -> Name
        requires within { place < length self.now.state.sequences }
        ensures { option_map (λ (e : NamedSequence). e.name) (slice_get self.now.state.sequences place) ≡ Some result }
    {
        self.sequences.entries[place].name
    }

    // What a change makes other.
    pub(crate) fn over(&self, change: &Change) -> Result<Over, NoMemory>
        ensures { IfOk result (λ over.
            bindings_over self.now.state over ≡ bindings_of (carried self.now.state change.now)) }
    {
        match change {
            Change::Trace { name, .. } => Ok(Over::Trace(*name)),
            Change::Draft { .. } => Ok(Over::Nothing),
            Change::Freeze { name, .. } => Ok(self.over_freeze(*name)),
            Change::Sequence { name, .. } => self.over_made(*name, change),
            Change::Events { name, .. } => self.over_made(*name, change),
            Change::Rebind { name, .. } => self.over_made(*name, change),
            Change::Sign { .. } => Ok(Over::Nothing),
        }
    }

    // What a freeze makes other.
    fn over_freeze(&self, name: Name) -> Over
        ensures { bindings_over self.now.state result
            ≡ bindings_of (with_frozen self.now.state name (draft_of self.now.state name)) }
    {
        if self.has_draft(name) {
            Over::Method(name)
        } else {
            Over::Nothing
        }
    }

    // What a change that makes a sequence of this name makes other.
    fn over_made(&self, name: Name, change: &Change) -> Result<Over, NoMemory>
        ensures { IfOk result (λ over. bindings_over self.now.state over
            ≡ bindings_of (with_changed self.now.state name (sequence_made self.now.state change.now))) }
    {
        let Some(made) = self.made(change)? else {
            return Ok(Over::Nothing);
        };
        Ok(Over::Sequence(name, made))
    }

    // Whether the inputs of a sequence that is there become others by a change, which makes this other. They are built
    // only where the change reaches the sequence.
    pub(crate) fn differs(&self, change: &Change, over: &Over, name: Name) -> Result<bool, NoMemory>
        requires { bindings_over self.now.state over.now ≡ bindings_of (carried self.now.state change.now) }
        ensures { IfOk result (λ r. r ≡ inputs_differ self.now.state (carried self.now.state change.now) name) }
    {
        if self.is_reached(change, name) {
            return self.compare(over, name);
        }
        Ok(false)
    }

    // Whether the inputs of a sequence that is there and those once this is made other differ.
    #[tactic(auto, unfolding(crate::specs::Held::bindings_over))]
    fn compare(&self, over: &Over, name: Name) -> Result<bool, NoMemory>
        ensures { IfOk result (λ r. r
            ≡ are_others (inputs_of self.now.state name) (inputs_by (bindings_over self.now.state over.now) name)) }
    {
        let before = self.inputs_over(&Over::Nothing, name)?;
        let after = self.inputs_over(over, name)?;
        Ok(are_others(&before, &after))
    }
}

// Whether inputs that were there are now others.
fn are_others(before: &Option<Inputs>, after: &Option<Inputs>) -> bool
    ensures { result ≡ are_others before.now after.now }
{
    match (before, after) {
        (Some(before), Some(after)) => !same_inputs(before, after),
        _ => false,
    }
}

// Whether two inputs are equal.
fn same_inputs(these: &Inputs, those: &Inputs) -> bool
    ensures { result ≡ same_inputs these.now those.now }
{
    these.same(those)
}
