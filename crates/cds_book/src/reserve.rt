//! Room is taken for changes, before they are carried out.
ghost use Rattle.std.specs.Prelude.{◌≡◌, ◌≤◌, Some, None, OnOk, OnErr, IsSome, IfOk, option_map, ◌+◌, if◌then◌else◌};
ghost use Rattle.cds_sign.specs.declared.limits.TheConstants.{MOST_BASIS};
ghost use Rattle.cds_book.specs.Inputs.{bindings_of, inputs_in};
ghost use Rattle.cds_book.specs.Plan.{room_of, made_room, sequence_made, signature, Accepts};
ghost use Rattle.cds_book.specs.Raising.{Makes};
ghost use Rattle.cds_book.specs.Tables.{trace_room, draft_room, freeze_room, sign_room, draft_of, sequence_of};

use crate::over::Over;
use crate::plan_sequence::copy_text;
use crate::raise::one_if;
use crate::room::Taken;
use crate::tables::Tables;
use cds_base::{Bytes, Name, NoMemory, Place, Text};
use cds_sign::{Change, Sequence, Signed};

impl Tables {
    /// Takes the memory that `apply` of this change needs, in place of that of an earlier call, and finds the sequences
    /// whose inputs it makes others. The change must be one that `plan` answers on these tables. The only refusal is
    /// want of memory; then no room is taken. What the tables hold stays.
    #[tactic(auto, unfolding(crate::specs::Plan::room_of))]
    pub fn reserve(&mut self, change: &Change) -> Result<(), NoMemory>
        requires { Accepts self.old.state change.now }
        ensures state { self.new.state ≡ self.old.state }
        ensures ok { OnOk result (self.new.room ≡ room_of self.old.state change.now) }
        ensures err { OnErr result (self.new.room ≡ None) }
    {
        self.room = None;
        match change {
            Change::Trace { name, .. } => {
                let rises = self.rises(change)?;
                self.reserve_version(*name, rises)
            }
            Change::Draft { name, .. } => self.reserve_draft(*name),
            Change::Freeze { name, .. } => {
                let rises = self.rises(change)?;
                self.reserve_freeze(*name, rises)
            }
            Change::Sequence { name, .. } => self.reserve_sequence(*name, change),
            Change::Events { name, .. } => self.reserve_sequence(*name, change),
            Change::Rebind { name, .. } => self.reserve_sequence(*name, change),
            Change::Sign {
                sequence,
                number,
                basis,
                moment,
                name,
                meaning,
                text,
            } => {
                let signed = self.signed_now(
                    *sequence, *number, *basis, *moment, name, meaning, text,
                )?;
                self.reserve_signed(*sequence, signed)
            }
        }
    }

    // Takes the room for a sequence as a change makes it. It is made once.
    fn reserve_sequence(&mut self, name: Name, change: &Change) -> Result<(), NoMemory>
        requires none { self.old.room ≡ None }
        requires made { IsSome (sequence_made self.old.state change.now) }
        requires makes { Makes name change.now }
        ensures state { self.new.state ≡ self.old.state }
        ensures ok { OnOk result (self.new.room
            ≡ made_room self.old.state change.now name (sequence_made self.old.state change.now)) }
        ensures err { OnErr result (self.new.room ≡ None) }
    {
        self.rules();
        let Some(made) = self.made(change)? else {
            unreachable!()
        };
        let over = Over::Sequence(name, made);
        let rises = self.rises_over(change, &over)?;
        let differs = self.differs(change, &over, name)?;
        let Over::Sequence(_, made) = over else {
            unreachable!()
        };
        let made = with_basis(made, differs);
        self.sequences.entries.reserve(1)?;
        self.room = Some(Taken::Sequence { name, made, rises });
        Ok(())
    }

    // A signature of a sequence over its inputs as they are now.
    #[tactic(auto, unfolding(crate::specs::Held::bindings_over, crate::specs::Inputs::inputs_by))]
    fn signed_now(
        &self,
        sequence: Name,
        number: u32,
        basis: u64,
        moment: u64,
        name: &Text,
        meaning: &Text,
        text: &Bytes,
    ) -> Result<Signed, NoMemory>
        requires there { IsSome (sequence_of self.now.state sequence) }
        ensures { IfOk result (λ signed. Some signed ≡ option_map
            (λ s. signature number basis moment name.now meaning.now text.now
            (inputs_in (bindings_of self.now.state) s))
            (sequence_of self.now.state sequence)) }
    {
        let Some(inputs) = self.inputs_over(&Over::Nothing, sequence)? else {
            unreachable!()
        };
        let alloc = *self.sequences.entries.allocator();
        let name = copy_text(alloc, name)?;
        let meaning = copy_text(alloc, meaning)?;
        let text = Bytes::from_vec(Vec::from_slice(alloc, text.as_slice())?);
        Ok(Signed {
            number,
            basis,
            moment,
            name,
            meaning,
            inputs,
            text,
        })
    }

    // Takes the room for one more signature of a sequence.
    fn reserve_signed(&mut self, sequence: Name, signed: Signed) -> Result<(), NoMemory>
        requires none { self.old.room ≡ None }
        requires there { IsSome (sequence_of self.old.state sequence) }
        ensures state { self.new.state ≡ self.old.state }
        ensures ok { OnOk result (self.new.room ≡ Some (sign_room sequence signed)) }
        ensures err { OnErr result (self.new.room ≡ None) }
    {
        let Place::At(at) = self.sequences.place(sequence) else {
            unreachable!()
        };
        self.sequences.entries[at].value.signed.reserve(1)?;
        self.room = Some(Taken::Sign {
            name: sequence,
            at,
            signed,
        });
        Ok(())
    }

    // Takes the room for one more version of a trace.
    fn reserve_version(&mut self, name: Name, rises: Vec<bool>) -> Result<(), NoMemory>
        requires { self.old.room ≡ None }
        ensures state { self.new.state ≡ self.old.state }
        ensures ok { OnOk result (self.new.room ≡ Some (trace_room name rises.items)) }
        ensures err { OnErr result (self.new.room ≡ None) }
    {
        match self.traces.reserve(name)? {
            Place::At(at) => {
                self.traces.entries[at].value.reserve(1)?;
                self.room = Some(Taken::Version { name, at, rises });
                Ok(())
            }
            Place::Gap(at) => {
                let versions = Vec::with_capacity(*self.traces.entries.allocator(), 1)?;
                self.room = Some(Taken::Traces {
                    name,
                    at,
                    versions,
                    rises,
                });
                Ok(())
            }
        }
    }

    // Takes the room for a draft of a method.
    fn reserve_draft(&mut self, name: Name) -> Result<(), NoMemory>
        requires { self.old.room ≡ None }
        ensures state { self.new.state ≡ self.old.state }
        ensures ok { OnOk result (self.new.room ≡ Some (draft_room name)) }
        ensures err { OnErr result (self.new.room ≡ None) }
    {
        let taken = match self.methods.reserve(name)? {
            Place::At(at) => Taken::Draft { name, at },
            Place::Gap(at) => Taken::Method { name, at },
        };
        self.room = Some(taken);
        Ok(())
    }

    // Takes the room for one more version of a method, and copies its draft.
    fn reserve_freeze(&mut self, name: Name, rises: Vec<bool>) -> Result<(), NoMemory>
        requires none { self.old.room ≡ None }
        requires method { IsSome (draft_of self.old.state name) }
        ensures state { self.new.state ≡ self.old.state }
        ensures ok { OnOk result (self.new.room ≡ Some (freeze_room name rises.items)) }
        ensures err { OnErr result (self.new.room ≡ None) }
    {
        let Place::At(at) = self.methods.place(name) else {
            unreachable!()
        };
        let alloc = *self.methods.entries.allocator();
        let texts = &mut self.methods.entries[at].value;
        let text = Vec::from_slice(alloc, texts.draft.as_slice())?;
        texts.versions.reserve(1)?;
        self.room = Some(Taken::Freeze {
            name,
            at,
            text: Bytes::from_vec(text),
            rises,
        });
        Ok(())
    }
}

// A sequence whose basis rises by one where it is so.
fn with_basis(mut made: Sequence, rises: bool) -> Sequence
    requires small { made.basis ≤ MOST_BASIS }
    ensures { result ≡ record made { basis = made.basis + (if rises then 1 else 0) } }
{
    made.basis += one_if(rises);
    made
}
