//! Changes are carried out, in the room that was taken for them.
ghost use Rattle.std.specs.Prelude.{◌≡◌, Some, None};
ghost use Rattle.cds_book.specs.Plan.{applied, rises_of, room_of, Accepts};
ghost use Rattle.cds_book.specs.Raising.{Makes, Signs};
ghost use Rattle.cds_book.specs.Tables.{trace_room, draft_room, freeze_room};
ghost use Rattle.cds_sign.specs.declared.command.Change.TheVariants as change;

use crate::entry::MethodTexts;
use crate::raise::{put_under, raise, sign_at};
use crate::room::Taken;
use crate::tables::Tables;
use cds_base::{Bytes, Name, Place};
use cds_sign::Change;
use cds_trace::Trace;

impl Tables {
    /// Carries out a change that `plan` answers on these tables and for which `reserve` took room, with no other
    /// `reserve` or `apply` since. It can't fail, and takes no memory.
    #[tactic(auto, unfolding(crate::specs::Plan::room_of))]
    pub fn apply(&mut self, change: Change)
        requires accepted { Accepts self.old.state change }
        requires room { self.old.room ≡ room_of self.old.state change }
        ensures { self.new ≡ record { state = applied self.old.state change; room = None } }
    {
        match change {
            Change::Trace { name, trace } => self.put_trace(name, trace),
            Change::Draft { name, text } => self.put_draft(name, text),
            Change::Freeze { name, version } => self.freeze(name, version),
            Change::Sequence { name, .. } => self.put_made(name, change),
            Change::Events { name, .. } => self.put_made(name, change),
            Change::Rebind { name, .. } => self.put_made(name, change),
            Change::Sign { sequence, .. } => self.put_signature(sequence, change),
        }
    }

    // Puts a trace as the next version of its name.
    fn put_trace(&mut self, name: Name, trace: Trace)
        requires accepted { Accepts self.old.state (change.Trace name trace) }
        requires room { self.old.room ≡ Some (trace_room name (rises_of self.old.state (change.Trace name trace))) }
        ensures { self.new ≡ record { state = applied self.old.state (change.Trace name trace); room = None } }
    {
        self.trace_versions += 1;
        self.samples += u64::from(trace.len());
        match self.room.take() {
            Some(Taken::Version { at, rises, .. }) => {
                let Ok(()) = self.traces.entries[at].value.push(trace) else {
                    unreachable!()
                };
                raise(&mut self.sequences, rises.as_slice());
            }
            Some(
                Taken::Traces {
                    at,
                    mut versions,
                    rises,
                    ..
                },
            ) => {
                let Ok(()) = versions.push(trace) else {
                    unreachable!()
                };
                self.traces.put(Place::Gap(at), name, versions);
                raise(&mut self.sequences, rises.as_slice());
            }
            _ => unreachable!(),
        }
    }

    // Puts the draft of a method.
    fn put_draft(&mut self, name: Name, text: Bytes)
        requires accepted { Accepts self.old.state (change.Draft name text) }
        requires room { self.old.room ≡ Some (draft_room name) }
        ensures { self.new ≡ record { state = applied self.old.state (change.Draft name text); room = None } }
    {
        match self.room.take() {
            Some(Taken::Draft { at, .. }) => self.methods.entries[at].value.draft = text,
            Some(Taken::Method { at, .. }) => {
                let texts = MethodTexts {
                    draft: text,
                    versions: Vec::new(*self.methods.entries.allocator()),
                };
                self.methods.put(Place::Gap(at), name, texts);
            }
            _ => unreachable!(),
        }
    }

    // Makes the draft of a method its next version.
    fn freeze(&mut self, name: Name, version: u32)
        requires accepted { Accepts self.old.state (change.Freeze name version) }
        requires room { self.old.room ≡ Some (freeze_room name (rises_of self.old.state (change.Freeze name version))) }
        ensures { self.new ≡ record { state = applied self.old.state (change.Freeze name version); room = None } }
    {
        self.method_versions += 1;
        let Some(
            Taken::Freeze {
                at,
                text,
                rises,
                ..
            },
        ) = self.room.take()
        else {
            unreachable!()
        };
        let texts = &mut self.methods.entries[at].value;
        let Ok(()) = texts.versions.push(text) else {
            unreachable!()
        };
        raise(&mut self.sequences, rises.as_slice());
    }

    // Puts the sequence that a change makes, and raises the bases of those whose inputs become others.
    fn put_made(&mut self, name: Name, change: Change)
        requires accepted { Accepts self.old.state change }
        requires makes { Makes name change }
        requires room { self.old.room ≡ room_of self.old.state change }
        ensures { self.new ≡ record { state = applied self.old.state change; room = None } }
    {
        let Some(Taken::Sequence { made, rises, .. }) = self.room.take() else {
            unreachable!()
        };
        raise(&mut self.sequences, rises.as_slice());
        put_under(&mut self.sequences, name, made);
    }

    // Puts a signature behind those of its sequence.
    fn put_signature(&mut self, sequence: Name, change: Change)
        requires accepted { Accepts self.old.state change }
        requires signs { Signs sequence change }
        requires room { self.old.room ≡ room_of self.old.state change }
        ensures { self.new ≡ record { state = applied self.old.state change; room = None } }
    {
        let Some(Taken::Sign { at, signed, .. }) = self.room.take() else {
            unreachable!()
        };
        sign_at(&mut self.sequences, at, sequence, signed);
    }
}
