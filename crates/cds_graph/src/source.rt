//! The tables that a graph is built for: those of now, or those that a change will make.
ghost use Rattle.std.specs.Prelude.{◌≡◌, Some, None, IfOk, is_some, map, option_copied, if◌then◌else◌};
ghost use Rattle.cds_book.specs.Inputs.{inputs_of};
ghost use Rattle.cds_book.specs.Tables.{trace_of, method_of, sequence_of};
ghost use Rattle.cds_graph.specs.Building.{after, names_of, sequence_placed};

use cds_base::{Name, Named, NamedList, NoMemory};
use cds_book::{Change, MOST_SEQUENCES, Tables};
use cds_sign::Inputs;
use cds_trace::Trace;
use std::alloc::Global;

/// Tables with a change that isn't carried out yet, or without one.
#[derive(Clone, Copy)]
pub(crate) struct Source<'a> {
    pub alloc: Global,
    pub tables: &'a Tables,
    pub change: Option<&'a Change>,
}

impl<'a> Source<'a> {
    /// The version of a trace.
    pub fn trace(&self, name: Name, version: u32) -> Option<&'a Trace>
        ensures { option_copied result ≡ trace_of (after self.now) name version }
    {
        self.tables.trace_with(self.change, name, version)
    }

    /// The text of a method's version.
    pub fn method(&self, name: Name, version: u32) -> Option<&'a [u8]>
        ensures { option_copied result ≡ method_of (after self.now) name version }
    {
        self.tables.method_with(self.change, name, version)
    }

    /// The inputs of a sequence.
    pub fn inputs(&self, name: Name) -> Result<Option<Inputs>, NoMemory>
        ensures { IfOk result (λ inputs. inputs ≡ inputs_of (after self.now) name) }
    {
        self.tables.inputs_with(self.change, name)
    }

    /// The names of the sequences, in byte order.
    pub fn names(&self) -> Result<Vec<Name>, NoMemory>
        ensures { IfOk result (λ names. names.items ≡ names_of (after self.now)) }
    {
        self.tables.rules();
        let mut list = self.names_before()?;
        let Some(name) = self.placed() else {
            return names_in(self.alloc, &list);
        };
        let place = list.reserve(name)?;
        list.put(place, name, ());
        names_in(self.alloc, &list)
    }

    /// The names of the sequences before the change.
    fn names_before(&self) -> Result<NamedList<()>, NoMemory>
        ensures { IfOk result (λ list. map (λ e. e.name) list.entries.items ≡ names_of self.now.tables.now.state) }
    {
        self.tables.rules();
        let mut list = NamedList::new(self.alloc);
        for place in 0..MOST_SEQUENCES as u32 {
            let Some(found) = self.tables.sequence_at(place) else {
                return Ok(list);
            };
            list.entries.push(Named {
                name: found.0,
                value: (),
            })?;
        }
        Ok(list)
    }

    /// The name of the sequence that the change does something to.
    fn placed(&self) -> Option<Name>
        ensures { result ≡ sequence_placed self.now.tables.now.state (option_copied self.now.change) }
    {
        match self.change? {
            Change::Sequence { name, .. } => Some(*name),
            Change::Events { name, .. } => self.if_there(*name),
            Change::Rebind { name, .. } => self.if_there(*name),
            Change::Sign { sequence, .. } => self.if_there(*sequence),
            _ => None,
        }
    }

    /// The name, where there is a sequence of it.
    fn if_there(&self, name: Name) -> Option<Name>
        ensures { result ≡ (if is_some (sequence_of self.now.tables.now.state name) then Some name else None) }
    {
        self.tables.sequence(name)?;
        Some(name)
    }
}

/// The names of the entries of a list.
fn names_in(alloc: Global, list: &NamedList<()>) -> Result<Vec<Name>, NoMemory>
    ensures { IfOk result (λ names. names.items ≡ map (λ e. e.name) list.now.entries.items) }
{
    let mut names = Vec::new(alloc);
    for place in 0..list.len() {
        names.push(list.entries[place].name)?;
    }
    Ok(names)
}
