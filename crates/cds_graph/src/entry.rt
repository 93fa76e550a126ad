//! The sequences that a graph keeps, each with its results.
ghost use Rattle.std.specs.Prelude.{◌≡◌, ◌&&◌, Some, All, IfOk, map, length, find, option_copied, get_or};
ghost use Rattle.std.specs.Str.{bytes_eq};
ghost use Rattle.cds_book.specs.Inputs.{inputs_of};
ghost use Rattle.cds_book.specs.Same.{same_inputs};
ghost use Rattle.cds_book.specs.Kept.{IsTables};
ghost use Rattle.cds_graph.specs.Building.{after, names_of, AreRanged, AreSequences, HasMethods, HasNoises, HasRows};
ghost use Rattle.cds_graph.specs.Building.{KnowsInputs};
ghost use Rattle.cds_graph.specs.HeldGraph.{entry_shown, methods_shown, noises_shown, rows_shown, sequences_shown};
ghost use Rattle.cds_graph.specs.Kept.{sequence_under, sequence_with};
ghost use Rattle.cds_graph.specs.Keys.{all_inputs};

use crate::evaluate::evaluated;
use crate::gather::{Nodes, gathered};
use crate::sequence::SequenceNode;
use crate::source::Source;
use cds_base::{Name, NoMemory};
use cds_sign::Inputs;
use std::rc::Rc;

/// A sequence under its name, with its inputs and its results.
#[derive(Debug, Drop)]
pub(crate) struct Entry {
    pub name: Name,
    pub inputs: Inputs,
    pub node: SequenceNode,
}

/// All sequences with their results. Those whose inputs are as they were are shared.
pub(crate) fn kept_sequences(
    source: &Source<'_>,
    kept: &[Rc<Entry>],
    nodes: &Nodes,
    names: &[Name],
    all: &[Inputs],
) -> Result<Vec<Rc<Entry>>, NoMemory>
    requires ready { IsTables (after source.now) }
    requires right { AreSequences (after source.now) (sequences_shown kept.now) }
    requires methods { HasMethods (after source.now) (methods_shown nodes.now.methods.items) }
    requires rows { HasRows (after source.now) (rows_shown nodes.now.rows.items) }
    requires noises { HasNoises (after source.now) (noises_shown nodes.now.noises.items) }
    requires names { names.now ≡ names_of (after source.now) }
    requires all { all.now ≡ all_inputs (after source.now) }
    ensures { IfOk result (λ entries.
        sequences_shown entries.items ≡ map (sequence_under (after source.now)) (after source.now).sequences) }
{
    let mut entries = Vec::new(source.alloc);
    for place in 0..names.len() {
        let entry = sequence_of(source, kept, nodes, names[place], &all[place])?;
        entries.push(entry)?;
    }
    Ok(entries)
}

/// A sequence with its results: the one that is kept where its inputs are as they were, or else a new one.
fn sequence_of(
    source: &Source<'_>,
    kept: &[Rc<Entry>],
    nodes: &Nodes,
    name: Name,
    inputs: &Inputs,
) -> Result<Rc<Entry>, NoMemory>
    requires right { AreSequences (after source.now) (sequences_shown kept.now) }
    requires methods { HasMethods (after source.now) (methods_shown nodes.now.methods.items) }
    requires rows { HasRows (after source.now) (rows_shown nodes.now.rows.items) }
    requires noises { HasNoises (after source.now) (noises_shown nodes.now.noises.items) }
    requires inputs { inputs_of (after source.now) name ≡ Some inputs.now }
    requires known { KnowsInputs (after source.now) inputs.now }
    requires ranged { AreRanged inputs.now }
    ensures { IfOk result (λ entry. entry_shown entry.value ≡ sequence_with (after source.now) name inputs.now) }
{
    if let Some(entry) = entry_of(kept, name, inputs) {
        return Ok(entry.clone()?);
    }
    let found = gathered(source, nodes, inputs)?;
    let node = evaluated(source.alloc, found)?;
    let Some(own) = source.inputs(name)? else {
        unreachable!()
    };
    let entry = Entry {
        name,
        inputs: own,
        node,
    };
    Ok(Rc::new(source.alloc, entry)?)
}

/// The kept sequence of this name with these inputs, if there is one.
fn entry_of<'a>(kept: &'a [Rc<Entry>], name: Name, inputs: &Inputs) -> Option<&'a Rc<Entry>>
    ensures { option_copied result
        ≡ find (λ entry. bytes_eq entry.value.name name && same_inputs entry.value.inputs inputs.now) kept.now }
{
    kept.iter().find(|entry| is_of(entry, name, inputs))
}

/// Whether a sequence has this name and these inputs.
fn is_of(entry: &Rc<Entry>, name: Name, inputs: &Inputs) -> bool
    ensures { result ≡ (bytes_eq entry.now.value.name name && same_inputs entry.now.value.inputs inputs.now) }
{
    entry.as_ref().name == name && has_inputs(entry, inputs)
}

/// Whether a sequence has these inputs.
fn has_inputs(entry: &Rc<Entry>, inputs: &Inputs) -> bool
    ensures { result ≡ same_inputs entry.now.value.inputs inputs.now }
{
    entry.as_ref().inputs.same(inputs)
}
