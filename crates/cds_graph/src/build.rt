//! How a graph is built: out of the tables, of a change that isn't carried out yet, and of the graph before.
ghost use Rattle.std.specs.Prelude.{◌≡◌, ◌+◌, ◌≤◌, IfOk, map};
ghost use Rattle.cds_book.specs.Kept.{IsTables};
ghost use Rattle.cds_graph.specs.Building.{after, names_of, new_row_steps, new_noise_steps, IsRight};
ghost use Rattle.cds_graph.specs.Building.{HasMethods, HasNoises, HasRows};
ghost use Rattle.cds_graph.specs.Graph.{graph_of};
ghost use Rattle.cds_graph.specs.HeldGraph.{methods_shown, noises_shown, rows_shown};
ghost use Rattle.cds_graph.specs.Keys.{all_inputs, noise_keys, row_keys};

use crate::entry::kept_sequences;
use crate::gather::Nodes;
use crate::graph::Graph;
use crate::methods::{kept_methods, method_keys};
use crate::noises::{kept_noises, noise_keys};
use crate::rows::{kept_rows, row_keys};
use crate::source::Source;
use cds_base::{Name, NoMemory, Steps};
use cds_sign::Inputs;
use std::sync::ledger::Ledger;

/// The graph that stands for the tables of a source. What the graph before keeps is shared, where it is still needed;
/// the steps are at most those of the rows and the noises that it doesn't keep.
pub(crate) fn built<L: Ledger>(
    source: &Source<'_>,
    before: &Graph,
    steps: &mut Steps<L>,
) -> Result<Graph, NoMemory>
    requires ready { IsTables (after source.now) }
    requires right { IsRight (after source.now) before.now }
    ensures value { IfOk result (λ graph. graph ≡ graph_of (after source.now)) }
    ensures least { steps.old ≤ steps.new }
    ensures most { steps.new
        ≤ steps.old + (new_row_steps (after source.now) before.now.rows (row_keys (after source.now))
        + new_noise_steps (after source.now) before.now.noises (noise_keys (after source.now))) }
{
    let names = source.names()?;
    let all = all_inputs(source, &names)?;
    let nodes = nodes_of(source, before, &all, steps)?;
    let sequences = kept_sequences(source, &before.sequences, &nodes, &names, &all)?;
    Ok(Graph { nodes, sequences })
}

/// The methods, rows and noises of sequences with these inputs.
fn nodes_of<L: Ledger>(
    source: &Source<'_>,
    before: &Graph,
    all: &[Inputs],
    steps: &mut Steps<L>,
) -> Result<Nodes, NoMemory>
    requires ready { IsTables (after source.now) }
    requires right { IsRight (after source.now) before.now }
    requires all { all.now ≡ all_inputs (after source.now) }
    ensures methods { IfOk result (λ nodes. HasMethods (after source.now) (methods_shown nodes.methods.items)) }
    ensures rows { IfOk result (λ nodes. HasRows (after source.now) (rows_shown nodes.rows.items)) }
    ensures noises { IfOk result (λ nodes. HasNoises (after source.now) (noises_shown nodes.noises.items)) }
    ensures least { steps.old ≤ steps.new }
    ensures most { steps.new
        ≤ steps.old + (new_row_steps (after source.now) before.now.rows (row_keys (after source.now))
        + new_noise_steps (after source.now) before.now.noises (noise_keys (after source.now))) }
{
    let of_methods = method_keys(source.alloc, all)?;
    let methods = kept_methods(source, &before.nodes.methods, &of_methods)?;
    let of_rows = row_keys(source.alloc, all)?;
    let rows = kept_rows(source, &before.nodes.rows, &methods, &of_rows, steps)?;
    let of_noises = noise_keys(source, &methods, all)?;
    let noises = kept_noises(source, &before.nodes.noises, &of_noises, steps)?;
    Ok(Nodes {
        methods,
        rows,
        noises,
    })
}

/// The inputs of all sequences.
fn all_inputs(source: &Source<'_>, names: &[Name]) -> Result<Vec<Inputs>, NoMemory>
    requires ready { IsTables (after source.now) }
    requires names { names.now ≡ names_of (after source.now) }
    ensures { IfOk result (λ all. all.items ≡ all_inputs (after source.now)) }
{
    let mut all = Vec::new(source.alloc);
    for place in 0..names.len() {
        let Some(inputs) = source.inputs(names[place])? else {
            unreachable!()
        };
        all.push(inputs)?;
    }
    Ok(all)
}
