//! A sequence as its rows are found, put together out of the nodes that are kept.
ghost use Rattle.std.specs.Prelude.{◌≡◌, All, IfOk, map};
ghost use Rattle.cds_rules.specs.Fields.{fields_of};
ghost use Rattle.cds_graph.specs.Building.{after, listed_key, listed_method, HasMethods, HasNoises, HasRows};
ghost use Rattle.cds_graph.specs.Building.{KnowsInputs, KnowsListed, KnowsMethod, KnowsNoise, KnowsRow};
ghost use Rattle.cds_graph.specs.Found.{found_of, listed_found, row_found, standard_found};
ghost use Rattle.cds_graph.specs.Held.{found_shown, listed_shown, row_shown, standard_shown};
ghost use Rattle.cds_graph.specs.HeldGraph.{method_node_shown, methods_shown, noise_key_shown, noises_shown};
ghost use Rattle.cds_graph.specs.HeldGraph.{row_node_shown, rows_shown};
ghost use Rattle.cds_graph.specs.Kept.{method_under, noise_under, row_under};
ghost use Rattle.cds_graph.specs.Keys.{row_key};
ghost use Rattle.cds_graph.specs.Noise.{noise_in};
ghost use Rattle.cds_graph.specs.Recorded.{fields_in, listed_in, recorded_in, recorded_of, standard_in};

use crate::found::{FoundListed, FoundRow, FoundSequence, FoundStandard, RowNode};
use crate::key::RowKey;
use crate::method::{MethodKey, MethodNode};
use crate::methods::method_node;
use crate::noises::{HeldKey, NoiseNode, first_blank, noise_key_in, noise_node};
use crate::rows::row_node;
use crate::source::Source;
use cds_base::{Missing, NoMemory};
use cds_rules::Method;
use cds_sign::{Inputs, Listed, ListedRow, Row};
use std::rc::Rc;

/// The nodes of the methods, rows and noises of tables.
#[derive(Debug, Drop)]
pub(crate) struct Nodes {
    pub methods: Vec<Rc<MethodNode>>,
    pub rows: Vec<Rc<RowNode>>,
    pub noises: Vec<NoiseNode>,
}

/// A sequence with these inputs, as its rows are found. The only refusal is want of memory.
pub(crate) fn gathered(
    source: &Source<'_>,
    nodes: &Nodes,
    inputs: &Inputs,
) -> Result<FoundSequence, NoMemory>
    requires methods { HasMethods (after source.now) (methods_shown nodes.now.methods.items) }
    requires rows { HasRows (after source.now) (rows_shown nodes.now.rows.items) }
    requires noises { HasNoises (after source.now) (noises_shown nodes.now.noises.items) }
    requires known { KnowsInputs (after source.now) inputs.now }
    ensures { IfOk result (λ found. found_shown found ≡ found_of (recorded_of (after source.now) inputs.now)) }
{
    let key = MethodKey {
        name: inputs.method,
        version: inputs.version,
    };
    let method = known_method(source, &nodes.methods, &key)?;
    let noise = noise_of(source, &nodes.noises, &method.as_ref().method, inputs);
    let rows = found_rows(source, &nodes.rows, inputs)?;
    let standards = found_standards(source, nodes, inputs)?;
    Ok(FoundSequence {
        method,
        rows,
        standards,
        noise,
    })
}

/// The noise of a sequence with these inputs under its method, or why it has none.
fn noise_of(
    source: &Source<'_>,
    noises: &[NoiseNode],
    method: &Method,
    inputs: &Inputs,
) -> Result<u32, Missing>
    requires noises { HasNoises (after source.now) (noises_shown noises.now) }
    requires method { fields_of method.now ≡ fields_in (after source.now) inputs.now.method inputs.now.version }
    requires known { KnowsInputs (after source.now) inputs.now }
    ensures { result ≡ noise_in (recorded_of (after source.now) inputs.now) }
{
    if first_blank(inputs).is_none() {
        return Err(Missing::NoBlank);
    }
    let Some(key) = noise_key_in(method, inputs) else {
        return Err(Missing::NoNoise);
    };
    known_noise(source, noises, &key).ok_or(Missing::NoNoise)
}

/// The rows of a sequence with these inputs.
fn found_rows(
    source: &Source<'_>,
    nodes: &[Rc<RowNode>],
    inputs: &Inputs,
) -> Result<Vec<FoundRow>, NoMemory>
    requires rows { HasRows (after source.now) (rows_shown nodes.now) }
    requires known { All (λ row. KnowsRow (after source.now) (row_key inputs.now row)) inputs.now.rows }
    ensures { IfOk result (λ found. map row_shown found.items
        ≡ map (λ row. row_found (fields_in (after source.now) inputs.now.method inputs.now.version)
        (recorded_in (after source.now) row)) inputs.now.rows) }
{
    let rows = inputs.rows.as_slice();
    let mut found = Vec::new(source.alloc);
    for place in 0..rows.len() {
        let row = found_row(source, nodes, inputs, &rows[place])?;
        found.push(row)?;
    }
    Ok(found)
}

/// A row of a sequence with these inputs.
fn found_row(
    source: &Source<'_>,
    nodes: &[Rc<RowNode>],
    inputs: &Inputs,
    row: &Row,
) -> Result<FoundRow, NoMemory>
    requires rows { HasRows (after source.now) (rows_shown nodes.now) }
    requires known { KnowsRow (after source.now) (row_key inputs.now row.now) }
    ensures { IfOk result (λ found. row_shown found
        ≡ row_found (fields_in (after source.now) inputs.now.method inputs.now.version)
        (recorded_in (after source.now) row.now)) }
{
    let key = RowKey::of_row(inputs, row)?;
    let node = known_row(source, nodes, &key)?;
    let row = row.copy()?;
    Ok(FoundRow { row, node })
}

/// The listed sequences of a sequence with these inputs.
fn found_standards(
    source: &Source<'_>,
    nodes: &Nodes,
    inputs: &Inputs,
) -> Result<Vec<FoundListed>, NoMemory>
    requires methods { HasMethods (after source.now) (methods_shown nodes.now.methods.items) }
    requires rows { HasRows (after source.now) (rows_shown nodes.now.rows.items) }
    requires known { All (KnowsListed (after source.now)) inputs.now.standards }
    ensures { IfOk result (λ found. map listed_shown found.items
        ≡ map (λ listed. listed_found (listed_in (after source.now) listed)) inputs.now.standards) }
{
    let standards = inputs.standards.as_slice();
    let mut found = Vec::new(source.alloc);
    for place in 0..standards.len() {
        let listed = found_listed(source, nodes, &standards[place])?;
        found.push(listed)?;
    }
    Ok(found)
}

/// A listed sequence.
fn found_listed(
    source: &Source<'_>,
    nodes: &Nodes,
    listed: &Listed,
) -> Result<FoundListed, NoMemory>
    requires methods { HasMethods (after source.now) (methods_shown nodes.now.methods.items) }
    requires rows { HasRows (after source.now) (rows_shown nodes.now.rows.items) }
    requires known { KnowsListed (after source.now) listed.now }
    ensures { IfOk result (λ found. listed_shown found ≡ listed_found (listed_in (after source.now) listed.now)) }
{
    let key = MethodKey {
        name: listed.method,
        version: listed.version,
    };
    let method = known_method(source, &nodes.methods, &key)?;
    let rows = found_listed_rows(source, &nodes.rows, listed)?;
    Ok(FoundListed { method, rows })
}

/// The standard rows of a listed sequence.
fn found_listed_rows(
    source: &Source<'_>,
    nodes: &[Rc<RowNode>],
    listed: &Listed,
) -> Result<Vec<FoundStandard>, NoMemory>
    requires rows { HasRows (after source.now) (rows_shown nodes.now) }
    requires known { All (λ row. KnowsRow (after source.now) (listed_key listed.now row)) listed.now.rows }
    ensures { IfOk result (λ found. map standard_shown found.items
        ≡ map (λ row. standard_found (fields_in (after source.now) listed.now.method listed.now.version)
        (standard_in (after source.now) row)) listed.now.rows) }
{
    let rows = listed.rows.as_slice();
    let mut found = Vec::new(source.alloc);
    for place in 0..rows.len() {
        let row = found_standard(source, nodes, listed, &rows[place])?;
        found.push(row)?;
    }
    Ok(found)
}

/// A standard row of a listed sequence.
fn found_standard(
    source: &Source<'_>,
    nodes: &[Rc<RowNode>],
    listed: &Listed,
    row: &ListedRow,
) -> Result<FoundStandard, NoMemory>
    requires rows { HasRows (after source.now) (rows_shown nodes.now) }
    requires known { KnowsRow (after source.now) (listed_key listed.now row.now) }
    ensures { IfOk result (λ found. standard_shown found
        ≡ standard_found (fields_in (after source.now) listed.now.method listed.now.version)
        (standard_in (after source.now) row.now)) }
{
    let key = RowKey::of_listed(listed, row)?;
    let node = known_row(source, nodes, &key)?;
    let row = copied(row)?;
    Ok(FoundStandard { row, node })
}

/// An equal standard row with memory of its own.
fn copied(row: &ListedRow) -> Result<ListedRow, NoMemory>
    ensures { IfOk result (λ copy. copy ≡ row.now) }
{
    let amounts = row.amounts.copy()?;
    let events = row.events.copy()?;
    Ok(ListedRow {
        trace: row.trace,
        version: row.version,
        used: row.used,
        amounts,
        events,
    })
}

/// The method of a key of the tables.
fn known_method(
    source: &Source<'_>,
    nodes: &[Rc<MethodNode>],
    key: &MethodKey,
) -> Result<Rc<MethodNode>, NoMemory>
    requires methods { HasMethods (after source.now) (methods_shown nodes.now) }
    requires known { KnowsMethod (after source.now) key.now }
    ensures { IfOk result (λ node. method_node_shown node.value ≡ method_under (after source.now) key.now) }
{
    let Some(node) = method_node(nodes, key) else {
        unreachable!()
    };
    Ok(node.clone()?)
}

/// The row of a key of the tables.
fn known_row(
    source: &Source<'_>,
    nodes: &[Rc<RowNode>],
    key: &RowKey,
) -> Result<Rc<RowNode>, NoMemory>
    requires rows { HasRows (after source.now) (rows_shown nodes.now) }
    requires known { KnowsRow (after source.now) key.now }
    ensures { IfOk result (λ node. row_node_shown node.value ≡ row_under (after source.now) key.now) }
{
    let Some(node) = row_node(nodes, key) else {
        unreachable!()
    };
    Ok(node.clone()?)
}

/// The noise of a key of the tables, if there is one.
fn known_noise(source: &Source<'_>, nodes: &[NoiseNode], key: &HeldKey) -> Option<u32>
    requires noises { HasNoises (after source.now) (noises_shown nodes.now) }
    requires known { KnowsNoise (after source.now) (noise_key_shown key.now) }
    ensures { result ≡ (noise_under (after source.now) (noise_key_shown key.now)).noise }
{
    let Some(node) = noise_node(nodes, key) else {
        unreachable!()
    };
    node.noise
}
