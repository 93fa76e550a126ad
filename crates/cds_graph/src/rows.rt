//! The rows that a graph keeps, each integrated once.
ghost use Rattle.std.specs.Prelude.{◌≡◌, ◌+◌, ◌<◌, ◌≤◌, ◌++◌, ◌∷◌, [], All, IfOk, OnOk, length, map};
ghost use Rattle.std.specs.Prelude.{option_copied, take, find, flat_map};
ghost use Rattle.cds_graph.specs.Building.{after, new_row_steps, AreRows, HasMethods, HoldsRow, RowsOf};
ghost use Rattle.cds_graph.specs.HeldGraph.{methods_shown, row_node_shown, rows_shown};
ghost use Rattle.cds_graph.specs.Kept.{row_under};
ghost use Rattle.cds_graph.specs.Keys.{once, row_keys_in, row_steps, same_row_key};

use crate::found::RowNode;
use crate::key::RowKey;
use crate::method::{MethodKey, MethodNode};
use crate::methods::method_node;
use crate::source::Source;
use cds_base::{NoMemory, Steps};
use cds_sign::Inputs;
use std::alloc::Global;
use std::rc::Rc;
use std::sync::ledger::Ledger;

/// The row nodes of these keys, each once: those that are kept already, and those that are integrated now. The steps
/// are at most those of the keys that aren't kept yet.
pub(crate) fn kept_rows<L: Ledger>(
    source: &Source<'_>,
    kept: &[Rc<RowNode>],
    methods: &[Rc<MethodNode>],
    keys: &[RowKey],
    steps: &mut Steps<L>,
) -> Result<Vec<Rc<RowNode>>, NoMemory>
    requires right { AreRows (after source.now) (rows_shown kept.now) }
    requires methods { HasMethods (after source.now) (methods_shown methods.now) }
    requires there { All (HoldsRow (after source.now)) keys.now }
    ensures value { IfOk result (λ nodes. RowsOf (after source.now) keys.now (rows_shown nodes.items)) }
    ensures least { steps.old ≤ steps.new }
    ensures most { steps.new
        ≤ steps.old + new_row_steps (after source.now) (rows_shown kept.now) (once same_row_key keys.now) }
{
    let mut nodes = Vec::new(source.alloc);
    for place in 0..keys.len() {
        add_row(source, kept, methods, keys, place, &mut nodes, steps)?;
    }
    Ok(nodes)
}

/// Puts the row of the key at a place behind those of the keys before it, unless it is among them.
fn add_row<L: Ledger>(
    source: &Source<'_>,
    kept: &[Rc<RowNode>],
    methods: &[Rc<MethodNode>],
    keys: &[RowKey],
    place: usize,
    nodes: &mut Vec<Rc<RowNode>>,
    steps: &mut Steps<L>,
) -> Result<(), NoMemory>
    requires right { AreRows (after source.now) (rows_shown kept.now) }
    requires methods { HasMethods (after source.now) (methods_shown methods.now) }
    requires there { All (HoldsRow (after source.now)) keys.now }
    requires within { place < length keys.now }
    requires before { RowsOf (after source.now) (take place keys.now) (rows_shown nodes.old.items) }
    ensures value { OnOk result (RowsOf (after source.now) (take (place + 1) keys.now) (rows_shown nodes.new.items)) }
    ensures least { steps.old ≤ steps.new }
    ensures most { steps.new
        + new_row_steps (after source.now) (rows_shown kept.now) (once same_row_key (take place keys.now))
        ≤ steps.old
        + new_row_steps (after source.now) (rows_shown kept.now) (once same_row_key (take (place + 1) keys.now)) }
{
    let key = &keys[place];
    if row_node(nodes, key).is_some() {
        return Ok(());
    }
    let node = row_of(source, kept, methods, key, steps)?;
    nodes.push(node)?;
    Ok(())
}

/// The row of a key: the one that is kept, or else the one that is integrated now.
fn row_of<L: Ledger>(
    source: &Source<'_>,
    kept: &[Rc<RowNode>],
    methods: &[Rc<MethodNode>],
    key: &RowKey,
    steps: &mut Steps<L>,
) -> Result<Rc<RowNode>, NoMemory>
    requires right { AreRows (after source.now) (rows_shown kept.now) }
    requires methods { HasMethods (after source.now) (methods_shown methods.now) }
    requires there { HoldsRow (after source.now) key.now }
    ensures value { IfOk result (λ node. row_node_shown node.value ≡ row_under (after source.now) key.now) }
    ensures least { steps.old ≤ steps.new }
    ensures most { steps.new ≤ steps.old + new_row_steps (after source.now) (rows_shown kept.now) (key.now ∷ []) }
{
    if let Some(node) = row_node(kept, key) {
        return Ok(node.clone()?);
    }
    let node = integrated(source, methods, key, steps)?;
    Ok(Rc::new(source.alloc, node)?)
}

/// The row of the trace of a key under the key's method and manual events.
fn integrated<L: Ledger>(
    source: &Source<'_>,
    methods: &[Rc<MethodNode>],
    key: &RowKey,
    steps: &mut Steps<L>,
) -> Result<RowNode, NoMemory>
    requires methods { HasMethods (after source.now) (methods_shown methods.now) }
    requires there { HoldsRow (after source.now) key.now }
    ensures value { IfOk result (λ node. row_node_shown node ≡ row_under (after source.now) key.now) }
    ensures least { steps.old ≤ steps.new }
    ensures most { steps.new ≤ steps.old + row_steps (after source.now) key.now }
{
    let Some(trace) = source.trace(key.trace, key.version) else {
        unreachable!()
    };
    let of_method = MethodKey {
        name: key.method,
        version: key.method_version,
    };
    let Some(method) = method_node(methods, &of_method) else {
        unreachable!()
    };
    let key = key.copy()?;
    RowNode::integrated(source.alloc, key, trace, &method.as_ref().method, steps)
}

/// The node of a key, if there is one.
pub(crate) fn row_node<'a>(nodes: &'a [Rc<RowNode>], key: &RowKey) -> Option<&'a Rc<RowNode>>
    ensures { option_copied result ≡ find (λ held. same_row_key held.value.key key.now) nodes.now }
{
    nodes.iter().find(|node| is_under(node, key))
}

/// Whether a node is that of a key.
fn is_under(node: &Rc<RowNode>, key: &RowKey) -> bool
    ensures { result ≡ same_row_key node.now.value.key key.now }
{
    node.as_ref().key.same(key)
}

/// The keys of the rows of sequences with these inputs, one sequence after the other.
pub(crate) fn row_keys(alloc: Global, all: &[Inputs]) -> Result<Vec<RowKey>, NoMemory>
    ensures { IfOk result (λ keys. keys.items ≡ flat_map row_keys_in all.now) }
{
    let mut keys = Vec::new(alloc);
    for place in 0..all.len() {
        add_keys(&all[place], &mut keys)?;
    }
    Ok(keys)
}

/// Puts the keys of the rows of a sequence behind others.
fn add_keys(inputs: &Inputs, keys: &mut Vec<RowKey>) -> Result<(), NoMemory>
    ensures { OnOk result (keys.new.items ≡ keys.old.items ++ row_keys_in inputs.now) }
{
    let rows = inputs.rows.as_slice();
    for place in 0..rows.len() {
        let key = RowKey::of_row(inputs, &rows[place])?;
        keys.push(key)?;
    }
    Ok(())
}
