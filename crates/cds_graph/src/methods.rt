//! The methods that a graph keeps, each read once.
ghost use Rattle.std.specs.Prelude.{◌≡◌, ◌+◌, ◌<◌, All, IfOk, OnOk, length, map, option_copied, take, find};
ghost use Rattle.cds_graph.specs.Building.{after, AreMethods, HoldsMethod, MethodsOf};
ghost use Rattle.cds_graph.specs.HeldGraph.{method_node_key, method_node_shown, methods_shown};
ghost use Rattle.cds_graph.specs.Kept.{method_under};
ghost use Rattle.cds_graph.specs.Keys.{method_key, same_method_key};

use crate::method::{MethodKey, MethodNode};
use crate::source::Source;
use cds_base::NoMemory;
use cds_sign::Inputs;
use std::alloc::Global;
use std::rc::Rc;

/// The method nodes of these keys, each once: those that are kept already, and those that are read now.
pub(crate) fn kept_methods(
    source: &Source<'_>,
    kept: &[Rc<MethodNode>],
    keys: &[MethodKey],
) -> Result<Vec<Rc<MethodNode>>, NoMemory>
    requires right { AreMethods (after source.now) (methods_shown kept.now) }
    requires there { All (HoldsMethod (after source.now)) keys.now }
    ensures { IfOk result (λ nodes. MethodsOf (after source.now) keys.now (methods_shown nodes.items)) }
{
    let mut nodes = Vec::new(source.alloc);
    for place in 0..keys.len() {
        add_method(source, kept, keys, place, &mut nodes)?;
    }
    Ok(nodes)
}

/// Puts the method of the key at a place behind those of the keys before it, unless it is among them.
fn add_method(
    source: &Source<'_>,
    kept: &[Rc<MethodNode>],
    keys: &[MethodKey],
    place: usize,
    nodes: &mut Vec<Rc<MethodNode>>,
) -> Result<(), NoMemory>
    requires right { AreMethods (after source.now) (methods_shown kept.now) }
    requires there { All (HoldsMethod (after source.now)) keys.now }
    requires within { place < length keys.now }
    requires before { MethodsOf (after source.now) (take place keys.now) (methods_shown nodes.old.items) }
    ensures { OnOk result (MethodsOf (after source.now) (take (place + 1) keys.now) (methods_shown nodes.new.items)) }
{
    let key = keys[place];
    if method_node(nodes, &key).is_some() {
        return Ok(());
    }
    let node = method_of(source, kept, &key)?;
    nodes.push(node)?;
    Ok(())
}

/// The method of a key: the one that is kept, or else the one that its text states.
fn method_of(
    source: &Source<'_>,
    kept: &[Rc<MethodNode>],
    key: &MethodKey,
) -> Result<Rc<MethodNode>, NoMemory>
    requires right { AreMethods (after source.now) (methods_shown kept.now) }
    requires there { HoldsMethod (after source.now) key.now }
    ensures { IfOk result (λ node. method_node_shown node.value ≡ method_under (after source.now) key.now) }
{
    if let Some(node) = method_node(kept, key) {
        return Ok(node.clone()?);
    }
    let Some(text) = source.method(key.name, key.version) else {
        unreachable!()
    };
    let node = MethodNode::read(source.alloc, key.name, key.version, text)?;
    Ok(Rc::new(source.alloc, node)?)
}

/// The node of a key, if there is one.
pub(crate) fn method_node<'a>(
    nodes: &'a [Rc<MethodNode>],
    key: &MethodKey,
) -> Option<&'a Rc<MethodNode>>
    ensures { option_copied result ≡ find (λ held. same_method_key (method_node_key held.value) key.now) nodes.now }
{
    nodes.iter().find(|node| is_under(node, key))
}

/// Whether a node is that of a key.
fn is_under(node: &Rc<MethodNode>, key: &MethodKey) -> bool
    ensures { result ≡ same_method_key (method_node_key node.now.value) key.now }
{
    node.as_ref().name == key.name && node.as_ref().version == key.version
}

/// The keys of the methods of sequences with these inputs.
pub(crate) fn method_keys(alloc: Global, all: &[Inputs]) -> Result<Vec<MethodKey>, NoMemory>
    ensures { IfOk result (λ keys. keys.items ≡ map method_key all.now) }
{
    let mut keys = Vec::new(alloc);
    for place in 0..all.len() {
        keys.push(MethodKey {
            name: all[place].method,
            version: all[place].version,
        })?;
    }
    Ok(keys)
}
