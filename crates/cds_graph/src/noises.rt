//! The noises that a graph keeps, each found once.
ghost use Rattle.std.specs.Prelude.{◌≡◌, ◌+◌, ◌<◌, ◌≤◌, ◌∷◌, [], All, IfOk, OnOk, IsSome, length, map, filter_map};
ghost use Rattle.std.specs.Prelude.{option_copied, option_map, take, find};
ghost use Rattle.cds_book.specs.Tables.{trace_of};
ghost use Rattle.cds_rules.specs.Fields.{fields_of};
ghost use Rattle.cds_graph.specs.Building.{after, new_noise_steps, AreNoises, HasMethods, HoldsNoise, KnowsMethod};
ghost use Rattle.cds_graph.specs.Building.{NoisesOf};
ghost use Rattle.cds_graph.specs.HeldGraph.{methods_shown, noise_key_shown, noise_node_shown, noises_shown};
ghost use Rattle.cds_graph.specs.Kept.{noise_under};
ghost use Rattle.cds_graph.specs.Keys.{method_key, noise_key_by, noise_key_of, noise_steps, once, same_noise_key};
ghost use Rattle.cds_graph.specs.Rows.{is_blank};

use crate::limits::NOISE_STEPS;
use crate::method::{MethodKey, MethodNode};
use crate::methods::method_node;
use crate::source::Source;
use cds_base::{Name, NoMemory, Steps};
use cds_figures::noise;
use cds_rules::Method;
use cds_sign::{Inputs, Row, RowKind};
use std::rc::Rc;
use std::sync::ledger::Ledger;

/// What a noise is found by: the version of the blank's trace, and the window, in milliseconds.
#[derive(Clone, Copy, Debug)]
pub(crate) struct HeldKey {
    pub trace: Name,
    pub version: u32,
    pub from_ms: u32,
    pub to_ms: u32,
}

/// A noise, if there is one, under its key.
#[derive(Clone, Copy, Debug)]
pub(crate) struct NoiseNode {
    pub key: HeldKey,
    pub noise: Option<u32>,
}

/// The noises of these keys, each once: those that are kept already, and those that are found now. The steps are at
/// most those of the keys that aren't kept yet.
pub(crate) fn kept_noises<L: Ledger>(
    source: &Source<'_>,
    kept: &[NoiseNode],
    keys: &[HeldKey],
    steps: &mut Steps<L>,
) -> Result<Vec<NoiseNode>, NoMemory>
    requires right { AreNoises (after source.now) (noises_shown kept.now) }
    requires there { All (HoldsNoise (after source.now)) (map noise_key_shown keys.now) }
    ensures value { IfOk result
        (λ nodes. NoisesOf (after source.now) (map noise_key_shown keys.now) (noises_shown nodes.items)) }
    ensures least { steps.old ≤ steps.new }
    ensures most { steps.new ≤ steps.old + new_noise_steps (after source.now) (noises_shown kept.now)
        (once same_noise_key (map noise_key_shown keys.now)) }
{
    let mut nodes = Vec::new(source.alloc);
    for place in 0..keys.len() {
        add_noise(source, kept, keys, place, &mut nodes, steps)?;
    }
    Ok(nodes)
}

/// Puts the noise of the key at a place behind those of the keys before it, unless it is among them.
fn add_noise<L: Ledger>(
    source: &Source<'_>,
    kept: &[NoiseNode],
    keys: &[HeldKey],
    place: usize,
    nodes: &mut Vec<NoiseNode>,
    steps: &mut Steps<L>,
) -> Result<(), NoMemory>
    requires right { AreNoises (after source.now) (noises_shown kept.now) }
    requires there { All (HoldsNoise (after source.now)) (map noise_key_shown keys.now) }
    requires within { place < length keys.now }
    requires before { NoisesOf (after source.now) (map noise_key_shown (take place keys.now))
        (noises_shown nodes.old.items) }
    ensures value { OnOk result (NoisesOf (after source.now) (map noise_key_shown (take (place + 1) keys.now))
        (noises_shown nodes.new.items)) }
    ensures least { steps.old ≤ steps.new }
    ensures most { steps.new + new_noise_steps (after source.now) (noises_shown kept.now)
        (once same_noise_key (map noise_key_shown (take place keys.now)))
        ≤ steps.old + new_noise_steps (after source.now) (noises_shown kept.now)
        (once same_noise_key (map noise_key_shown (take (place + 1) keys.now))) }
{
    let key = keys[place];
    if noise_node(nodes, &key).is_some() {
        return Ok(());
    }
    let node = noise_of(source, kept, &key, steps);
    nodes.push(node)?;
    Ok(())
}

/// The noise of a key: the one that is kept, or else the one that is found now.
fn noise_of<L: Ledger>(
    source: &Source<'_>,
    kept: &[NoiseNode],
    key: &HeldKey,
    steps: &mut Steps<L>,
) -> NoiseNode
    requires right { AreNoises (after source.now) (noises_shown kept.now) }
    requires there { HoldsNoise (after source.now) (noise_key_shown key.now) }
    ensures value { noise_node_shown result ≡ noise_under (after source.now) (noise_key_shown key.now) }
    ensures least { steps.old ≤ steps.new }
    ensures most { steps.new ≤ steps.old
        + new_noise_steps (after source.now) (noises_shown kept.now) (noise_key_shown key.now ∷ []) }
{
    if let Some(node) = noise_node(kept, key) {
        return *node;
    }
    found_noise(source, key, steps)
}

/// The noise of the trace of a key in its window.
fn found_noise<L: Ledger>(source: &Source<'_>, key: &HeldKey, steps: &mut Steps<L>) -> NoiseNode
    requires there { HoldsNoise (after source.now) (noise_key_shown key.now) }
    ensures value { noise_node_shown result ≡ noise_under (after source.now) (noise_key_shown key.now) }
    ensures least { steps.old ≤ steps.new }
    ensures most { steps.new ≤ steps.old + noise_steps (after source.now) (noise_key_shown key.now) }
{
    let Some(trace) = source.trace(key.trace, key.version) else {
        unreachable!()
    };
    let noise = noise(trace, key.from_ms, key.to_ms, steps);
    NoiseNode { key: *key, noise }
}

/// The node of a key, if there is one.
pub(crate) fn noise_node<'a>(nodes: &'a [NoiseNode], key: &HeldKey) -> Option<&'a NoiseNode>
    ensures { option_copied result
        ≡ find (λ held. same_noise_key (noise_key_shown held.key) (noise_key_shown key.now)) nodes.now }
{
    nodes.iter().find(|node| is_under(node, key))
}

/// Whether a node is that of a key.
fn is_under(node: &NoiseNode, key: &HeldKey) -> bool
    ensures { result ≡ same_noise_key (noise_key_shown node.now.key) (noise_key_shown key.now) }
{
    node.key.trace == key.trace
        && node.key.version == key.version
        && node.key.from_ms == key.from_ms
        && node.key.to_ms == key.to_ms
}

/// The keys of the noises of sequences with these inputs.
pub(crate) fn noise_keys(
    source: &Source<'_>,
    methods: &[Rc<MethodNode>],
    all: &[Inputs],
) -> Result<Vec<HeldKey>, NoMemory>
    requires methods { HasMethods (after source.now) (methods_shown methods.now) }
    requires known { All (λ inputs. KnowsMethod (after source.now) (method_key inputs)) all.now }
    ensures { IfOk result
        (λ keys. map noise_key_shown keys.items ≡ filter_map (noise_key_of (after source.now)) all.now) }
{
    let mut keys = Vec::new(source.alloc);
    for place in 0..all.len() {
        if let Some(key) = noise_key(source, methods, &all[place]) {
            keys.push(key)?;
        }
    }
    Ok(keys)
}

/// The key of the noise of a sequence with these inputs, if it has a blank and its method states a window.
fn noise_key(source: &Source<'_>, methods: &[Rc<MethodNode>], inputs: &Inputs) -> Option<HeldKey>
    requires methods { HasMethods (after source.now) (methods_shown methods.now) }
    requires known { KnowsMethod (after source.now) (method_key inputs.now) }
    ensures { option_map noise_key_shown result ≡ noise_key_of (after source.now) inputs.now }
{
    let key = MethodKey {
        name: inputs.method,
        version: inputs.version,
    };
    let Some(method) = method_node(methods, &key) else {
        unreachable!()
    };
    noise_key_in(&method.as_ref().method, inputs)
}

/// The key of the noise of a sequence under its method.
pub(crate) fn noise_key_in(method: &Method, inputs: &Inputs) -> Option<HeldKey>
    ensures { option_map noise_key_shown result ≡ noise_key_by (fields_of method.now) inputs.now }
{
    let blank = first_blank(inputs)?;
    let from_ms = method.noise_from_ms?;
    let to_ms = method.noise_to_ms?;
    Some(HeldKey {
        trace: blank.trace,
        version: blank.version,
        from_ms,
        to_ms,
    })
}

/// The first blank row.
pub(crate) fn first_blank(inputs: &Inputs) -> Option<&Row>
    ensures { option_copied result ≡ find (λ row. is_blank row.kind) inputs.now.rows }
{
    inputs.rows.as_slice().iter().find(|row| is_blank(row.kind))
}

/// Whether a row is injected for noise alone.
fn is_blank(kind: RowKind) -> bool
    ensures { result ≡ is_blank kind }
{
    match kind {
        RowKind::Blank => true,
        RowKind::Standard | RowKind::Replicate | RowKind::Sample => false,
    }
}
