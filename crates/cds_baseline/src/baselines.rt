//! The nodes of the baseline of a cluster.
ghost use Rattle.std.specs.Prelude.{◌≡◌, ◌+◌, ◌-◌, ◌<◌, ◌≤◌, true, IfOk, All, length, map, if◌then◌else◌};
ghost use Rattle.std.specs.Vec.{vec_len};
ghost use Rattle.cds_base.specs.Tiles.{Tiles};
ghost use Rattle.cds_trace.specs.Signal.{sample_at};
ghost use Rattle.cds_baseline.specs.Nodes.{sample_of, is_fixed, node_samples};
ghost use Rattle.cds_baseline.specs.Cluster.{cluster_nodes};
ghost use Rattle.cds_baseline.specs.Chain.{IsRising};

use crate::hulls::chain_over;
use crate::node_list::Nodes;
use crate::points::{point_marks, point_samples};
use cds_base::{Cluster, NoMemory, Steps};
use cds_trace::Trace;
use std::alloc::Global;
use std::sync::ledger::Ledger;

/// The nodes of the baseline of a cluster. Its points are its ends and its valleys, which are the left ends of its
/// second and later parts that are a Valley. Fixed are its ends and the valleys that are `covered`, as those in the
/// window of a valley event are; `covered` has an entry for each part, and the others aren't looked at. A fixed point is
/// a node, and a valley that isn't fixed is one exactly where every chord between two other points of its stretch
/// between two fixed points in a row passes above it. On a forced baseline the ends alone are nodes. The cluster must
/// lie within the trace, and its parts, at least one, must tile it. After want of memory nothing is kept. This
/// project's own rule. At most one step for each part and one more.
pub fn nodes<L: Ledger>(
    alloc: Global,
    cluster: &Cluster,
    covered: &[bool],
    trace: &Trace,
    steps: &mut Steps<L>,
) -> Result<Nodes, NoMemory>
    requires some { 0 < length cluster.now.parts }
    requires tiled { Tiles cluster.now.start cluster.now.parts cluster.now.end }
    requires within { cluster.now.end < length trace.now.samples }
    requires covered { length covered.now ≡ length cluster.now.parts }

    ensures nodes { IfOk result (λ nodes. nodes ≡ cluster_nodes trace.now cluster.now covered.now) }
    ensures least { steps.old ≤ steps.new }
    ensures most { steps.new ≤ steps.old + (length cluster.now.parts + 1) }
{
    let from = first_inner(cluster);
    let inner = &cluster.parts.as_slice()[from..];
    let points = point_samples(alloc, cluster.start, inner, cluster.end)?;
    let fixed = point_marks(alloc, inner, &covered[from..])?;
    hull(alloc, points.as_slice(), fixed.as_slice(), trace, steps)
}

/// Where the parts of a cluster begin whose left ends may be points: behind the first part; nowhere on a forced
/// baseline.
fn first_inner(cluster: &Cluster) -> usize
    requires { 0 < length cluster.now.parts }
    ensures { result ≡ (if cluster.now.forced then length cluster.now.parts else 1) }
{
    if cluster.forced {
        cluster.parts.len()
    } else {
        1
    }
}

/// The nodes of a baseline among points of the signal, each given by its sample, rising, and by whether it is fixed: the
/// fixed points, and each other one that every chord between two other points of its stretch passes above. A stretch
/// reaches from one fixed point to the next. The first and the last point must be fixed, and all must lie within the
/// trace. After want of memory nothing is kept. This project's own rule. One step for each point.
fn hull<L: Ledger>(
    alloc: Global,
    points: &[u32],
    fixed: &[bool],
    trace: &Trace,
    steps: &mut Steps<L>,
) -> Result<Nodes, NoMemory>
    requires some { 0 < length points.now }
    requires whole { length fixed.now ≡ length points.now }
    requires rising { IsRising (sample_of points.now) (length points.now) }
    requires within { All (λ p. p < length trace.now.samples) points.now }
    requires first { is_fixed fixed.now 0 ≡ true }
    requires last { is_fixed fixed.now (length points.now - 1) ≡ true }

    ensures nodes { IfOk result (λ nodes. nodes ≡ node_samples trace.now points.now fixed.now) }
    ensures least { steps.old ≤ steps.new }
    ensures most { steps.new ≤ steps.old + length points.now }
{
    let levels = levels_at(alloc, points, trace, steps)?;
    let chain = chain_over(alloc, points, levels.as_slice(), fixed)?;
    let samples = samples_of(alloc, points, chain.as_slice())?;
    Ok(Nodes::from_vec(samples))
}

/// The levels of the signal at these samples, in order. One step for each.
fn levels_at<L: Ledger>(
    alloc: Global,
    points: &[u32],
    trace: &Trace,
    steps: &mut Steps<L>,
) -> Result<Vec<i32>, NoMemory>
    requires within { All (λ p. p < length trace.now.samples) points.now }
    ensures levels { IfOk result (λ v. v.items ≡ map (λ p. sample_at trace.now p) points.now) }
    ensures len { IfOk result (λ v. vec_len v ≡ length points.now) }
    ensures least { steps.old ≤ steps.new }
    ensures most { steps.new ≤ steps.old + length points.now }
{
    let mut levels = Vec::with_capacity(alloc, points.len())?;
    for point in points {
        levels.push(trace.at(*point, steps))?;
    }
    Ok(levels)
}

/// The samples of these points, in order.
fn samples_of(alloc: Global, points: &[u32], chain: &[usize]) -> Result<Vec<u32>, NoMemory>
    requires { All (λ i. i < length points.now) chain.now }
    ensures { IfOk result (λ v. v.items ≡ map (sample_of points.now) chain.now) }
{
    let mut samples = Vec::with_capacity(alloc, chain.len())?;
    for i in chain {
        samples.push(points[*i])?;
    }
    Ok(samples)
}
