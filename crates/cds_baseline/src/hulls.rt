//! The chain of vertices over points, as it is kept while points are added.
ghost use Rattle.std.specs.Prelude.{◌≡◌, ◌+◌, ◌-◌, ◌<◌, ◌≤◌, false, IfOk, length, pos, ◌*ℤ◌};
ghost use Rattle.std.specs.Vec.{vec_len};
ghost use Rattle.cds_baseline.specs.Chord.{is_below};
ghost use Rattle.cds_baseline.specs.Nodes.{sample_of};
ghost use Rattle.cds_baseline.specs.Chain.{level_of, vertex, under_of, IsRising, IsPoints, ChainOf, ReachedFrom, hides_top};

use cds_base::{Line, NoMemory};
use cds_trace::{level_by_span, span};
use std::alloc::Global;

/// The chain over all points: their numbers, in order.
pub(crate) fn chain_over(
    alloc: Global,
    points: &[u32],
    levels: &[i32],
    fixed: &[bool],
) -> Result<Vec<usize>, NoMemory>
    requires points { IsPoints points.now levels.now fixed.now }
    ensures chain { IfOk result (λ c. ChainOf points.now levels.now fixed.now c.items (vec_len c)) }
    ensures whole { IfOk result
        (λ c. 0 < length points.now → (0 < vec_len c) × (vertex c.items (vec_len c - 1) + 1 ≡ length points.now)) }
{
    let mut chain = Vec::with_capacity(alloc, points.len())?;
    for next in 0..points.len() {
        let count = kept(chain.as_slice(), next, points, levels, fixed);
        chain.truncate(count);
        chain.push(next)?;
    }
    Ok(chain)
}

/// A point of a cluster: its sample and the level there.
#[derive(Clone, Copy)]
struct Point {
    sample: u32,
    level: i32,
}

/// The chord from `a` to `b`.
fn chord_of(a: Point, b: Point) -> Line
    ensures { result ≡ record { from = a.sample; from_y = a.level; to = b.sample; to_y = b.level } }
{
    Line {
        from: a.sample,
        from_y: a.level,
        to: b.sample,
        to_y: b.level,
    }
}

/// A level times a number of samples.
fn product(level: i32, samples: u32) -> i64
    ensures { result ≡ level *ℤ pos samples }
{
    i64::from(level) * i64::from(samples)
}

/// Whether the point lies below the line.
fn is_below(point: Point, line: Line) -> bool
    requires left { line.from < point.sample }
    requires right { point.sample < line.to }
    ensures { result ≡ is_below line point.sample point.level }
{
    product(point.level, span(line)) < level_by_span(&line, point.sample)
}

/// Point `i`.
fn point_at(points: &[u32], levels: &[i32], i: usize) -> Point
    requires within { i < length points.now }
    requires levels { length levels.now ≡ length points.now }
    ensures sample { result.sample ≡ sample_of points.now i }
    ensures level { result.level ≡ level_of levels.now i }
{
    Point {
        sample: points[i],
        level: levels[i],
    }
}

/// Whether the chord from point `a` to point `b` passes above point `i`.
fn passes_above(points: &[u32], levels: &[i32], a: usize, i: usize, b: usize) -> bool
    requires left { a < i }
    requires right { i < b }
    requires within { b < length points.now }
    requires levels { length levels.now ≡ length points.now }
    requires rising { IsRising (sample_of points.now) (length points.now) }
    ensures { result ≡ under_of (sample_of points.now) (level_of levels.now) a i b }
{
    let first = point_at(points, levels, a);
    let middle = point_at(points, levels, i);
    let last = point_at(points, levels, b);
    is_below(middle, chord_of(first, last))
}

/// Whether the last of the first `count` vertices of the chain is left out by the chord from the one before it to the
/// point `next`.
fn is_top_hidden(
    chain: &[usize],
    count: usize,
    next: usize,
    points: &[u32],
    levels: &[i32],
    fixed: &[bool],
) -> bool
    requires points { IsPoints points.now levels.now fixed.now }
    requires chain { ChainOf points.now levels.now fixed.now chain.now count }
    requires reached { ReachedFrom points.now levels.now fixed.now chain.now count next }
    requires within { next < length points.now }
    requires count { count ≤ length chain.now }
    ensures { result ≡ hides_top points.now levels.now fixed.now chain.now count next }
{
    if count < 2 {
        return false;
    }
    let top = chain[count - 1];
    if fixed[top] {
        return false;
    }
    !passes_above(points, levels, chain[count - 2], top, next)
}

/// How many vertices of the chain stay when the point `next` is added: the others are left out by the chord to it.
fn kept(chain: &[usize], next: usize, points: &[u32], levels: &[i32], fixed: &[bool]) -> usize
    requires points { IsPoints points.now levels.now fixed.now }
    requires chain { ChainOf points.now levels.now fixed.now chain.now (length chain.now) }
    requires reached { ReachedFrom points.now levels.now fixed.now chain.now (length chain.now) next }
    requires within { next < length points.now }
    ensures few { result ≤ length chain.now }
    ensures some { 0 < length chain.now → 0 < result }
    ensures reached { ReachedFrom points.now levels.now fixed.now chain.now result next }
    ensures bends { hides_top points.now levels.now fixed.now chain.now result next ≡ false }
{
    let mut count = chain.len();
    while is_top_hidden(chain, count, next, points, levels, fixed) {
        count -= 1;
    }
    count
}
