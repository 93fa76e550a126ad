//! Which neighbours are fused.
ghost use Rattle.std.specs.Prelude.{◌≡◌, ◌<◌, ◌≤◌, length};
ghost use Rattle.std.specs.List.{list_any};
ghost use Rattle.cds_events.specs.Runs.{lies_between, fused, run_length};

use crate::pieces::Piece;
use crate::placed::Placed;

/// Whether a forced piece lies between two peaks.
fn lies_between(a: Placed, b: Placed, piece: Piece) -> bool
    ensures { result ≡ lies_between a b piece }
{
    a.apex <= piece.start && piece.end <= b.apex
}

/// Whether one of the forced pieces lies between two peaks.
fn are_parted(a: Placed, b: Placed, pieces: &[Piece]) -> bool
    ensures { result ≡ list_any (lies_between a b) pieces.now }
{
    pieces.iter().any(|piece| lies_between(a, b, *piece))
}

/// Whether two neighbours stand in one cluster, where at most `gap` samples may lie between them.
fn are_fused(gap: u32, pieces: &[Piece], a: Placed, b: Placed) -> bool
    ensures { result ≡ fused gap pieces.now a b }
{
    if a.forced || b.forced {
        return a.forced && b.forced && a.start == b.start;
    }
    u64::from(b.start) <= u64::from(a.end) + u64::from(gap) && !are_parted(a, b, pieces)
}

/// How many peaks the first run of these has, of which there is at least one.
pub(crate) fn run_length(gap: u32, pieces: &[Piece], peaks: &[Placed]) -> usize
    requires { 0 < length peaks.now }
    ensures value { result ≡ run_length (fused gap pieces.now) peaks.now }
    ensures some { 0 < result }
    ensures within { result ≤ length peaks.now }
{
    let mut count = 1;
    while count < peaks.len() && are_fused(gap, pieces, peaks[count - 1], peaks[count]) {
        count += 1;
    }
    count
}
