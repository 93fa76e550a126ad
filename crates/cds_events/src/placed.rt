//! Raw peaks where they stand among the forced pieces.
ghost use Rattle.std.specs.Prelude.{◌≡◌, IfOk};
ghost use Rattle.std.specs.List.{fold, find};
ghost use Rattle.cds_events.specs.Placed.{belongs, trimmed, over_range, place, is_peak, placed_peaks};

use crate::pieces::Piece;
use cds_base::{NoMemory, RawPeak};
use std::alloc::Global;
use std::marker::Model;

/// A raw peak where it stands among the forced pieces: over the range of the piece that it belongs to, or over what
/// they all leave of its own. Seen as a plain record.
#[derive(Clone, Copy, Debug)]
pub(crate) struct Placed {
    pub start: u32,
    pub apex: u32,
    pub end: u32,
    /// Whether it belongs to a forced piece.
    pub forced: bool,
}

impl Model for Placed {
    ghost use Rattle.cds_events.specs.Placed.{Placed as Shown};

    ghost Value = { Shown };

    ghost view = { λ p. record { start = p.start; apex = p.apex; end = p.end; forced = p.forced } };

    ghost inverse = { λ p. record { start = p.start; apex = p.apex; end = p.end; forced = p.forced } };
}

/// Whether a raw peak belongs to a forced piece.
fn belongs(peak: RawPeak, piece: Piece) -> bool
    ensures { result ≡ belongs peak piece }
{
    piece.start < peak.apex && peak.apex < piece.end
}

/// The forced piece that a raw peak belongs to.
fn piece_around(peak: RawPeak, pieces: &[Piece]) -> Option<Piece>
    ensures { result ≡ find (belongs peak) pieces.now }
{
    pieces.iter().copied().find(|piece| belongs(peak, *piece))
}

/// What a forced piece leaves of a raw peak outside of it.
fn trimmed(peak: RawPeak, piece: Piece) -> RawPeak
    ensures { result ≡ trimmed peak piece }
{
    let start = if piece.end <= peak.apex {
        peak.start.max(piece.end)
    } else {
        peak.start
    };
    let end = if peak.apex <= piece.start {
        peak.end.min(piece.start)
    } else {
        peak.end
    };
    RawPeak {
        start,
        apex: peak.apex,
        end,
    }
}

/// What forced pieces leave of a raw peak outside of them.
fn trimmed_by(mut peak: RawPeak, pieces: &[Piece]) -> RawPeak
    ensures { result ≡ fold trimmed peak pieces.now }
{
    for piece in pieces {
        peak = trimmed(peak, *piece);
    }
    peak
}

/// A raw peak over the range of the piece that it belongs to, or over its own.
fn over_range(piece: Option<Piece>, peak: RawPeak) -> Placed
    ensures { result ≡ over_range piece peak }
{
    match piece {
        Some(piece) => Placed {
            start: piece.start,
            apex: peak.apex,
            end: piece.end,
            forced: true,
        },
        None => Placed {
            start: peak.start,
            apex: peak.apex,
            end: peak.end,
            forced: false,
        },
    }
}

/// Where a raw peak stands among the forced pieces.
fn place(peak: RawPeak, pieces: &[Piece]) -> Placed
    ensures { result ≡ place pieces.now peak }
{
    over_range(piece_around(peak, pieces), trimmed_by(peak, pieces))
}

/// Whether the apex lies strictly between the ends.
fn is_peak(peak: Placed) -> bool
    ensures { result ≡ is_peak peak }
{
    peak.start < peak.apex && peak.apex < peak.end
}

/// The raw peaks among the forced pieces, without those whose apex is then their first or last sample.
pub(crate) fn placed_peaks(
    alloc: Global,
    raw: &[RawPeak],
    pieces: &[Piece],
) -> Result<Vec<Placed>, NoMemory>
    ensures { IfOk result (λ v. v.items ≡ placed_peaks pieces.now raw.now) }
{
    let mut peaks = Vec::with_capacity(alloc, raw.len())?;
    for peak in raw {
        let placed = place(*peak, pieces);
        if is_peak(placed) {
            peaks.push(placed)?;
        }
    }
    Ok(peaks)
}
