//! Forced baselines: the pieces of a trace over which an event forces one straight baseline.
ghost use Rattle.std.specs.Prelude.{◌≡◌, ◌≤◌, ◌++◌, OnOk, IfOk};
ghost use Rattle.std.specs.List.{fold, list_any};
ghost use Rattle.cds_events.specs.Pieces.{sample_of_time, piece_between, piece_of, overlaps, and_piece, and_piece_of};
ghost use Rattle.cds_events.specs.Pieces.{pieces_of};

use cds_base::{Event, MILLISECOND_US, NoMemory};
use cds_rules::Method;
use cds_trace::Trace;
use std::alloc::Global;
use std::marker::Model;

/// A piece of the trace with a forced baseline, from the sample `start` to the sample `end`. Seen as a plain record.
#[derive(Clone, Copy, Debug)]
pub(crate) struct Piece {
    pub start: u32,
    pub end: u32,
}

impl Model for Piece {
    ghost use Rattle.cds_events.specs.Pieces.{Piece as Shown};

    ghost Value = { Shown };

    ghost view = { λ p. record { start = p.start; end = p.end } };

    ghost inverse = { λ p. record { start = p.start; end = p.end } };
}

/// The last sample that doesn't lie behind a time in milliseconds. The period is in microseconds.
pub(crate) fn sample_of_time(period: u64, ms: u32) -> u64
    requires { 1 ≤ period }
    ensures { result ≡ sample_of_time period ms }
{
    MILLISECOND_US * u64::from(ms) / period
}

/// The piece from one time in milliseconds to another, or to the last sample; None where that isn't behind its start.
fn piece_between(trace: &Trace, from: u32, to: u32) -> Option<Piece>
    ensures { result ≡ piece_between trace.now from to }
{
    let last = trace.len() - 1;
    let period = trace.period();
    let start = sample_of_time(period, from);
    let end = sample_of_time(period, to).min(u64::from(last));
    if start < end {
        Some(Piece {
            start: start as u32,
            end: end as u32,
        })
    } else {
        None
    }
}

/// The piece of a baseline event.
fn piece_of(trace: &Trace, event: Event) -> Option<Piece>
    ensures { result ≡ piece_of trace.now event }
{
    match event {
        Event::Baseline { from, to } => piece_between(trace, from, to),
        _ => None,
    }
}

/// Whether two pieces share more than an end.
fn overlaps(a: Piece, b: Piece) -> bool
    ensures { result ≡ overlaps a b }
{
    a.start < b.end && b.start < a.end
}

/// Whether the piece shares more than an end with one of these.
fn overlaps_any(piece: Piece, earlier: &[Piece]) -> bool
    ensures { result ≡ list_any (overlaps piece) earlier.now }
{
    earlier.iter().any(|other| overlaps(piece, *other))
}

/// Puts the piece behind those with effect so far, where it has effect itself.
fn add_piece(earlier: &mut Vec<Piece>, piece: Option<Piece>) -> Result<(), NoMemory>
    ensures { OnOk result (earlier.new.items ≡ and_piece earlier.old.items piece) }
{
    let Some(piece) = piece else {
        return Ok(());
    };
    if overlaps_any(piece, earlier) {
        return Ok(());
    }
    earlier.push(piece)?;
    Ok(())
}

/// Puts the pieces of these events that have effect behind those with effect so far.
fn add_pieces(earlier: &mut Vec<Piece>, trace: &Trace, events: &[Event]) -> Result<(), NoMemory>
    ensures { OnOk result (earlier.new.items ≡ fold (and_piece_of trace.now) earlier.old.items events.now) }
{
    for event in events {
        add_piece(earlier, piece_of(trace, *event))?;
    }
    Ok(())
}

/// The forced pieces with effect, in the order of their events: the method's and then the row's.
pub(crate) fn forced_pieces(
    alloc: Global,
    trace: &Trace,
    method: &Method,
    manual: &[Event],
) -> Result<Vec<Piece>, NoMemory>
    ensures { IfOk result (λ v. v.items ≡ pieces_of trace.now (method.now.events ++ manual.now)) }
{
    let mut pieces = Vec::new(alloc);
    add_pieces(&mut pieces, trace, method.events.as_slice())?;
    add_pieces(&mut pieces, trace, manual)?;
    Ok(pieces)
}
