//! Timed events: what they are, their ranges, and lists of them.
ghost use Rattle.std.specs.Prelude.{◌≡◌, Decides, IfOk, length, option_copied, slice_get};
ghost use Rattle.cds_base.specs.EventRange.{is_event, is_slope, is_window};
ghost use Rattle.cds_base.specs.EventTime.{is_in_window};

use crate::time::{LAST_TIME_MS, MILLISECOND_US};
use std::alloc::{AllocError, Global};
use std::marker::Model;

/// The greatest slope threshold, in counts per second. The least is 1. This project's own limit.
pub const MOST_SLOPE: u32 = 1_000_000_000;

/// The most events of a method, and of a row. This project's own limit.
pub const MOST_EVENTS: usize = 64;

/// A timed event of a method or of a row. Times are in milliseconds from the start of the trace; a window holds
/// the times from `from` up to and without `to`. The meaning of each kind is this project's own.
#[derive(Clone, Copy, Debug, PartialEq, Eq)]
pub enum Event {
    /// No peak begins, rises or falls in the window.
    Inhibit { from: u32, to: u32 },
    /// A valley in the window is a node of the baseline.
    Valley { from: u32, to: u32 },
    /// A drop line cuts the part that has this time strictly inside.
    Drop { at: u32 },
    /// The baseline is a straight line over the window.
    Baseline { from: u32, to: u32 },
    /// From this time on the slope thresholds are `on` and `off`, in counts per second.
    Slope { at: u32, on: u32, off: u32 },
    /// The peak behind a valley in the window is skimmed off by a tangent.
    Skim { from: u32, to: u32 },
}

impl Event {
    /// Whether the times and the thresholds of an event are in their ranges: a window begins before it ends, no time is
    /// past 14,400,000 milliseconds, and each threshold is from 1 to 1,000,000,000 counts per second. This project's own
    /// rule.
    pub fn is_in_range(&self) -> bool
        ensures { result ≡ is_event self.now }
    {
        match *self {
            Event::Inhibit { from, to } => is_window(from, to),
            Event::Valley { from, to } => is_window(from, to),
            Event::Drop { at } => at <= LAST_TIME_MS,
            Event::Baseline { from, to } => is_window(from, to),
            Event::Slope { at, on, off } => at <= LAST_TIME_MS && is_slope(on) && is_slope(off),
            Event::Skim { from, to } => is_window(from, to),
        }
    }
}

fn is_window(from: u32, to: u32) -> bool
    ensures { result ≡ is_window from to }
{
    from < to && to <= LAST_TIME_MS
}

fn is_slope(slope: u32) -> bool
    ensures { result ≡ is_slope slope }
{
    1 <= slope && slope <= MOST_SLOPE
}

/// Whether a time, in microseconds, lies in the window of an event from `from_ms` up to and without `to_ms`, in
/// milliseconds. This project's own rule.
pub fn is_in_window(from_ms: u32, to_ms: u32, time_us: u64) -> bool
    ensures { result ≡ is_in_window from_ms to_ms time_us }
{
    MILLISECOND_US * u64::from(from_ms) <= time_us && time_us < MILLISECOND_US * u64::from(to_ms)
}

fn are_same(these: &[Event], those: &[Event]) -> bool
    ensures { Decides result (these.now ≡ those.now) }
{
    if these.len() != those.len() {
        return false;
    }
    for place in 0..these.len() {
        if !is_same(&these[place], &those[place]) {
            return false;
        }
    }
    true
}

fn is_same(this: &Event, that: &Event) -> bool
    ensures { Decides result (this.now ≡ that.now) }
{
    this == that
}

/// Timed events in their order. Seen as a list.
#[derive(Debug, Drop)]
pub struct EventList {
    items: Vec<Event>,
}

impl Model for EventList {
    ghost use Rattle.std.specs.Prelude.{List};
    ghost use Rattle.cds_base.specs.declared.event.Event.{Event};

    ghost Value = { List Event };

    ghost view = { λ a. a.items.items };
}

impl EventList {
    /// The list of these items. It takes no memory.
    pub fn from_vec(items: Vec<Event>) -> EventList
        ensures { result ≡ items.items }
    {
        EventList { items }
    }

    /// The events in their order.
    pub fn as_slice(&self) -> &[Event]
        ensures { result.now ≡ self.now }
    {
        self.items.as_slice()
    }

    /// How many events there are.
    pub fn len(&self) -> usize
        ensures { result ≡ length self.now }
    {
        self.items.len()
    }

    /// The event at a place, counted from 0. None exactly where there are not so many.
    pub fn get(&self, i: usize) -> Option<&Event>
        ensures { option_copied result ≡ slice_get self.now i }
    {
        self.items.get(i)
    }

    /// Whether two lists have the same events in the same order.
    pub fn same(&self, other: &EventList) -> bool
        ensures { Decides result (self.now ≡ other.now) }
    {
        are_same(self.as_slice(), other.as_slice())
    }

    /// An equal list with memory of its own.
    pub fn copy(&self) -> Result<EventList, AllocError>
        ensures { IfOk result (λ copy. copy ≡ self.now) }
    {
        let alloc = *self.items.allocator();
        Ok(EventList {
            items: Vec::from_slice(alloc, &self.items)?,
        })
    }
}
