//! Reading timed events.
ghost use Rattle.std.specs.Prelude.{◌≡◌, IfOk, option_map};
ghost use Rattle.cds_codec.specs.Reading.{event_at, event_of, events_at};

use crate::fields::{byte_at, byte_in, u32_at};
use crate::items::{Item, items_at};
use cds_base::{Event, EventList, MOST_EVENTS};
use std::alloc::{AllocError, Global};

/// Events behind the byte of their number.
#[tactic(auto, unfolding(crate::specs::Reading::events_at))]
pub(crate) fn events_at(
    alloc: Global,
    bytes: &[u8],
) -> Result<Option<(EventList, &[u8])>, AllocError>
    ensures { IfOk result (λ o. option_map (λ x. (x.0, x.1.now)) o ≡ events_at bytes.now) }
{
    let Some((count, rest)) = byte_in(0, MOST_EVENTS, bytes) else {
        return Ok(None);
    };
    let Some((events, rest)) = items_at(alloc, u32::from(count), rest)? else {
        return Ok(None);
    };
    Ok(Some((EventList::from_vec(events), rest)))
}

impl Item for Event {
    ghost read = { event_at };

    fn read(_alloc: Global, bytes: &[u8]) -> Result<Option<(Event, &[u8])>, AllocError> {
        Ok(event_at(bytes))
    }
}

/// An event: the byte of its kind, and three numbers.
#[tactic(auto, unfolding(crate::specs::Reading::event_at))]
fn event_at(bytes: &[u8]) -> Option<(Event, &[u8])>
    ensures { option_map (λ x. (x.0, x.1.now)) result ≡ event_at bytes.now }
{
    let (kind, rest) = byte_at(bytes)?;
    let (a, rest) = u32_at(rest)?;
    let (b, rest) = u32_at(rest)?;
    let (c, rest) = u32_at(rest)?;
    let event = event_of(kind, a, b, c)?;
    if !event.is_in_range() {
        return None;
    }
    Some((event, rest))
}

/// The event of a kind and three numbers. None exactly where the kind is none, or a number that the kind doesn't have
/// isn't 0.
fn event_of(kind: u8, a: u32, b: u32, c: u32) -> Option<Event>
    ensures { result ≡ event_of kind a b c }
{
    match (kind, b, c) {
        (5, _, _) => Some(Event::Slope {
            at: a,
            on: b,
            off: c,
        }),
        (1, _, 0) => Some(Event::Inhibit { from: a, to: b }),
        (2, _, 0) => Some(Event::Valley { from: a, to: b }),
        (4, _, 0) => Some(Event::Baseline { from: a, to: b }),
        (6, _, 0) => Some(Event::Skim { from: a, to: b }),
        (3, 0, 0) => Some(Event::Drop { at: a }),
        _ => None,
    }
}
