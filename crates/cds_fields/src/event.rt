//! Reading the timed events of a text.
ghost use Rattle.std.specs.Prelude.{◌≡◌, ◌<◌, ◌≤◌, true, IfOk, length, ℕ};
ghost use Rattle.std.specs.List.{AllPass};
ghost use Rattle.cds_base.specs.declared.event.Event.{Event};
ghost use Rattle.cds_base.specs.declared.time.TheConstants.{LAST_TIME_MS};
ghost use Rattle.cds_base.specs.EventRange.{is_event};
ghost use Rattle.cds_fields.specs.Event.{events_of, event_of, window_of, drop_of, slope_of};
ghost use Rattle.cds_fields.specs.Refusals.{Judges};
ghost use Rattle.cds_fields.specs.Seen.{seen, list_seen, entry_seen};

use crate::entries::{Entries, Entry};
use crate::refusal::Refusal;
use crate::section::Section;
use crate::value::TextValue;
use cds_base::{Event, EventList, LAST_TIME_MS, MOST_SLOPE};

/// The timed events of a list, one for each of its entries, each in its ranges.
#[tactic(auto, using(crate::proofs::Judging::judging))]
pub fn events<V: TextValue, E: Refusal>(entries: &Entries<V, E>) -> Result<EventList, E>
    ensures value { Judges E.told (λ x. x) (events_of (list_seen V.shown E.told entries.now)) result }
    ensures count { IfOk result (λ events. length events ≡ length (list_seen V.shown E.told entries.now).values) }
    ensures each { IfOk result (AllPass is_event) }
{
    let mut events = Vec::new(entries.alloc());
    for place in 0..entries.len() {
        let entry = entries.at(place)?;
        let event = event(&entry)?;
        let Ok(()) = events.push(event) else {
            return Err(E::no_memory());
        };
    }
    Ok(EventList::from_vec(events))
}

/// An event.
#[tactic(auto, unfolding(crate::specs::Event::event_of, crate::specs::Section::required))]
fn event<V: TextValue, E: Refusal>(entry: &Entry<V, E>) -> Result<Event, E>
    ensures value { Judges E.told (λ e. e) (event_of (entry_seen V.shown E.told entry.now)) result }
    ensures ranges { IfOk result (λ e. is_event e ≡ true) }
{
    let section = entry.section()?;
    match section.needed("kind")?.as_word() {
        Some("inhibit") => {
            let (from, to) = window(&section)?;
            Ok(Event::Inhibit { from, to })
        }
        Some("valley") => {
            let (from, to) = window(&section)?;
            Ok(Event::Valley { from, to })
        }
        Some("baseline") => {
            let (from, to) = window(&section)?;
            Ok(Event::Baseline { from, to })
        }
        Some("skim") => {
            let (from, to) = window(&section)?;
            Ok(Event::Skim { from, to })
        }
        Some("drop") => drop_line(&section),
        Some("slope") => slope(&section),
        _ => section.in_range("kind", None),
    }
}

/// The window of an event, which begins before it ends.
#[tactic(auto, unfolding(crate::specs::Event::window_of))]
fn window<V: TextValue, E: Refusal>(section: &Section<V, E>) -> Result<(u32, u32), E>
    ensures value { (kind : ℕ → ℕ → Event) → Judges E.told (λ w. kind w.0 w.1)
        (window_of kind (seen V.shown E.told section.now)) result }
    ensures order { IfOk result (λ w. w.0 < w.1) }
    ensures most { IfOk result (λ w. w.1 ≤ LAST_TIME_MS) }
{
    let from = section.number("from_ms", 0, u64::from(LAST_TIME_MS))?;
    let to = section.number("to_ms", from + 1, u64::from(LAST_TIME_MS))?;
    section.only(&["kind", "from_ms", "to_ms"])?;
    Ok((from as u32, to as u32))
}

/// A drop line at one time.
#[tactic(auto, unfolding(crate::specs::Event::drop_of))]
fn drop_line<V: TextValue, E: Refusal>(section: &Section<V, E>) -> Result<Event, E>
    ensures value { Judges E.told (λ e. e) (drop_of (seen V.shown E.told section.now)) result }
    ensures ranges { IfOk result (λ e. is_event e ≡ true) }
{
    let at = section.number("at_ms", 0, u64::from(LAST_TIME_MS))? as u32;
    section.only(&["kind", "at_ms"])?;
    Ok(Event::Drop { at })
}

/// New slope thresholds from one time on.
#[tactic(auto, unfolding(crate::specs::Event::slope_of))]
fn slope<V: TextValue, E: Refusal>(section: &Section<V, E>) -> Result<Event, E>
    ensures value { Judges E.told (λ e. e) (slope_of (seen V.shown E.told section.now)) result }
    ensures ranges { IfOk result (λ e. is_event e ≡ true) }
{
    let at = section.number("at_ms", 0, u64::from(LAST_TIME_MS))? as u32;
    let on = section.number("on", 1, u64::from(MOST_SLOPE))? as u32;
    let off = section.number("off", 1, u64::from(MOST_SLOPE))? as u32;
    section.only(&["kind", "at_ms", "on", "off"])?;
    Ok(Event::Slope { at, on, off })
}
