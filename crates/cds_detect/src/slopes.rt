//! Which slope thresholds are in force, and where no peak may be.
ghost use Rattle.std.specs.Prelude.{◌≡◌};
ghost use Rattle.cds_detect.specs.Slopes.{inhibits, is_inhibited, slopes_set, later_of, in_force, slopes_at};
ghost use Rattle.cds_detect.specs.Settings.{settings_of};
ghost use Rattle.cds_rules.specs.Fields.{fields_of};

use cds_base::{Event, MILLISECOND_US, is_in_window};
use cds_rules::Method;
use std::marker::Model;

/// Slope thresholds in counts per second, and the time in milliseconds from which on they are in force. Seen as a plain
/// record.
#[derive(Clone, Copy, Debug)]
pub(crate) struct Slopes {
    pub at: u32,
    pub on: u32,
    pub off: u32,
}

impl Model for Slopes {
    ghost use Rattle.cds_detect.specs.Slopes.{Slopes as Shown};

    ghost Value = { Shown };

    ghost view = { λ s. record { at = s.at; on = s.on; off = s.off } };

    ghost inverse = { λ s. record { at = s.at; on = s.on; off = s.off } };
}

/// Whether one of the events forbids peaks at the time, in microseconds.
pub(crate) fn is_inhibited(events: &[Event], time: u64) -> bool
    ensures { result ≡ is_inhibited events.now time }
{
    events.iter().any(|event| inhibits(*event, time))
}

/// Whether the event forbids peaks at the time, in microseconds; its window doesn't have its end.
fn inhibits(event: Event, time: u64) -> bool
    ensures { result ≡ inhibits time event }
{
    match event {
        Event::Inhibit { from, to } => is_in_window(from, to, time),
        _ => false,
    }
}

/// The thresholds at a time, in microseconds: those of the slope event in force, among the method's and then the
/// row's, and the method's own where there is none.
#[tactic(auto, using(crate::proofs::SlopesLaws::more_laws))]
pub(crate) fn slopes_at(method: &Method, manual: &[Event], time: u64) -> Slopes
    ensures { let settings = settings_of (fields_of method.now) manual.now in result
        ≡ slopes_at settings.own settings.events time }
{
    let own = Slopes {
        at: 0,
        on: method.slope_on,
        off: method.slope_off,
    };
    later_of(
        in_force(method.events.as_slice(), time),
        in_force(manual, time),
    )
    .unwrap_or(own)
}

/// The thresholds of the slope event with the greatest time not above this one, in microseconds; of equal times
/// the later in the list.
#[tactic(auto, using(crate::proofs::SlopesLaws::more_laws))]
fn in_force(events: &[Event], time: u64) -> Option<Slopes>
    ensures { result ≡ in_force events.now time }
{
    let mut latest = None;
    for event in events {
        latest = later_of(latest, slopes_set(*event, time));
    }
    latest
}

/// The thresholds that the event sets at the time, in microseconds, where it is a slope event not after it.
fn slopes_set(event: Event, time: u64) -> Option<Slopes>
    ensures { result ≡ slopes_set time event }
{
    match event {
        Event::Slope { at, on, off } if MILLISECOND_US * u64::from(at) <= time => {
            Some(Slopes { at, on, off })
        }
        _ => None,
    }
}

/// Of two settings the later one, and the second where they have the same time.
fn later_of(first: Option<Slopes>, second: Option<Slopes>) -> Option<Slopes>
    ensures { result ≡ later_of first second }
{
    match (first, second) {
        (Some(before), Some(after)) if after.at < before.at => first,
        (_, None) => first,
        _ => second,
    }
}
