//! Reading a method from its text.
ghost use Rattle.std.specs.Prelude.{IfOk};
ghost use Rattle.cds_base.specs.Answers.{Gives};
ghost use Rattle.cds_base.specs.EventRange.{EventRanges};
ghost use Rattle.cds_fields.specs.Section.{only};
ghost use Rattle.cds_rules.specs.declared.error.MethodError.TheVariants.{NoMemory};
ghost use Rattle.cds_rules.specs.Fields.{fields_of};
ghost use Rattle.cds_rules.specs.Seen.{seen};
ghost use Rattle.cds_rules.specs.Stated.{method_of, method_events, top_fields, stated};

use crate::error::MethodError;
use crate::limits::MOST_METHOD_BYTES;
use crate::method::Method;
use crate::read_check::checks;
use crate::read_component::components;
use crate::read_settings::settings;
use cds_base::{EventList, MOST_EVENTS};
use cds_fields::{Section, read_toml};
use std::alloc::Global;
use toml::Value;

impl Method {
    /// The method that a text states, which is TOML in UTF-8. Where it states none, its first refusal: TooLong
    /// above 65,536 bytes; NotToml; then the fields of the text in their order, each Missing or out of its
    /// Range; then its Unknown fields, the least in byte order first; then its components, its events and its
    /// checks, each list with Range where it is no list, TooMany, and then entry by entry its fields in their
    /// order and its Unknown ones. A component's second equal name is TwoComponents where the name stands.
    /// NoMemory says nothing of the text. The form of the text is this project's own.
    #[tactic(auto, unfolding(crate::specs::Stated::stated))]
    pub fn read_toml(alloc: Global, bytes: &[u8]) -> Result<Method, MethodError>
        ensures { Gives NoMemory fields_of (stated bytes.now) result }
    {
        if bytes.len() > MOST_METHOD_BYTES {
            return Err(MethodError::TooLong);
        }
        let Some(table) = read_toml(alloc, bytes)? else {
            return Err(MethodError::NotToml);
        };
        method(&Section::top(alloc, &table))
    }
}

/// The method that the table of a text states.
#[tactic(auto, unfolding(crate::specs::Stated::method_of))]
fn method(section: &Section<Value, MethodError>) -> Result<Method, MethodError>
    ensures { Gives NoMemory fields_of (method_of (seen section.now)) result }
{
    let settings = settings(section)?;
    only_top(section)?;
    let components = components(section)?;
    let events = events(section)?;
    let checks = checks(components.as_slice(), section)?;
    Ok(Method {
        bunch: settings.bunch,
        slope_on: settings.slope_on,
        slope_off: settings.slope_off,
        plateau: settings.plateau,
        fuse: settings.fuse,
        min_area: settings.min_area,
        min_height: settings.min_height,
        weight: settings.weight,
        dead_time_us: settings.dead_time_us,
        noise_from_ms: settings.noise_from_ms,
        noise_to_ms: settings.noise_to_ms,
        rules: settings.rules,
        components,
        events,
        checks,
    })
}

/// The timed events of a method.
#[tactic(auto, unfolding(crate::specs::Stated::method_events))]
fn events(section: &Section<Value, MethodError>) -> Result<EventList, MethodError>
    ensures value { Gives NoMemory (λ x. x) (method_events (seen section.now)) result }
    ensures ranges { IfOk result EventRanges }
{
    let entries = section.optional_entries("event", MOST_EVENTS)?;
    cds_fields::events(&entries)
}

/// Refuses the first field that a method's text may not have.
fn only_top(section: &Section<Value, MethodError>) -> Result<(), MethodError>
    ensures { Gives NoMemory (λ x. x) (only top_fields (seen section.now)) result }
{
    section.only(&[
        "bunch",
        "slope_on",
        "slope_off",
        "plateau",
        "fuse",
        "min_area",
        "min_height",
        "weight",
        "dead_time_us",
        "noise_from_ms",
        "noise_to_ms",
        "rules",
        "component",
        "event",
        "check",
    ])
}
