//! Reading the components of a method's text.
ghost use Rattle.std.specs.Prelude.{◌≡◌, ◌≢◌, All, IfOk};
ghost use Rattle.std.specs.Bool.{OnFalse};
ghost use Rattle.std.specs.List.{list_any};
ghost use Rattle.std.specs.Str.{bytes_eq};
ghost use Rattle.cds_base.specs.Answers.{Gives};
ghost use Rattle.cds_rules.specs.declared.error.MethodError.TheVariants.{NoMemory};
ghost use Rattle.cds_rules.specs.Ranges.{ComponentTimes, ComponentRanges};
ghost use Rattle.cds_rules.specs.Seen.{seen, entry_seen};
ghost use Rattle.cds_rules.specs.Stated.{component_of, components_of};

use crate::component::{Component, ComponentList};
use crate::error::MethodError;
use crate::limits::MOST_COMPONENTS;
use cds_base::{LAST_TIME_MS, Name};
use cds_fields::{Entry, Section};
use toml::Value;

/// The components of a method.
#[tactic(auto, using(cds_fields::proofs::Judging::judging), unfolding(crate::specs::Stated::components_of))]
pub(crate) fn components(
    section: &Section<Value, MethodError>,
) -> Result<ComponentList, MethodError>
    ensures value { Gives NoMemory (λ x. x) (components_of (seen section.now)) result }
    ensures ranges { IfOk result ComponentRanges }
{
    let entries = section.optional_entries("component", MOST_COMPONENTS)?;
    let mut components = Vec::new(section.alloc());
    for place in 0..entries.len() {
        let entry = entries.at(place)?;
        let component = component(components.as_slice(), &entry)?;
        components.push(component)?;
    }
    Ok(ComponentList::from_vec(components))
}

/// A component, whose name is none of those before it.
#[tactic(auto, unfolding(crate::specs::Stated::component_of))]
fn component(
    before: &[Component],
    entry: &Entry<Value, MethodError>,
) -> Result<Component, MethodError>
    ensures value { Gives NoMemory (λ c. c) (component_of before.now (entry_seen entry.now)) result }
    ensures times { IfOk result ComponentTimes }
    ensures differs { IfOk result (λ c. All (λ one. one.name ≢ c.name) before.now) }
{
    let section = entry.section()?;
    let name = section.name("name")?;
    if is_named(before, &name) {
        return Err(MethodError::TwoComponents(name));
    }
    let time_ms = section.number("time_ms", 0, u64::from(LAST_TIME_MS))? as u32;
    let window_ms = section.number("window_ms", 0, u64::from(LAST_TIME_MS))? as u32;
    section.only(&["name", "time_ms", "window_ms"])?;
    Ok(Component {
        name,
        time_ms,
        window_ms,
    })
}

#[tactic(auto, using(crate::proofs::Names::other_names))]
fn is_named(components: &[Component], name: &Name) -> bool
    ensures value { result ≡ list_any (λ c. bytes_eq c.name name.now) components.now }
    ensures absent { OnFalse result (All (λ c. c.name ≢ name.now) components.now) }
{
    components.iter().any(|component| component.name == *name)
}
