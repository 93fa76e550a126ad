//! Reading the fields of a method's text that are no lists.
ghost use Rattle.std.specs.Prelude.{◌≡◌, ◌<◌, ◌≤◌, ℕ, Some, IfOk, codes, is_some};
ghost use Rattle.cds_base.specs.Answers.{Gives};
ghost use Rattle.cds_base.specs.declared.time.TheConstants.{LAST_TIME_MS};
ghost use Rattle.cds_fields.specs.Section.{required};
ghost use Rattle.cds_fields.specs.Values.{one_of};
ghost use Rattle.cds_rules.specs.Fields.{fields_of};
ghost use Rattle.cds_rules.specs.Ranges.{RulesRange};
ghost use Rattle.cds_rules.specs.Seen.{seen};
ghost use Rattle.cds_rules.specs.Stated.{settings_of, noise_of, rules_of};
ghost use Rattle.cds_rules.specs.Values.{weights};
ghost use Rattle.cds_rules.specs.declared.error.MethodError.TheVariants.{NoMemory};

use crate::check::CheckList;
use crate::component::ComponentList;
use crate::error::MethodError;
use crate::limits::{
    FIRST_RULES, LAST_RULES, MOST_AREA, MOST_BUNCH, MOST_FUSE, MOST_HEIGHT, MOST_PLATEAU,
};
use crate::method::{Method, Weight};
use crate::values::weight_in;
use cds_base::{EventList, LAST_TIME_MS, LAST_TIME_US, MOST_SLOPE};
use cds_fields::Section;
use toml::Value;

/// The fields of a method that are no lists, in the order of judging. The lists of the method are still empty.
#[tactic(auto, unfolding(crate::specs::Stated::settings_of))]
pub(crate) fn settings(section: &Section<Value, MethodError>) -> Result<Method, MethodError>
    ensures { Gives NoMemory fields_of (settings_of (seen section.now)) result }
{
    let bunch = section.number("bunch", 1, u64::from(MOST_BUNCH))? as u32;
    let slope_on = section.number("slope_on", 1, u64::from(MOST_SLOPE))? as u32;
    let slope_off = section.number("slope_off", 1, u64::from(MOST_SLOPE))? as u32;
    let plateau = section.number("plateau", 0, u64::from(MOST_PLATEAU))? as u32;
    let fuse = section.number("fuse", 0, u64::from(MOST_FUSE))? as u32;
    let min_area = section.number("min_area", 0, MOST_AREA)?;
    let min_height = section.number("min_height", 0, u64::from(MOST_HEIGHT))? as u32;
    let weight = weight(section)?;
    let dead_time_us = section.optional_number("dead_time_us", 1, LAST_TIME_US)?;
    let noise = noise_window(section)?;
    let rules = rules(section)?;
    let alloc = section.alloc();
    Ok(Method {
        bunch,
        slope_on,
        slope_off,
        plateau,
        fuse,
        min_area,
        min_height,
        weight,
        dead_time_us,
        noise_from_ms: noise.from_ms,
        noise_to_ms: noise.to_ms,
        rules,
        components: ComponentList::from_vec(Vec::new(alloc)),
        events: EventList::from_vec(Vec::new(alloc)),
        checks: CheckList::from_vec(Vec::new(alloc)),
    })
}

/// The weighting of the points of calibration.
#[tactic(auto, unfolding(cds_fields::specs::Section::required))]
fn weight(section: &Section<Value, MethodError>) -> Result<Weight, MethodError>
    ensures { Gives NoMemory (λ x. x) (required (one_of weights) (codes "weight") (seen section.now)) result }
{
    let value = section.needed("weight")?;
    section.in_range("weight", weight_in(value))
}

/// The ends of the noise window: both or none, and it begins before it ends.
#[derive(Clone, Copy)]
struct Noise {
    from_ms: Option<u32>,
    to_ms: Option<u32>,
    ghost both: { is_some from_ms ≡ is_some to_ms },
    ghost order: { (from : ℕ) → from_ms ≡ Some from → (to : ℕ) → to_ms ≡ Some to → from < to },
    ghost most: { (to : ℕ) → to_ms ≡ Some to → to ≤ LAST_TIME_MS },
}

/// The noise window: where one end is there both must be.
#[tactic(auto, unfolding(crate::specs::Stated::noise_of))]
fn noise_window(section: &Section<Value, MethodError>) -> Result<Noise, MethodError>
    ensures { Gives NoMemory (λ x. record { from_ms = x.from_ms; to_ms = x.to_ms })
        (noise_of (seen section.now)) result }
{
    if !section.has("noise_from_ms") && !section.has("noise_to_ms") {
        return Ok(Noise {
            from_ms: None,
            to_ms: None,
        });
    }
    let from = section.number("noise_from_ms", 0, u64::from(LAST_TIME_MS))?;
    let to = section.number("noise_to_ms", from + 1, u64::from(LAST_TIME_MS))?;
    Ok(Noise {
        from_ms: Some(from as u32),
        to_ms: Some(to as u32),
    })
}

/// The edition of the rules, which is the first where none is stated.
#[tactic(auto, unfolding(crate::specs::Stated::rules_of, cds_fields::specs::Section::optional))]
fn rules(section: &Section<Value, MethodError>) -> Result<u8, MethodError>
    ensures value { Gives NoMemory (λ x. x) (rules_of (seen section.now)) result }
    ensures range { IfOk result RulesRange }
{
    let rules = section.optional_number("rules", u64::from(FIRST_RULES), u64::from(LAST_RULES))?;
    match rules {
        Some(rules) => Ok(rules as u8),
        None => Ok(FIRST_RULES),
    }
}
