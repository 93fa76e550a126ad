//! Reading the checks of a method's text.
ghost use Rattle.std.specs.Prelude.{◌≡◌, ◌≢◌, ◌≤◌, ℕ, Some, IfOk, codes, length, is_some};
ghost use Rattle.cds_base.specs.Answers.{Gives};
ghost use Rattle.cds_fields.specs.Section.{required, only};
ghost use Rattle.cds_fields.specs.Values.{one_of};
ghost use Rattle.cds_rules.specs.declared.error.MethodError.TheVariants.{NoMemory};
ghost use Rattle.cds_rules.specs.declared.limits.TheConstants.{MOST_COMPONENTS};
ghost use Rattle.cds_rules.specs.Ranges.{CheckRange, CheckRanges, has_other, most_limit};
ghost use Rattle.cds_rules.specs.Seen.{seen, entry_seen};
ghost use Rattle.cds_rules.specs.Stated.{other_of, check_fields, check_of, checks_of};
ghost use Rattle.cds_rules.specs.Values.{check_kinds, component_in};

use crate::check::{Check, CheckKind, CheckList};
use crate::component::Component;
use crate::error::MethodError;
use crate::limits::{MOST_CHECKS, MOST_COMPONENTS, MOST_LIMIT, MOST_R2_LIMIT};
use crate::values::{check_kind_in, component_in, other_in};
use cds_fields::{Entry, Section};
use toml::Value;

/// The checks of a method with these components.
#[tactic(auto, using(cds_fields::proofs::Judging::judging), unfolding(crate::specs::Stated::checks_of))]
pub(crate) fn checks(
    components: &[Component],
    section: &Section<Value, MethodError>,
) -> Result<CheckList, MethodError>
    requires { length components.now ≤ MOST_COMPONENTS }
    ensures value { Gives NoMemory (λ x. x) (checks_of components.now (seen section.now)) result }
    ensures ranges { IfOk result (CheckRanges components.now) }
{
    let entries = section.optional_entries("check", MOST_CHECKS)?;
    let mut checks = Vec::new(section.alloc());
    for place in 0..entries.len() {
        let entry = entries.at(place)?;
        let check = check(components, &entry)?;
        checks.push(check)?;
    }
    Ok(CheckList::from_vec(checks))
}

/// A check of one of these components.
#[tactic(auto, unfolding(crate::specs::Stated::check_of))]
fn check(components: &[Component], entry: &Entry<Value, MethodError>) -> Result<Check, MethodError>
    requires { length components.now ≤ MOST_COMPONENTS }
    ensures value { Gives NoMemory (λ x. x) (check_of components.now (entry_seen entry.now)) result }
    ensures range { IfOk result (CheckRange (length components.now)) }
{
    let section = entry.section()?;
    let kind = check_kind(&section)?;
    let component = component(components, &section)?;
    let other = other(kind, components, component, &section)?;
    let limit = section.number("limit", 1, most_limit(kind))? as u32;
    only_fields(kind, &section)?;
    Ok(Check {
        kind,
        component,
        other,
        limit,
    })
}

/// The kind of a check.
#[tactic(auto, unfolding(cds_fields::specs::Section::required))]
fn check_kind(section: &Section<Value, MethodError>) -> Result<CheckKind, MethodError>
    ensures { Gives NoMemory (λ x. x) (required (one_of check_kinds) (codes "kind") (seen section.now)) result }
{
    let value = section.needed("kind")?;
    section.in_range("kind", check_kind_in(value))
}

/// The component of a check.
#[tactic(auto, unfolding(cds_fields::specs::Section::required))]
fn component(
    components: &[Component],
    section: &Section<Value, MethodError>,
) -> Result<u32, MethodError>
    requires { length components.now ≤ MOST_COMPONENTS }
    ensures value { Gives NoMemory (λ x. x)
        (required (component_in components.now) (codes "component") (seen section.now)) result }
    ensures least { IfOk result (λ n. 1 ≤ n) }
    ensures most { IfOk result (λ n. n ≤ length components.now) }
{
    let value = section.needed("component")?;
    section.in_range("component", component_in(components, value))
}

/// The second component of a check of resolution, and none of another one.
#[tactic(auto, unfolding(crate::specs::Stated::other_of, cds_fields::specs::Section::required))]
fn other(
    kind: CheckKind,
    components: &[Component],
    component: u32,
    section: &Section<Value, MethodError>,
) -> Result<Option<u32>, MethodError>
    requires { length components.now ≤ MOST_COMPONENTS }
    ensures value { Gives NoMemory (λ x. x) (other_of kind components.now component (seen section.now)) result }
    ensures stands { IfOk result (λ o. is_some o ≡ has_other kind) }
    ensures least { IfOk result (λ o. (n : ℕ) → o ≡ Some n → 1 ≤ n) }
    ensures most { IfOk result (λ o. (n : ℕ) → o ≡ Some n → n ≤ length components.now) }
    ensures differs { IfOk result (λ o. (n : ℕ) → o ≡ Some n → n ≢ component) }
{
    if !has_other(kind) {
        return Ok(None);
    }
    let value = section.needed("other")?;
    let other = section.in_range("other", other_in(components, component, value))?;
    Ok(Some(other))
}

/// Refuses the first field that a check of this kind may not have.
fn only_fields(kind: CheckKind, section: &Section<Value, MethodError>) -> Result<(), MethodError>
    ensures { Gives NoMemory (λ x. x) (only (check_fields kind) (seen section.now)) result }
{
    if has_other(kind) {
        return section.only(&["kind", "component", "other", "limit"]);
    }
    section.only(&["kind", "component", "limit"])
}

/// Whether a check has a second component.
fn has_other(kind: CheckKind) -> bool
    ensures { result ≡ has_other kind }
{
    match kind {
        CheckKind::Resolution => true,
        _ => false,
    }
}

/// The greatest limit of a check.
fn most_limit(kind: CheckKind) -> u64
    ensures { result ≡ most_limit kind }
{
    match kind {
        CheckKind::R2 => u64::from(MOST_R2_LIMIT),
        _ => u64::from(MOST_LIMIT),
    }
}
