//! What a value of a method's text states, for each kind of field of its own.
ghost use Rattle.std.specs.Prelude.{◌≡◌, ◌≢◌, ◌<◌, ◌≤◌, IfSome, length, position};
ghost use Rattle.std.specs.Str.{bytes_eq};
ghost use Rattle.toml.specs.View.{view};
ghost use Rattle.cds_fields.specs.Toml.{of_toml};
ghost use Rattle.cds_fields.specs.Values.{one_of};
ghost use Rattle.cds_rules.specs.declared.limits.TheConstants.{MOST_COMPONENTS};
ghost use Rattle.cds_rules.specs.Values.{weights, check_kinds, component_in, other_in};

use crate::check::CheckKind;
use crate::component::Component;
use crate::limits::MOST_COMPONENTS;
use crate::method::Weight;
use cds_fields::TextValue;
use toml::Value;

/// The weighting that a value names.
pub(crate) fn weight_in(value: &Value) -> Option<Weight>
    ensures { result ≡ one_of weights (of_toml (view value.now)) }
{
    match value.as_word()? {
        "equal" => Some(Weight::Equal),
        "origin" => Some(Weight::Origin),
        "inverse" => Some(Weight::Inverse),
        _ => None,
    }
}

/// The kind of check that a value names.
pub(crate) fn check_kind_in(value: &Value) -> Option<CheckKind>
    ensures { result ≡ one_of check_kinds (of_toml (view value.now)) }
{
    match value.as_word()? {
        "resolution" => Some(CheckKind::Resolution),
        "tailing" => Some(CheckKind::Tailing),
        "plates" => Some(CheckKind::Plates),
        "signal_noise" => Some(CheckKind::SignalNoise),
        "retention" => Some(CheckKind::Retention),
        "peak_valley" => Some(CheckKind::PeakValley),
        "rsd_area" => Some(CheckKind::RsdArea),
        "rsd_time" => Some(CheckKind::RsdTime),
        "r2" => Some(CheckKind::R2),
        _ => None,
    }
}

/// The number of the component that a value names, counted from 1.
pub(crate) fn component_in(components: &[Component], value: &Value) -> Option<u32>
    requires { length components.now ≤ MOST_COMPONENTS }
    ensures value { result ≡ component_in components.now (of_toml (view value.now)) }
    ensures least { IfSome result (λ n. 1 ≤ n) }
    ensures most { IfSome result (λ n. n ≤ length components.now) }
{
    let text = value.as_word()?;
    let place = place_of(components, text)?;
    Some(place as u32 + 1)
}

/// The number of the component that a value names, if it is another one than `component`.
pub(crate) fn other_in(components: &[Component], component: u32, value: &Value) -> Option<u32>
    requires { length components.now ≤ MOST_COMPONENTS }
    ensures value { result ≡ other_in components.now component (of_toml (view value.now)) }
    ensures least { IfSome result (λ n. 1 ≤ n) }
    ensures most { IfSome result (λ n. n ≤ length components.now) }
    ensures differs { IfSome result (λ n. n ≢ component) }
{
    let other = component_in(components, value)?;
    if other == component {
        return None;
    }
    Some(other)
}

/// The place of the component of this name, counted from 0.
fn place_of(components: &[Component], text: &str) -> Option<usize>
    ensures value { result ≡ position (λ c. bytes_eq c.name text.now) components.now }
    ensures most { IfSome result (λ k. k < length components.now) }
{
    components
        .iter()
        .position(|component| component.name.as_bytes() == text.as_bytes())
}
