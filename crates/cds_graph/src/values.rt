//! The value that a check compares in a row.
ghost use Rattle.std.specs.Prelude.{◌≡◌, ◌<◌, IsTrue, IfOk};
ghost use Rattle.cds_suit.specs.Check.{compares_one};
ghost use Rattle.cds_integrate.specs.Seen.{seen};
ghost use Rattle.cds_graph.specs.Checks.{value_by};
ghost use Rattle.cds_graph.specs.Figures.{of_peak, of_two_peaks};
ghost use Rattle.cds_graph.specs.Figures.{plates_in, tailing_in, signal_noise_in, retention_in, peak_valley_in};
ghost use Rattle.cds_graph.specs.Held.{found_shown, row_shown};

use crate::figures::{
    peak_valley_in, plates_in, resolution_between, retention_in, signal_noise_in, tailing_in,
};
use crate::found::{FoundRow, FoundSequence, RowNode};
use cds_base::Missing;
use cds_frac::Frac;
use cds_rules::{Check, CheckKind, Method};

/// The value that a check compares in a row, or why it is missing.
pub(crate) fn value_in(
    check: &Check,
    row: &FoundRow,
    found: &FoundSequence,
) -> Result<Frac, Missing>
    requires kind { IsTrue (compares_one check.now.kind) }
    requires noise { IfOk found.now.noise (λ range. 0 < range) }
    ensures { value_by check.now.kind (found_shown found.now) check.now (row_shown row.now) ≡ Some result }
{
    let node = row.node.as_ref();
    let method = found.method.as_ref();
    match check.kind {
        CheckKind::Resolution => resolution_of(check, node),
        CheckKind::Tailing => tailing_of(check, node),
        CheckKind::Plates => plates_of(check, node),
        CheckKind::SignalNoise => signal_noise_of(check, node, found.noise),
        CheckKind::Retention => retention_of(check, node, &method.method),
        CheckKind::PeakValley => peak_valley_of(check, node),
        CheckKind::RsdArea | CheckKind::RsdTime | CheckKind::R2 => unreachable!(),
    }
}

/// The resolution of a check's two components.
fn resolution_of(check: &Check, node: &RowNode) -> Result<Frac, Missing>
    ensures { result ≡ of_two_peaks check.now (seen node.now.part) }
{
    let one = node.peak(check.component)?;
    let second = check.other.ok_or(Missing::NoPeak)?;
    let other = node.peak(second)?;
    resolution_between(&one, &other)
}

/// The tailing of a check's component.
fn tailing_of(check: &Check, node: &RowNode) -> Result<Frac, Missing>
    ensures { result ≡ of_peak (tailing_in node.now.period) check.now (seen node.now.part) }
{
    let peak = node.peak(check.component)?;
    tailing_in(node.period, &peak)
}

/// The plates of a check's component.
fn plates_of(check: &Check, node: &RowNode) -> Result<Frac, Missing>
    ensures { result ≡ of_peak plates_in check.now (seen node.now.part) }
{
    let peak = node.peak(check.component)?;
    plates_in(&peak)
}

/// The signal to noise of a check's component.
fn signal_noise_of(
    check: &Check,
    node: &RowNode,
    noise: Result<u32, Missing>,
) -> Result<Frac, Missing>
    requires { IfOk noise (λ range. 0 < range) }
    ensures { result ≡ of_peak (signal_noise_in noise) check.now (seen node.now.part) }
{
    let peak = node.peak(check.component)?;
    signal_noise_in(noise, &peak)
}

/// The retention factor of a check's component.
fn retention_of(check: &Check, node: &RowNode, method: &Method) -> Result<Frac, Missing>
    ensures { result ≡ of_peak (retention_in method.now.dead_time_us) check.now (seen node.now.part) }
{
    let peak = node.peak(check.component)?;
    retention_in(method.dead_time_us, &peak)
}

/// The peak to valley of a check's component.
fn peak_valley_of(check: &Check, node: &RowNode) -> Result<Frac, Missing>
    ensures { result ≡ of_peak peak_valley_in check.now (seen node.now.part) }
{
    let peak = node.peak(check.component)?;
    peak_valley_in(&peak)
}
