//! The words of the texts.
ghost use Rattle.std.specs.Prelude.{◌≡◌, ◌+◌, Some};
ghost use Rattle.cds_report.specs.Words.{missing_word, kind_word, used_word, check_word, verdict_word};
ghost use Rattle.cds_report.specs.Words.{component_word};

use cds_base::Missing;
use cds_rules::{CheckKind, Component};
use cds_sign::RowKind;
use cds_suit::Verdict;

/// The word for why a value is missing.
pub(crate) fn missing_word(cause: Missing) -> &'static str
    ensures { result.now ≡ missing_word cause }
{
    match cause {
        Missing::NoPeak => "NoPeak",
        Missing::WidthCut => "WidthCut",
        Missing::NoNoise => "NoNoise",
        Missing::NoDeadTime => "NoDeadTime",
        Missing::NoBlank => "NoBlank",
        Missing::TooFew => "TooFew",
        Missing::NotRising => "NotRising",
        Missing::Unfit => "Unfit",
        Missing::TooManyPeaks => "TooManyPeaks",
        Missing::ZeroSum => "ZeroSum",
        Missing::NoValley => "NoValley",
    }
}

/// The word for what a row is injected for.
pub(crate) fn kind_word(kind: RowKind) -> &'static str
    ensures { result.now ≡ kind_word kind }
{
    match kind {
        RowKind::Blank => "blank",
        RowKind::Standard => "standard",
        RowKind::Replicate => "replicate",
        RowKind::Sample => "sample",
    }
}

/// The word for whether a standard gives points.
pub(crate) fn used_word(used: bool) -> &'static str
    ensures { result.now ≡ used_word used }
{
    if used { "used" } else { "unused" }
}

/// The word for what a check looks at.
pub(crate) fn check_word(kind: CheckKind) -> &'static str
    ensures { result.now ≡ check_word kind }
{
    match kind {
        CheckKind::Resolution => "resolution",
        CheckKind::Tailing => "tailing",
        CheckKind::Plates => "plates",
        CheckKind::SignalNoise => "signal_noise",
        CheckKind::Retention => "retention",
        CheckKind::PeakValley => "peak_valley",
        CheckKind::RsdArea => "rsd_area",
        CheckKind::RsdTime => "rsd_time",
        CheckKind::R2 => "r2",
    }
}

/// The word for what a check comes to.
pub(crate) fn verdict_word(verdict: Verdict) -> &'static str
    ensures { result.now ≡ verdict_word verdict }
{
    match verdict {
        Verdict::Pass => "Pass",
        Verdict::Fail => "Fail",
        Verdict::Undecided(_) => "Undecided",
    }
}

/// The name of the component of a number, and a hyphen where there is none.
pub(crate) fn component_word(components: &[Component], number: Option<u32>) -> &[u8]
    ensures { result.now ≡ component_word components.now number }
{
    match number {
        None | Some(0) => b"-",
        Some(number) => component_name(components, number - 1),
    }
}

/// The name of the component at a place, counted from 0, and a hyphen where there is none.
fn component_name(components: &[Component], place: u32) -> &[u8]
    ensures { result.now ≡ component_word components.now (Some (place + 1)) }
{
    match components.get(place as usize) {
        Some(component) => component.name.as_bytes(),
        None => b"-",
    }
}
