ghost use Rattle.std.specs.Prelude.{◌≡◌, ◌<◌};

use super::*;
use crate::worked_rows::{COMMON, PLAIN, ROWS};
use cds_base::{Event, Peak, Ratio, Steps};
use cds_frac::gcd;
use cds_rules::Method;
use cds_trace::Trace;
use std::alloc::Global;
use std::marker::Brand;
use std::sync::ledger::{Blank, Ledger};
use std::test::Fail;

fn row_by<L: Ledger>(
    alloc: Global,
    blank: Blank,
    period: u64,
    samples: &[i32],
    method: &Method,
    manual: &[Event],
) -> Result<RowPart, Fail>
    requires name { blank.name ≡ L.name }
    requires parts { blank.parts ≡ L.parts }
    requires some { 0 < blank.parts }
{
    let mut steps: Steps<L> = Steps::new(blank);
    let trace = Trace::from_samples(alloc, period, samples)?;
    Ok(row(alloc, &trace, method, manual, &mut steps)?)
}

fn row_every(
    alloc: Global,
    period: u64,
    samples: &[i32],
    method: &Method,
    manual: &[Event],
) -> Result<RowPart, Fail> {
    row_by::<Brand>(alloc, Blank::new(1), period, samples, method, manual)
}

// The row of a method with these lines. The row's own events are those of a method that states them alone.
fn row_of(
    alloc: Global,
    period: u64,
    samples: &[i32],
    method: &str,
    manual: &str,
) -> Result<RowPart, Fail> {
    let text = format!(in alloc; "{COMMON}{method}\n")?;
    let method = Method::read_toml(alloc, text.as_bytes())?;
    let text = format!(in alloc; "{COMMON}{PLAIN}event = [{manual}]\n")?;
    let own = Method::read_toml(alloc, text.as_bytes())?;
    row_every(alloc, period, samples, &method, own.events.as_slice())
}

// A ratio above 0 in lowest terms.
fn ratio_text(alloc: Global, ratio: Ratio) -> Result<String, Fail> {
    let (num, den) = (ratio.num.unsigned_abs(), u128::from(ratio.den));
    let common = gcd(num, den).max(1);
    let (num, den) = (num / common, den / common);
    if den == 1 {
        return Ok(format!(in alloc; "{num}")?);
    }
    Ok(format!(in alloc; "{num}/{den}")?)
}

fn times_text(alloc: Global, word: &str, times: Option<(u64, u64)>) -> Result<String, Fail> {
    match times {
        Some((left, right)) => Ok(format!(in alloc; " {word} {left} {right}")?),
        None => Ok(String::new(alloc)),
    }
}

fn valley_text(alloc: Global, valley: Option<(Ratio, Ratio)>) -> Result<String, Fail> {
    let Some((before, boundary)) = valley else {
        return Ok(String::new(alloc));
    };
    let before = ratio_text(alloc, before)?;
    let boundary = ratio_text(alloc, boundary)?;
    Ok(format!(in alloc; " valley {before} {boundary}")?)
}

fn component_text(alloc: Global, component: Option<u32>) -> Result<String, Fail> {
    match component {
        Some(number) => Ok(format!(in alloc; " named {number}")?),
        None => Ok(String::new(alloc)),
    }
}

// A peak as the worked rows write it.
fn peak_text(alloc: Global, peak: &Peak) -> Result<String, Fail> {
    let rider = if peak.rider { "rider " } else { "" };
    let (start, apex, end, time) = (peak.start, peak.apex, peak.end, peak.time_us);
    let area = ratio_text(alloc, peak.area)?;
    let height = ratio_text(alloc, peak.height)?;
    let (from, to) = (peak.line.from, peak.line.to);
    let half = times_text(alloc, "half", peak.half)?;
    let twentieth = times_text(alloc, "twentieth", peak.twentieth)?;
    let valley = valley_text(alloc, peak.valley)?;
    let component = component_text(alloc, peak.component)?;
    let sizes = format!(in alloc;
        "{start} {apex} {end} at {time} area {area} height {height} over {from} {to}"
    )?;
    Ok(format!(in alloc; "{rider}{sizes}{half}{twentieth}{valley}{component}.")?)
}

// The area of a peak in count milliseconds, rounded down, where there is one sample a second.
fn units_of(peak: &Peak) -> Option<i128> {
    peak.area
        .num
        .checked_mul(1000)?
        .checked_div(i128::from(peak.area.den))
}

// The whole numbers of a text.
fn numbers(alloc: Global, text: &str) -> Result<Vec<i32>, Fail> {
    let mut numbers = Vec::new(alloc);
    for word in text.split_whitespace() {
        numbers.push(word.parse::<i32>()?)?;
    }
    Ok(numbers)
}

// Whether a peak is as it is wanted, or begins so where more follows; and its reported area is its area, rounded down.
fn is_wanted(alloc: Global, peak: &Peak, want: &str) -> Result<bool, Fail> {
    let text = peak_text(alloc, peak)?;
    let is_so = match want.strip_suffix("..") {
        Some(front) => text.as_str().starts_with(front),
        None => text.as_str() == want,
    };
    Ok(is_so && units_of(peak) == Some(i128::from(peak.units)))
}

// Whether the row of a line has the peaks that the line states.
fn is_as_stated(alloc: Global, line: &str) -> Result<bool, Fail> {
    let (_shows, rest) = line.split_once('|').ok_or("a line says what it shows")?;
    let (samples, rest) = rest.split_once('|').ok_or("a line has samples")?;
    let (method, rest) = rest.split_once('|').ok_or("a line has a method")?;
    let (events, wanted) = rest.split_once('|').ok_or("a line has events")?;
    let samples = numbers(alloc, samples)?;
    let method = method.replace(alloc, "; ", "\n")?;
    let got = row_of(alloc, 1_000_000, &samples, method.as_str(), events)?;
    are_wanted(alloc, got.peaks(), wanted)
}

// Whether the peaks are those that are wanted, no more and no fewer.
fn are_wanted(alloc: Global, peaks: &[Peak], wanted: &str) -> Result<bool, Fail> {
    let mut rest = wanted;
    for peak in peaks {
        let (want, behind) = rest.split_once("; ").unwrap_or((rest, ""));
        if !is_wanted(alloc, peak, want)? {
            return Ok(false);
        }
        rest = behind;
    }
    Ok(rest.is_empty())
}

#[test]
fn rows_are_those_worked_out_by_hand(rt: HostRuntime) -> Result<(), Fail> {
    for line in ROWS.lines() {
        assert!(rt;
            line.starts_with('#') || is_as_stated(rt.alloc(), line)?,
            "at {}",
            line
        );
    }
    Ok(())
}

const ONE: &[i32] = &[0, 0, 0, 10, 40, 60, 40, 10, 0, 0, 0];

// Its exact area is 53,333.28 count milliseconds.
#[test]
fn reported_areas_and_crossings_are_rounded_down(rt: HostRuntime) -> Result<(), Fail> {
    let got = row_of(rt.alloc(), 333_333, ONE, PLAIN, "")?;
    let peak = got.peaks().first().ok_or("there is no peak")?;
    assert_eq!(rt; peak.units, 53_333);
    assert_eq!(rt; peak.half, Some((1_222_221, 2_111_109)));
    assert_eq!(rt; peak.twentieth, Some((766_665, 2_566_664)));
    Ok(())
}

#[test]
fn a_row_has_at_most_five_hundred_raw_peaks_and_one_peak_more_for_a_drop(
    rt: HostRuntime,
) -> Result<(), Fail> {
    let mut samples = Vec::new(rt.alloc());
    for _ in 0..500 {
        samples.extend_from_slice(ONE)?;
    }
    let most = row_of(rt.alloc(), 1_000_000, &samples, PLAIN, "")?;
    assert_eq!(rt; (most.too_many(), most.peaks().len()), (0, 500));
    let last = most.peaks().last().ok_or("there is no peak")?;
    assert_eq!(rt; (last.start, last.units), (5490, 160_000));
    let cut = row_of(
        rt.alloc(),
        1_000_000,
        &samples,
        PLAIN,
        "{kind = 'drop', at_ms = 6000}",
    )?;
    assert_eq!(rt; (cut.too_many(), cut.peaks().len()), (0, 501));
    samples.extend_from_slice(ONE)?;
    let more = row_of(rt.alloc(), 1_000_000, &samples, PLAIN, "")?;
    assert_eq!(rt; (more.too_many(), more.peaks().len()), (501, 0));
    Ok(())
}
