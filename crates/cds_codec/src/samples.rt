//! Reading the samples of a trace.
ghost use Rattle.std.specs.Prelude.{◌≡◌, ◌<◌, ◌^◌, IfOk, option_map, unsigned_abs};
ghost use Rattle.cds_trace.specs.TraceText.{is_sample};
ghost use Rattle.cds_codec.specs.Reading.{difference_of, differences_at, moved, next_at, sample_at, samples_at};
ghost use Rattle.cds_codec.specs.Reading.{samples_from};

use crate::fields::{sevens_at, u32_at};
use crate::format::FIRST_FORMAT;
use crate::items::{Item, items_at};
use cds_trace::GREATEST_SAMPLE;
use std::alloc::{AllocError, Global};

/// The most bytes of 7 bits that the difference of two samples takes.
const MOST_SEVENS: u32 = 5;

/// So many samples of a format, and the bytes behind them.
#[tactic(auto, unfolding(crate::specs::Reading::samples_at))]
pub(crate) fn samples_at(
    alloc: Global,
    format: u8,
    count: u32,
    bytes: &[u8],
) -> Result<Option<(Vec<i32>, &[u8])>, AllocError>
    ensures { IfOk result (λ o. option_map (λ x. (x.0.items, x.1.now)) o ≡ samples_at format count bytes.now) }
{
    if format == FIRST_FORMAT {
        items_at(alloc, count, bytes)
    } else {
        differences_at(alloc, count, bytes)
    }
}

/// So many samples, the first one in 32 bits and the others by their differences, and the bytes behind them.
#[tactic(auto, unfolding(crate::specs::Reading::differences_at))]
fn differences_at(
    alloc: Global,
    count: u32,
    bytes: &[u8],
) -> Result<Option<(Vec<i32>, &[u8])>, AllocError>
    ensures { IfOk result (λ o. option_map (λ x. (x.0.items, x.1.now)) o ≡ differences_at count bytes.now) }
{
    if count == 0 {
        return Ok(Some((Vec::new(alloc), bytes)));
    }
    let Some((first, rest)) = sample_at(bytes) else {
        return Ok(None);
    };
    samples_from(alloc, count - 1, first, rest)
}

/// A sample and so many more by their differences, and the bytes behind them.
fn samples_from(
    alloc: Global,
    count: u32,
    first: i32,
    bytes: &[u8],
) -> Result<Option<(Vec<i32>, &[u8])>, AllocError>
    ensures { IfOk result (λ o. option_map (λ x. (x.0.items, x.1.now)) o ≡ samples_from count first bytes.now) }
{
    let mut samples = Vec::new(alloc);
    samples.push(first)?;
    let mut before = first;
    let mut rest = bytes;
    for _ in 0..count {
        let Some((sample, after)) = next_at(before, rest) else {
            return Ok(None);
        };
        samples.push(sample)?;
        before = sample;
        rest = after;
    }
    Ok(Some((samples, rest)))
}

/// The sample behind one, by its difference to it, and the bytes behind it.
#[tactic(auto, unfolding(crate::specs::Reading::next_at))]
fn next_at(before: i32, bytes: &[u8]) -> Option<(i32, &[u8])>
    ensures { option_map (λ x. (x.0, x.1.now)) result ≡ next_at before bytes.now }
{
    let (number, rest) = sevens_at(MOST_SEVENS, bytes)?;
    let sample = moved(before, difference_of(number))?;
    Some((sample, rest))
}

/// The sample that is so far above another one, if it may be a sample.
#[tactic(auto, unfolding(crate::specs::Reading::moved))]
fn moved(before: i32, difference: i64) -> Option<i32>
    requires { unsigned_abs difference < 2 ^ 62 }
    ensures { result ≡ moved before difference }
{
    let sample = i64::from(before) + difference;
    if sample < -i64::from(GREATEST_SAMPLE) || sample > i64::from(GREATEST_SAMPLE) {
        return None;
    }
    Some(sample as i32)
}

/// The difference that is this whole number.
fn difference_of(number: u64) -> i64
    requires { number < 2 ^ 62 }
    ensures value { result ≡ difference_of number }
    ensures size { unsigned_abs result < 2 ^ 62 }
{
    let half = (number / 2) as i64;
    if number % 2 == 0 { half } else { -half - 1 }
}

impl Item for i32 {
    ghost read = { sample_at };

    fn read(_alloc: Global, bytes: &[u8]) -> Result<Option<(i32, &[u8])>, AllocError> {
        Ok(sample_at(bytes))
    }
}

/// A sample in 32 bits.
#[tactic(auto, unfolding(crate::specs::Reading::sample_at))]
fn sample_at(bytes: &[u8]) -> Option<(i32, &[u8])>
    ensures { option_map (λ x. (x.0, x.1.now)) result ≡ sample_at bytes.now }
{
    let (bits, rest) = u32_at(bytes)?;
    let sample = bits.cast_signed();
    if !is_sample(sample) {
        return None;
    }
    Some((sample, rest))
}

/// Whether a number may be a sample.
fn is_sample(number: i32) -> bool
    ensures { result ≡ is_sample number }
{
    -GREATEST_SAMPLE <= number && number <= GREATEST_SAMPLE
}
