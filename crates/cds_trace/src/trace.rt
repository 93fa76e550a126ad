//! A detector trace: how it is made and read.
ghost use Rattle.std.specs.Prelude.{◌≡◌, ◌+◌, ◌-◌, ◌*◌, ◌<◌, ◌≤◌, pos, neg_ℤ, ◌*ℤ◌, ◌≤ℤ◌, All, IfOk, IfSome, length, not, position};
ghost use Rattle.cds_base.specs.Answers.{Gives};
ghost use Rattle.cds_trace.specs.Signal.{sample_at, sum_between, IsSample, IsTrace};
ghost use Rattle.cds_trace.specs.TraceText.{is_sample};
ghost use Rattle.cds_trace.specs.GivenSamples.{given_trace};
ghost use Rattle.cds_trace.specs.Sums.{AreSums};
ghost use Rattle.cds_trace.specs.declared.error.TraceError.TheVariants.{NoMemory};

use crate::error::TraceError;
use cds_base::{LAST_TIME_US, Steps};
use std::alloc::{AllocError, Global};
use std::marker::Model;
use std::sync::ledger::Ledger;

/// The fewest samples of a trace.
pub const FEWEST_SAMPLES: u32 = 2;

/// The most samples of a trace.
pub const MOST_SAMPLES: u32 = 400_000;

/// The greatest sample, in counts; the least is its negative.
pub const GREATEST_SAMPLE: i32 = 100_000_000;

/// A detector trace: 2 to 400,000 samples from -100,000,000 to 100,000,000, one in each period of at least 1
/// microsecond, from the time 0 to at most 14,400,000,000 microseconds. The limits are this project's own. Seen as
/// its period and its list of samples. Sums of samples are read off running sums, which the trace keeps.
#[derive(Debug, Drop)]
pub struct Trace {
    period: u64,
    samples: Vec<i32>,
    sums: Vec<i64>,
}

impl Model for Trace {
    ghost use Rattle.cds_trace.specs.Signal.{Signal};

    ghost Value = { Signal };

    ghost use Rattle.cds_trace.specs.Held.{signal_held, IsHeld};

    ghost view = { signal_held };

    ghost invariant = { IsHeld };
}

impl Trace {
    /// The trace of these samples, one in each `period` microseconds. It is refused with TooLong where there are
    /// more than 400,000 samples, else with TooShort where there are fewer than two, else with BadPeriod where the
    /// period is 0 or the time of the last sample is above 14,400,000,000 microseconds, else with OutOfRange where
    /// a sample is below -100,000,000 or above 100,000,000; OutOfRange carries the index of the first such sample
    /// plus 2, which would be its record in a text. The order is this project's own.
    pub fn from_samples(alloc: Global, period: u64, samples: &[i32]) -> Result<Trace, TraceError>
        ensures { Gives NoMemory (λ trace. trace) (given_trace period samples.now) result }
    {
        if samples.len() > MOST_SAMPLES as usize {
            return Err(TraceError::TooLong);
        }
        if samples.len() < FEWEST_SAMPLES as usize {
            return Err(TraceError::TooShort);
        }
        if period == 0 || last_time(samples.len(), period) > u128::from(LAST_TIME_US) {
            return Err(TraceError::BadPeriod);
        }
        if let Some(index) = first_outside(samples) {
            return Err(TraceError::OutOfRange(index as u32 + 2));
        }
        Ok(Trace::of_samples(alloc, period, Vec::from_slice(alloc, samples)?)?)
    }

    /// The trace of samples that keep its limits.
    pub(crate) fn of_samples(
        alloc: Global,
        period: u64,
        samples: Vec<i32>,
    ) -> Result<Trace, AllocError>
        requires { IsTrace (record { period = period; samples = samples.items }) }
        ensures { IfOk result (λ trace. trace ≡ record { period = period; samples = samples.items }) }
    {
        let sums = running_sums(alloc, &samples)?;
        Ok(Trace {
            period,
            samples,
            sums,
        })
    }

    /// How many samples there are, 2 to 400,000.
    pub fn len(&self) -> u32
        ensures value { result ≡ length self.now.samples }
        ensures trace { IsTrace self.now }
    {
        self.samples.len() as u32
    }

    /// The time from one sample to the next, at least 1 microsecond.
    pub fn period(&self) -> u64
        ensures value { result ≡ self.now.period }
        ensures trace { IsTrace self.now }
    {
        self.period
    }

    /// An equal trace with memory of its own. No step.
    pub fn copy(&self) -> Result<Trace, AllocError>
        ensures { IfOk result (λ copy. copy ≡ self.now) }
    {
        let alloc = self.allocator();
        Ok(Trace {
            period: self.period,
            samples: Vec::from_slice(alloc, &self.samples)?,
            sums: Vec::from_slice(alloc, &self.sums)?,
        })
    }

    /// Where its memory comes from.
    pub(crate) fn allocator(&self) -> Global {
        *self.samples.allocator()
    }

    /// The samples in the order of their times.
    pub(crate) fn samples(&self) -> &[i32]
        ensures { result.now ≡ self.now.samples }
    {
        self.samples.as_slice()
    }

    /// The sample of index `i`, counted from 0, which is at the time `i` times the period. One step.
    pub fn at<L: Ledger>(&self, i: u32, steps: &mut Steps<L>) -> i32
        requires { i < length self.now.samples }
        ensures value { result ≡ sample_at self.now i }
        ensures range { IsSample result }
        ensures counted { steps.new ≡ steps.old + 1 }
    {
        steps.tick();
        self.samples[i as usize]
    }

    /// The sum of the samples of index `i` up to `j - 1`, at most 100,000,000 for each in absolute value. Two steps.
    pub fn sum<L: Ledger>(&self, i: u32, j: u32, steps: &mut Steps<L>) -> i64
        requires order { i ≤ j }
        requires end { j ≤ length self.now.samples }
        ensures value { result ≡ sum_between self.now i j }
        ensures least { neg_ℤ (pos (j - i) *ℤ GREATEST_SAMPLE) ≤ℤ result }
        ensures greatest { result ≤ℤ (pos (j - i) *ℤ GREATEST_SAMPLE) }
        ensures counted { steps.new ≡ steps.old + 2 }
    {
        steps.tick();
        steps.tick();
        self.sums[j as usize] - self.sums[i as usize]
    }
}

/// The time of the last of so many samples.
fn last_time(count: usize, period: u64) -> u128
    requires { 1 ≤ count }
    ensures { result ≡ (count - 1) * period }
{
    (count as u128 - 1) * u128::from(period)
}

/// The index of the first sample that is out of range.
fn first_outside(samples: &[i32]) -> Option<usize>
    ensures value { result ≡ position (λ sample. not (is_sample sample)) samples.now }
    ensures place { IfSome result (λ i. i < length samples.now) }
{
    samples
        .iter()
        .position(|sample| !is_sample(i64::from(*sample)))
}

/// Whether a number may be a sample.
pub(crate) fn is_sample(sample: i64) -> bool
    ensures { result ≡ is_sample sample }
{
    let greatest = i64::from(GREATEST_SAMPLE);
    -greatest <= sample && sample <= greatest
}

/// For each k up to the number of samples, the sum of the first k.
fn running_sums(alloc: Global, samples: &[i32]) -> Result<Vec<i64>, AllocError>
    requires few { length samples.now ≤ MOST_SAMPLES }
    requires range { All IsSample samples.now }
    ensures { IfOk result (λ sums. AreSums samples.now sums.items) }
{
    let mut sums = Vec::with_capacity(alloc, samples.len() + 1)?;
    let mut sum: i64 = 0;
    sums.push(sum)?;
    for sample in samples {
        sum += i64::from(*sample);
        sums.push(sum)?;
    }
    Ok(sums)
}
