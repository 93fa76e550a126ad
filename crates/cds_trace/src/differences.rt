//! The bytes of a trace in a record of a store: its first sample, and of each later one the difference to the one before.
ghost use Rattle.std.specs.Prelude.{◌≡◌, ◌-◌, ◌++◌, ◌^◌, ◌<◌, IfOk, OnOk, ◌-ℤ◌, unsigned_abs};
ghost use Rattle.cds_trace.specs.Differences.{bytes_of_differences, folded};
ghost use Rattle.cds_trace.specs.SampleBytes.{bytes_of_sample};
ghost use Rattle.cds_trace.specs.SevenBits.{seven_bits};

use crate::hold::push_sample;
use crate::trace::Trace;
use cds_base::Bytes;
use std::alloc::AllocError;

/// A byte holds 7 bits of a number, which is less than this; the high bit, of this value, says that more bytes follow.
pub const SEVEN_BITS: u64 = 128;

/// The bytes before the differences: the number of samples and the first one.
const BYTES_OF_FRONT: usize = 8;

/// The most bytes of a difference, which is a whole number of at most 29 bits.
const MOST_BYTES_OF_DIFFERENCE: usize = 5;

impl Trace {
    /// The bytes of the samples in a record of format 2: their number as a u32 and the first as an i32, the high byte
    /// first, and for each later sample the difference to the one before. A difference `d` is the number `2d`, or
    /// `-2d - 1` where it is negative, in bytes of 7 bits, the lowest first, the high bit set in all but the last; it
    /// takes the fewest bytes. No step. This project's own form.
    pub fn record_differences(&self) -> Result<Bytes, AllocError>
        ensures { IfOk result (λ bytes. bytes ≡ bytes_of_differences self.now.samples) }
    {
        let count = self.len();
        let samples = self.samples();
        let mut before = samples[0];
        let room = BYTES_OF_FRONT + MOST_BYTES_OF_DIFFERENCE * (samples.len() - 1);
        let mut bytes = Vec::with_capacity(self.allocator(), room)?;
        bytes.extend_from_slice(&count.to_be_bytes())?;
        push_sample(&mut bytes, before)?;
        for i in 1..samples.len() {
            let sample = samples[i];
            push_number(&mut bytes, folded(difference(sample, before)))?;
            before = sample;
        }
        Ok(Bytes::from_vec(bytes))
    }
}

/// By how much a sample is above the one before it.
fn difference(sample: i32, before: i32) -> i64
    ensures { result ≡ sample -ℤ before }
{
    i64::from(sample) - i64::from(before)
}

/// A difference as a whole number.
fn folded(difference: i64) -> u64
    requires { unsigned_abs difference < 2 ^ 62 }
    ensures { result ≡ folded difference }
{
    let twice = 2 * difference.unsigned_abs();
    if difference < 0 { twice - 1 } else { twice }
}

/// Appends a number in bytes of 7 bits.
fn push_number(bytes: &mut Vec<u8>, mut number: u64) -> Result<(), AllocError>
    ensures { OnOk result (bytes.new.items ≡ bytes.old.items ++ seven_bits number) }
{
    while number >= SEVEN_BITS {
        bytes.push((SEVEN_BITS + number % SEVEN_BITS) as u8)?;
        number /= SEVEN_BITS;
    }
    bytes.push(number as u8)?;
    Ok(())
}
