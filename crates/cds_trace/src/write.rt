//! Writing the text of a trace.
ghost use Rattle.std.specs.Prelude.{◌≡◌, ◌-◌, ◌≤◌, ◌<◌, ◌∷◌, ◌++◌, IfOk, Ok, OnOk, drop, length};
ghost use Rattle.std.specs.Fmt.{signed_decimal};
ghost use Rattle.cds_base.specs.declared.time.TheConstants.{LAST_TIME_US};
ghost use Rattle.cds_trace.specs.Signal.{IsSample};
ghost use Rattle.cds_trace.specs.TraceText.{csv_trace};
ghost use Rattle.cds_trace.specs.declared.write.TheConstants.{MOST_BYTES_OF_LINE, MOST_BYTES_OF_SAMPLE};
ghost use Rattle.cds_trace.specs.WrittenText.{csv_text, line_of};

use crate::trace::Trace;
use cds_base::Bytes;
use itoa::write_digits;
use std::alloc::AllocError;

/// The header of the text of a trace.
const HEADER: &[u8] = b"time_us,signal\n";

/// The most bytes of a sample: a sign and 9 digits.
const MOST_BYTES_OF_SAMPLE: usize = 10;

/// The most bytes of a line: the 11 digits of a time, a comma, a sample and a line feed.
const MOST_BYTES_OF_LINE: usize = 13 + MOST_BYTES_OF_SAMPLE;

impl Trace {
    /// The text of the trace as CSV: the header `time_us,signal`, and for each sample a line of its time in
    /// microseconds and its value, without leading zeros and blanks, with a line feed behind each. Reading it gives
    /// an equal trace. No step. The format is this project's own.
    pub fn write_csv(&self) -> Result<Bytes, AllocError>
        ensures text { IfOk result (λ text. text ≡ csv_text self.now) }
        ensures stated { IfOk result (λ text. csv_trace text ≡ Ok self.now) }
    {
        let period = self.period();
        let samples = self.samples();
        let room = HEADER.len() + MOST_BYTES_OF_LINE * samples.len();
        let mut text = Vec::with_capacity(self.allocator(), room)?;
        text.extend_from_slice(HEADER)?;
        let mut line = [0u8; MOST_BYTES_OF_LINE];
        for (i, sample) in samples.iter().enumerate() {
            push_line(i as u64 * period, *sample, &mut line, &mut text)?;
        }
        Ok(Bytes::from_vec(text))
    }
}

/// Appends the line of a sample, which is made in a buffer of as many bytes as a line may have.
fn push_line(
    time: u64,
    sample: i32,
    buffer: &mut [u8],
    text: &mut Vec<u8>,
) -> Result<(), AllocError>
    requires time { time ≤ LAST_TIME_US }
    requires sample { IsSample sample }
    requires room { length buffer.old ≡ MOST_BYTES_OF_LINE }
    ensures length { length buffer.new ≡ MOST_BYTES_OF_LINE }
    ensures line { OnOk result (text.new.items ≡ text.old.items ++ line_of time sample) }
{
    let start = write_line(time, sample, buffer);
    text.extend_from_slice(&buffer[start..])
}

/// Writes the line of a sample at the end of the buffer, and answers where it starts.
fn write_line(time: u64, sample: i32, buffer: &mut [u8]) -> usize
    requires time { time ≤ LAST_TIME_US }
    requires sample { IsSample sample }
    requires room { length buffer.old ≡ MOST_BYTES_OF_LINE }
    ensures length { length buffer.new ≡ MOST_BYTES_OF_LINE }
    ensures place { result ≤ MOST_BYTES_OF_LINE }
    ensures line { drop result buffer.new ≡ line_of time sample }
{
    let end = write_before(b'\n', buffer.len(), buffer);
    let start = write_sample(sample, end, buffer);
    let comma = write_before(b',', start, buffer);
    write_digits(time, buffer, comma)
}

/// Writes a sample before a place of the buffer, and answers where it starts.
fn write_sample(sample: i32, end: usize, buffer: &mut [u8]) -> usize
    requires sample { IsSample sample }
    requires room { MOST_BYTES_OF_SAMPLE ≤ end }
    requires within { end ≤ length buffer.old }
    ensures length { length buffer.new ≡ length buffer.old }
    ensures first { end - MOST_BYTES_OF_SAMPLE ≤ result }
    ensures last { result ≤ end }
    ensures written { drop result buffer.new ≡ signed_decimal sample ++ drop end buffer.old }
{
    let start = write_digits(u64::from(sample.unsigned_abs()), buffer, end);
    if sample < 0 {
        write_before(b'-', start, buffer)
    } else {
        start
    }
}

/// Writes a byte before a place of the buffer, and answers where it stands.
fn write_before(byte: u8, place: usize, buffer: &mut [u8]) -> usize
    requires room { 0 < place }
    requires within { place ≤ length buffer.old }
    ensures length { length buffer.new ≡ length buffer.old }
    ensures place { result ≡ place - 1 }
    ensures written { drop result buffer.new ≡ byte ∷ drop place buffer.old }
{
    buffer[place - 1] = byte;
    place - 1
}
