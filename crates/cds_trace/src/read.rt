//! Reading the text of a trace.
ghost use Rattle.std.specs.Prelude.{◌≡◌, ◌+◌, ◌*◌, ◌^◌, ◌<◌, ◌≤◌, ◌∷◌, [], true, false, length, pos, neg_ℤ, ◌≤ℤ◌, IfOk, IfErr, IfSome, Some, Ok, option_and_then};
ghost use Rattle.csv.specs.Reading.{error_kind, stops_reader};
ghost use Rattle.csv.specs.Records.{field_at, fields_of};
ghost use Rattle.cds_base.specs.Answers.{Gives};
ghost use Rattle.cds_trace.specs.Number.{number_of};
ghost use Rattle.cds_trace.specs.Signal.{IsTrace};
ghost use Rattle.cds_trace.specs.TraceText.{csv_trace, is_header, is_word_at, sample_of, is_time, sample_of_numbers, time_of, trace_of_rows, trace_of_samples};
ghost use Rattle.cds_trace.specs.Period.{period_at};
ghost use Rattle.cds_trace.specs.Rows.{rows_left, IsReading};
ghost use Rattle.cds_trace.specs.declared.error.TraceError.TheVariants.{NoMemory};

use crate::error::TraceError;
use crate::number::{number, without_blanks};
use crate::trace::{FEWEST_SAMPLES, MOST_SAMPLES, Trace, is_sample};
use cds_base::LAST_TIME_US;
use csv::{ByteRecord, Reader, ReaderBuilder};
use std::alloc::Global;

/// The fewest bytes that state a sample, as in `0,1` and a line feed.
const FEWEST_BYTES_OF_SAMPLE: usize = 4;

/// The bytes and the fields for which a record has room from the start on, so that few records let it grow.
const BYTES_OF_ROW: usize = 64;

const FIELDS_OF_ROW: usize = 4;

impl Trace {
    /// The trace that the bytes state as CSV: the header `time_us,signal`, and for each sample a record of its time
    /// in microseconds and its value. Records are those of the `csv` crate with its defaults, behind a byte order
    /// mark if there is one; spaces and tabs at the ends of a field count for nothing, and a number is an optional
    /// `-` and 1 to 12 digits. The first time is 0, the second is the period, and the others are its multiples.
    ///
    /// The first record that breaks a rule decides, and then the first rule of: BadHeader where the first record is
    /// not the header, or there is none; TooLong for a record that would be sample 400,001; BadCsv where it has not
    /// two fields; NotNumber where a field is no number; OutOfRange where the time is below 0 or above
    /// 14,400,000,000 or the sample below -100,000,000 or above 100,000,000; Uneven where the time is not the
    /// expected one, or is a second time of 0. Behind all records, fewer than two samples are TooShort. The format
    /// is this project's own.
    pub fn read_csv(alloc: Global, bytes: &[u8]) -> Result<Trace, TraceError>
        ensures { Gives NoMemory (λ trace. trace) (csv_trace bytes.now) result }
    {
        let mut reader = ReaderBuilder::new()
            .has_headers(false)
            .flexible(true)
            .from_reader(alloc, bytes);
        let mut row = ByteRecord::with_capacity(alloc, BYTES_OF_ROW, FIELDS_OF_ROW)?;
        if !next_row(&mut reader, &mut row)? {
            return Err(TraceError::BadHeader);
        }
        if !is_header(&row) {
            return Err(TraceError::BadHeader);
        }
        let room = (bytes.len() / FEWEST_BYTES_OF_SAMPLE).min(MOST_SAMPLES as usize);
        read_samples(alloc, &mut reader, &mut row, room)
    }
}

/// The trace that the records behind the header state. There is room for so many samples from the start on.
fn read_samples(
    alloc: Global,
    reader: &mut Reader<&[u8]>,
    row: &mut ByteRecord,
    room: usize,
) -> Result<Trace, TraceError>
    requires { IsReading reader.old }
    ensures { Gives NoMemory (λ trace. trace) (trace_of_rows (rows_left reader.old)) result }
{
    let mut samples = Vec::with_capacity(alloc, room)?;
    let mut period = 0;
    for index in 0..MOST_SAMPLES {
        if !next_row(reader, row)? {
            return finished(alloc, period, samples);
        }
        period = period_at(period, index, row);
        samples.push(sample_of(period, index, row)?)?;
    }
    if next_row(reader, row)? {
        return Err(TraceError::TooLong);
    }
    finished(alloc, period, samples)
}

/// Reads the next record, if there is one.
fn next_row(reader: &mut Reader<&[u8]>, row: &mut ByteRecord) -> Result<bool, TraceError>
    requires { IsReading reader.old }
    ensures reading { IfOk result (λ found. found ≡ true → IsReading reader.new) }
    ensures found { IfOk result
        (λ found. found ≡ true → rows_left reader.old ≡ fields_of row.new ∷ rows_left reader.new) }
    ensures ended { IfOk result (λ found. found ≡ false → rows_left reader.old ≡ []) }
    ensures wanting { IfErr result (λ e. e ≡ NoMemory) }
{
    match reader.read_byte_record(row) {
        Ok(found) => Ok(found),
        Err(error) => Err(no_memory(error)),
    }
}

/// A read of bytes in memory fails for want of memory alone.
fn no_memory(error: csv::Error) -> TraceError
    requires { stops_reader (error_kind error) ≡ true }
    ensures { result ≡ NoMemory }
{
    TraceError::NoMemory
}

/// The trace of the samples of a whole text.
fn finished(alloc: Global, period: u64, samples: Vec<i32>) -> Result<Trace, TraceError>
    requires { FEWEST_SAMPLES ≤ length samples.items → IsTrace (record { period = period; samples = samples.items }) }
    ensures { Gives NoMemory (λ trace. trace) (trace_of_samples period (Ok samples.items)) result }
{
    if samples.len() < FEWEST_SAMPLES as usize {
        return Err(TraceError::TooShort);
    }
    Ok(Trace::of_samples(alloc, period, samples)?)
}

/// The period so far, once the record of the sample of this index is read.
fn period_at(period: u64, index: u32, row: &ByteRecord) -> u64
    requires { period ≤ 10 ^ 12 }
    ensures value { result ≡ period_at period index (fields_of row.now) }
    ensures size { result ≤ 10 ^ 12 }
{
    if index == 1 { time_of(row) } else { period }
}

/// The time that a record states, 0 where it states none.
fn time_of(row: &ByteRecord) -> u64
    ensures value { result ≡ time_of (fields_of row.now) }
    ensures size { result ≤ 10 ^ 12 }
{
    match number_at(row, 0) {
        Some(time) if time > 0 => time as u64,
        _ => 0,
    }
}

/// The sample of this index that a record states, or what is wrong with the record.
fn sample_of(period: u64, index: u32, row: &ByteRecord) -> Result<i32, TraceError>
    requires size { period ≤ 10 ^ 12 }
    requires place { index < MOST_SAMPLES }
    ensures { result ≡ sample_of period index (fields_of row.now) }
{
    let record = index + 2;
    if row.len() != 2 {
        return Err(TraceError::BadCsv(record));
    }
    let Some(time) = number_at(row, 0) else {
        return Err(TraceError::NotNumber(record));
    };
    let Some(sample) = number_at(row, 1) else {
        return Err(TraceError::NotNumber(record));
    };
    sample_of_numbers(period, index, time, sample)
}

/// The sample that a time and a sample state, or what is wrong with them.
fn sample_of_numbers(period: u64, index: u32, time: i64, sample: i64) -> Result<i32, TraceError>
    requires size { period ≤ 10 ^ 12 }
    requires place { index < MOST_SAMPLES }
    ensures { result ≡ sample_of_numbers period index (Some time) (Some sample) }
{
    let record = index + 2;
    if !is_time(time) || !is_sample(sample) {
        return Err(TraceError::OutOfRange(record));
    }
    let expected = u64::from(index) * period;
    if time as u64 != expected || (index != 0 && period == 0) {
        return Err(TraceError::Uneven(record));
    }
    Ok(sample as i32)
}

/// Whether a number may be a time.
fn is_time(time: i64) -> bool
    ensures { result ≡ is_time time }
{
    0 <= time && time <= LAST_TIME_US as i64
}

/// The number in a field of a record.
fn number_at(row: &ByteRecord, place: usize) -> Option<i64>
    ensures value { result ≡ option_and_then number_of (field_at (fields_of row.now) place) }
    ensures size { IfSome result (λ n. (neg_ℤ (pos (10 ^ 12)) ≤ℤ n) × (n ≤ℤ pos (10 ^ 12))) }
{
    match row.get(place) {
        Some(field) => number(field),
        None => None,
    }
}

/// Whether a record is `time_us` and `signal`.
fn is_header(row: &ByteRecord) -> bool
    ensures { result ≡ is_header (fields_of row.now) }
{
    row.len() == 2 && is_word_at(row, 0, b"time_us") && is_word_at(row, 1, b"signal")
}

/// Whether a field of a record is this word, but for blanks at its ends.
fn is_word_at(row: &ByteRecord, place: usize, word: &[u8]) -> bool
    ensures { result ≡ is_word_at word.now (field_at (fields_of row.now) place) }
{
    match row.get(place) {
        Some(field) => without_blanks(field) == word,
        None => false,
    }
}
