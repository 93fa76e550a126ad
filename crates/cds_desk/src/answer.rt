//! What `peaks` answers to the bytes of its source.

ghost use Rattle.std.specs.Prelude.{◌≡◌, ◌⊎◌, IfOk, Ok, Some};
ghost use Rattle.cds_rules.specs.Ranges.{SlopeRanges};
ghost use Rattle.cds_desk.specs.PeaksAnswer.{peaks_answer, answer_to_trace, refusal, refusal_line};
ghost use Rattle.std.specs.String.{string_bytes};

use crate::status::Status;
use cds_base::{Bytes, NoMemory, Steps};
use cds_detect::raw_peaks;
use cds_report::peaks_text;
use cds_respond::MOST_SOURCE_BYTES;
use cds_rules::Method;
use cds_trace::{Trace, TraceError};
use cds_words::PeaksOptions;
use std::alloc::Global;
use std::sync::ledger::Ledger;

/// The number of the refusal of a source with more bytes than a command may read.
pub const TOO_MANY_BYTES: u8 = 9;

/// What is answered: the status, and the text that is written.
#[derive(Debug, Drop)]
pub struct Answer {
    pub status: Status,
    pub text: Bytes,
}

/// What `peaks` answers to a source of these bytes.
pub(crate) fn peaks_answer<L: Ledger>(
    alloc: Global,
    options: PeaksOptions,
    bytes: &[u8],
    steps: &mut Steps<L>,
) -> Result<Answer, NoMemory>
    requires { SlopeRanges options.bunch options.slope_on options.slope_off options.plateau }
    ensures value { IfOk result (λ answer. answer ≡ peaks_answer options bytes.now) }
    ensures status { IfOk result (λ answer. (answer.status ≡ Status.Done) ⊎ (answer.status ≡ Status.Refused)) }
{
    if MOST_SOURCE_BYTES < bytes.len() {
        return refusal(alloc, TOO_MANY_BYTES, None);
    }
    match Trace::read_csv(alloc, bytes) {
        Ok(trace) => found(alloc, options, &trace, steps),
        Err(TraceError::NoMemory) => Err(NoMemory),
        Err(error) => refusal(alloc, error.number().unwrap_or(0), error.record()),
    }
}

/// The answer to a trace: its raw peaks.
fn found<L: Ledger>(
    alloc: Global,
    options: PeaksOptions,
    trace: &Trace,
    steps: &mut Steps<L>,
) -> Result<Answer, NoMemory>
    requires { SlopeRanges options.bunch options.slope_on options.slope_off options.plateau }
    ensures { IfOk result (λ answer. answer ≡ answer_to_trace options (Ok trace.now)) }
{
    let method = Method::of_slopes(
        alloc,
        options.bunch,
        options.slope_on,
        options.slope_off,
        options.plateau,
    );
    let raw = raw_peaks(alloc, trace, &method, &[], steps)?;
    Ok(Answer {
        status: Status::Done,
        text: peaks_text(alloc, &raw)?,
    })
}

/// The answer to a refused trace.
fn refusal(alloc: Global, number: u8, at: Option<u32>) -> Result<Answer, NoMemory>
    ensures { IfOk result (λ answer. answer ≡ refusal number at) }
{
    Ok(Answer {
        status: Status::Refused,
        text: Bytes::from_vec(refusal_line(alloc, number, at)?.into_bytes()),
    })
}

fn refusal_line(alloc: Global, number: u8, at: Option<u32>) -> Result<String, NoMemory>
    ensures { IfOk result (λ line. string_bytes line ≡ refusal_line number at) }
{
    match at {
        None => format!(in alloc; "refused {number}\n"),
        Some(at) => record_line(alloc, number, at),
    }
}

fn record_line(alloc: Global, number: u8, at: u32) -> Result<String, NoMemory>
    ensures { IfOk result (λ line. string_bytes line ≡ refusal_line number (Some at)) }
{
    let mut line = format!(in alloc; "refused {number}")?;
    write!(line, " record {at}\n")?;
    Ok(line)
}
