//! The command `peaks`: the source is read to its end, and the table of its raw peaks or the line of a refusal is
//! written.
ghost use Rattle.std.specs.Prelude.{◌≡◌, ◌⊎◌, ◌≤◌};
ghost use Rattle.cds_base.specs.Faults.{Rose};
ghost use Rattle.cds_base.specs.Told.{then_more};
ghost use Rattle.cds_respond.specs.Sending.{HoldsPart, Sent};
ghost use Rattle.cds_rules.specs.Ranges.{SlopeRanges};
ghost use Rattle.cds_desk.specs.Run.{PeaksRan, StreamsEnd, streams};

use crate::answer::{Answer, peaks_answer};
use crate::status::Status;
use cds_base::{Failed, Sink, Source, Steps};
use cds_respond::{ReceiveError, receive, send};
use cds_words::PeaksOptions;
use std::alloc::Global;
use std::sync::ledger::Ledger;

/// The command `peaks` with these options.
pub(crate) fn peaks<S: Source, W: Sink, L: Ledger>(
    alloc: Global,
    options: PeaksOptions,
    source: &mut S,
    sink: &mut W,
    steps: &mut Steps<L>,
) -> Status
    requires { SlopeRanges options.bunch options.slope_on options.slope_off options.plateau }
    ensures ran { PeaksRan options result (streams source.old (S.told source.old) sink.old (W.told sink.old))
        (streams source.new (S.told source.new) sink.new (W.told sink.new)) }
    ensures ends { StreamsEnd result (streams source.old (S.told source.old) sink.old (W.told sink.old))
        (streams source.new (S.told source.new) sink.new (W.told sink.new)) }
{
    let bytes = match receive(alloc, source) {
        Ok(bytes) => bytes,
        Err(ReceiveError::Failed) => return Status::SourceFailed,
        Err(ReceiveError::NoMemory) => return Status::NoMemory,
    };
    let Ok(answer) = peaks_answer(alloc, options, &bytes, steps) else {
        return Status::NoMemory;
    };
    tell(sink, &answer)
}

/// Writes the answer, and answers its status; where the sink fails in a table, the status for that.
fn tell<W: Sink>(sink: &mut W, answer: &Answer) -> Status
    requires { (answer.now.status ≡ Status.Done) ⊎ (answer.now.status ≡ Status.Refused) }
    ensures done { result ≡ Status.Done → (answer.now.status ≡ Status.Done)
        × ((W.told sink.new).written ≡ then_more (W.told sink.old).written answer.now.text) }
    ensures done_failed_no_write { result ≡ Status.Done → (W.told sink.new).faults ≡ (W.told sink.old).faults }
    ensures refused { result ≡ Status.Refused → (answer.now.status ≡ Status.Refused)
        × Sent (W.told sink.old).written (W.told sink.new).written (W.told sink.old).faults
        (W.told sink.new).faults answer.now.text }
    ensures sink_failed { result ≡ Status.SinkFailed → (answer.now.status ≡ Status.Done)
        × Rose (W.told sink.old).faults (W.told sink.new).faults
        × HoldsPart (W.told sink.old).written (W.told sink.new).written answer.now.text }
    ensures statuses { ((result ≡ Status.Done) ⊎ (result ≡ Status.Refused)) ⊎ (result ≡ Status.SinkFailed) }
    ensures counts { (W.told sink.old).faults ≤ (W.told sink.new).faults }
{
    match send(sink, answer.text.as_slice()) {
        Err(Failed) if answer.status == Status::Done => Status::SinkFailed,
        _ => answer.status,
    }
}
