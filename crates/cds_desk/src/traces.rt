//! What requests on traces come to.

ghost use Rattle.std.specs.Prelude.{◌≡◌, IfOk, IfSome, option_map};
ghost use Rattle.cds_book.specs.Tables.{trace_of, trace_versions_of};
ghost use Rattle.cds_trace.specs.TraceText.{csv_trace};
ghost use Rattle.cds_trace.specs.WrittenText.{csv_text};
ghost use Rattle.cds_desk.specs.Judged.{change_of};
ghost use Rattle.cds_desk.specs.Commands.{IsPlanned};
ghost use Rattle.cds_desk.specs.Step.{trace_put, version_shown};
ghost use Rattle.cds_respond.specs.declared.reply.Content.TheVariants as content;

use crate::commands::decide;
use crate::judged::Judged;
use crate::refusals::{absent_version, csv_reply};
use crate::state::State;
use cds_base::{Name, NoMemory};
use cds_book::Command;
use cds_respond::{Content, Reply};
use cds_trace::{Trace, TraceError};
use http::StatusCode;
use std::alloc::Global;

/// Puts the trace that the body states.
pub(crate) fn put_trace(
    alloc: Global,
    state: &State,
    name: Name,
    body: &[u8],
) -> Result<Judged, NoMemory>
    ensures value { IfOk result (λ j. j ≡ trace_put state.now.held name (csv_trace body.now)) }
    ensures accepted { IfOk result (λ j. IfSome (change_of j) (IsPlanned state.now.held)) }
{
    match Trace::read_csv(alloc, body) {
        Ok(trace) => {
            let (_name, _count) = (name.as_bytes(), trace.len());
            decide(alloc, state, &Command::Trace { name, trace })
        }
        Err(TraceError::NoMemory) => Err(NoMemory),
        Err(error) => Ok(Judged::Reply(csv_reply(alloc, error)?)),
    }
}

/// The text of a version of a trace, as a reply.
pub(crate) fn trace_text(
    alloc: Global,
    state: &State,
    name: Name,
    version: u32,
) -> Result<Reply, NoMemory>
    ensures { IfOk result (λ r. r ≡ version_shown 1 name version
        (trace_versions_of state.now.held.tables name) content.Csv
        (option_map csv_text (trace_of state.now.held.tables name version))) }
{
    let Some(trace) = state.tables().trace(name, version) else {
        return absent_version(alloc, 1, name, version, state.tables().trace_versions(name));
    };
    Ok(Reply {
        status: StatusCode::OK,
        content: Content::Csv,
        allow: None,
        body: trace.write_csv()?,
    })
}
