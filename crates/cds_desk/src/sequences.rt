//! What requests on sequences and on their signatures come to.

ghost use Rattle.std.specs.Prelude.{◌≡◌, IfOk, IfSome};
ghost use Rattle.cds_book.specs.Tables.{sequence_of, signed_of};
ghost use Rattle.cds_wire.specs.Stated.{body as stated_in, sequence_of as stated_sequence};
ghost use Rattle.cds_wire.specs.Stated.{put_events_of, reprocess_of};
ghost use Rattle.cds_desk.specs.Judged.{change_of};
ghost use Rattle.cds_desk.specs.Commands.{IsPlanned};
ghost use Rattle.cds_desk.specs.Step.{asked_in, signature_shown};

use crate::commands::decide;
use crate::judged::Judged;
use crate::refusals::{absent_signature, body_refused};
use crate::state::State;
use cds_base::{Bytes, Name, NoMemory};
use cds_respond::{Content, Reply};
use cds_wire::{read_events, read_reprocess, read_sequence};
use http::StatusCode;
use std::alloc::Global;

/// Puts the sequence that the body states.
pub(crate) fn put_sequence(
    alloc: Global,
    state: &State,
    name: Name,
    body: &[u8],
) -> Result<Judged, NoMemory>
    ensures value { IfOk result (λ j. j ≡ asked_in state.now.held (stated_in (stated_sequence name) body.now)) }
    ensures accepted { IfOk result (λ j. IfSome (change_of j) (IsPlanned state.now.held)) }
{
    match read_sequence(alloc, name, body) {
        Ok(command) => decide(alloc, state, &command),
        Err(error) => Ok(Judged::Reply(body_refused(alloc, error)?)),
    }
}

/// Puts the manual events of a row that the body states.
pub(crate) fn put_events(
    alloc: Global,
    state: &State,
    name: Name,
    row: u32,
    body: &[u8],
) -> Result<Judged, NoMemory>
    ensures value { IfOk result (λ j. j ≡ asked_in state.now.held (stated_in (put_events_of name row) body.now)) }
    ensures accepted { IfOk result (λ j. IfSome (change_of j) (IsPlanned state.now.held)) }
{
    match read_events(alloc, name, row, body) {
        Ok(command) => decide(alloc, state, &command),
        Err(error) => Ok(Judged::Reply(body_refused(alloc, error)?)),
    }
}

/// Binds a sequence to the version of its method that the body states.
pub(crate) fn rebind(
    alloc: Global,
    state: &State,
    name: Name,
    body: &[u8],
) -> Result<Judged, NoMemory>
    ensures value { IfOk result (λ j. j ≡ asked_in state.now.held (stated_in (reprocess_of name) body.now)) }
    ensures accepted { IfOk result (λ j. IfSome (change_of j) (IsPlanned state.now.held)) }
{
    match read_reprocess(alloc, name, body) {
        Ok(command) => decide(alloc, state, &command),
        Err(error) => Ok(Judged::Reply(body_refused(alloc, error)?)),
    }
}

/// The text of a signature as it was signed, as a reply.
pub(crate) fn signature_text(
    alloc: Global,
    state: &State,
    name: Name,
    number: u32,
) -> Result<Reply, NoMemory>
    ensures { IfOk result (λ r. r ≡ signature_shown name number
        (sequence_of state.now.held.tables name) (signed_of state.now.held.tables name number)) }
{
    let Some(signed) = state.tables().signed(name, number) else {
        return absent_signature(alloc, name, number, state.tables().sequence(name).is_some());
    };
    Ok(Reply {
        status: StatusCode::OK,
        content: Content::Plain,
        allow: None,
        body: Bytes::from_vec(Vec::from_slice(alloc, signed.text.as_slice())?),
    })
}
