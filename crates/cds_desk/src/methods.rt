//! What requests on methods come to.

ghost use Rattle.std.specs.Prelude.{◌≡◌, IfOk, IfSome};
ghost use Rattle.cds_book.specs.Kept.{IsMethod};
ghost use Rattle.cds_book.specs.Tables.{method_of, method_versions_of};
ghost use Rattle.cds_sign.specs.declared.command.Command.TheVariants as command;
ghost use Rattle.cds_rules.specs.Stated.{stated};
ghost use Rattle.cds_wire.specs.Stated.{body as stated_in, freeze_of};
ghost use Rattle.cds_desk.specs.Judged.{change_of};
ghost use Rattle.cds_desk.specs.Commands.{IsPlanned, commanded};
ghost use Rattle.cds_desk.specs.Step.{draft_put, draft_frozen, version_shown};
ghost use Rattle.cds_respond.specs.declared.reply.Content.TheVariants as content;

use crate::commands::decide;
use crate::judged::Judged;
use crate::refusals::{absent_version, body_refused, toml_reply};
use crate::state::State;
use cds_base::{Bytes, Name, NoMemory};
use cds_book::Command;
use cds_respond::{Content, Reply};
use cds_rules::{Method, MethodError};
use cds_wire::read_freeze;
use http::StatusCode;
use std::alloc::Global;

/// Puts the text as the draft of a method, as it was sent, where it states a method.
pub(crate) fn put_draft(
    alloc: Global,
    state: &State,
    name: Name,
    text: &[u8],
) -> Result<Judged, NoMemory>
    ensures value { IfOk result (λ j. j ≡ draft_put state.now.held name text.now (stated text.now)) }
    ensures accepted { IfOk result (λ j. IfSome (change_of j) (IsPlanned state.now.held)) }
{
    match Method::read_toml(alloc, text) {
        Ok(_) => put_method(alloc, state, name, text),
        Err(MethodError::NoMemory) => Err(NoMemory),
        Err(error) => Ok(Judged::Reply(toml_reply(alloc, &error)?)),
    }
}

/// Puts the text of a method as its draft.
#[tactic(auto, using(crate::proofs::CommandLaws::method_length))]
fn put_method(alloc: Global, state: &State, name: Name, text: &[u8]) -> Result<Judged, NoMemory>
    requires { IsMethod text.now }
    ensures value { IfOk result (λ j. j ≡ commanded state.now.held (command.Draft name text.now)) }
    ensures accepted { IfOk result (λ j. IfSome (change_of j) (IsPlanned state.now.held)) }
{
    let _name = name.as_bytes();
    let text = Bytes::from_vec(Vec::from_slice(alloc, text)?);
    decide(alloc, state, &Command::Draft { name, text })
}

/// Freezes the draft of a method as the version that the body names.
pub(crate) fn freeze_draft(
    alloc: Global,
    state: &State,
    name: Name,
    body: &[u8],
) -> Result<Judged, NoMemory>
    ensures value { IfOk result (λ j. j ≡ draft_frozen state.now.held name (stated_in freeze_of body.now)) }
    ensures accepted { IfOk result (λ j. IfSome (change_of j) (IsPlanned state.now.held)) }
{
    match read_freeze(alloc, body) {
        Ok(version) => {
            let _name = name.as_bytes();
            decide(alloc, state, &Command::Freeze { name, version })
        }
        Err(error) => Ok(Judged::Reply(body_refused(alloc, error)?)),
    }
}

/// The text of a version of a method as it was sent, as a reply.
pub(crate) fn method_text(
    alloc: Global,
    state: &State,
    name: Name,
    version: u32,
) -> Result<Reply, NoMemory>
    ensures { IfOk result (λ r. r ≡ version_shown 2 name version
        (method_versions_of state.now.held.tables name) content.Toml (method_of state.now.held.tables name version)) }
{
    let Some(text) = state.tables().method(name, version) else {
        return absent_version(
            alloc,
            2,
            name,
            version,
            state.tables().method_versions(name),
        );
    };
    Ok(Reply {
        status: StatusCode::OK,
        content: Content::Toml,
        allow: None,
        body: Bytes::from_vec(Vec::from_slice(alloc, text)?),
    })
}
