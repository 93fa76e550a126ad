//! What a command comes to: nothing, a change, or a refusal; and what is replied to each.

ghost use Rattle.std.specs.Prelude.{◌≡◌, ◌+◌, ◌<◌, ℕ, List, true, false, IfOk, IfSome, Some, unwrap_or};
ghost use Rattle.cds_trace.specs.Signal.{Signal};
ghost use Rattle.cds_book.specs.Plan.{command_of, applied, sequence_changed, Accepts, IsCommand};
ghost use Rattle.cds_base.specs.declared.clock.TheConstants.{MOMENT_LIMIT};
ghost use Rattle.cds_book.specs.Tables.{TablesState, trace_versions_of, draft_of, method_versions_of, sequence_of};
ghost use Rattle.cds_book.specs.Tables.{signed_of};
ghost use Rattle.cds_report.specs.Dates.{date_of};
ghost use Rattle.cds_wire.specs.declared.answer.Answer.TheVariants as answer;
ghost use Rattle.cds_sign.specs.declared.command.Change.TheVariants as change;
ghost use Rattle.cds_desk.specs.State.{with_change};
ghost use Rattle.cds_desk.specs.Judged.{change_of};
ghost use Rattle.cds_desk.specs.Commands.{IsPlanned, IsBrief, answer_of, draft_status, sequence_status};
ghost use Rattle.cds_desk.specs.Commands.{made_status, sequence_answer, signature_answer, unchanged_reply};
ghost use Rattle.cds_desk.specs.Commands.{changed_reply, commanded};

use crate::judged::Judged;
use crate::refusals::plan_reply;
use crate::state::State;
use cds_base::{Name, NoMemory, Text};
use cds_book::{
    Change, Command, Plan, PlanError, a_change_is_what_was_asked, a_freeze_makes_the_version_named,
    a_trace_is_the_next_version,
};
use cds_report::date_text;
use cds_respond::{Reply, answered};
use cds_wire::Answer;
use http::StatusCode;
use std::alloc::Global;

#[tactic(auto, using(crate::proofs::CommandLaws::brief))]
/// What a command comes to in this state: a reply alone where it changes nothing or is refused, and else a reply with
/// the change. Nothing is changed.
pub(crate) fn decide(alloc: Global, state: &State, command: &Command) -> Result<Judged, NoMemory>
    requires command { IsCommand command.now }
    requires brief { IsBrief command.now }
    ensures value { IfOk result (λ j. j ≡ commanded state.now.held command.now) }
    ensures accepted { IfOk result (λ j. IfSome (change_of j) (IsPlanned state.now.held)) }
{
    a_change_is_what_was_asked();
    match state.tables().plan(command) {
        Ok(Plan::Unchanged) => Ok(Judged::Reply(unchanged_reply(alloc, state, command)?)),
        Ok(Plan::Change(change)) => Ok(Judged::Change {
            reply: changed_reply(alloc, state, &change)?,
            change,
        }),
        Err(PlanError::NoMemory) => Err(NoMemory),
        Err(error) => Ok(Judged::Reply(plan_reply(alloc, command, error)?)),
    }
}

/// The reply to a command that changes nothing in this state.
fn unchanged_reply(alloc: Global, state: &State, command: &Command) -> Result<Reply, NoMemory>
    ensures { IfOk result (λ r. r ≡ unchanged_reply state.now.held command.now) }
{
    let answer = unchanged_answer(alloc, state, command)?;
    answered(alloc, StatusCode::OK, &answer)
}

/// What is answered to a command that changes nothing in this state: the latest version is as it is asked for.
fn unchanged_answer(alloc: Global, state: &State, command: &Command) -> Result<Answer, NoMemory>
    ensures { IfOk result (λ a. a ≡ answer_of command.now true state.now.held) }
{
    match command {
        Command::Trace { name, trace } => Ok(Answer::Trace {
            samples: trace.len(),
            unchanged: true,
            version: state.tables().trace_versions(*name).unwrap_or(0),
        }),
        Command::Draft { .. } => Ok(Answer::Draft { unchanged: true }),
        Command::Freeze { name, .. } => Ok(Answer::Freeze {
            unchanged: true,
            version: state.tables().method_versions(*name).unwrap_or(0),
        }),
        Command::Sequence { name, .. }
        | Command::Events { name, .. }
        | Command::Rebind { name, .. } => Ok(kept_answer(state, *name)),
        Command::Sign {
            sequence,
            number,
            ..
        } => signed_answer(alloc, state, *sequence, *number),
    }
}

/// What is answered of a signature that is kept: its basis, its number and its date.
fn signed_answer(
    alloc: Global,
    state: &State,
    sequence: Name,
    number: u32,
) -> Result<Answer, NoMemory>
    ensures { IfOk result (λ a. a ≡ signature_answer true (signed_of state.now.held.tables sequence number)) }
{
    state.tables().rules();
    let Some(signed) = state.tables().signed(sequence, number) else {
        return Ok(Answer::Sign {
            basis: 0,
            number: 0,
            signed: Text::from_string(String::new(alloc)),
            unchanged: true,
        });
    };
    Ok(Answer::Sign {
        basis: signed.basis,
        number: signed.number,
        signed: date_text(alloc, signed.moment)?,
        unchanged: true,
    })
}

/// What is answered of a sequence to which nothing changes.
fn kept_answer(state: &State, name: Name) -> Answer
    ensures { result ≡ sequence_answer true (sequence_of state.now.held.tables name) }
{
    match state.tables().sequence(name) {
        Some(sequence) => Answer::Sequence {
            basis: sequence.basis,
            edition: sequence.edition,
            unchanged: true,
        },
        None => Answer::Sequence {
            basis: 0,
            edition: 0,
            unchanged: true,
        },
    }
}

/// The reply to a command that was accepted as this change of the state.
fn changed_reply(alloc: Global, state: &State, change: &Change) -> Result<Reply, NoMemory>
    requires { Accepts state.now.held.tables change.now }
    ensures { IfOk result (λ r. r ≡ changed_reply state.now.held change.now) }
{
    let answer = changed_answer(alloc, state, change)?;
    answered(alloc, made_status(state, change), &answer)
}

/// The status of a change: a version, a first draft and a new sequence are made, and what was there is only changed.
fn made_status(state: &State, change: &Change) -> StatusCode
    ensures { result ≡ made_status state.now.held (command_of change.now) }
{
    match change {
        Change::Draft { name, .. } => draft_status(state, *name),
        Change::Sequence { name, .. } => sequence_status(state, *name),
        Change::Events { .. } | Change::Rebind { .. } => StatusCode::OK,
        Change::Trace { .. } | Change::Freeze { .. } | Change::Sign { .. } => StatusCode::CREATED,
    }
}

/// The status where a sequence is put.
fn sequence_status(state: &State, name: Name) -> StatusCode
    ensures { result ≡ sequence_status (sequence_of state.now.held.tables name) }
{
    match state.tables().sequence(name) {
        Some(_) => StatusCode::OK,
        None => StatusCode::CREATED,
    }
}

/// The status where a draft is put.
fn draft_status(state: &State, name: Name) -> StatusCode
    ensures { result ≡ draft_status (draft_of state.now.held.tables name) }
{
    match state.tables().draft(name) {
        Some(_) => StatusCode::OK,
        None => StatusCode::CREATED,
    }
}

/// What is answered to a command that was accepted as this change: its numbers are those of the state after it.
#[tactic(auto, using(crate::proofs::SignLaws::sign_moment, crate::proofs::SignLaws::sign_answer))]
fn changed_answer(alloc: Global, state: &State, change: &Change) -> Result<Answer, NoMemory>
    requires { Accepts state.now.held.tables change.now }
    ensures { IfOk result (λ a. a ≡ answer_of (command_of change.now) false (with_change state.now.held change.now)) }
{
    match change {
        Change::Trace { name, trace } => Ok(Answer::Trace {
            samples: trace.len(),
            unchanged: false,
            version: next_version(state, *name),
        }),
        Change::Draft { .. } => Ok(Answer::Draft { unchanged: false }),
        Change::Freeze { version, .. } => Ok(frozen_answer(*version)),
        Change::Sequence { name, .. } => made_answer(state, change, *name),
        Change::Events { name, .. } => made_answer(state, change, *name),
        Change::Rebind { name, .. } => made_answer(state, change, *name),
        Change::Sign {
            number,
            basis,
            moment,
            ..
        } => new_answer(alloc, *basis, *number, *moment),
    }
}

/// What is answered of a signature that is made: its basis, its number and its date.
fn new_answer(alloc: Global, basis: u64, number: u32, moment: u64) -> Result<Answer, NoMemory>
    requires { moment < MOMENT_LIMIT }
    ensures { IfOk result (λ a. a ≡ answer.Sign basis number (date_of moment) false) }
{
    Ok(Answer::Sign {
        basis,
        number,
        signed: date_text(alloc, moment)?,
        unchanged: false,
    })
}

/// What is answered to a freeze that makes this version.
fn frozen_answer(version: u32) -> Answer
    ensures value { result ≡ answer.Freeze false version }
    ensures named { (tables : TablesState) (name : List ℕ) → Accepts tables (change.Freeze name version)
        → method_versions_of (applied tables (change.Freeze name version)) name ≡ Some version }
{
    a_freeze_makes_the_version_named();
    Answer::Freeze {
        unchanged: false,
        version,
    }
}

/// What is answered to a change of a sequence: the numbers that it has then.
fn made_answer(state: &State, change: &Change, name: Name) -> Result<Answer, NoMemory>
    requires accepted { Accepts state.now.held.tables change.now }
    requires own { sequence_changed change.now ≡ Some name }
    ensures { IfOk result (λ a. a ≡
        sequence_answer false (sequence_of (applied state.now.held.tables change.now) name)) }
{
    let numbers = state.tables().numbers_after(change, name)?;
    Ok(Answer::Sequence {
        basis: numbers.basis,
        edition: numbers.edition,
        unchanged: false,
    })
}

/// The number of the version that a trace becomes under this name.
fn next_version(state: &State, name: Name) -> u32
    ensures { (signal : Signal) → trace_versions_of
        (applied state.now.held.tables (change.Trace name signal)) name ≡ Some result }
{
    a_trace_is_the_next_version();
    state.tables().trace_versions(name).unwrap_or(0) + 1
}
