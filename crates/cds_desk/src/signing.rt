//! What requests for signatures come to.

ghost use Rattle.std.specs.Prelude.{◌≡◌, ◌<◌, true, IfOk, IfSome, IsTrue, is_some, unwrap_or};
ghost use Rattle.cds_base.specs.declared.clock.TheConstants.{MOMENT_LIMIT};
ghost use Rattle.cds_wire.specs.Stated.{IsSignBody, body as stated_in, sign_of};
ghost use Rattle.cds_sign.specs.declared.command.Command.TheVariants as command;
ghost use Rattle.cds_desk.specs.State.{State as StateSeen};
ghost use Rattle.cds_desk.specs.Commands.{IsPlanned, commanded};
ghost use Rattle.cds_desk.specs.Judged.{change_of};
ghost use Rattle.cds_desk.specs.Signing.{MayBeWanted, ClockTold, asks_clock, is_new, moments_in};
ghost use Rattle.cds_desk.specs.Step.{at_moment, signature_at, signature_wanted, signed_at};
ghost use Rattle.cds_desk.specs.declared.judged.Wanted.TheVariants as wanting;

use crate::commands::decide;
use crate::judged::{Judged, JudgedAt, Wanted};
use crate::refusals::body_refused;
use crate::state::State;
use cds_base::{Bytes, Clock, Name, NoMemory, Text};
use cds_book::{Command, PlanError, SignPlan};
use cds_report::signed_text;
use cds_wire::{SignBody, read_sign};
use std::alloc::Global;

/// A signed text is shorter than this number of bytes, 2^31. A longer one finds no memory.
const SIGNED_LIMIT: usize = 1 << 31;

/// The signature that the body states of a sequence.
pub(crate) fn signature(alloc: Global, sequence: Name, body: &[u8]) -> Result<Wanted, NoMemory>
    ensures value { IfOk result (λ w. w ≡ signature_wanted sequence (stated_in sign_of body.now)) }
    ensures accepted { (state : StateSeen) → IfOk result (MayBeWanted state) }
{
    match read_sign(alloc, body) {
        Ok(asked) => Ok(Wanted::Signature { sequence, asked }),
        Err(error) => Ok(Wanted::Judged(Judged::Reply(body_refused(alloc, error)?))),
    }
}

/// Judges what a request wants, at the moment for which the clock is asked where it wants a signature that would be
/// made.
pub(crate) fn judge_wanted<C: Clock>(
    alloc: Global,
    state: &State,
    clock: &mut C,
    wanted: Wanted,
) -> JudgedAt
    requires { MayBeWanted state.now.held wanted }
    ensures value { IfOk result.judged (λ j. j ≡ at_moment state.now.held (unwrap_or result.asked 0) wanted) }
    ensures accepted { IfOk result.judged (λ j. IfSome (change_of j) (IsPlanned state.now.held)) }
    ensures asks { IsTrue (is_some result.asked) → asks_clock state.now.held wanted ≡ true }
    ensures asked { IfOk result.judged (λ _. is_some result.asked ≡ asks_clock state.now.held wanted) }
    ensures told { ClockTold (moments_in result.asked) (C.moments clock.old) (C.moments clock.new) }
{
    match wanted {
        Wanted::Judged(judged) => JudgedAt {
            asked: None,
            judged: Ok(judged),
        },
        Wanted::Signature { sequence, asked } => sign(alloc, state, clock, sequence, &asked),
    }
}

/// Judges a signature. The clock is asked once where it would be made, and not at all where it is refused or kept; it
/// is then made at this moment.
fn sign<C: Clock>(
    alloc: Global,
    state: &State,
    clock: &mut C,
    sequence: Name,
    asked: &SignBody,
) -> JudgedAt
    requires { IsSignBody asked.now }
    ensures value { IfOk result.judged (λ j. j
        ≡ commanded state.now.held (signature_at state.now.held sequence asked.now (unwrap_or result.asked 0))) }
    ensures accepted { IfOk result.judged (λ j. IfSome (change_of j) (IsPlanned state.now.held)) }
    ensures asks { IsTrue (is_some result.asked)
        → asks_clock state.now.held (wanting.Signature sequence asked.now) ≡ true }
    ensures asked { IfOk result.judged (λ _. is_some result.asked
        ≡ asks_clock state.now.held (wanting.Signature sequence asked.now)) }
    ensures told { ClockTold (moments_in result.asked) (C.moments clock.old) (C.moments clock.new) }
{
    match judge_first(alloc, state, sequence, asked) {
        Ok(Judged::Change { .. }) => {
            let moment = clock.now();
            JudgedAt {
                asked: Some(moment),
                judged: judge_at(alloc, state, sequence, asked, moment),
            }
        }
        Ok(Judged::Reply(reply)) => JudgedAt {
            asked: None,
            judged: Ok(Judged::Reply(reply)),
        },
        Err(NoMemory) => JudgedAt {
            asked: None,
            judged: Err(NoMemory),
        },
    }
}

/// Judges a signature at the moment 0. Its text is made only where no signature of its number is kept and nothing else
/// refuses it.
#[tactic(auto, using(crate::proofs::SignLaws::may_sign))]
fn judge_first(
    alloc: Global,
    state: &State,
    sequence: Name,
    asked: &SignBody,
) -> Result<Judged, NoMemory>
    requires { IsSignBody asked.now }
    ensures value { IfOk result (λ j. j ≡ commanded state.now.held (signature_at state.now.held sequence asked.now 0)) }
    ensures accepted { IfOk result (λ j. IfSome (change_of j) (IsPlanned state.now.held)) }
{
    if is_new(state, sequence, asked)? {
        return judge_at(alloc, state, sequence, asked, 0);
    }
    let _name = sequence.as_bytes();
    let without_text = command(alloc, sequence, asked, 0, Bytes::from_vec(Vec::new(alloc)))?;
    decide(alloc, state, &without_text)
}

/// Whether a signature is neither kept nor refused before its text is looked at.
fn is_new(state: &State, sequence: Name, asked: &SignBody) -> Result<bool, NoMemory>
    ensures { IfOk result (λ new. new ≡ is_new state.now.held sequence asked.now) }
{
    let (name, meaning) = (
        asked.name.as_str().as_bytes(),
        asked.meaning.as_str().as_bytes(),
    );
    match state
        .tables()
        .would_sign(sequence, asked.basis, asked.number, name, meaning)
    {
        Ok(SignPlan::New) => Ok(true),
        Err(PlanError::NoMemory) => Err(NoMemory),
        _ => Ok(false),
    }
}

/// Judges a signature at a moment, with its text.
#[tactic(auto, using(crate::proofs::SignLaws::may_sign))]
fn judge_at(
    alloc: Global,
    state: &State,
    sequence: Name,
    asked: &SignBody,
    moment: u64,
) -> Result<Judged, NoMemory>
    requires ranges { IsSignBody asked.now }
    requires moment { moment < MOMENT_LIMIT }
    ensures value { IfOk result (λ j. j
        ≡ commanded state.now.held (signature_at state.now.held sequence asked.now moment)) }
    ensures accepted { IfOk result (λ j. IfSome (change_of j) (IsPlanned state.now.held)) }
{
    let _name = sequence.as_bytes();
    let text = text_at(alloc, state, sequence, asked, moment)?;
    if SIGNED_LIMIT <= text.len() {
        return Err(NoMemory);
    }
    let written = command(alloc, sequence, asked, moment, text)?;
    decide(alloc, state, &written)
}

/// The text of a signature at a moment; empty where there is no such sequence.
fn text_at(
    alloc: Global,
    state: &State,
    sequence: Name,
    asked: &SignBody,
    moment: u64,
) -> Result<Bytes, NoMemory>
    requires { moment < MOMENT_LIMIT }
    ensures { IfOk result (λ text. text ≡ signed_at state.now.held sequence asked.now moment) }
{
    let (name, meaning) = (
        asked.name.as_str().as_bytes(),
        asked.meaning.as_str().as_bytes(),
    );
    let number = asked.number;
    let (tables, graph) = (state.tables(), state.graph());
    match signed_text(
        alloc, tables, graph, sequence, number, name, meaning, moment,
    )? {
        Some(text) => Ok(text),
        None => Ok(Bytes::from_vec(Vec::new(alloc))),
    }
}

/// The command that signs a sequence.
fn command(
    alloc: Global,
    sequence: Name,
    asked: &SignBody,
    moment: u64,
    text: Bytes,
) -> Result<Command, NoMemory>
    ensures { IfOk result (λ c. c
        ≡ command.Sign sequence asked.now.number asked.now.basis moment asked.now.name asked.now.meaning text) }
{
    Ok(Command::Sign {
        sequence,
        number: asked.number,
        basis: asked.basis,
        moment,
        name: copy(alloc, &asked.name)?,
        meaning: copy(alloc, &asked.meaning)?,
        text,
    })
}

/// A copy of a text.
fn copy(alloc: Global, text: &Text) -> Result<Text, NoMemory>
    ensures { IfOk result (λ t. t ≡ text.now) }
{
    Ok(Text::from_string(String::from_str(alloc, text.as_str())?))
}
