//! The turn of one request: its answer is prepared, its change is kept and carried out, and its response is written.
ghost use Rattle.std.specs.Prelude.{◌≡◌, ◌≤◌, ◌<◌, true, length, ℕ, List, Option, Some, None, IfOk, IfSome, IsTrue};
ghost use Rattle.std.specs.Prelude.{OnOk, is_some, unwrap_or};
ghost use Rattle.std.specs.Prelude.{OnErr};
ghost use Rattle.cds_base.specs.Faults.{Rose};
ghost use Rattle.cds_book.specs.Plan.{applied, room_of};
ghost use Rattle.cds_graph.specs.Graph.{StandsFor};
ghost use Rattle.cds_base.specs.Told.{then_more};
ghost use Rattle.cds_keep.specs.declared.keeper.TheConstants.{RECORD_LIMIT};
ghost use Rattle.cds_respond.specs.Sending.{HoldsPart};
ghost use Rattle.cds_desk.specs.Serving.{FindsOn};
ghost use Rattle.cds_desk.specs.Signing.{ClockTold, asks_clock, moments_in};
ghost use Rattle.cds_respond.specs.Response.{response_text};
ghost use Rattle.cds_desk.specs.Routes.{route_table};
ghost use Rattle.cds_desk.specs.Judged.{reply_of, change_of};
ghost use Rattle.cds_desk.specs.Commands.{IsPlanned};
ghost use Rattle.cds_desk.specs.State.{cost_of};
ghost use Rattle.cds_desk.specs.Turn.{wanted_of, judged_of, KeepsChange, TakesSteps, AsksClock, Comes, stored};
ghost use Rattle.cds_desk.specs.Turn.{answered_text};

use crate::judge::judge;
use crate::judged::{Judged, JudgedAt};
use crate::routes::Route;
use crate::signing::judge_wanted;
use crate::state::State;
use crate::target::read_target;
use cds_base::{Bytes, Clock, Failed, NoMemory, Sink, Steps};
use cds_book::Change;
use cds_codec::write;
use cds_graph::Prepared;
use cds_keep::{Keeper, PutError};
use cds_respond::{Fixed, response_text, send, send_fixed};
use matchit::Router;
use std::alloc::Global;
use std::sync::ledger::Ledger;

/// A whole request, in its parts.
#[derive(Clone, Copy, Debug)]
pub(crate) struct Asked<'m> {
    pub(crate) method: &'m [u8],
    pub(crate) target: &'m str,
    pub(crate) body: &'m [u8],
    /// Whether the connection closes after the response.
    pub(crate) close: bool,
    /// Whether the body of the response is left out.
    pub(crate) without_body: bool,
}

/// A change, its record, and the graph that stands for the tables after it.
#[derive(Drop)]
pub(crate) struct Kept {
    change: Change,
    record: Bytes,
    graph: Prepared,
}

/// An answer before anything is changed: the response, and the change that is to be kept.
#[derive(Drop)]
struct Ready {
    response: Bytes,
    kept: Option<Kept>,
}

/// How a request is answered.
#[derive(Drop)]
pub(crate) enum Answered {
    /// With this response.
    Response(Bytes),
    /// Memory was wanting before anything was put.
    NoMemory,
    /// The keeper found no memory for the record.
    NotKept,
    /// The keeper failed.
    KeeperFailed,
}

/// How a request is answered, and the moment for which the clock was asked, if it was.
#[derive(Drop)]
pub(crate) struct Turned {
    pub(crate) asked: Option<u64>,
    pub(crate) answered: Answered,
}

/// Judges a request, at the moment for which the clock is asked where the request asks for one. Nothing is changed.
#[tactic(auto, unfolding(crate::specs::Turn::wanted_of))]
fn judge_now<C: Clock>(
    alloc: Global,
    router: &Router<Route>,
    state: &State,
    clock: &mut C,
    asked: Asked<'_>,
) -> JudgedAt
    requires { router.now ≡ route_table }
    ensures value { IfOk result.judged (λ j. j
        ≡ judged_of state.now.held asked.entry (unwrap_or result.asked 0)) }
    ensures accepted { IfOk result.judged (λ j. IfSome (change_of j) (IsPlanned state.now.held)) }
    ensures asks { IsTrue (is_some result.asked)
        → asks_clock state.now.held (wanted_of state.now.held asked.entry) ≡ true }
    ensures asked { IfOk result.judged (λ _. is_some result.asked
        ≡ asks_clock state.now.held (wanted_of state.now.held asked.entry)) }
    ensures told { ClockTold (moments_in result.asked) (C.moments clock.old) (C.moments clock.new) }
{
    let target = read_target(router, asked.target);
    match judge(alloc, state, target, asked.method, asked.body) {
        Ok(wanted) => judge_wanted(alloc, state, clock, wanted),
        Err(NoMemory) => JudgedAt {
            asked: None,
            judged: Err(NoMemory),
        },
    }
}

/// Prepares the answer to what was judged. Nothing is changed, but room is taken for the change, and the graph after it
/// is built.
fn prepare<L: Ledger>(
    alloc: Global,
    state: &mut State,
    steps: &mut Steps<L>,
    judged: Judged,
    close: bool,
    without_body: bool,
) -> Result<Ready, NoMemory>
    requires { IfSome (change_of judged) (IsPlanned state.old.held) }
    ensures held { state.new.held ≡ state.old.held }
    ensures response { IfOk result (λ p. p.response ≡ response_text (reply_of judged) close without_body) }
    ensures kept { IfOk result (λ p. KeepsChange (change_of judged) p.kept) }
    ensures room { IfOk result (λ p. IfSome p.kept (λ k. state.new.room ≡ room_of state.old.held.tables k.change)) }
    ensures accepted { IfOk result (λ p. IfSome p.kept (λ k. IsPlanned state.old.held k.change)) }
    ensures short { IfOk result (λ p. IfSome p.kept (λ k. length k.record < RECORD_LIMIT)) }
    ensures stands { IfOk result (λ p. IfSome p.kept
        (λ k. StandsFor (applied state.old.held.tables k.change) k.graph)) }
    ensures steps { TakesSteps (cost_of state.old.held (change_of judged)) steps.old steps.new }
{
    match judged {
        Judged::Reply(reply) => Ok(Ready {
            response: response_text(alloc, &reply, close, without_body)?,
            kept: None,
        }),
        Judged::Change { reply, change } => Ok(Ready {
            response: response_text(alloc, &reply, close, without_body)?,
            kept: Some(prepare_change(alloc, state, steps, change)?),
        }),
    }
}

/// Prepares a change: its record is made, room is taken for it, and the graph after it is built.
#[tactic(auto, using(crate::proofs::TurnLaws::planned_has_record, crate::proofs::TurnLaws::planned_short))]
fn prepare_change<L: Ledger>(
    alloc: Global,
    state: &mut State,
    steps: &mut Steps<L>,
    change: Change,
) -> Result<Kept, NoMemory>
    requires { IsPlanned state.old.held change }
    ensures held { state.new.held ≡ state.old.held }
    ensures kept { IfOk result (λ k. KeepsChange (Some change) (Some k)) }
    ensures room { IfOk result (λ k. state.new.room ≡ room_of state.old.held.tables change) }
    ensures short { IfOk result (λ k. length k.record < RECORD_LIMIT) }
    ensures stands { IfOk result (λ k. StandsFor (applied state.old.held.tables change) k.graph) }
    ensures steps { TakesSteps (cost_of state.old.held (Some change)) steps.old steps.new }
{
    let record = write(alloc, &change)?;
    let graph = state.prepare(&change, steps)?;
    Ok(Kept {
        change,
        record,
        graph,
    })
}

/// Answers a request. A change is put to the keeper once, when all else is prepared, and then carried out; where
/// memory is wanting or the keeper fails, all is as before. The clock is asked once where a signature would be made,
/// and else not at all. No more steps than the change costs, however it ends, and none without a change.
pub(crate) fn answer<K: Keeper, C: Clock, L: Ledger>(
    alloc: Global,
    router: &Router<Route>,
    state: &mut State,
    keeper: &mut K,
    clock: &mut C,
    steps: &mut Steps<L>,
    asked: Asked<'_>,
) -> Turned
    requires routes { router.now ≡ route_table }
    requires opened { (K.told keeper.old).is_open ≡ true }
    ensures comes { Comes
        (stored state.old.held (K.told keeper.old))
        (stored state.new.held (K.told keeper.new))
        (judged_of state.old.held asked.entry (unwrap_or result.asked 0))
        (response_text (reply_of (judged_of state.old.held asked.entry (unwrap_or result.asked 0)))
        asked.entry.close asked.entry.without_body)
        result.answered }
    ensures steps { TakesSteps
        (cost_of state.old.held (change_of (judged_of state.old.held asked.entry (unwrap_or result.asked 0))))
        steps.old steps.new }
    ensures asks { AsksClock (asks_clock state.old.held (wanted_of state.old.held asked.entry)) result.asked
        result.answered }
    ensures told { ClockTold (moments_in result.asked) (C.moments clock.old) (C.moments clock.new) }
    ensures finds { (name : List ℕ)
        → FindsOn (K.finds keeper.old name) (K.finds keeper.new name) (K.told keeper.old) (K.told keeper.new) }
    ensures stays_open { (K.told keeper.new).is_open ≡ true }
    ensures counts { (K.told keeper.old).faults ≤ (K.told keeper.new).faults }
{
    let JudgedAt {
        asked: moment,
        judged,
    } = judge_now(alloc, router, state, clock, asked);
    let Ok(judged) = judged else {
        return Turned {
            asked: moment,
            answered: Answered::NoMemory,
        };
    };
    let answered = carry_out(
        alloc,
        state,
        keeper,
        steps,
        judged,
        asked.close,
        asked.without_body,
    );
    Turned {
        asked: moment,
        answered,
    }
}

#[tactic(auto, using(crate::proofs::TurnLaws::finds_same, crate::proofs::TurnLaws::finds_put, crate::proofs::TurnLaws::finds_failed))]
/// Carries out what was judged of a request: its change is put to the keeper once, when all else is prepared.
fn carry_out<K: Keeper, L: Ledger>(
    alloc: Global,
    state: &mut State,
    keeper: &mut K,
    steps: &mut Steps<L>,
    judged: Judged,
    close: bool,
    without_body: bool,
) -> Answered
    requires opened { (K.told keeper.old).is_open ≡ true }
    requires accepted { IfSome (change_of judged) (IsPlanned state.old.held) }
    ensures comes { Comes
        (stored state.old.held (K.told keeper.old))
        (stored state.new.held (K.told keeper.new))
        judged (response_text (reply_of judged) close without_body) result }
    ensures steps { TakesSteps (cost_of state.old.held (change_of judged)) steps.old steps.new }
    ensures finds { (name : List ℕ)
        → FindsOn (K.finds keeper.old name) (K.finds keeper.new name) (K.told keeper.old) (K.told keeper.new) }
    ensures stays_open { (K.told keeper.new).is_open ≡ true }
    ensures counts { (K.told keeper.old).faults ≤ (K.told keeper.new).faults }
{
    let Ok(ready) = prepare(alloc, state, steps, judged, close, without_body) else {
        return Answered::NoMemory;
    };
    let Ready { response, kept } = ready;
    let Some(kept) = kept else {
        return Answered::Response(response);
    };
    match keeper.put(kept.record.as_slice()) {
        Ok(()) => {
            state.apply(kept.change, kept.graph);
            Answered::Response(response)
        }
        Err(PutError::NoMemory) => Answered::NotKept,
        Err(PutError::Failed) => Answered::KeeperFailed,
    }
}

/// Writes what is answered.
pub(crate) fn write_answer<W: Sink>(
    sink: &mut W,
    answered: &Answered,
    close: bool,
    without_body: bool,
) -> Result<(), Failed>
    ensures whole { OnOk result ((W.told sink.new).written ≡ then_more (W.told sink.old).written
        (answered_text answered.now close without_body)) }
    ensures prefix { OnErr result (HoldsPart (W.told sink.old).written (W.told sink.new).written
        (answered_text answered.now close without_body)) }
    ensures kept { OnOk result ((W.told sink.new).faults ≡ (W.told sink.old).faults) }
    ensures counts { (W.told sink.old).faults ≤ (W.told sink.new).faults }
    ensures failed { OnErr result (Rose (W.told sink.old).faults (W.told sink.new).faults) }
{
    match answered {
        Answered::Response(response) => return send(sink, response.as_slice()),
        Answered::NoMemory | Answered::NotKept => {
            return send_fixed(
                sink,
                Fixed::NoMemory {
                    close,
                    without_body,
                },
            );
        }
        Answered::KeeperFailed => {
            return send_fixed(
                sink,
                Fixed::KeeperFailed {
                    close,
                    without_body,
                },
            );
        }
    }
}
