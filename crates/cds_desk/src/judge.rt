//! What a request wants: its route is judged first, then its method, and then all that its body and the state say.

ghost use Rattle.std.specs.Prelude.{◌≡◌, IfOk};
ghost use Rattle.cds_desk.specs.Signing.{MayBeWanted};
ghost use Rattle.cds_desk.specs.Step.{wanted_target, wanted_method, wanted_route};
ghost use Rattle.cds_desk.specs.declared.judged.Judged.TheVariants as judging;
ghost use Rattle.cds_desk.specs.declared.judged.Wanted.TheVariants as wanting;

use crate::judged::{Judged, Wanted};
use crate::methods::{freeze_draft, method_text, put_draft};
use crate::refusals::{no_route, other_method};
use crate::reports::{results, row, suitability};
use crate::routes::Route;
use crate::sequences::{put_events, put_sequence, rebind, signature_text};
use crate::signing::signature;
use crate::state::State;
use crate::target::Target;
use crate::traces::{put_trace, trace_text};
use cds_base::NoMemory;
use cds_respond::Reply;
use std::alloc::Global;

/// Judges a request by what its target names: first the route, then the method, then the body by its reader, and then
/// all that the state says. Nothing is changed.
pub(crate) fn judge(
    alloc: Global,
    state: &State,
    target: Option<Target>,
    method: &[u8],
    body: &[u8],
) -> Result<Wanted, NoMemory>
    ensures value { IfOk result (λ w. w ≡ wanted_route state.now.held target method.now body.now) }
    ensures accepted { IfOk result (MayBeWanted state.now.held) }
{
    match target {
        Some(target) => judge_method(alloc, state, target, method, body),
        None => Ok(Wanted::Judged(Judged::Reply(no_route(alloc)?))),
    }
}

/// Judges the method of a request, and then what it wants.
fn judge_method(
    alloc: Global,
    state: &State,
    target: Target,
    method: &[u8],
    body: &[u8],
) -> Result<Wanted, NoMemory>
    ensures value { IfOk result (λ w. w ≡ wanted_method state.now.held target method.now body.now) }
    ensures accepted { IfOk result (MayBeWanted state.now.held) }
{
    let wanted = target.route.method();
    if method != wanted.as_str().as_bytes() {
        return Ok(Wanted::Judged(Judged::Reply(other_method(alloc, wanted)?)));
    }
    judge_target(alloc, state, target, body)
}

/// What a request with the right method wants.
#[tactic(auto, unfolding(crate::specs::Step::wanted_on))]
fn judge_target(
    alloc: Global,
    state: &State,
    target: Target,
    body: &[u8],
) -> Result<Wanted, NoMemory>
    ensures value { IfOk result (λ w. w ≡ wanted_target state.now.held target body.now) }
    ensures accepted { IfOk result (MayBeWanted state.now.held) }
{
    let Target {
        route,
        name,
        number,
    } = target;
    match route {
        Route::PutTrace => Ok(Wanted::Judged(put_trace(alloc, state, name, body)?)),
        Route::GetTrace => Ok(shown(trace_text(alloc, state, name, number)?)),
        Route::PutDraft => Ok(Wanted::Judged(put_draft(alloc, state, name, body)?)),
        Route::PostVersion => Ok(Wanted::Judged(freeze_draft(alloc, state, name, body)?)),
        Route::GetMethod => Ok(shown(method_text(alloc, state, name, number)?)),
        Route::PutSequence => Ok(Wanted::Judged(put_sequence(alloc, state, name, body)?)),
        Route::PutEvents => Ok(Wanted::Judged(put_events(alloc, state, name, number, body)?)),
        Route::PostReprocess => Ok(Wanted::Judged(rebind(alloc, state, name, body)?)),
        Route::PostSignature => signature(alloc, name, body),
        Route::GetResults => Ok(shown(results(alloc, state, name)?)),
        Route::GetRow => Ok(shown(row(alloc, state, name, number)?)),
        Route::GetSuitability => Ok(shown(suitability(alloc, state, name)?)),
        Route::GetSignature => Ok(shown(signature_text(alloc, state, name, number)?)),
    }
}

/// This reply, and nothing changes.
fn shown(reply: Reply) -> Wanted
    ensures { result ≡ wanting.Judged (judging.Reply reply) }
{
    Wanted::Judged(Judged::Reply(reply))
}
