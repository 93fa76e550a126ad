//! The records of a store, as a desk is opened with them: each is read, judged as the change that it states, and carried
//! out.

ghost use Rattle.std.specs.Prelude.{◌≡◌, ◌≤◌, ◌<◌, true, false, Decides, IfNone, IfOk, IfSome, Some};
ghost use Rattle.cds_base.specs.declared.clock.TheConstants.{MOMENT_LIMIT};
ghost use Rattle.cds_sign.specs.Ranges.{IsChange};
ghost use Rattle.cds_book.specs.Kept.{IsMethod};
ghost use Rattle.cds_desk.specs.Opening.{CarriesOn, IsAccepted, IsRefused, TextStands, text_now};

use crate::asking::asked_for;
use crate::state::State;
use cds_base::{Bytes, Name, NoMemory, Steps};
use cds_book::{Change, Plan, PlanError};
use cds_codec::read;
use cds_report::signed_text;
use cds_rules::{Method, MethodError};
use std::alloc::Global;
use std::sync::ledger::Ledger;

/// Carries out the change of a record where this state accepts it, and answers whether it does. The only refusal is want
/// of memory.
#[tactic(auto, using(crate::proofs::OpeningLaws::unread_refused, crate::proofs::OpeningLaws::judged_refused))]
pub(crate) fn accept<L: Ledger>(
    alloc: Global,
    state: &mut State,
    body: &[u8],
    steps: &mut Steps<L>,
) -> Result<bool, NoMemory>
    ensures accepted { IfOk result (λ taken. taken ≡ true → IsAccepted state.old.held body.now state.new.held) }
    ensures refused { IfOk result (λ taken. taken ≡ false → IsRefused state.old.held body.now) }
    ensures steps { steps.old ≤ steps.new }
{
    let Some(stated) = read(alloc, body)? else {
        return Ok(false);
    };
    let Some(change) = carried_on(alloc, state, stated)? else {
        return Ok(false);
    };
    let graph = state.prepare(&change, steps)?;
    state.apply(change, graph);
    Ok(true)
}

/// The change, where it is carried on in this state.
#[tactic(auto, using(crate::proofs::AskedChange::may_be_asked, crate::proofs::OpeningLaws::carried, crate::proofs::OpeningLaws::text_refused, crate::proofs::OpeningLaws::unchanged_refused, crate::proofs::OpeningLaws::judged_otherwise))]
fn carried_on(alloc: Global, state: &State, change: Change) -> Result<Option<Change>, NoMemory>
    requires { IsChange change }
    ensures some { IfOk result (λ kept. IfSome kept (λ c. (c ≡ change) × CarriesOn state.now.held c)) }
    ensures none { IfOk result (λ kept. IfNone kept (CarriesOn state.now.held change → ⊥)) }
{
    if !stands(alloc, state, &change)? {
        return Ok(None);
    }
    let asked = asked_for(alloc, change)?;
    match state.tables().plan(&asked) {
        Ok(Plan::Change(planned)) => Ok(Some(planned)),
        Ok(Plan::Unchanged) => Ok(None),
        Err(PlanError::NoMemory) => Err(NoMemory),
        Err(_) => Ok(None),
    }
}

/// Whether the text that a change carries stands: that of a draft where it is a method, that of a signature where it is
/// the one that is computed from this state.
fn stands(alloc: Global, state: &State, change: &Change) -> Result<bool, NoMemory>
    requires { IsChange change.now }
    ensures { IfOk result (λ stands. Decides stands (TextStands state.now.held change.now)) }
{
    match change {
        Change::Draft { text, .. } => is_method(alloc, text),
        Change::Sign {
            sequence,
            number,
            moment,
            name,
            meaning,
            text,
            ..
        } => {
            let (name, meaning) = (name.as_str().as_bytes(), meaning.as_str().as_bytes());
            let computed = text_now(alloc, state, *sequence, *number, name, meaning, *moment)?;
            Ok(is_text(&computed, text))
        }
        Change::Trace { .. }
        | Change::Freeze { .. }
        | Change::Sequence { .. }
        | Change::Events { .. }
        | Change::Rebind { .. } => Ok(true),
    }
}

/// Whether a text is a method.
fn is_method(alloc: Global, text: &Bytes) -> Result<bool, NoMemory>
    ensures { IfOk result (λ is. Decides is (IsMethod text.now)) }
{
    match Method::read_toml(alloc, text.as_slice()) {
        Ok(_) => Ok(true),
        Err(MethodError::NoMemory) => Err(NoMemory),
        Err(_) => Ok(false),
    }
}

/// The text of a signature as it is computed from this state.
fn text_now(
    alloc: Global,
    state: &State,
    sequence: Name,
    number: u32,
    name: &[u8],
    meaning: &[u8],
    moment: u64,
) -> Result<Option<Bytes>, NoMemory>
    requires { moment < MOMENT_LIMIT }
    ensures { IfOk result (λ text. text ≡ text_now state.now.held sequence
        (record { number = number; name = name.now; meaning = meaning.now; moment = moment })) }
{
    let (tables, graph) = (state.tables(), state.graph());
    signed_text(
        alloc, tables, graph, sequence, number, name, meaning, moment,
    )
}

/// Whether a text is there, and is this one.
fn is_text(computed: &Option<Bytes>, text: &Bytes) -> bool
    ensures { Decides result (computed.now ≡ Some text.now) }
{
    match computed {
        Some(computed) => computed.as_slice() == text.as_slice(),
        None => false,
    }
}
