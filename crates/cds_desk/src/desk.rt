//! The desk, and its opening with the records of a store.

ghost use Rattle.cds_desk.specs.declared.desk.OpenError.TheVariants.{NoMemory};
ghost use Rattle.std.specs.Prelude.{◌≡◌, ◌≤◌, ℕ, [], Err, IfOk};
ghost use Rattle.cds_desk.specs.Opening.{Opens, StopsAt};

use crate::opening::accept;
use crate::routes::{Route, route_table};
use crate::state::State;
use cds_base::Steps;
use cds_keep::Records;
use matchit::Router;
use std::alloc::{AllocError, Global};
use std::marker::Model;
use std::sync::ledger::Ledger;

/// The server's desk: its state, and the routes over it. Seen as what the state holds.
#[derive(Drop)]
pub struct Desk {
    pub(crate) alloc: Global,
    pub(crate) router: Router<Route>,
    pub(crate) state: State,
}

impl Model for Desk {
    ghost use Rattle.std.specs.Prelude.{◌≡◌};
    ghost use Rattle.cds_desk.specs.State.{State};
    ghost use Rattle.cds_desk.specs.Routes.{route_table};

    ghost Value = { State };

    ghost view = { λ d. d.state.held };

    ghost invariant = { λ d. d.router ≡ route_table };
}

/// Why a list of records is no store of this system, or wasn't opened.
#[derive(Clone, Copy, Debug, PartialEq, Eq)]
pub enum OpenError {
    /// The record of this number, counted from 1, is none, or the tables before it don't accept its change.
    Damaged(u64),
    /// Memory is wanting.
    NoMemory,
}

impl From<AllocError> for OpenError {
    ghost from_gives = { λ _ e. e ≡ NoMemory };

    fn from(_error: AllocError) -> OpenError {
        OpenError::NoMemory
    }
}

impl Desk {
    /// The desk whose state the records make, one after the other. Damaged exactly where a record isn't accepted in the
    /// state that those before it made, with the number of the first such record, counted from 1: where it is the record
    /// of no change, in either format; where the tables don't accept its change, one that would change nothing included;
    /// or where the text of a signature isn't the one that is computed from the tables before it. No step for no record.
    pub fn open<L: Ledger>(
        alloc: Global,
        records: &Records,
        steps: &mut Steps<L>,
    ) -> Result<Desk, OpenError>
        ensures opens { IfOk result (λ desk. Opens records.now desk) }
        ensures damaged { (number : ℕ) → result ≡ Err (OpenError.Damaged number) → StopsAt records.now number }
        ensures no_step { records.now ≡ [] → steps.new ≡ steps.old }
        ensures counts { steps.old ≤ steps.new }
    {
        let router = route_table(alloc)?;
        let state = state_of(alloc, records, steps)?;
        Ok(Desk {
            alloc,
            router,
            state,
        })
    }
}

/// The state that the records make, one after the other.
#[tactic(auto, using(crate::proofs::OpeningLaws::makes_next, crate::proofs::OpeningLaws::stops_here))]
fn state_of<L: Ledger>(
    alloc: Global,
    records: &Records,
    steps: &mut Steps<L>,
) -> Result<State, OpenError>
    ensures opens { IfOk result (λ state. Opens records.now state.held) }
    ensures damaged { (number : ℕ) → result ≡ Err (OpenError.Damaged number) → StopsAt records.now number }
    ensures no_step { records.now ≡ [] → steps.new ≡ steps.old }
    ensures counts { steps.old ≤ steps.new }
{
    let mut state = State::new(alloc, steps)?;
    for place in 0..records.len() {
        if !accept(alloc, &mut state, records.get(place), steps)? {
            return Err(OpenError::Damaged(place + 1));
        }
    }
    Ok(state)
}
