//! What the desk holds from one request to the next.

ghost use Rattle.std.specs.Prelude.{◌≡◌, Some, None, IfOk};
ghost use Rattle.cds_book.specs.Plan.{applied, room_of, Accepts};
ghost use Rattle.cds_graph.specs.Graph.{StandsFor};
ghost use Rattle.cds_desk.specs.State.{empty_state, with_change, cost_of};
ghost use Rattle.cds_desk.specs.Turn.{TakesSteps};

use cds_base::{NoMemory, Steps};
use cds_book::{Change, Tables};
use cds_graph::{Graph, Prepared, nothing_is_new_where_nothing_changed};
use std::alloc::Global;
use std::marker::Model;
use std::sync::ledger::Ledger;

/// What the desk holds: the tables, and the graph that stands for them. Seen as the state of the machine, which is the
/// tables alone, with the change for which room was taken.
#[derive(Drop)]
pub(crate) struct State {
    tables: Tables,
    graph: Graph,
}

impl Model for State {
    ghost use Rattle.cds_desk.specs.State.{StateValue};
    ghost use Rattle.cds_graph.specs.Graph.{StandsFor};

    ghost Value = { StateValue };

    ghost view = { λ s. record { held = record { tables = s.tables.state }; room = s.tables.room } };

    ghost invariant = { λ s. StandsFor s.tables.state s.graph };
}

impl State {
    /// The state that holds nothing. No step; the only refusal is want of memory.
    pub(crate) fn new<L: Ledger>(alloc: Global, steps: &mut Steps<L>) -> Result<State, NoMemory>
        ensures value { IfOk result (λ s. s ≡ record { held = empty_state; room = None }) }
        ensures steps { steps.new ≡ steps.old }
    {
        nothing_is_new_where_nothing_changed();
        let tables = Tables::new(alloc);
        let graph = Graph::open(alloc, &tables, steps)?;
        Ok(State { tables, graph })
    }

    /// Its tables.
    pub(crate) fn tables(&self) -> &Tables
        ensures { result.now.state ≡ self.now.held.tables }
    {
        &self.tables
    }

    /// The graph, which stands for the tables.
    pub(crate) fn graph(&self) -> &Graph
        ensures { StandsFor self.now.held.tables result.now }
    {
        &self.graph
    }

    /// Takes the room for a change, in place of the room for another one, and builds the graph that stands for the
    /// tables after it. Nothing that is held changes, also where memory is wanting, which is the only refusal. No more
    /// steps than the change costs.
    pub(crate) fn prepare<L: Ledger>(
        &mut self,
        change: &Change,
        steps: &mut Steps<L>,
    ) -> Result<Prepared, NoMemory>
        requires { Accepts self.old.held.tables change.now }
        ensures held { self.new.held ≡ self.old.held }
        ensures room { IfOk result (λ _. self.new.room ≡ room_of self.old.held.tables change.now) }
        ensures stands { IfOk result (λ graph. StandsFor (applied self.old.held.tables change.now) graph) }
        ensures steps { TakesSteps (cost_of self.old.held (Some change.now)) steps.old steps.new }
    {
        self.tables.reserve(change)?;
        self.graph.prepare(&self.tables, change, steps)
    }

    /// Carries out an accepted change for which room was taken, and puts the graph that was built for it in place. It
    /// can't fail, and takes no memory.
    pub(crate) fn apply(&mut self, change: Change, graph: Prepared)
        requires accepted { Accepts self.old.held.tables change }
        requires room { self.old.room ≡ room_of self.old.held.tables change }
        requires stands { StandsFor (applied self.old.held.tables change) graph }
        ensures { self.new ≡ record { held = with_change self.old.held change; room = None } }
    {
        self.tables.apply(change);
        self.graph.commit(graph);
    }
}
