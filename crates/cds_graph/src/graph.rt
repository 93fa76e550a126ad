//! The graph: the results of all sequences of the tables, and what they are made from.
ghost use Rattle.std.specs.Prelude.{◌≡◌, ◌+◌, ◌≤◌, IfOk};
ghost use Rattle.cds_book.specs.Plan.{applied, Accepts};
ghost use Rattle.cds_book.specs.Tables.{empty_tables};
ghost use Rattle.cds_graph.specs.Graph.{empty_graph, StandsFor};
ghost use Rattle.cds_graph.specs.Keys.{fresh};

use crate::build::built;
use crate::entry::Entry;
use crate::gather::Nodes;
use crate::source::Source;
use cds_base::{NoMemory, Steps};
use cds_book::{Change, Tables, method_versions_stay, rules_are_kept, trace_versions_stay};
use std::alloc::Global;
use std::marker::Model;
use std::rc::Rc;
use std::sync::ledger::Ledger;

/// The results of all sequences of the tables, each method read once, each row integrated once and each noise found
/// once. What stays needed after a change is shared with the graph before. Seen as what it keeps.
#[derive(Debug, Drop)]
pub struct Graph {
    pub(crate) nodes: Nodes,
    pub(crate) sequences: Vec<Rc<Entry>>,
}

impl Model for Graph {
    ghost use Rattle.cds_graph.specs.Graph.{Kept};
    ghost use Rattle.cds_graph.specs.HeldGraph.{graph_shown};

    ghost Value = { Kept };

    ghost view = { graph_shown };
}

/// A graph that was built for a change, and is put in place of the one before by `commit`. Seen as that graph.
#[derive(Debug, Drop)]
pub struct Prepared {
    pub(crate) graph: Graph,
}

impl Model for Prepared {
    ghost use Rattle.cds_graph.specs.Graph.{Kept};

    ghost Value = { Kept };

    ghost view = { λ a. a.graph };
}

impl Graph {
    /// The graph that stands for the tables. At most the steps of the rows and the noises of all sequences, each row
    /// and each noise once. The only refusal is want of memory.
    pub fn open<L: Ledger>(
        alloc: Global,
        tables: &Tables,
        steps: &mut Steps<L>,
    ) -> Result<Graph, NoMemory>
        ensures stands { IfOk result (λ graph. StandsFor tables.now.state graph) }
        ensures least { steps.old ≤ steps.new }
        ensures most { steps.new ≤ steps.old + fresh empty_tables tables.now.state }
    {
        tables.rules();
        let source = Source {
            alloc,
            tables,
            change: None,
        };
        let before = Graph::nothing(alloc);
        built(&source, &before, steps)
    }

    /// The graph that stands for the tables once this change of them is carried out. The graph itself stays as it is,
    /// also where memory is wanting, which is the only refusal. At most the steps of the rows and the noises whose
    /// keys are new, so none where there is no new key.
    pub fn prepare<L: Ledger>(
        &self,
        tables: &Tables,
        change: &Change,
        steps: &mut Steps<L>,
    ) -> Result<Prepared, NoMemory>
        requires stands { StandsFor tables.now.state self.now }
        requires accepted { Accepts tables.now.state change.now }
        ensures stands { IfOk result (λ prepared. StandsFor (applied tables.now.state change.now) prepared) }
        ensures least { steps.old ≤ steps.new }
        ensures most { steps.new ≤ steps.old + fresh tables.now.state (applied tables.now.state change.now) }
    {
        tables.rules();
        rules_are_kept();
        trace_versions_stay();
        method_versions_stay();
        let source = Source {
            alloc: *self.sequences.allocator(),
            tables,
            change: Some(change),
        };
        let graph = built(&source, self, steps)?;
        Ok(Prepared { graph })
    }

    /// Puts the graph that was prepared in place of this one. It takes no memory and can't fail.
    pub fn commit(&mut self, prepared: Prepared)
        ensures { self.new ≡ prepared }
    {
        *self = prepared.graph;
    }

    /// The graph that keeps nothing. It takes no memory.
    fn nothing(alloc: Global) -> Graph
        ensures { result ≡ empty_graph }
    {
        Graph {
            nodes: Nodes {
                methods: Vec::new(alloc),
                rows: Vec::new(alloc),
                noises: Vec::new(alloc),
            },
            sequences: Vec::new(alloc),
        }
    }
}
