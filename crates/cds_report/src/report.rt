//! What a report is written from.
ghost use Rattle.std.specs.Prelude.{◌≡◌, ◌≤◌, ◌++◌, ◌∷◌, [], IfOk, IfSome, codes, decimal, length, option_map};
ghost use Rattle.cds_graph.specs.Graph.{StandsFor};
ghost use Rattle.cds_report.specs.Lines.{spaced};
ghost use Rattle.cds_report.specs.Reported.{reported_of};
ghost use Rattle.cds_report.specs.Shown.{report_shown};
ghost use Rattle.cds_sign.specs.declared.limits.TheConstants.{MOST_ROWS};

use crate::lines::Lines;
use cds_base::{Name, NoMemory};
use cds_book::Tables;
use cds_graph::{Graph, look_ups_are_those_of_the_tables};
use cds_rules::Method;
use cds_sign::{Inputs, Sequence};

/// What a report is written from: the sequence as the tables hold it, and what the graph keeps of it.
#[derive(Clone, Copy)]
pub(crate) struct Report<'a> {
    pub(crate) name: Name,
    pub(crate) sequence: &'a Sequence,
    pub(crate) inputs: &'a Inputs,
    pub(crate) method: &'a Method,
    pub(crate) graph: &'a Graph,
}

impl<'a> Report<'a> {
    /// What the report of a sequence is written from. None exactly where there is no such sequence.
    pub(crate) fn new(tables: &'a Tables, graph: &'a Graph, name: Name) -> Option<Report<'a>>
        requires { StandsFor tables.now.state graph.now }
        ensures value { option_map report_shown result ≡ reported_of tables.now.state name }
        ensures few { IfSome result (λ report. length report.inputs.now.rows ≤ MOST_ROWS) }
    {
        tables.rules();
        look_ups_are_those_of_the_tables();
        let sequence = tables.sequence(name)?;
        let inputs = graph.inputs(name)?;
        let method = graph.method(name)?;
        Some(Report {
            name,
            sequence,
            inputs,
            method,
            graph,
        })
    }
    /// Begins a line with a word and the name of the sequence.
    pub(crate) fn push_name(&self, lines: &mut Lines, first: &str) -> Result<(), NoMemory>
        ensures { IfOk result (λ _. lines.new ≡ lines.old ++ (first.now ++ spaced (self.now.name ∷ []))) }
    {
        lines.begin(first)?;
        lines.name(self.name)
    }

    /// Writes the basis of the sequence.
    pub(crate) fn push_basis(&self, lines: &mut Lines) -> Result<(), NoMemory>
        ensures { IfOk result (λ _. lines.new ≡ lines.old
            ++ spaced (codes "basis" ∷ decimal self.now.sequence.now.basis ∷ [])) }
    {
        lines.word("basis")?;
        lines.number(self.sequence.basis)
    }
}
