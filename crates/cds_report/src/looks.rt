//! What is looked up in the results that a graph keeps of a sequence. Rows, components and checks are numbered from 1.
ghost use Rattle.std.specs.Prelude.{◌≡◌, All, IfSome, option_copied, option_map};
ghost use Rattle.cds_book.specs.Tables.{numbered};
ghost use Rattle.cds_graph.specs.Figures.{CrossesBefore};
ghost use Rattle.cds_graph.specs.Looks.{row_at, period_at, amount_at};
ghost use Rattle.cds_graph.specs.Nodes.{IsCounted};
ghost use Rattle.cds_integrate.specs.Row.{peaks_in};
ghost use Rattle.cds_integrate.specs.Seen.{seen};
ghost use Rattle.cds_report.specs.Shown.{kept_results};

use cds_base::{Missing, Name};
use cds_frac::Frac;
use cds_graph::{Calibration, CheckLine, Graph};
use cds_integrate::RowPart;
use cds_suit::Verdict;

/// What is found in a row, if it is there.
pub(crate) fn found_in(graph: &Graph, name: Name, n: u32) -> Option<&RowPart>
    ensures value { option_map seen (option_copied result) ≡ row_at (kept_results graph.now name) n }
    ensures crosses { IfSome result (λ part. IfSome (period_at (kept_results graph.now name) n)
        (λ period. All (CrossesBefore period) (peaks_in part.now))) }
    ensures counted { IfSome result (λ part. IsCounted part.now) }
{
    graph.row(name, n)
}

/// The period of the trace of a row in microseconds, if the row is there.
pub(crate) fn period_of(graph: &Graph, name: Name, n: u32) -> Option<u64>
    ensures { result ≡ period_at (kept_results graph.now name) n }
{
    graph.period(name, n)
}

/// The amount of a component in a row, if the row is a sample.
pub(crate) fn amount_in(
    graph: &Graph,
    name: Name,
    n: u32,
    component: u32,
) -> Option<Result<Frac, Missing>>
    ensures { result ≡ amount_at (kept_results graph.now name) n component }
{
    graph.amount(name, n, component)
}

/// The calibration of a component, if it is there.
pub(crate) fn calibration_of(graph: &Graph, name: Name, component: u32) -> Option<&Calibration>
    ensures { option_copied result ≡ numbered (kept_results graph.now name).calibrations component }
{
    graph.calibration(name, component)
}

/// The lines of a check, if it is there.
pub(crate) fn lines_of(graph: &Graph, name: Name, check: u32) -> Option<&[CheckLine]>
    ensures { option_copied result ≡ numbered (kept_results graph.now name).checks check }
{
    graph.lines(name, check)
}

/// The verdict of all checks, and that they pass where the sequence isn't there.
pub(crate) fn verdict_of(graph: &Graph, name: Name) -> Verdict
    ensures { result ≡ (kept_results graph.now name).verdict }
{
    graph.verdict(name).unwrap_or(Verdict::Pass)
}
