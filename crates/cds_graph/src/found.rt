//! A sequence as its rows are found. Rows with one key share one node, and so do methods of one version.
ghost use Rattle.std.specs.Prelude.{◌≡◌, ◌≤◌, ◌+◌, ◌*◌, IfOk, find, length, option_copied};
ghost use Rattle.cds_rules.specs.Fields.{fields_of};
ghost use Rattle.cds_integrate.specs.Row.{IsSound};
ghost use Rattle.cds_integrate.specs.Seen.{peak_seen, seen};
ghost use Rattle.cds_graph.specs.declared.limits.TheConstants.{ROW_STEPS};
ghost use Rattle.cds_graph.specs.Figures.{CrossesBefore};
ghost use Rattle.cds_graph.specs.Nodes.{IsNode, seen_by};
ghost use Rattle.cds_graph.specs.Rows.{found_in, is_number, peak_in};

use crate::key::RowKey;
use crate::method::MethodNode;
use cds_base::{Missing, NoMemory, Peak, Steps};
use cds_integrate::{RowPart, row};
use cds_rules::Method;
use cds_sign::{ListedRow, Row};
use cds_trace::Trace;
use std::alloc::Global;
use std::rc::Rc;
use std::sync::ledger::Ledger;

/// What is found in a row, under its key.
#[derive(Debug, Drop)]
pub(crate) struct RowNode {
    pub key: RowKey,
    /// The period of the row's trace, in microseconds.
    pub period: u64,
    pub part: RowPart,
    pub ghost stands: { IsNode period part },
}

/// A row of a sequence, and what is found in it.
#[derive(Debug, Drop)]
pub(crate) struct FoundRow {
    pub row: Row,
    pub node: Rc<RowNode>,
}

/// A standard row of a listed sequence, and what is found in it.
#[derive(Debug, Drop)]
pub(crate) struct FoundStandard {
    pub row: ListedRow,
    pub node: Rc<RowNode>,
}

/// A listed sequence: its own method, and its standard rows in their order.
#[derive(Debug, Drop)]
pub(crate) struct FoundListed {
    pub method: Rc<MethodNode>,
    pub rows: Vec<FoundStandard>,
}

/// A sequence: its method, its rows and the sequences that it lists, all in their order, and the noise of its first
/// blank row.
#[derive(Debug, Drop)]
pub(crate) struct FoundSequence {
    pub method: Rc<MethodNode>,
    pub rows: Vec<FoundRow>,
    pub standards: Vec<FoundListed>,
    pub noise: Result<u32, Missing>,
}

impl RowNode {
    /// Integrates a trace under a method and the events of a key. At least one step, and at most `ROW_STEPS` for each
    /// sample of the trace. The only refusal is want of memory.
    pub fn integrated<L: Ledger>(
        alloc: Global,
        key: RowKey,
        trace: &Trace,
        method: &Method,
        steps: &mut Steps<L>,
    ) -> Result<RowNode, NoMemory>
        ensures key { IfOk result (λ node. node.key ≡ key) }
        ensures period { IfOk result (λ node. node.period ≡ trace.now.period) }
        ensures found { IfOk result
            (λ node. seen node.part ≡ found_in trace.now (fields_of method.now) key.events) }
        ensures least { steps.old + 1 ≤ steps.new }
        ensures most { steps.new ≤ steps.old + ROW_STEPS * length trace.now.samples }
    {
        let period = trace.period();
        let part = row(alloc, trace, method, key.events.as_slice(), steps)?;
        let _peaks = part.peaks();
        Ok(RowNode { key, period, part })
    }

    /// The peak that the row names the component of this number, or why there is none.
    pub fn peak(&self, component: u32) -> Result<Peak, Missing>
        ensures value { seen_by peak_seen result ≡ peak_in (seen self.now.part) component }
        ensures sound { IfOk result IsSound }
        ensures crosses { IfOk result (CrossesBefore self.now.period) }
    {
        if self.part.too_many() > 0 {
            return Err(Missing::TooManyPeaks);
        }
        match peak_named(self.part.peaks(), component) {
            Some(peak) => Ok(*peak),
            None => Err(Missing::NoPeak),
        }
    }
}

/// The first of these peaks that is named the component of this number.
fn peak_named(peaks: &[Peak], component: u32) -> Option<&Peak>
    ensures { option_copied result ≡ find (λ peak. is_number component peak.component) peaks.now }
{
    peaks.iter().find(|peak| is_named(peak, component))
}

/// Whether a peak is named the component of this number.
fn is_named(peak: &Peak, component: u32) -> bool
    ensures { result ≡ is_number component peak.now.component }
{
    match peak.component {
        Some(number) => number == component,
        None => false,
    }
}
