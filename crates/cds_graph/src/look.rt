//! What is looked up in a graph by the name of a sequence. Rows, components, checks and the lines of a check are each
//! numbered from 1. No look-up takes memory.
ghost use Rattle.std.specs.Prelude.{◌≡◌, All, IfSome, Some, find, option_copied, option_map};
ghost use Rattle.std.specs.Str.{bytes_eq};
ghost use Rattle.cds_integrate.specs.Row.{peaks_in};
ghost use Rattle.cds_integrate.specs.Seen.{seen};
ghost use Rattle.cds_book.specs.Tables.{numbered};
ghost use Rattle.cds_rules.specs.Fields.{fields_of};
ghost use Rattle.cds_graph.specs.Figures.{CrossesBefore};
ghost use Rattle.cds_graph.specs.GraphLooks.{fields_named, inputs_named, kept_named, looked_up};
ghost use Rattle.cds_graph.specs.HeldGraph.{entry_shown};
ghost use Rattle.cds_graph.specs.Nodes.{IsCounted};
ghost use Rattle.cds_graph.specs.Looks.{row_at, period_at, points_at, line_at, determination_at, amount_at, check_at};

use crate::calibration::{Calibration, calibration_numbered};
use crate::check_line::CheckLine;
use crate::entry::Entry;
use crate::found::RowNode;
use crate::graph::Graph;
use cds_base::{Missing, Name};
use cds_calib::Fit;
use cds_frac::Frac;
use cds_integrate::RowPart;
use cds_rules::Method;
use cds_sign::Inputs;
use cds_suit::Verdict;
use std::rc::Rc;

impl Graph {
    /// The method of a sequence. None exactly where there is no such sequence.
    pub fn method(&self, sequence: Name) -> Option<&Method>
        ensures { option_map fields_of (option_copied result) ≡ fields_named self.now sequence }
    {
        let entry = self.entry(sequence)?;
        Some(&entry.node.found.method.as_ref().method)
    }

    /// What the results of a sequence rest on: the version of its method, its rows with the versions of their traces,
    /// and the standard rows of the sequences that it lists. None exactly where there is no such sequence.
    pub fn inputs(&self, sequence: Name) -> Option<&Inputs>
        ensures { option_copied result ≡ inputs_named self.now sequence }
    {
        let entry = self.entry(sequence)?;
        Some(&entry.inputs)
    }

    /// What is found in a row. None exactly where there is no such sequence or row. In a trace of the period of the row
    /// each peak crosses one twentieth of its height before its apex sample, and where the raw peaks are too many, their
    /// number is above 0.
    pub fn row(&self, sequence: Name, n: u32) -> Option<&RowPart>
        ensures value { option_map seen (option_copied result)
            ≡ looked_up self.now sequence (λ results. row_at results n) }
        ensures crosses { IfSome result (λ part. IfSome (looked_up self.now sequence (λ results. period_at results n))
            (λ period. All (CrossesBefore period) (peaks_in part.now))) }
        ensures counted { IfSome result (λ part. IsCounted part.now) }
    {
        let entry = self.entry(sequence)?;
        let node = entry.node.row(n)?;
        Some(&node.part)
    }

    /// The period of the trace of a row, in microseconds. None exactly where there is no such sequence or row.
    pub fn period(&self, sequence: Name, n: u32) -> Option<u64>
        ensures { result ≡ looked_up self.now sequence (λ results. period_at results n) }
    {
        let entry = self.entry(sequence)?;
        let node = entry.node.row(n)?;
        Some(node.period)
    }

    /// The calibration of a component: its points, its line and its determination. None exactly where there is no such
    /// sequence or component.
    pub fn calibration(&self, sequence: Name, component: u32) -> Option<&Calibration>
        ensures { option_copied result
            ≡ looked_up self.now sequence (λ results. numbered results.calibrations component) }
    {
        let entry = self.entry(sequence)?;
        calibration_numbered(entry.node.calibrations.as_slice(), component)
    }

    /// How many points a component has. None exactly where there is no such sequence or component.
    pub fn points(&self, sequence: Name, component: u32) -> Option<u32>
        ensures { result ≡ looked_up self.now sequence (λ results. points_at results component) }
    {
        let entry = self.entry(sequence)?;
        entry.node.points(component)
    }

    /// The line of a component, or why it has none. None exactly where there is no such sequence or component.
    pub fn line(&self, sequence: Name, component: u32) -> Option<Result<Fit, Missing>>
        ensures { result ≡ looked_up self.now sequence (λ results. line_at results component) }
    {
        let entry = self.entry(sequence)?;
        entry.node.line(component)
    }

    /// The determination of a component's points in ten-thousandths, rounded down, or why there is none. None exactly
    /// where there is no such sequence or component.
    pub fn determination(&self, sequence: Name, component: u32) -> Option<Result<u32, Missing>>
        ensures { result ≡ looked_up self.now sequence (λ results. determination_at results component) }
    {
        let entry = self.entry(sequence)?;
        entry.node.determination(component)
    }

    /// The amount of a component in a row, or why it is missing. None exactly where there is no such sequence, row or
    /// component, or the row is no sample.
    pub fn amount(&self, sequence: Name, n: u32, component: u32) -> Option<Result<Frac, Missing>>
        ensures { result ≡ looked_up self.now sequence (λ results. amount_at results n component) }
    {
        let entry = self.entry(sequence)?;
        entry.node.amount(n, component)
    }

    /// The noise of the first blank row of a sequence, or why it has none. None exactly where there is no such
    /// sequence.
    pub fn noise(&self, sequence: Name) -> Option<Result<u32, Missing>>
        ensures { result ≡ looked_up self.now sequence (λ results. Some results.noise) }
    {
        let entry = self.entry(sequence)?;
        Some(entry.node.found.noise)
    }

    /// A line of a check. None exactly where there is no such sequence or check, or the check has no such line.
    pub fn check(&self, sequence: Name, i: u32, k: u32) -> Option<&CheckLine>
        ensures { option_copied result ≡ looked_up self.now sequence (λ results. check_at results i k) }
    {
        let entry = self.entry(sequence)?;
        entry.node.check(i, k)
    }

    /// The lines of a check in their order. None exactly where there is no such sequence or check.
    pub fn lines(&self, sequence: Name, i: u32) -> Option<&[CheckLine]>
        ensures { option_copied result ≡ looked_up self.now sequence (λ results. numbered results.checks i) }
    {
        let entry = self.entry(sequence)?;
        match entry.node.lines_of(i) {
            Some(lines) => Some(lines.items.as_slice()),
            None => None,
        }
    }

    /// The verdict of all checks of a sequence. None exactly where there is no such sequence.
    pub fn verdict(&self, sequence: Name) -> Option<Verdict>
        ensures { result ≡ looked_up self.now sequence (λ results. Some results.verdict) }
    {
        let entry = self.entry(sequence)?;
        Some(entry.node.verdict)
    }

    /// What is kept of a sequence.
    fn entry(&self, sequence: Name) -> Option<&Entry>
        ensures { option_map entry_shown (option_copied result) ≡ kept_named self.now sequence }
    {
        match entry_named(&self.sequences, sequence) {
            Some(entry) => Some(entry.as_ref()),
            None => None,
        }
    }
}

/// The entry of a name, if there is one.
fn entry_named<'a>(entries: &'a [Rc<Entry>], name: Name) -> Option<&'a Rc<Entry>>
    ensures { option_copied result ≡ find (λ entry. bytes_eq entry.value.name name) entries.now }
{
    entries.iter().find(|entry| is_named(entry, name))
}

/// Whether an entry has a name.
fn is_named(entry: &Rc<Entry>, name: Name) -> bool
    ensures { result ≡ bytes_eq entry.now.value.name name }
{
    entry.as_ref().name == name
}
