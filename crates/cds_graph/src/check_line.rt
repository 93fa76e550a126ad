//! The lines of checks.
ghost use Rattle.std.specs.Prelude.{◌≡◌, ◌≤◌, ◌++◌, ◌∷◌, [], ◌↔◌, IfOk, IsTrue};
ghost use Rattle.cds_graph.specs.Checks.{all_rows_line, shown_in};

use cds_base::{Missing, NoMemory};
use cds_frac::Frac;
use cds_suit::Verdict;
use std::alloc::Global;
use std::marker::Model;

/// A line of a check.
#[derive(Debug, Drop)]
pub struct CheckLine {
    /// The number of the row that the line is of, counted from 1; None where it is of all.
    pub row: Option<u32>,
    /// The value, or why it is missing. That of a deviation is shown in hundredths of a percent, that of a
    /// determination in ten-thousandths, both rounded down: no limit is to be compared with them.
    pub value: Result<Frac, Missing>,
    /// What the check says of the value.
    pub verdict: Verdict,
}

/// The lines of a check in their order. Seen as a list.
#[derive(Debug, Drop)]
pub(crate) struct CheckLines {
    pub items: Vec<CheckLine>,
}

impl Model for CheckLines {
    ghost use Rattle.std.specs.Prelude.{List};
    ghost use Rattle.cds_graph.specs.declared.check_line.CheckLine.{CheckLine};

    ghost Value = { List CheckLine };

    ghost view = { λ a. a.items.items };
}

impl CheckLines {
    /// No lines. It takes no memory.
    pub fn new(alloc: Global) -> CheckLines
        ensures { result ≡ [] }
    {
        CheckLines {
            items: Vec::new(alloc),
        }
    }

    /// One line of all rows, with this value and this verdict. The only refusal is want of memory.
    pub fn of_all_rows(
        alloc: Global,
        value: Result<Frac, Missing>,
        verdict: Verdict,
    ) -> Result<CheckLines, NoMemory>
        ensures { IfOk result (λ lines. lines ≡ all_rows_line value verdict ∷ []) }
    {
        let mut lines = CheckLines::new(alloc);
        lines.add(None, value, verdict)?;
        Ok(lines)
    }

    /// Whether there is no line.
    pub fn is_empty(&self) -> bool
        ensures { IsTrue result ↔ (self.now ≡ []) }
    {
        self.items.is_empty()
    }

    /// Puts a line behind the others. The only refusal is want of memory.
    pub fn add(
        &mut self,
        row: Option<u32>,
        value: Result<Frac, Missing>,
        verdict: Verdict,
    ) -> Result<(), NoMemory>
        ensures { IfOk result (λ done. self.new
            ≡ self.old ++ record { row = row; value = value; verdict = verdict } ∷ []) }
    {
        self.items.push(CheckLine {
            row,
            value,
            verdict,
        })?;
        Ok(())
    }
}

/// A whole number of parts of one, or why it is missing.
pub(crate) fn shown(number: Result<u32, Missing>, parts: u32) -> Result<Frac, Missing>
    requires { 1 ≤ parts }
    ensures { result ≡ shown_in parts number }
{
    let number = number?;
    Ok(Frac::new(i128::from(number), i128::from(parts)))
}
