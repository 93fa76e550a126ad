//! The lines of the checks that compare one value of each replicate row.
ghost use Rattle.std.specs.Prelude.{◌≡◌, ◌++◌, ◌<◌, ◌≤◌, IsTrue, IfOk, length, option_to_list};
ghost use Rattle.cds_sign.specs.declared.limits.TheConstants.{MOST_ROWS};
ghost use Rattle.cds_suit.specs.Check.{compares_one};
ghost use Rattle.cds_graph.specs.Checks.{row_line, row_lines, value_line, or_too_few};
ghost use Rattle.cds_graph.specs.Held.{found_shown, row_shown};
ghost use Rattle.cds_graph.specs.Rows.{is_replicate};

use crate::check_line::CheckLines;
use crate::found::{FoundRow, FoundSequence};
use crate::values::value_in;
use cds_base::{Missing, NoMemory};
use cds_frac::Frac;
use cds_rules::Check;
use cds_sign::RowKind;
use cds_suit::Verdict;
use std::alloc::Global;

/// The lines of a check of one value in each replicate row, in the order of the rows. The only refusal is want of
/// memory.
pub(crate) fn row_lines(
    alloc: Global,
    check: &Check,
    found: &FoundSequence,
) -> Result<CheckLines, NoMemory>
    requires kind { IsTrue (compares_one check.now.kind) }
    requires few { length found.now.rows.items ≤ MOST_ROWS }
    requires noise { IfOk found.now.noise (λ range. 0 < range) }
    ensures { IfOk result (λ lines. lines ≡ row_lines (found_shown found.now) check.now) }
{
    let rows = found.rows.as_slice();
    let mut lines = CheckLines::new(alloc);
    for place in 0..rows.len() {
        let row = &rows[place];
        add_row(&mut lines, check, place as u32 + 1, row, found)?;
    }
    or_too_few(lines)
}

/// Puts the line of a check in the row of this number behind the others, if that is a replicate.
fn add_row(
    lines: &mut CheckLines,
    check: &Check,
    number: u32,
    row: &FoundRow,
    found: &FoundSequence,
) -> Result<(), NoMemory>
    requires kind { IsTrue (compares_one check.now.kind) }
    requires noise { IfOk found.now.noise (λ range. 0 < range) }
    ensures { IfOk result (λ done. lines.new
        ≡ lines.old ++ option_to_list (row_line (found_shown found.now) check.now (number, row_shown row.now))) }
{
    if !is_replicate(row.row.kind) {
        return Ok(());
    }
    let value = value_in(check, row, found);
    add_value(lines, check, number, value)
}

/// Puts the line of a check in the row of this number, for this value, behind the others.
fn add_value(
    lines: &mut CheckLines,
    check: &Check,
    number: u32,
    value: Result<Frac, Missing>,
) -> Result<(), NoMemory>
    requires { IsTrue (compares_one check.now.kind) }
    ensures { IfOk result (λ done. lines.new
        ≡ lines.old ++ option_to_list (value_line check.now number value)) }
{
    match value {
        Ok(of_row) => {
            let verdict = cds_suit::check(check.kind, Ok(of_row), check.limit);
            lines.add(Some(number), Ok(of_row), verdict)
        }
        Err(cause) => {
            let verdict = cds_suit::check(check.kind, Err(cause), check.limit);
            lines.add(Some(number), Err(cause), verdict)
        }
    }
}

/// These lines; where there is none, since no row is a replicate, one of all rows that says so.
fn or_too_few(lines: CheckLines) -> Result<CheckLines, NoMemory>
    ensures { IfOk result (λ given. given ≡ or_too_few lines) }
{
    let mut lines = lines;
    if !lines.is_empty() {
        return Ok(lines);
    }
    let verdict = Verdict::Undecided(Missing::TooFew);
    lines.add(None, Err(Missing::TooFew), verdict)?;
    Ok(lines)
}

/// Whether a row is one of several injections of one solution.
pub(crate) fn is_replicate(kind: RowKind) -> bool
    ensures { result ≡ is_replicate kind }
{
    match kind {
        RowKind::Replicate => true,
        RowKind::Blank | RowKind::Standard | RowKind::Sample => false,
    }
}
