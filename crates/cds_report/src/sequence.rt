//! The text of a sequence.
ghost use Rattle.std.specs.Prelude.{◌≡◌, ◌≤◌, ◌++◌, ◌∷◌, [], IfOk, Ok, codes, decimal, flat_map, length};
ghost use Rattle.std.specs.Prelude.{option_map};
ghost use Rattle.cds_book.specs.Tables.{numbered};
ghost use Rattle.cds_calib.specs.declared.determination.TheConstants.{MOST_DETERMINATION};
ghost use Rattle.cds_frac.specs.Decimals.{decimal_text};
ghost use Rattle.cds_graph.specs.Checks.{shown_in};
ghost use Rattle.cds_graph.specs.Graph.{StandsFor};
ghost use Rattle.cds_report.specs.Lines.{each_numbered, if_there, spaced};
ghost use Rattle.cds_report.specs.Reported.{reported_of};
ghost use Rattle.cds_report.specs.SequenceText.{sequence_line, method_line, standards_line, standard_line};
ghost use Rattle.cds_report.specs.SequenceText.{standard_text, listed_text, fit_words, fit_line, fits_text};
ghost use Rattle.cds_report.specs.SequenceText.{rows_text, sequence_text, slope_of, intercept_of};
ghost use Rattle.cds_report.specs.Shown.{kept_results, listed_kept, listed_named, report_shown};
ghost use Rattle.cds_report.specs.Words.{value_word};
ghost use Rattle.cds_sign.specs.declared.limits.TheConstants.{MOST_ROWS};

use crate::lines::Lines;
use crate::looks::calibration_of;
use crate::report::Report;
use crate::rows::push_row;
use crate::words::{missing_word, used_word};
use cds_base::{Bytes, Missing, Name, NoMemory};
use cds_book::Tables;
use cds_calib::{Fit, MOST_DETERMINATION};
use cds_frac::Frac;
use cds_graph::{Calibration, Graph};
use cds_rules::Component;
use cds_sign::{Inputs, Row, RowKind};
use std::alloc::Global;

/// The text of a sequence: `sequence NAME edition E basis N`, `method NAME V`, for each listed sequence
/// `standards NAME METHOD V` with `standard N TRACE V used` or `unused` for each of its standard rows, for each component
/// `line COMPONENT points K slope B intercept A r2 R` or `line COMPONENT CAUSE`, then the text of each row as in
/// [`row_text`](crate::row_text). Each version is the one in use. Slope and intercept, in area and area for each unit of
/// the amount, have 6 decimals, the determination has 4; all are cut. None exactly where there is no such
/// sequence. The only refusal is want of memory. This project's own format.
pub fn sequence_text(
    alloc: Global,
    tables: &Tables,
    graph: &Graph,
    sequence: Name,
) -> Result<Option<Bytes>, NoMemory>
    requires { StandsFor tables.now.state graph.now }
    ensures { IfOk result (λ text. text ≡ option_map sequence_text (reported_of tables.now.state sequence)) }
{
    let Some(report) = Report::new(tables, graph, sequence) else {
        return Ok(None);
    };
    let mut lines = Lines::new(alloc);
    push_sequence(&mut lines, &report)?;
    Ok(Some(lines.into_bytes()))
}

/// Writes the text of a sequence.
pub(crate) fn push_sequence(lines: &mut Lines, report: &Report<'_>) -> Result<(), NoMemory>
    requires { length report.now.inputs.now.rows ≤ MOST_ROWS }
    ensures { IfOk result (λ _. lines.new ≡ lines.old ++ sequence_text (report_shown report.now)) }
{
    push_head(lines, report)?;
    push_method(lines, report.inputs)?;
    push_all_listed(lines, report.graph, report.sequence.standards.as_slice())?;
    push_fits(lines, report)?;
    push_rows(lines, report)
}

/// Writes the line of the sequence.
fn push_head(lines: &mut Lines, report: &Report<'_>) -> Result<(), NoMemory>
    ensures { IfOk result (λ _. lines.new ≡ lines.old ++ sequence_line (report_shown report.now)) }
{
    report.push_name(lines, "sequence")?;
    lines.word("edition")?;
    lines.number(report.sequence.edition)?;
    report.push_basis(lines)?;
    lines.end()
}

/// Writes the line of the method.
fn push_method(lines: &mut Lines, inputs: &Inputs) -> Result<(), NoMemory>
    ensures { IfOk result (λ _. lines.new ≡ lines.old ++ method_line inputs.now) }
{
    lines.begin("method")?;
    lines.name(inputs.method)?;
    lines.number(u64::from(inputs.version))?;
    lines.end()
}

/// Writes the listed sequences with their standards.
fn push_all_listed(lines: &mut Lines, graph: &Graph, names: &[Name]) -> Result<(), NoMemory>
    ensures { IfOk result (λ _. lines.new ≡ lines.old ++ flat_map listed_text (listed_kept graph.now names.now)) }
{
    for name in names {
        push_named(lines, graph, *name)?;
    }
    Ok(())
}

/// Writes the listed sequence of a name with its standards, if it is there.
fn push_named(lines: &mut Lines, graph: &Graph, name: Name) -> Result<(), NoMemory>
    ensures { IfOk result (λ _. lines.new ≡ lines.old ++ if_there listed_text (listed_named graph.now name)) }
{
    match graph.inputs(name) {
        Some(inputs) => push_listed(lines, name, inputs),
        None => Ok(()),
    }
}

/// Writes a listed sequence with its standards.
fn push_listed(lines: &mut Lines, name: Name, inputs: &Inputs) -> Result<(), NoMemory>
    ensures { IfOk result (λ _. lines.new ≡ lines.old ++ listed_text (record { name = name; inputs = inputs.now })) }
{
    lines.begin("standards")?;
    lines.name(name)?;
    lines.name(inputs.method)?;
    lines.number(u64::from(inputs.version))?;
    lines.end()?;
    push_standards(lines, inputs.rows.as_slice())
}

/// Writes the standards among these rows.
fn push_standards(lines: &mut Lines, rows: &[Row]) -> Result<(), NoMemory>
    ensures { IfOk result (λ _. lines.new ≡ lines.old ++ each_numbered standard_text 1 rows.now) }
{
    for (index, row) in rows.iter().enumerate() {
        push_if_standard(lines, index + 1, row)?;
    }
    Ok(())
}

/// Writes the line of a row, if it is a standard.
fn push_if_standard(lines: &mut Lines, number: usize, row: &Row) -> Result<(), NoMemory>
    ensures { IfOk result (λ _. lines.new ≡ lines.old ++ standard_text number row.now) }
{
    match row.kind {
        RowKind::Standard => push_standard(lines, number, row),
        _ => Ok(()),
    }
}

/// Writes the line of a standard.
fn push_standard(lines: &mut Lines, number: usize, row: &Row) -> Result<(), NoMemory>
    ensures { IfOk result (λ _. lines.new ≡ lines.old ++ standard_line number row.now) }
{
    lines.begin("standard")?;
    lines.number(number as u64)?;
    lines.name(row.trace)?;
    lines.number(u64::from(row.version))?;
    lines.word(used_word(row.used))?;
    lines.end()
}

/// Writes the calibrations of the components.
fn push_fits(lines: &mut Lines, report: &Report<'_>) -> Result<(), NoMemory>
    ensures { IfOk result (λ _. lines.new ≡ lines.old ++ fits_text report.now.method.now.components
        (kept_results report.now.graph.now report.now.name)) }
{
    for (index, component) in report.method.components.as_slice().iter().enumerate() {
        push_fit(lines, report, index as u32 + 1, component)?;
    }
    Ok(())
}

/// Writes the calibration of a component, if it is there.
fn push_fit(
    lines: &mut Lines,
    report: &Report<'_>,
    number: u32,
    component: &Component,
) -> Result<(), NoMemory>
    ensures { IfOk result (λ _. lines.new ≡ lines.old ++ if_there (fit_line component.now)
        (numbered (kept_results report.now.graph.now report.now.name).calibrations number)) }
{
    let Some(calibration) = calibration_of(report.graph, report.name, number) else {
        return Ok(());
    };
    lines.begin("line")?;
    lines.name(component.name)?;
    push_fit_words(lines, calibration)?;
    lines.end()
}

/// Writes what is said of the line of a calibration.
fn push_fit_words(lines: &mut Lines, calibration: &Calibration) -> Result<(), NoMemory>
    ensures { IfOk result (λ _. lines.new ≡ lines.old ++ spaced (fit_words calibration.now calibration.now.line)) }
{
    match &calibration.line {
        Ok(fit) => push_numbers(lines, calibration, fit),
        Err(cause) => lines.word(missing_word(*cause)),
    }
}

/// Writes the numbers of a calibration with a line.
fn push_numbers(lines: &mut Lines, calibration: &Calibration, fit: &Fit) -> Result<(), NoMemory>
    ensures { IfOk result (λ _. lines.new ≡ lines.old ++ spaced (fit_words calibration.now (Ok fit.now))) }
{
    push_count(lines, calibration.points.len())?;
    push_parts(lines, fit)?;
    push_determination(lines, calibration.determination)
}

/// Writes the slope and the intercept of a line.
fn push_parts(lines: &mut Lines, fit: &Fit) -> Result<(), NoMemory>
    ensures { IfOk result (λ _. lines.new ≡ lines.old
        ++ spaced (codes "slope" ∷ decimal_text (slope_of fit.now) 6 ∷ codes "intercept"
        ∷ decimal_text (intercept_of fit.now) 6 ∷ [])) }
{
    lines.two_digits("slope", &fit.slope(), "intercept", &fit.intercept())
}

/// Writes how many points there are.
fn push_count(lines: &mut Lines, count: usize) -> Result<(), NoMemory>
    ensures { IfOk result (λ _. lines.new ≡ lines.old ++ spaced (codes "points" ∷ decimal count ∷ [])) }
{
    lines.word("points")?;
    lines.number(count as u64)
}

/// Writes a determination in ten-thousandths, or why it is missing.
fn push_determination(
    lines: &mut Lines,
    determination: Result<u32, Missing>,
) -> Result<(), NoMemory>
    ensures { IfOk result (λ _. lines.new ≡ lines.old
        ++ spaced (codes "r2" ∷ value_word 4 (shown_in MOST_DETERMINATION determination) ∷ [])) }
{
    lines.word("r2")?;
    lines.value(&share(determination), 4)
}

/// A determination in ten-thousandths as a number, or why it is missing.
fn share(determination: Result<u32, Missing>) -> Result<Frac, Missing>
    ensures { result ≡ shown_in MOST_DETERMINATION determination }
{
    let number = determination?;
    Ok(Frac::new(i128::from(number), i128::from(MOST_DETERMINATION)))
}

/// Writes the texts of all rows.
fn push_rows(lines: &mut Lines, report: &Report<'_>) -> Result<(), NoMemory>
    requires { length report.now.inputs.now.rows ≤ MOST_ROWS }
    ensures { IfOk result (λ _. lines.new ≡ lines.old ++ rows_text report.now.method.now.components
        (kept_results report.now.graph.now report.now.name) report.now.inputs.now.rows) }
{
    for (index, row) in report.inputs.rows.as_slice().iter().enumerate() {
        push_row(lines, report, index as u32 + 1, row)?;
    }
    Ok(())
}
