//! The text of the system suitability of a sequence.
ghost use Rattle.std.specs.Prelude.{◌≡◌, ◌++◌, ◌∷◌, [], IfOk, decimal, Some, flat_map, option_map};
ghost use Rattle.cds_book.specs.Tables.{numbered};
ghost use Rattle.cds_graph.specs.Graph.{StandsFor};
ghost use Rattle.cds_report.specs.Lines.{if_there, spaced};
ghost use Rattle.cds_report.specs.Reported.{reported_of};
ghost use Rattle.cds_report.specs.Shown.{kept_results, report_shown};
ghost use Rattle.cds_report.specs.SuitabilityText.{suitability_line, decimals_of, check_words, check_line, checks_text};
ghost use Rattle.cds_report.specs.SuitabilityText.{verdict_line, suitability_text};
ghost use Rattle.cds_report.specs.Words.{check_word, component_word, row_words, value_word, verdict_word};

use crate::lines::Lines;
use crate::looks::{lines_of, verdict_of};
use crate::report::Report;
use crate::words::{check_word, component_word, verdict_word};
use cds_base::{Bytes, Name, NoMemory};
use cds_book::Tables;
use cds_graph::{CheckLine, Graph};
use cds_rules::{Check, CheckKind, Component};
use std::alloc::Global;

/// The text of the system suitability of a sequence: `suitability NAME basis N`, for each line of each check
/// `check I KIND COMPONENT row N VALUE VERDICT`, with `all` in place of `row N` where the line is of all rows, then
/// `verdict VERDICT`. A determination has 4 decimals, each other value 2, all cut; a missing value is shown by its cause.
/// None exactly where there is no such sequence. The only refusal is want of memory. This project's own format.
pub fn suitability_text(
    alloc: Global,
    tables: &Tables,
    graph: &Graph,
    sequence: Name,
) -> Result<Option<Bytes>, NoMemory>
    requires { StandsFor tables.now.state graph.now }
    ensures { IfOk result (λ text. text ≡ option_map suitability_text (reported_of tables.now.state sequence)) }
{
    let Some(report) = Report::new(tables, graph, sequence) else {
        return Ok(None);
    };
    let mut lines = Lines::new(alloc);
    push_suitability(&mut lines, &report)?;
    Ok(Some(lines.into_bytes()))
}

/// Writes the text of the system suitability of a sequence.
pub(crate) fn push_suitability(lines: &mut Lines, report: &Report<'_>) -> Result<(), NoMemory>
    ensures { IfOk result (λ _. lines.new ≡ lines.old ++ suitability_text (report_shown report.now)) }
{
    push_head(lines, report)?;
    push_checks(lines, report)?;
    push_verdict(lines, report)
}

/// Writes the line of the sequence.
fn push_head(lines: &mut Lines, report: &Report<'_>) -> Result<(), NoMemory>
    ensures { IfOk result (λ _. lines.new ≡ lines.old ++ suitability_line (report_shown report.now)) }
{
    report.push_name(lines, "suitability")?;
    report.push_basis(lines)?;
    lines.end()
}

/// Writes the lines of all checks.
fn push_checks(lines: &mut Lines, report: &Report<'_>) -> Result<(), NoMemory>
    ensures { IfOk result (λ _. lines.new ≡ lines.old ++ checks_text report.now.method.now.components
        (kept_results report.now.graph.now report.now.name) report.now.method.now.checks) }
{
    for (index, check) in report.method.checks.as_slice().iter().enumerate() {
        push_check(lines, report, index as u32 + 1, check)?;
    }
    Ok(())
}

/// Writes the lines of a check, if they are there.
fn push_check(
    lines: &mut Lines,
    report: &Report<'_>,
    number: u32,
    check: &Check,
) -> Result<(), NoMemory>
    ensures { IfOk result (λ _. lines.new ≡ lines.old
        ++ if_there (flat_map (check_line report.now.method.now.components number check.now))
        (numbered (kept_results report.now.graph.now report.now.name).checks number)) }
{
    match lines_of(report.graph, report.name, number) {
        Some(held) => push_lines(
            lines,
            report.method.components.as_slice(),
            number,
            check,
            held,
        ),
        None => Ok(()),
    }
}

/// Writes the lines of a check.
fn push_lines(
    lines: &mut Lines,
    components: &[Component],
    number: u32,
    check: &Check,
    held: &[CheckLine],
) -> Result<(), NoMemory>
    ensures { IfOk result (λ _. lines.new ≡ lines.old
        ++ flat_map (check_line components.now number check.now) held.now) }
{
    for line in held {
        push_line(lines, components, number, check, line)?;
    }
    Ok(())
}

/// Writes a line of a check.
fn push_line(
    lines: &mut Lines,
    components: &[Component],
    number: u32,
    check: &Check,
    held: &CheckLine,
) -> Result<(), NoMemory>
    ensures { IfOk result (λ _. lines.new ≡ lines.old ++ check_line components.now number check.now held.now) }
{
    lines.begin("check")?;
    push_words(lines, components, number, check, held)?;
    lines.end()
}

/// Writes the words of a line of a check.
fn push_words(
    lines: &mut Lines,
    components: &[Component],
    number: u32,
    check: &Check,
    held: &CheckLine,
) -> Result<(), NoMemory>
    ensures { IfOk result (λ _. lines.new ≡ lines.old
        ++ spaced (check_words components.now number check.now held.now)) }
{
    push_subject(lines, components, number, check)?;
    push_of(lines, held.row)?;
    push_answer(lines, check.kind, held)
}

/// Writes the number of a check, what it looks at, and its component.
fn push_subject(
    lines: &mut Lines,
    components: &[Component],
    number: u32,
    check: &Check,
) -> Result<(), NoMemory>
    ensures { IfOk result (λ _. lines.new ≡ lines.old ++ spaced (decimal number ∷ check_word check.now.kind
        ∷ component_word components.now (Some check.now.component) ∷ [])) }
{
    lines.number(u64::from(number))?;
    lines.word(check_word(check.kind))?;
    lines.plain(component_word(components, Some(check.component)))
}

/// Writes the value of a line of a check of this kind, and the verdict.
fn push_answer(lines: &mut Lines, kind: CheckKind, held: &CheckLine) -> Result<(), NoMemory>
    ensures { IfOk result (λ _. lines.new ≡ lines.old
        ++ spaced (value_word (decimals_of kind) held.now.value ∷ verdict_word held.now.verdict ∷ [])) }
{
    lines.value(&held.value, decimals_of(kind))?;
    lines.word(verdict_word(held.verdict))
}

/// Writes of which row a line is.
fn push_of(lines: &mut Lines, row: Option<u32>) -> Result<(), NoMemory>
    ensures { IfOk result (λ _. lines.new ≡ lines.old ++ spaced (row_words row)) }
{
    match row {
        Some(number) => push_of_row(lines, number),
        None => lines.word("all"),
    }
}

/// Writes the row of which a line is.
fn push_of_row(lines: &mut Lines, number: u32) -> Result<(), NoMemory>
    ensures { IfOk result (λ _. lines.new ≡ lines.old ++ spaced (row_words (Some number))) }
{
    lines.word("row")?;
    lines.number(u64::from(number))
}

/// With how many decimals the value of a check is shown.
fn decimals_of(kind: CheckKind) -> u32
    ensures { result ≡ decimals_of kind }
{
    match kind {
        CheckKind::R2 => 4,
        _ => 2,
    }
}

/// Writes the verdict of all checks.
fn push_verdict(lines: &mut Lines, report: &Report<'_>) -> Result<(), NoMemory>
    ensures { IfOk result (λ _. lines.new ≡ lines.old
        ++ verdict_line (kept_results report.now.graph.now report.now.name).verdict) }
{
    lines.begin("verdict")?;
    lines.word(verdict_word(verdict_of(report.graph, report.name)))?;
    lines.end()
}
