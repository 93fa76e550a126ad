//! The text of a row.
ghost use Rattle.std.specs.Prelude.{◌≡◌, ◌++◌, ◌∷◌, [], All, IfOk, codes, decimal, option_copied};
ghost use Rattle.std.specs.Fmt.{signed_decimal};
ghost use Rattle.cds_report.specs.Words.{component_word};
ghost use Rattle.std.specs.Option.{option_and_then};
ghost use Rattle.cds_book.specs.Tables.{numbered};
ghost use Rattle.cds_frac.specs.Fraction.{floor_of};
ghost use Rattle.cds_graph.specs.Figures.{CrossesBefore};
ghost use Rattle.cds_graph.specs.Graph.{StandsFor};
ghost use Rattle.cds_graph.specs.Looks.{amount_at};
ghost use Rattle.cds_graph.specs.Nodes.{IsCounted};
ghost use Rattle.cds_integrate.specs.Row.{IsSound, peaks_in};
ghost use Rattle.cds_integrate.specs.Seen.{peak_seen, seen};
ghost use Rattle.cds_report.specs.Reported.{reported_of};
ghost use Rattle.cds_report.specs.RowText.{injection_line, peak_line, found_text, amount_line, found_in_row};
ghost use Rattle.cds_report.specs.RowText.{amounts_in_row, injection_text, row_text};
ghost use Rattle.cds_report.specs.Lines.{each_numbered, if_there, line, spaced};
ghost use Rattle.cds_report.specs.Shown.{kept_results, report_shown};

use crate::lines::Lines;
use crate::looks::{amount_in, found_in, period_of};
use crate::report::Report;
use crate::words::{component_word, kind_word};
use cds_base::{Bytes, Name, NoMemory, Peak};
use cds_book::Tables;
use cds_frac::Frac;
use cds_graph::{Graph, plates_in, tailing_in};
use cds_integrate::RowPart;
use cds_rules::Component;
use cds_sign::Row;
use std::alloc::Global;

/// The text of a row of a sequence: `row N LABEL KIND TRACE V`, then `peak I COMPONENT APEX_US START END AREA HEIGHT
/// PLATES TAILING` for each peak, or `too many peaks COUNT`, and in a sample row `amount COMPONENT VALUE` for each
/// component. A missing value is shown by its cause. Rows are numbered from 1. None exactly where there is no such
/// sequence or row. The only refusal is want of memory. This project's own format.
pub fn row_text(
    alloc: Global,
    tables: &Tables,
    graph: &Graph,
    sequence: Name,
    n: u32,
) -> Result<Option<Bytes>, NoMemory>
    requires { StandsFor tables.now.state graph.now }
    ensures { IfOk result (λ text. text ≡ option_and_then (row_text n) (reported_of tables.now.state sequence)) }
{
    match Report::new(tables, graph, sequence) {
        Some(report) => text_of(alloc, &report, n),
        None => Ok(None),
    }
}

/// The text of the row of a number, if it is there.
#[tactic(auto, unfolding(crate::specs::RowText::row_text))]
fn text_of(alloc: Global, report: &Report<'_>, n: u32) -> Result<Option<Bytes>, NoMemory>
    ensures { IfOk result (λ text. text ≡ row_text n (report_shown report.now)) }
{
    let Some(row) = row_numbered(report.inputs.rows.as_slice(), n) else {
        return Ok(None);
    };
    let mut lines = Lines::new(alloc);
    push_row(&mut lines, report, n, row)?;
    Ok(Some(lines.into_bytes()))
}

/// The row of a number, if it is there.
fn row_numbered(rows: &[Row], n: u32) -> Option<&Row>
    ensures { option_copied result ≡ numbered rows.now n }
{
    if n == 0 {
        return None;
    }
    rows.get(n as usize - 1)
}

/// Writes the text of a row.
pub(crate) fn push_row(
    lines: &mut Lines,
    report: &Report<'_>,
    n: u32,
    row: &Row,
) -> Result<(), NoMemory>
    ensures { IfOk result (λ _. lines.new ≡ lines.old ++ injection_text report.now.method.now.components
        (kept_results report.now.graph.now report.now.name) n row.now) }
{
    push_injection(lines, n, row)?;
    push_found(lines, report, n)?;
    push_amounts(lines, report, n)
}

/// Writes what was injected.
fn push_injection(lines: &mut Lines, n: u32, row: &Row) -> Result<(), NoMemory>
    ensures { IfOk result (λ _. lines.new ≡ lines.old ++ injection_line n row.now) }
{
    lines.begin("row")?;
    lines.number(u64::from(n))?;
    lines.name(row.label)?;
    lines.word(kind_word(row.kind))?;
    lines.name(row.trace)?;
    lines.number(u64::from(row.version))?;
    lines.end()
}

/// Writes what is found in a row.
fn push_found(lines: &mut Lines, report: &Report<'_>, n: u32) -> Result<(), NoMemory>
    ensures { IfOk result (λ _. lines.new ≡ lines.old ++ found_in_row report.now.method.now.components
        (kept_results report.now.graph.now report.now.name) n) }
{
    let Some(period) = period_of(report.graph, report.name, n) else {
        return Ok(());
    };
    let Some(part) = found_in(report.graph, report.name, n) else {
        return Ok(());
    };
    push_part(lines, report.method.components.as_slice(), period, part)
}

/// Writes the peaks of a row, or how many raw peaks there are.
fn push_part(
    lines: &mut Lines,
    components: &[Component],
    period: u64,
    part: &RowPart,
) -> Result<(), NoMemory>
    requires crosses { All (CrossesBefore period) (peaks_in part.now) }
    requires counted { IsCounted part.now }
    ensures { IfOk result (λ _. lines.new ≡ lines.old ++ found_text components.now period (seen part.now)) }
{
    let count = part.too_many();
    if count == 0 {
        return push_peaks(lines, components, period, part.peaks());
    }
    push_count(lines, count)
}

/// Writes how many raw peaks there are, where they are too many.
fn push_count(lines: &mut Lines, count: u32) -> Result<(), NoMemory>
    ensures { IfOk result (λ _. lines.new ≡ lines.old ++ line (codes "too many peaks") (decimal count ∷ [])) }
{
    lines.number_line("too many peaks", u64::from(count))
}

/// Writes the peaks of a row.
fn push_peaks(
    lines: &mut Lines,
    components: &[Component],
    period: u64,
    peaks: &[Peak],
) -> Result<(), NoMemory>
    requires sound { All IsSound peaks.now }
    requires crosses { All (CrossesBefore period) peaks.now }
    ensures { IfOk result (λ _. lines.new ≡ lines.old
        ++ each_numbered (λ number peak. peak_line components.now period number (peak_seen peak)) 1 peaks.now) }
{
    for (index, peak) in peaks.iter().enumerate() {
        push_peak(lines, components, period, index + 1, peak)?;
    }
    Ok(())
}

/// Writes a peak.
fn push_peak(
    lines: &mut Lines,
    components: &[Component],
    period: u64,
    number: usize,
    peak: &Peak,
) -> Result<(), NoMemory>
    requires sound { IsSound peak.now }
    requires crosses { CrossesBefore period peak.now }
    ensures { IfOk result (λ _. lines.new ≡ lines.old ++ peak_line components.now period number (peak_seen peak.now)) }
{
    lines.begin("peak")?;
    push_place(lines, components, number, peak)?;
    push_size(lines, peak)?;
    lines.value(&plates_in(peak), 2)?;
    lines.value(&tailing_in(period, peak), 2)?;
    lines.end()
}

/// Writes the number of a peak, its component, its time and its range.
fn push_place(
    lines: &mut Lines,
    components: &[Component],
    number: usize,
    peak: &Peak,
) -> Result<(), NoMemory>
    ensures { IfOk result (λ _. lines.new ≡ lines.old ++ spaced (decimal number
        ∷ component_word components.now peak.now.component ∷ decimal peak.now.time_us ∷ decimal peak.now.start
        ∷ decimal peak.now.end ∷ [])) }
{
    lines.number(number as u64)?;
    lines.plain(component_word(components, peak.component))?;
    lines.number(peak.time_us)?;
    lines.number(u64::from(peak.start))?;
    lines.number(u64::from(peak.end))
}

/// Writes the reported area of a peak and its height.
fn push_size(lines: &mut Lines, peak: &Peak) -> Result<(), NoMemory>
    requires { IsSound peak.now }
    ensures { IfOk result (λ _. lines.new ≡ lines.old ++ spaced (decimal peak.now.units
        ∷ signed_decimal (floor_of (peak_seen peak.now).height) ∷ [])) }
{
    lines.number(peak.units)?;
    lines.signed_number(height_of(peak))
}

/// The height of a peak in counts, rounded down.
fn height_of(peak: &Peak) -> i128
    requires { IsSound peak.now }
    ensures { result ≡ floor_of (peak_seen peak.now).height }
{
    let height = peak.height;
    Frac::new(height.num, i128::from(height.den)).floor()
}

/// Writes the amounts of a row.
fn push_amounts(lines: &mut Lines, report: &Report<'_>, n: u32) -> Result<(), NoMemory>
    ensures { IfOk result (λ _. lines.new ≡ lines.old ++ amounts_in_row report.now.method.now.components
        (kept_results report.now.graph.now report.now.name) n) }
{
    for (index, component) in report.method.components.as_slice().iter().enumerate() {
        push_amount(lines, report, n, index as u32 + 1, component)?;
    }
    Ok(())
}

/// Writes the amount of a component in a row, if the row is a sample.
fn push_amount(
    lines: &mut Lines,
    report: &Report<'_>,
    n: u32,
    number: u32,
    component: &Component,
) -> Result<(), NoMemory>
    ensures { IfOk result (λ _. lines.new ≡ lines.old
        ++ if_there (amount_line component.now)
        (amount_at (kept_results report.now.graph.now report.now.name) n number)) }
{
    let Some(amount) = amount_in(report.graph, report.name, n, number) else {
        return Ok(());
    };
    lines.begin("amount")?;
    lines.name(component.name)?;
    lines.value(&amount, 4)?;
    lines.end()
}
