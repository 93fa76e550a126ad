//! The text that is signed.
ghost use Rattle.std.specs.Prelude.{◌≡◌, ◌<◌, ◌≤◌, ◌++◌, ◌∷◌, [], IfOk, length, option_map};
ghost use Rattle.cds_base.specs.declared.clock.TheConstants.{MOMENT_LIMIT};
ghost use Rattle.cds_graph.specs.Graph.{StandsFor};
ghost use Rattle.cds_report.specs.Reported.{reported_of};
ghost use Rattle.cds_report.specs.Lines.{line};
ghost use Rattle.cds_report.specs.Shown.{report_shown};
ghost use Rattle.cds_report.specs.SequenceText.{sequence_text};
ghost use Rattle.cds_report.specs.SuitabilityText.{suitability_text};
ghost use Rattle.cds_sign.specs.declared.limits.TheConstants.{MOST_ROWS};
ghost use Rattle.cds_report.specs.SignedText.{signed_line, signed_text};

use crate::dates::date_text;
use crate::lines::Lines;
use crate::report::Report;
use crate::sequence::push_sequence;
use crate::suitability::push_suitability;
use cds_base::{Bytes, Name, NoMemory};
use cds_book::Tables;
use cds_graph::Graph;
use std::alloc::Global;

/// The text that is signed: `signed N SEQUENCE basis B`, `by NAME`, `meaning MEANING` and `at DATE`, then the text of
/// the sequence as in [`sequence_text`](crate::sequence_text) and that of its suitability as in
/// [`suitability_text`](crate::suitability_text). The signature has this number, it is of the one of this name, and it
/// has this meaning; the moment is in seconds since the beginning of 1970, below `MOMENT_LIMIT`. None exactly where
/// there is no such sequence. The only refusal is want of memory. This project's own format.
pub fn signed_text(
    alloc: Global,
    tables: &Tables,
    graph: &Graph,
    sequence: Name,
    number: u32,
    name: &[u8],
    meaning: &[u8],
    moment: u64,
) -> Result<Option<Bytes>, NoMemory>
    requires stands { StandsFor tables.now.state graph.now }
    requires moment { moment < MOMENT_LIMIT }
    ensures { IfOk result (λ text. text ≡ option_map (signed_text
        (record { number = number; name = name.now; meaning = meaning.now; moment = moment }))
        (reported_of tables.now.state sequence)) }
{
    let date = date_text(alloc, moment)?;
    let Some(report) = Report::new(tables, graph, sequence) else {
        return Ok(None);
    };
    let mut lines = Lines::new(alloc);
    push_signed(&mut lines, &report, number)?;
    push_one(&mut lines, "by", name)?;
    push_one(&mut lines, "meaning", meaning)?;
    push_one(&mut lines, "at", date.as_str().as_bytes())?;
    push_reports(&mut lines, &report)?;
    Ok(Some(lines.into_bytes()))
}

/// Writes the text of a sequence, and that of its suitability.
fn push_reports(lines: &mut Lines, report: &Report<'_>) -> Result<(), NoMemory>
    requires { length report.now.inputs.now.rows ≤ MOST_ROWS }
    ensures { IfOk result (λ _. lines.new ≡ lines.old
        ++ (sequence_text (report_shown report.now) ++ suitability_text (report_shown report.now))) }
{
    push_sequence(lines, report)?;
    push_suitability(lines, report)
}

/// Writes what is signed.
fn push_signed(lines: &mut Lines, report: &Report<'_>, number: u32) -> Result<(), NoMemory>
    ensures { IfOk result (λ _. lines.new ≡ lines.old ++ signed_line number (report_shown report.now)) }
{
    lines.begin("signed")?;
    lines.number(u64::from(number))?;
    lines.name(report.name)?;
    report.push_basis(lines)?;
    lines.end()
}

/// Writes a line with one word, which is given by its bytes.
fn push_one(lines: &mut Lines, first: &str, word: &[u8]) -> Result<(), NoMemory>
    ensures { IfOk result (λ _. lines.new ≡ lines.old ++ line first.now (word.now ∷ [])) }
{
    lines.begin(first)?;
    lines.plain(word)?;
    lines.end()
}
