//! The checks of a sequence, and the verdict of all.
ghost use Rattle.std.specs.Prelude.{◌≡◌, ◌++◌, ◌∷◌, [], ◌<◌, ◌≤◌, IfOk, length};
ghost use Rattle.cds_sign.specs.declared.limits.TheConstants.{MOST_ROWS};
ghost use Rattle.cds_graph.specs.Checks.{checks_of, determination_line, lines_of, verdict_of_checks, verdicts_of};
ghost use Rattle.cds_graph.specs.Held.{found_shown};
ghost use Rattle.cds_graph.specs.Points.{calibrations_of, points_numbered};

use crate::calibration::{Calibration, calibration_numbered};
use crate::check_line::{CheckLines, shown};
use crate::deviations::deviation_lines;
use crate::found::FoundSequence;
use crate::row_lines::row_lines;
use cds_base::{Missing, NoMemory};
use cds_calib::{MOST_DETERMINATION, Points};
use cds_rules::{Check, CheckKind};
use cds_suit::{Verdict, overall};
use std::alloc::Global;

/// The lines of each check of a sequence's method, in their order, by these calibrations of its components. The only
/// refusal is want of memory.
pub(crate) fn checks_of(
    alloc: Global,
    found: &FoundSequence,
    calibrations: &[Calibration],
) -> Result<Vec<CheckLines>, NoMemory>
    requires calibrations { calibrations.now ≡ calibrations_of (found_shown found.now) }
    requires few { length found.now.rows.items ≤ MOST_ROWS }
    requires noise { IfOk found.now.noise (λ range. 0 < range) }
    ensures { IfOk result (λ v. v.items ≡ checks_of (found_shown found.now)) }
{
    let method = found.method.as_ref();
    let checks = method.method.checks.as_slice();
    let mut lines = Vec::with_capacity(alloc, checks.len())?;
    for check in checks {
        let of_check = lines_of(alloc, check, found, calibrations)?;
        lines.push(of_check)?;
    }
    Ok(lines)
}

/// The verdict of all checks: Fail where one line fails, else that of the first undecided line, else Pass. The only
/// refusal is want of memory.
pub(crate) fn verdict_of(alloc: Global, checks: &[CheckLines]) -> Result<Verdict, NoMemory>
    ensures { IfOk result (λ verdict. verdict ≡ verdict_of_checks checks.now) }
{
    let mut verdicts = Vec::new(alloc);
    for lines in checks {
        add_verdicts(&mut verdicts, lines)?;
    }
    Ok(overall(verdicts.as_slice()))
}

/// Puts the verdicts of the lines of a check behind those so far.
fn add_verdicts(verdicts: &mut Vec<Verdict>, lines: &CheckLines) -> Result<(), NoMemory>
    ensures { IfOk result (λ done. verdicts.new.items ≡ verdicts.old.items ++ verdicts_of lines.now) }
{
    let items = lines.items.as_slice();
    for line in items {
        verdicts.push(line.verdict)?;
    }
    Ok(())
}

/// The lines of a check.
fn lines_of(
    alloc: Global,
    check: &Check,
    found: &FoundSequence,
    calibrations: &[Calibration],
) -> Result<CheckLines, NoMemory>
    requires calibrations { calibrations.now ≡ calibrations_of (found_shown found.now) }
    requires few { length found.now.rows.items ≤ MOST_ROWS }
    requires noise { IfOk found.now.noise (λ range. 0 < range) }
    ensures { IfOk result (λ lines. lines ≡ lines_of (found_shown found.now) check.now) }
{
    match check.kind {
        CheckKind::RsdArea | CheckKind::RsdTime => deviation_lines(alloc, check, &found.rows),
        CheckKind::R2 => determination_lines(alloc, check, calibrations),
        CheckKind::Resolution
        | CheckKind::Tailing
        | CheckKind::Plates
        | CheckKind::SignalNoise
        | CheckKind::Retention
        | CheckKind::PeakValley => row_lines(alloc, check, found),
    }
}

/// The line of a check of the determination of its component's points.
fn determination_lines(
    alloc: Global,
    check: &Check,
    calibrations: &[Calibration],
) -> Result<CheckLines, NoMemory>
    ensures { IfOk result (λ lines. lines
        ≡ determination_line check.now (points_numbered calibrations.now check.now.component) ∷ []) }
{
    match calibration_numbered(calibrations, check.component) {
        Some(calibration) => determination_of(alloc, check, &calibration.points),
        None => {
            let verdict = Verdict::Undecided(Missing::TooFew);
            CheckLines::of_all_rows(alloc, Err(Missing::TooFew), verdict)
        }
    }
}

/// The line of a check of the determination of these points.
fn determination_of(alloc: Global, check: &Check, points: &Points) -> Result<CheckLines, NoMemory>
    ensures { IfOk result (λ lines. lines ≡ determination_line check.now points.now ∷ []) }
{
    let value = shown(points.determination(), MOST_DETERMINATION);
    let verdict = Verdict::from_test(points.determination_at_least(check.limit));
    CheckLines::of_all_rows(alloc, value, verdict)
}
