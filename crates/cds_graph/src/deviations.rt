//! The line of a check of a relative standard deviation.
ghost use Rattle.std.specs.Prelude.{◌≡◌, ◌<◌, ◌≤◌, ◌+◌, ◌++◌, ◌∷◌, [], All, IfOk, Ok, length, map, take};
ghost use Rattle.std.specs.Vec.{vec_len};
ghost use Rattle.cds_base.specs.declared.peak.TheConstants.{AREA_LIMIT};
ghost use Rattle.cds_integrate.specs.Row.{IsSound};
ghost use Rattle.cds_integrate.specs.Seen.{peak_seen};
ghost use Rattle.cds_suit.specs.declared.square.TheConstants.{MOST_VALUES};
ghost use Rattle.cds_graph.specs.Checks.{all_values, deviation_line, replicate_values, replicates_of};
ghost use Rattle.cds_graph.specs.Checks.{taken_by, taken_in};
ghost use Rattle.cds_graph.specs.Held.{row_shown};
ghost use Rattle.cds_graph.specs.Nodes.{seen_by};

use crate::check_line::{CheckLines, shown};
use crate::found::FoundRow;
use crate::row_lines::is_replicate;
use cds_base::{HUNDREDTHS, Missing, NoMemory, Peak};
use cds_rules::{Check, CheckKind};
use cds_suit::{MOST_VALUES, Verdict, rsd_at_most, rsd_floor};
use std::alloc::Global;

/// The line of a check of a deviation over the first 64 replicate rows. The only refusal is want of memory.
pub(crate) fn deviation_lines(
    alloc: Global,
    check: &Check,
    rows: &[FoundRow],
) -> Result<CheckLines, NoMemory>
    ensures { IfOk result (λ lines. lines
        ≡ deviation_line check.now (replicate_values check.now (map row_shown rows.now)) ∷ []) }
{
    let taken = first_taken(alloc, check, rows)?;
    match all_values(alloc, &taken)? {
        Ok(values) => lines_of(alloc, check, &values),
        Err(cause) => CheckLines::of_all_rows(alloc, Err(cause), Verdict::Undecided(cause)),
    }
}

/// What is taken of the component's peak in each of the first 64 replicate rows, or why it is missing there.
fn first_taken(
    alloc: Global,
    check: &Check,
    rows: &[FoundRow],
) -> Result<Vec<Result<u64, Missing>>, NoMemory>
    ensures value { IfOk result (λ v. v.items
        ≡ map (taken_in check.now) (take MOST_VALUES (replicates_of (map row_shown rows.now)))) }
    ensures few { IfOk result (λ v. length v.items ≤ MOST_VALUES) }
    ensures below { IfOk result (λ v. All (λ one. IfOk one (λ x. x < AREA_LIMIT)) v.items) }
{
    let mut taken = Vec::with_capacity(alloc, MOST_VALUES)?;
    for row in rows {
        if taken.len() == MOST_VALUES {
            return Ok(taken);
        }
        add_taken(&mut taken, check, row)?;
    }
    Ok(taken)
}

/// Puts what is taken of a row behind the others, if it is a replicate.
fn add_taken(
    taken: &mut Vec<Result<u64, Missing>>,
    check: &Check,
    row: &FoundRow,
) -> Result<(), NoMemory>
    requires { All (λ one. IfOk one (λ x. x < AREA_LIMIT)) taken.old.items }
    ensures value { IfOk result (λ done. taken.new.items
        ≡ taken.old.items ++ map (taken_in check.now) (replicates_of (row_shown row.now ∷ []))) }
    ensures one { IfOk result (λ done. vec_len taken.new ≤ vec_len taken.old + 1) }
    ensures below { IfOk result (λ done. All (λ one. IfOk one (λ x. x < AREA_LIMIT)) taken.new.items) }
{
    if !is_replicate(row.row.kind) {
        return Ok(());
    }
    taken.push(taken_in(check, row))?;
    Ok(())
}

/// The values of a list, or the first cause why one is missing.
fn all_values(
    alloc: Global,
    taken: &[Result<u64, Missing>],
) -> Result<Result<Vec<u64>, Missing>, NoMemory>
    requires { All (λ one. IfOk one (λ x. x < AREA_LIMIT)) taken.now }
    ensures value { IfOk result (λ values. seen_by (λ v. v.items) values ≡ all_values taken.now) }
    ensures few { IfOk result (λ values. IfOk values (λ v. length v.items ≤ length taken.now)) }
    ensures below { IfOk result (λ values. IfOk values (λ v. All (λ x. x < AREA_LIMIT) v.items)) }
{
    let mut values = Vec::with_capacity(alloc, taken.len())?;
    for one in taken {
        match *one {
            Ok(value) => values.push(value)?,
            Err(cause) => return Ok(Err(cause)),
        }
    }
    Ok(Ok(values))
}

/// The line of a check of the deviation of these values.
fn lines_of(alloc: Global, check: &Check, values: &[u64]) -> Result<CheckLines, NoMemory>
    requires few { length values.now ≤ MOST_VALUES }
    requires below { All (λ x. x < AREA_LIMIT) values.now }
    ensures { IfOk result (λ lines. lines ≡ deviation_line check.now (Ok values.now) ∷ []) }
{
    let value = shown(rsd_floor(values), HUNDREDTHS);
    let verdict = Verdict::from_test(rsd_at_most(values, check.limit));
    CheckLines::of_all_rows(alloc, value, verdict)
}

/// What is taken of the component's peak in a row, or why it is missing.
fn taken_in(check: &Check, row: &FoundRow) -> Result<u64, Missing>
    ensures value { result ≡ taken_in check.now (row_shown row.now) }
    ensures below { IfOk result (λ x. x < AREA_LIMIT) }
{
    let node = row.node.as_ref();
    let peak = node.peak(check.component)?;
    Ok(taken_by(check.kind, &peak))
}

/// What a deviation is taken of: the time of a peak, or its reported area.
fn taken_by(kind: CheckKind, peak: &Peak) -> u64
    requires { IsSound peak.now }
    ensures value { result ≡ taken_by kind (peak_seen peak.now) }
    ensures below { result < AREA_LIMIT }
{
    match kind {
        CheckKind::RsdTime => peak.time_us,
        _ => peak.units,
    }
}
