//! The amounts of the components in the sample rows.
ghost use Rattle.std.specs.Prelude.{◌≡◌, ◌≤◌, All, IfOk, length, map};
ghost use Rattle.cds_rules.specs.declared.limits.TheConstants.{MOST_COMPONENTS};
ghost use Rattle.cds_sign.specs.declared.row.RowKind.{RowKind};
ghost use Rattle.cds_graph.specs.Amounts.{amount_in, amounts_in};
ghost use Rattle.cds_graph.specs.Held.{row_shown};
ghost use Rattle.cds_graph.specs.Rows.{is_sample};

use crate::calibration::Calibration;
use crate::found::FoundRow;
use cds_base::{Missing, NoMemory};
use cds_calib::amount;
use cds_frac::Frac;
use cds_sign::RowKind;
use std::alloc::Global;
use std::marker::Model;

/// The amounts of the components of a method in a row, in the order of the components, each of which may be missing.
/// Seen as a list.
#[derive(Debug, Drop)]
pub(crate) struct RowAmounts {
    pub items: Vec<Result<Frac, Missing>>,
}

impl Model for RowAmounts {
    ghost use Rattle.std.specs.Prelude.{List, Result};
    ghost use Rattle.cds_base.specs.declared.peak.Missing.{Missing};
    ghost use Rattle.cds_frac.specs.Fraction.{Fraction};

    ghost Value = { List (Result Fraction Missing) };

    ghost view = { λ a. a.items.items };
}

/// The amounts of the components in each row by these calibrations, which sample rows alone have. The only refusal is
/// want of memory.
pub(crate) fn amounts_of(
    alloc: Global,
    rows: &[FoundRow],
    calibrations: &[Calibration],
) -> Result<Vec<Option<RowAmounts>>, NoMemory>
    requires few { length calibrations.now ≤ MOST_COMPONENTS }
    requires diluted { All (λ row. 1 ≤ row.row.v) rows.now }
    ensures { IfOk result (λ v. v.items ≡ map (λ row. amounts_in calibrations.now (row_shown row)) rows.now) }
{
    let mut amounts = Vec::with_capacity(alloc, rows.len())?;
    for row in rows {
        let found = amounts_in(alloc, row, calibrations)?;
        amounts.push(found)?;
    }
    Ok(amounts)
}

/// The amounts of the components in a row, if that is a sample.
fn amounts_in(
    alloc: Global,
    row: &FoundRow,
    calibrations: &[Calibration],
) -> Result<Option<RowAmounts>, NoMemory>
    requires few { length calibrations.now ≤ MOST_COMPONENTS }
    requires diluted { 1 ≤ row.now.row.v }
    ensures { IfOk result (λ amounts. amounts ≡ amounts_in calibrations.now (row_shown row.now)) }
{
    if !is_sample(row.row.kind) {
        return Ok(None);
    }
    let mut items = Vec::with_capacity(alloc, calibrations.len())?;
    for place in 0..calibrations.len() {
        let calibration = &calibrations[place];
        items.push(amount_in(row, place as u32 + 1, calibration))?;
    }
    Ok(Some(RowAmounts { items }))
}

/// The amount of the component of this number in a row, by its calibration.
fn amount_in(row: &FoundRow, number: u32, calibration: &Calibration) -> Result<Frac, Missing>
    requires { 1 ≤ row.now.row.v }
    ensures { result ≡ amount_in (row_shown row.now) (number, calibration.now) }
{
    let node = row.node.as_ref();
    let peak = node.peak(number)?;
    match &calibration.line {
        Ok(line) => amount(line, peak.units, row.row.u, row.row.v),
        Err(cause) => Err(*cause),
    }
}

/// Whether a row is injected for its amounts.
fn is_sample(kind: RowKind) -> bool
    ensures { result ≡ is_sample kind }
{
    match kind {
        RowKind::Sample => true,
        RowKind::Blank | RowKind::Standard | RowKind::Replicate => false,
    }
}
