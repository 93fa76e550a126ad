//! The points of components, and the lines through them.
ghost use Rattle.std.specs.Prelude.{◌≡◌, ◌++◌, ◌∷◌, [], ◌<◌, All};
ghost use Rattle.std.specs.Prelude.{IfOk, IfSome, length, map, option_copied, option_to_list, take};
ghost use Rattle.std.specs.List.{position};
ghost use Rattle.std.specs.Str.{bytes_eq};
ghost use Rattle.cds_base.specs.Named.{named};
ghost use Rattle.cds_base.specs.declared.limits.TheConstants.{MOST_AMOUNT};
ghost use Rattle.cds_calib.specs.Points.{IsPoint};
ghost use Rattle.cds_calib.specs.declared.point.TheConstants.{MOST_POINTS};
ghost use Rattle.cds_rules.specs.Fields.{fields_of};
ghost use Rattle.cds_rules.specs.Values.{number_of};
ghost use Rattle.cds_sign.specs.Ranges.{IsWithin};
ghost use Rattle.cds_book.specs.Tables.{numbered};
ghost use Rattle.cds_graph.specs.Held.{standard_shown, listed_shown, found_shown, HoldAmounts};
ghost use Rattle.cds_graph.specs.Points.{amount_stated, point_of, points_in};
ghost use Rattle.cds_graph.specs.Points.{points_from, calibration_by, calibrations_of};
ghost use Rattle.cds_graph.specs.Ranges.{AreAmounts};

use crate::found::{FoundListed, FoundSequence, FoundStandard};
use cds_base::{Missing, Name, NoMemory};
use cds_calib::{Fit, MOST_POINTS, Point, Points};
use cds_rules::{Component, Method, Weight};
use cds_sign::AmountList;
use std::alloc::Global;

/// The calibration of a component: its points, the line through them or why there is none, and the determination r^2 in
/// ten-thousandths, rounded down, or why there is none.
#[derive(Debug, Drop)]
pub struct Calibration {
    pub points: Points,
    pub line: Result<Fit, Missing>,
    pub determination: Result<u32, Missing>,
}

/// The calibrations of the components of a sequence's method, in their order. The only refusal is want of memory.
pub(crate) fn calibrations_of(
    alloc: Global,
    found: &FoundSequence,
) -> Result<Vec<Calibration>, NoMemory>
    requires { All HoldAmounts found.now.standards.items }
    ensures { IfOk result (λ v. v.items ≡ calibrations_of (found_shown found.now)) }
{
    let method = found.method.as_ref();
    let weight = method.method.weight;
    let components = method.method.components.as_slice();
    let standards = found.standards.as_slice();
    let mut calibrations = Vec::with_capacity(alloc, components.len())?;
    for component in components {
        let points = points_of(alloc, standards, component.name)?;
        calibrations.push(calibration_by(weight, points))?;
    }
    Ok(calibrations)
}

/// The calibration of the component of this number. None exactly where there is no such component.
pub(crate) fn calibration_numbered(
    calibrations: &[Calibration],
    number: u32,
) -> Option<&Calibration>
    ensures { option_copied result ≡ numbered calibrations.now number }
{
    if number == 0 {
        return None;
    }
    calibrations.get(number as usize - 1)
}

/// The calibration by these points.
fn calibration_by(weight: Weight, points: Points) -> Calibration
    ensures { result ≡ calibration_by weight points }
{
    let line = points.fit(weight);
    let determination = points.determination();
    Calibration {
        points,
        line,
        determination,
    }
}

/// The points of the component of this name: those of the listed sequences in their order, at most the first 64.
fn points_of(alloc: Global, standards: &[FoundListed], name: Name) -> Result<Points, NoMemory>
    requires { All HoldAmounts standards.now }
    ensures { IfOk result (λ points. points ≡ points_from (map listed_shown standards.now) name) }
{
    let mut points = Points::new(alloc)?;
    for listed in standards {
        add_points(&mut points, listed, name);
    }
    Ok(points)
}

/// Puts the points that a listed sequence gives behind the others, up to the first 64.
fn add_points(points: &mut Points, listed: &FoundListed, name: Name)
    requires { HoldAmounts listed.now }
    ensures { points.new ≡ take MOST_POINTS (points.old ++ points_in name (listed_shown listed.now)) }
{
    let _few = points.len();
    let method = listed.method.as_ref();
    let rows = listed.rows.as_slice();
    for standard in rows {
        let point = point_of(standard, &method.method, name);
        add_given(points, point);
    }
}

/// Puts a point behind the others, if there is one and there are fewer than 64.
fn add_given(points: &mut Points, point: Option<Point>)
    requires { IfSome point IsPoint }
    ensures { points.new ≡ take MOST_POINTS (points.old ++ option_to_list point) }
{
    let _few = points.len();
    match point {
        Some(point) => add_point(points, point),
        None => {}
    }
}

/// Puts a point behind the others, if there are fewer than 64.
fn add_point(points: &mut Points, point: Point)
    requires { IsPoint point }
    ensures { points.new ≡ take MOST_POINTS (points.old ++ point ∷ []) }
{
    let count = points.len();
    if count < MOST_POINTS {
        points.add(count as u32, point.amount, point.area);
    }
}

/// The point that a standard gives, if it is used, states an amount of the component and has a peak that its method
/// names so.
fn point_of(standard: &FoundStandard, method: &Method, name: Name) -> Option<Point>
    requires { AreAmounts standard.now.row.amounts }
    ensures value { result ≡ point_of name (fields_of method.now) (standard_shown standard.now) }
    ensures point { IfSome result IsPoint }
{
    if !standard.row.used {
        return None;
    }
    let amount = amount_stated(&standard.row.amounts, name)?;
    let component = number_of(method, name)?;
    let node = standard.node.as_ref();
    match node.peak(component) {
        Ok(peak) => Some(Point {
            amount,
            area: peak.units,
        }),
        Err(_) => None,
    }
}

/// The amount that a standard states of the component of this name.
fn amount_stated(amounts: &AmountList, name: Name) -> Option<u32>
    requires { AreAmounts amounts.now }
    ensures value { result ≡ amount_stated amounts.now name }
    ensures range { IfSome result (IsWithin 1 MOST_AMOUNT) }
{
    match amount_named(amounts.as_slice(), name) {
        Some(amount) => Some(amount.1),
        None => None,
    }
}

/// The amount of the component of this name.
fn amount_named(amounts: &[(Name, u32)], name: Name) -> Option<&(Name, u32)>
    ensures { option_copied result ≡ named (λ amount. amount.0) amounts.now name }
{
    amounts.iter().find(|amount| amount.0 == name)
}

/// The number of the component of this name, counted from 1.
fn number_of(method: &Method, name: Name) -> Option<u32>
    ensures { result ≡ number_of method.now.components name }
{
    let place = place_of(method.components.as_slice(), name)?;
    Some(place as u32 + 1)
}

/// The place of the component of this name.
fn place_of(components: &[Component], name: Name) -> Option<usize>
    ensures value { result ≡ position (λ component. bytes_eq component.name name) components.now }
    ensures within { IfSome result (λ place. place < length components.now) }
{
    components
        .iter()
        .position(|component| component.name == name)
}
