//! The points of a calibration.
ghost use Rattle.std.specs.Prelude.{◌≡◌, ◌<◌, ◌≤◌, [], ◌↔◌, IsTrue, IfOk, length, insert, remove, slice_get};
ghost use Rattle.cds_calib.specs.Points.{IsCalibration};
ghost use Rattle.cds_calib.specs.Sums.{sums_of, IsSmall};

use crate::point::{MOST_POINTS, Point};
use crate::sums::Sums;
use cds_base::{AREA_LIMIT, MOST_AMOUNT, NoMemory};
use std::alloc::Global;
use std::marker::Model;

/// The points of a calibration in their order, at most 64. Seen as their list. It takes all its memory when it is
/// made, and keeps the plain sums of the list, so that a line of weight `Equal` or `Origin` costs the same however
/// many points there are.
#[derive(Debug, Drop)]
pub struct Points {
    items: Vec<Point>,
    sums: Sums,
}

impl Model for Points {
    ghost use Rattle.std.specs.Prelude.{List, vec_capacity};
    ghost use Rattle.cds_calib.specs.declared.point.Point.{Point};

    ghost Value = { List Point };

    ghost use Rattle.cds_calib.specs.Sums.{IsKept};

    ghost view = { λ a. a.items.items };

    ghost invariant = { λ a. IsKept a.items.items (vec_capacity a.items) a.sums };
}

impl Points {
    /// No points, with room for all that may come. The only refusal is want of memory.
    pub fn new(alloc: Global) -> Result<Points, NoMemory>
        ensures { IfOk result (λ points. points ≡ []) }
    {
        Ok(Points {
            items: Vec::with_capacity(alloc, MOST_POINTS)?,
            sums: Sums::zero(),
        })
    }

    /// The same points, with room for all that may come. The only refusal is want of memory.
    pub fn copy(&self, alloc: Global) -> Result<Points, NoMemory>
        ensures { IfOk result (λ points. points ≡ self.now) }
    {
        let mut items = Vec::with_capacity(alloc, MOST_POINTS)?;
        for point in self.items.as_slice() {
            items.push(*point)?;
        }
        Ok(Points {
            items,
            sums: self.sums,
        })
    }

    /// Puts a point in at `place`, before the point that stands there. It takes no memory.
    pub fn add(&mut self, place: u32, amount: u32, area: u64)
        requires room { length self.old < MOST_POINTS }
        requires place { place ≤ length self.old }
        requires some { 1 ≤ amount }
        requires amount { amount ≤ MOST_AMOUNT }
        requires area { area < AREA_LIMIT }
        ensures { self.new ≡ insert self.old place (record { amount = amount; area = area }) }
    {
        let point = Point { amount, area };
        self.sums = self.sums.with(point);
        let Ok(()) = self.items.insert(place as usize, point) else {
            unreachable!()
        };
    }

    /// Takes the point at `place` out. It takes no memory.
    pub fn remove(&mut self, place: u32)
        requires { place < length self.old }
        ensures { self.new ≡ remove self.old place }
    {
        let point = self.items.remove(place as usize);
        self.sums = self.sums.without(point);
    }

    /// The points in their order: at most 64, with amounts of 1 to 10^9 and areas below 2^52.
    pub fn as_slice(&self) -> &[Point]
        ensures items { result.now ≡ self.now }
        ensures shape { IsCalibration self.now }
    {
        self.items.as_slice()
    }

    /// The point at a place, counted from 0. None exactly where there are not so many points.
    pub fn get(&self, i: u32) -> Option<Point>
        ensures { result ≡ slice_get self.now i }
    {
        self.items.get(i as usize).copied()
    }

    /// How many points there are.
    pub fn len(&self) -> usize
        ensures count { result ≡ length self.now }
        ensures few { result ≤ MOST_POINTS }
    {
        self.items.len()
    }

    /// Whether there is no point.
    pub fn is_empty(&self) -> bool
        ensures { IsTrue result ↔ (self.now ≡ []) }
    {
        self.items.is_empty()
    }

    /// The plain sums of the points.
    pub(crate) fn sums(&self) -> Sums
        ensures sums { result ≡ sums_of self.now }
        ensures small { IsSmall result }
        ensures shape { IsCalibration self.now }
    {
        self.sums
    }

    /// How many points there are, as a term of the sums.
    pub(crate) fn count(&self) -> u128
        ensures count { result ≡ length self.now }
        ensures few { result ≤ MOST_POINTS }
    {
        self.items.len() as u128
    }
}
