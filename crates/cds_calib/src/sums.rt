//! The plain sums of points.
ghost use Rattle.std.specs.Prelude.{◌≡◌, ◌<◌};
ghost use Rattle.cds_calib.specs.Sums.{with_point, IsSmall, HasPoint};

use crate::point::Point;
use cds_base::AREA_LIMIT;

/// The plain sums of a list of points: of the amounts x, the areas y, their squares and their products.
#[derive(Clone, Copy, Debug)]
pub struct Sums {
    pub x: u128,
    pub y: u128,
    pub xx: u128,
    pub xy: u128,
    pub yy: u128,
}

impl Sums {
    /// The sums of no point.
    pub fn zero() -> Sums
        ensures { result ≡ record { x = 0; y = 0; xx = 0; xy = 0; yy = 0 } }
    {
        Sums {
            x: 0,
            y: 0,
            xx: 0,
            xy: 0,
            yy: 0,
        }
    }

    /// The sums with one point more.
    pub fn with(self, point: Point) -> Sums
        requires room { IsSmall self }
        requires area { point.area < AREA_LIMIT }
        ensures { result ≡ with_point self point }
    {
        let (x, y) = (u128::from(point.amount), u128::from(point.area));
        Sums {
            x: self.x + x,
            y: self.y + y,
            xx: self.xx + x * x,
            xy: self.xy + x * y,
            yy: self.yy + y * y,
        }
    }

    /// The sums with one point less, which is among the points that were summed.
    pub fn without(self, point: Point) -> Sums
        requires { HasPoint self point }
        ensures { with_point result point ≡ self }
    {
        let (x, y) = (u128::from(point.amount), u128::from(point.area));
        Sums {
            x: self.x - x,
            y: self.y - y,
            xx: self.xx - x * x,
            xy: self.xy - x * y,
            yy: self.yy - y * y,
        }
    }
}
