//! The area that a report shows.
ghost use Rattle.std.specs.Prelude.{◌≡◌, ◌*◌, ◌<◌, pos, ◌≤ℤ◌, nat_abs};
ghost use Rattle.cds_base.specs.declared.peak.TheConstants.{AREA_LIMIT};
ghost use Rattle.cds_area.specs.Area.{units_of};
ghost use Rattle.cds_base.specs.declared.time.TheConstants.{MILLISECOND_US};

use cds_base::{MILLISECOND_US, Ratio};

/// The reported area: `area * period / 1000`, rounded down, in count milliseconds. `period` is in microseconds. It
/// needs an area that isn't negative and for which `area * period / 1000` is below `AREA_LIMIT`, as it is for every area over
/// a line between samples of a trace of that period. This project's own rule.
pub fn units(area: Ratio, period: u64) -> u64
    requires sign { pos 0 ≤ℤ area.num }
    requires small { nat_abs area.num * period < AREA_LIMIT * (MILLISECOND_US * area.den) }
    ensures value { result ≡ units_of area period }
    ensures small { result < AREA_LIMIT }
{
    let counts = area.num.unsigned_abs() * u128::from(period);
    (counts / (u128::from(MILLISECOND_US) * u128::from(area.den))) as u64
}
