//! The order of exact fractions.
ghost use Rattle.std.specs.Prelude.{◌≡◌, ◌<◌, unsigned_abs};
ghost use Rattle.cds_base.specs.RatioOrder.{is_below};
ghost use Rattle.cds_base.specs.declared.peak.TheConstants.{HEIGHT_LIMIT};

use crate::peak::Ratio;

impl Ratio {
    /// Whether this number is below the other one. The numerators must be below `HEIGHT_LIMIT` in absolute value, as
    /// those of heights are. It takes no memory.
    pub fn is_below(&self, other: &Ratio) -> bool
        requires this { unsigned_abs self.now.num < HEIGHT_LIMIT }
        requires other { unsigned_abs other.now.num < HEIGHT_LIMIT }
        ensures { result ≡ is_below self.now other.now }
    {
        self.num * i128::from(other.den) < other.num * i128::from(self.den)
    }
}
