//! The checks of a method.
ghost use Rattle.std.specs.Prelude.{◌≡◌, length, option_copied, slice_get};

use std::marker::Model;

/// What a check of system suitability looks at. The kinds are this project's own selection; each is computed
/// after USP General Chapter 621 in this project's half-height form.
#[derive(Clone, Copy, Debug, PartialEq, Eq)]
pub enum CheckKind {
    /// The resolution of two components, at least the limit, in hundredths.
    Resolution,
    /// The tailing factor, at most the limit, in hundredths.
    Tailing,
    /// The number of theoretical plates, at least the limit.
    Plates,
    /// The ratio of signal to noise, at least the limit, in hundredths.
    SignalNoise,
    /// The retention factor, at least the limit, in hundredths.
    Retention,
    /// The ratio of peak to valley, at least the limit, in hundredths.
    PeakValley,
    /// The relative standard deviation of the areas, at most the limit, in hundredths of a percent.
    RsdArea,
    /// The relative standard deviation of the times, at most the limit, in hundredths of a percent.
    RsdTime,
    /// The determination of the calibration line, at least the limit, in ten-thousandths.
    R2,
}

/// A check of system suitability on a component, which is named by its number in the method, counted from 1.
/// `other` is the second component of a check of resolution, and stands there alone.
#[derive(Clone, Copy, Debug, PartialEq, Eq)]
pub struct Check {
    pub kind: CheckKind,
    pub component: u32,
    pub other: Option<u32>,
    pub limit: u32,
}

/// Checks in their order. Seen as a list.
#[derive(Debug, Drop)]
pub struct CheckList {
    items: Vec<Check>,
}

impl Model for CheckList {
    ghost use Rattle.std.specs.Prelude.{List};
    ghost use Rattle.cds_rules.specs.declared.check.Check.{Check};

    ghost Value = { List Check };

    ghost view = { λ a. a.items.items };
}

impl CheckList {
    /// The list of these items. It takes no memory.
    pub fn from_vec(items: Vec<Check>) -> CheckList
        ensures { result ≡ items.items }
    {
        CheckList { items }
    }

    /// The checks in their order.
    pub fn as_slice(&self) -> &[Check]
        ensures { result.now ≡ self.now }
    {
        self.items.as_slice()
    }

    /// How many checks there are.
    pub fn len(&self) -> usize
        ensures { result ≡ length self.now }
    {
        self.items.len()
    }

    /// The check at a place, counted from 0. None exactly where there are not so many.
    pub fn get(&self, i: usize) -> Option<&Check>
        ensures { option_copied result ≡ slice_get self.now i }
    {
        self.items.get(i)
    }
}
