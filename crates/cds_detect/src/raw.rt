//! What the detector finds.
ghost use Rattle.std.specs.Prelude.{◌≡◌, length, option_copied, slice_get};

use cds_base::RawPeak;
use std::marker::Model;

/// The most raw peaks of a row: a row with more has no list of them. This project's own limit.
pub const MOST_RAW_PEAKS: usize = 500;

/// The raw peaks of a trace, in the order of their times. Seen as a list.
#[derive(Debug, Drop)]
pub struct RawPeaks {
    items: Vec<RawPeak>,
}

impl Model for RawPeaks {
    ghost use Rattle.std.specs.Prelude.{List};
    ghost use Rattle.cds_base.specs.declared.peak.RawPeak.{RawPeak};

    ghost Value = { List RawPeak };

    ghost view = { λ a. a.items.items };
}

impl RawPeaks {
    /// The list of these items. It takes no memory.
    pub(crate) fn from_vec(items: Vec<RawPeak>) -> RawPeaks
        ensures { result ≡ items.items }
    {
        RawPeaks { items }
    }

    /// The raw peaks in the order of their times.
    pub fn as_slice(&self) -> &[RawPeak]
        ensures { result.now ≡ self.now }
    {
        self.items.as_slice()
    }

    /// How many raw peaks there are.
    pub fn len(&self) -> usize
        ensures { result ≡ length self.now }
    {
        self.items.len()
    }

    /// The raw peak at a place, counted from 0. None exactly where there are not so many.
    pub fn get(&self, i: usize) -> Option<&RawPeak>
        ensures { option_copied result ≡ slice_get self.now i }
    {
        self.items.get(i)
    }
}

/// What the detector finds in a trace.
#[derive(Debug, Drop)]
pub enum Raw {
    /// The raw peaks, at most 500.
    List(RawPeaks),
    /// There are more than 500 raw peaks: this many.
    TooMany(u32),
}
