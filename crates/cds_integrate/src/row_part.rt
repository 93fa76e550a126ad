//! What a row answers.
ghost use Rattle.std.specs.Prelude.{◌≡◌, All};
ghost use Rattle.cds_integrate.specs.Row.{Peaks, TooMany, peaks_in, too_many_in, IsSound};

use cds_base::Peak;
use std::marker::Model;

/// The part of a row that its trace, its method and its manual events give: its peaks, numbered from 1 in the order of
/// their ranges, or the number of its raw peaks where there are more than 500. Only `row` makes one.
#[derive(Debug, Drop)]
pub struct RowPart {
    answer: Held,
}

/// What a row holds: its peaks, or the number of its raw peaks where they are too many.
#[derive(Debug, Drop)]
pub(crate) enum Held {
    Peaks(Vec<Peak>),
    TooMany(u32),
}

impl Model for RowPart {
    ghost use Rattle.std.specs.Prelude.{All};
    ghost use Rattle.cds_integrate.specs.Row.{Answer, peaks_in, IsSound};

    ghost Value = { Answer };

    ghost use Rattle.cds_integrate.specs.Held.{answer_of};

    ghost view = { λ r. answer_of r.answer };

    ghost invariant = { λ r. All IsSound (peaks_in (answer_of r.answer)) };
}

impl RowPart {
    /// The row of these peaks. It takes no memory.
    pub(crate) fn of_peaks(peaks: Vec<Peak>) -> RowPart
        requires { All IsSound peaks.items }
        ensures { result ≡ Peaks peaks.items }
    {
        RowPart {
            answer: Held::Peaks(peaks),
        }
    }

    /// The row of a trace with too many raw peaks. It takes no memory.
    pub(crate) fn of_too_many(number: u32) -> RowPart
        ensures { result ≡ TooMany number }
    {
        RowPart {
            answer: Held::TooMany(number),
        }
    }

    /// The peaks, in the order of their ranges; none where there are too many raw peaks. The apex of each lies in its
    /// range, its time is at most `LAST_TIME_US`, its area, its height and the height of its valley's boundary are
    /// positive, its reported area is below `AREA_LIMIT`, the numerators of its height and of both heights of its
    /// valley are below `HEIGHT_LIMIT`, and its left crossings lie before its right ones.
    pub fn peaks(&self) -> &[Peak]
        ensures value { result.now ≡ peaks_in self.now }
        ensures sound { All IsSound result.now }
    {
        match &self.answer {
            Held::Peaks(peaks) => peaks.as_slice(),
            Held::TooMany(_) => &[],
        }
    }

    /// The number of raw peaks where there are more than 500, else 0.
    pub fn too_many(&self) -> u32
        ensures { result ≡ too_many_in self.now }
    {
        match &self.answer {
            Held::Peaks(_) => 0,
            Held::TooMany(number) => *number,
        }
    }
}
