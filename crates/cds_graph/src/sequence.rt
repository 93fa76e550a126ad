//! A sequence and its results.

use crate::amounts::RowAmounts;
use crate::calibration::Calibration;
use crate::check_line::CheckLines;
use crate::found::FoundSequence;
use cds_suit::Verdict;

/// A sequence and its results.
#[derive(Debug, Drop)]
pub(crate) struct SequenceNode {
    /// The sequence as its rows are found.
    pub found: FoundSequence,
    /// The calibration of each component of the method, in the order of the components.
    pub calibrations: Vec<Calibration>,
    /// The amounts of the components in each row, which sample rows alone have.
    pub amounts: Vec<Option<RowAmounts>>,
    /// The lines of each check of the method, in the order of the checks.
    pub checks: Vec<CheckLines>,
    /// The verdict of all checks.
    pub verdict: Verdict,
}
