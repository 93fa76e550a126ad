//! What stands at a place of the results of a sequence. Rows, components, checks and lines are numbered from 1.
ghost use Rattle.std.specs.Prelude.{◌≡◌, option_copied, option_map};
ghost use Rattle.cds_integrate.specs.Seen.{seen};
ghost use Rattle.cds_book.specs.Tables.{numbered};
ghost use Rattle.cds_graph.specs.Held.{results_shown};
ghost use Rattle.cds_graph.specs.Looks.{row_at, period_at, points_at, line_at, determination_at};
ghost use Rattle.cds_graph.specs.Looks.{amounts_at, amount_at, check_at};

use crate::amounts::RowAmounts;
use crate::calibration::calibration_numbered;
use crate::check_line::{CheckLine, CheckLines};
use crate::found::RowNode;
use crate::sequence::SequenceNode;
use cds_base::Missing;
use cds_calib::Fit;
use cds_frac::Frac;

impl SequenceNode {
    /// What is found in a row. None exactly where there is no such row.
    pub fn row(&self, n: u32) -> Option<&RowNode>
        ensures value { option_map (λ node. seen node.part) (option_copied result) ≡ row_at (results_shown self.now) n }
        ensures period { option_map (λ node. node.period) (option_copied result)
            ≡ period_at (results_shown self.now) n }
    {
        if n == 0 {
            return None;
        }
        match self.found.rows.as_slice().get(n as usize - 1) {
            Some(row) => Some(row.node.as_ref()),
            None => None,
        }
    }

    /// How many points a component has. None exactly where there is no such component.
    pub fn points(&self, component: u32) -> Option<u32>
        ensures { result ≡ points_at (results_shown self.now) component }
    {
        match calibration_numbered(self.calibrations.as_slice(), component) {
            Some(calibration) => Some(calibration.points.len() as u32),
            None => None,
        }
    }

    /// The line of a component, or why it has none. None exactly where there is no such component.
    pub fn line(&self, component: u32) -> Option<Result<Fit, Missing>>
        ensures { result ≡ line_at (results_shown self.now) component }
    {
        match calibration_numbered(self.calibrations.as_slice(), component) {
            Some(calibration) => Some(calibration.line),
            None => None,
        }
    }

    /// The determination of a component's points in ten-thousandths, or why there is none. None exactly where there is
    /// no such component.
    pub fn determination(&self, component: u32) -> Option<Result<u32, Missing>>
        ensures { result ≡ determination_at (results_shown self.now) component }
    {
        match calibration_numbered(self.calibrations.as_slice(), component) {
            Some(calibration) => Some(calibration.determination),
            None => None,
        }
    }

    /// The amount of a component in a row, or why it is missing. None exactly where there is no such row or component,
    /// or the row is no sample.
    pub fn amount(&self, n: u32, component: u32) -> Option<Result<Frac, Missing>>
        ensures { result ≡ amount_at (results_shown self.now) n component }
    {
        let amounts = self.amounts_of(n)?;
        amounts.get(component)
    }

    /// A line of a check. None exactly where there is no such check, or it has no such line.
    pub fn check(&self, i: u32, k: u32) -> Option<&CheckLine>
        ensures { option_copied result ≡ check_at (results_shown self.now) i k }
    {
        let lines = self.lines_of(i)?;
        lines.get(k)
    }

    /// The amounts of a row. None exactly where there is no such row, or it is no sample.
    fn amounts_of(&self, n: u32) -> Option<&RowAmounts>
        ensures { option_copied result ≡ amounts_at (results_shown self.now) n }
    {
        if n == 0 {
            return None;
        }
        match self.amounts.as_slice().get(n as usize - 1) {
            Some(amounts) => amounts.as_ref(),
            None => None,
        }
    }

    /// The lines of a check. None exactly where there is no such check.
    pub fn lines_of(&self, i: u32) -> Option<&CheckLines>
        ensures { option_copied result ≡ numbered (results_shown self.now).checks i }
    {
        if i == 0 {
            return None;
        }
        self.checks.as_slice().get(i as usize - 1)
    }
}

impl RowAmounts {
    /// The amount of the component of this number, or why it is missing. None exactly where there is no such component.
    pub fn get(&self, component: u32) -> Option<Result<Frac, Missing>>
        ensures { result ≡ numbered self.now component }
    {
        if component == 0 {
            return None;
        }
        self.items.as_slice().get(component as usize - 1).copied()
    }
}

impl CheckLines {
    /// The line of this number. None exactly where there is no such line.
    pub fn get(&self, k: u32) -> Option<&CheckLine>
        ensures { option_copied result ≡ numbered self.now k }
    {
        if k == 0 {
            return None;
        }
        self.items.as_slice().get(k as usize - 1)
    }
}
