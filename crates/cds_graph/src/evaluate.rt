//! The results of a sequence, computed from its rows as they are found.
ghost use Rattle.std.specs.Prelude.{◌≡◌, IfOk};
ghost use Rattle.cds_graph.specs.Held.{found_shown, results_shown};
ghost use Rattle.cds_graph.specs.Ranges.{IsInRange};
ghost use Rattle.cds_graph.specs.Results.{evaluated};

use crate::amounts::amounts_of;
use crate::calibration::calibrations_of;
use crate::checks::{checks_of, verdict_of};
use crate::found::FoundSequence;
use crate::sequence::SequenceNode;
use cds_base::NoMemory;
use std::alloc::Global;

/// The results of a sequence whose rows are found. The only refusal is want of memory.
pub(crate) fn evaluated(alloc: Global, found: FoundSequence) -> Result<SequenceNode, NoMemory>
    requires { IsInRange (found_shown found) }
    ensures value { IfOk result (λ node. results_shown node ≡ evaluated (found_shown found)) }
    ensures stays { IfOk result (λ node. node.found ≡ found) }
{
    let calibrations = calibrations_of(alloc, &found)?;
    let of_components = calibrations.as_slice();
    let rows = found.rows.as_slice();
    let amounts = amounts_of(alloc, rows, of_components)?;
    let checks = checks_of(alloc, &found, of_components)?;
    let of_checks = checks.as_slice();
    let verdict = verdict_of(alloc, of_checks)?;
    Ok(SequenceNode {
        found,
        calibrations,
        amounts,
        checks,
        verdict,
    })
}
