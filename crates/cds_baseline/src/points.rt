//! The points of a cluster.
ghost use Rattle.std.specs.Prelude.{◌≡◌, true, [], ◌∷◌, ◌++◌, IfOk, length};
ghost use Rattle.cds_baseline.specs.Cluster.{is_valley, valleys, marks};

use cds_base::{Cut, NoMemory, Part};
use std::alloc::Global;

/// Whether a part begins at a valley.
fn is_valley(part: Part) -> bool
    ensures { result ≡ is_valley part.left }
{
    match part.left {
        Cut::Valley => true,
        Cut::Start | Cut::Drop => false,
    }
}

/// The samples of the points of a cluster from `start` to `end`: both, and the valleys at which `inner` parts begin.
pub(crate) fn point_samples(
    alloc: Global,
    start: u32,
    inner: &[Part],
    end: u32,
) -> Result<Vec<u32>, NoMemory>
    ensures { IfOk result (λ v. v.items ≡ start ∷ valleys inner.now ++ end ∷ []) }
{
    let mut samples = Vec::with_capacity(alloc, inner.len() + 2)?;
    samples.push(start)?;
    for part in inner {
        if is_valley(*part) {
            samples.push(part.start)?;
        }
    }
    samples.push(end)?;
    Ok(samples)
}

/// Which of these points are fixed: both ends, and the valleys that are `covered`, which has an entry for each part.
pub(crate) fn point_marks(
    alloc: Global,
    inner: &[Part],
    covered: &[bool],
) -> Result<Vec<bool>, NoMemory>
    requires { length covered.now ≡ length inner.now }
    ensures { IfOk result (λ v. v.items ≡ true ∷ marks inner.now covered.now ++ true ∷ []) }
{
    let mut fixed = Vec::with_capacity(alloc, inner.len() + 2)?;
    fixed.push(true)?;
    for i in 0..inner.len() {
        if is_valley(inner[i]) {
            fixed.push(covered[i])?;
        }
    }
    fixed.push(true)?;
    Ok(fixed)
}
