//! The naming of peaks.
ghost use Rattle.std.specs.Prelude.{◌≡◌, ◌<◌, length, slice_get, IfOk};
ghost use Rattle.cds_names.specs.declared.names.TheConstants.{NUMBER_LIMIT};
ghost use Rattle.cds_names.specs.Naming.{IsUnblocked, IsOnlyUnblocked, number_of};
ghost use Rattle.cds_names.specs.Giving.{peaks_with, taken_with};

use crate::wanted::{Wanted, wanted_pairs};
use cds_base::{NoMemory, Window};
use std::alloc::Global;
use std::marker::Model;

/// Components and peaks have numbers below this one, 2^32.
pub const NUMBER_LIMIT: u64 = 1 << 32;

/// Which peak each component names. Seen as the list of the components' peaks, which are known by their places, from
/// 0. It answers by numbers, counted from 1. There are fewer components than `NUMBER_LIMIT`, and as many peaks at most.
#[derive(Debug, Drop)]
pub struct Names {
    peaks: Vec<Option<u32>>,
}

impl Model for Names {
    ghost use Rattle.std.specs.Prelude.{List, Option, ℕ};
    ghost use Rattle.cds_names.specs.Naming.{IsNumbered};

    ghost Value = { List (Option ℕ) };

    ghost view = { λ n. n.peaks.items };

    ghost invariant = { λ n. IsNumbered n.peaks.items };
}

impl Names {
    /// The number of components.
    pub fn len(&self) -> u32
        ensures { result ≡ length self.now }
    {
        self.peaks.len() as u32
    }

    /// The entry at a place, counted from 0: the place of the peak that the component there names, counted from 0 too,
    /// or None where it names none. None exactly where there are not so many components.
    pub fn get(&self, i: u32) -> Option<Option<u32>>
        ensures { result ≡ slice_get self.now i }
    {
        self.peaks.get(i as usize).copied()
    }

    /// The number, counted from 1, of the peak that the component of the number `component` names, counted from 1
    /// too. None for 0, where the component names none, and past the last component.
    pub fn of(&self, component: u32) -> Option<u32>
        ensures { result ≡ number_of self.now component }
    {
        if component == 0 {
            return None;
        }
        match self.peaks.get(component as usize - 1) {
            Some(Some(place)) => Some(*place + 1),
            _ => None,
        }
    }
}

/// Names the peaks whose times are given, in microseconds from the start of the trace.
///
/// A component wants each peak whose time is at most its window's width from its expected time. Wanted pairs
/// are ordered by that distance, then by the component's place, then by the peak's. A naming gives each component
/// at most one wanted peak and each peak at most one component. A wanted pair blocks it where its component has
/// no peak or one of a later pair, and its peak has no component or one of a later pair. The answer is the one
/// naming that no pair blocks. This is the project's own rule. Err only for want of memory.
pub fn name_peaks(alloc: Global, windows: &[Window], times: &[u64]) -> Result<Names, NoMemory>
    requires few_windows { length windows.now < NUMBER_LIMIT }
    requires few_times { length times.now < NUMBER_LIMIT }
    ensures unblocked { IfOk result (IsUnblocked windows.now times.now) }
    ensures only_one { IfOk result (IsOnlyUnblocked windows.now times.now) }
{
    let pairs = wanted_pairs(alloc, windows, times)?;
    let mut peaks = vec![in alloc; None; windows.len()]?;
    let mut taken = vec![in alloc; false; times.len()]?;
    for pair in &pairs {
        give(&mut peaks, &mut taken, *pair);
    }
    Ok(Names { peaks })
}

/// Gives the pair's peak to its component where neither has another.
fn give(peaks: &mut [Option<u32>], taken: &mut [bool], pair: Wanted)
    requires component { pair.component < length peaks.old }
    requires peak { pair.peak < length taken.old }
    ensures peaks { peaks.new ≡ peaks_with peaks.old taken.old pair }
    ensures taken { taken.new ≡ taken_with peaks.old taken.old pair }
{
    let (component, peak) = (pair.component as usize, pair.peak as usize);
    if peaks[component].is_none() && !taken[peak] {
        peaks[component] = Some(pair.peak);
        taken[peak] = true;
    }
}
