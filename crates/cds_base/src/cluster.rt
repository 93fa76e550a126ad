ghost use Rattle.std.specs.Prelude.{◌≡◌, length, option_copied, slice_get};

use std::marker::Model;

/// What the left end of a part is.
#[derive(Clone, Copy, Debug, PartialEq, Eq)]
pub enum Cut {
    /// The start of its cluster.
    Start,
    /// A valley between two raw peaks of its cluster.
    Valley,
    /// A drop line.
    Drop,
}

/// A part of a cluster, in samples from the start of the trace: where it begins, its apex, where it ends, and what
/// its left end is. Parts share the sample at which one ends and the next begins.
#[derive(Clone, Copy, Debug, PartialEq, Eq)]
pub struct Part {
    pub start: u32,
    pub apex: u32,
    pub end: u32,
    pub left: Cut,
}

/// Parts in the order of their ranges. Seen as a list.
#[derive(Debug, Drop)]
pub struct Parts {
    items: Vec<Part>,
}

impl Model for Parts {
    ghost use Rattle.std.specs.Prelude.{List};
    ghost use Rattle.cds_base.specs.declared.cluster.Part.{Part};

    ghost Value = { List Part };

    ghost view = { λ a. a.items.items };
}

impl Parts {
    /// The list of these items. It takes no memory.
    pub fn from_vec(items: Vec<Part>) -> Parts
        ensures { result ≡ items.items }
    {
        Parts { items }
    }

    /// The parts in their order.
    pub fn as_slice(&self) -> &[Part]
        ensures { result.now ≡ self.now }
    {
        self.items.as_slice()
    }

    /// How many parts there are.
    pub fn len(&self) -> usize
        ensures { result ≡ length self.now }
    {
        self.items.len()
    }

    /// The part at a place, counted from 0. None exactly where there are not so many.
    pub fn get(&self, i: usize) -> Option<&Part>
        ensures { option_copied result ≡ slice_get self.now i }
    {
        self.items.get(i)
    }
}

/// Fused peaks over one stretch of the trace, or the peaks of a forced baseline: from the sample `start` to the
/// sample `end`, cut into its parts.
#[derive(Debug, Drop)]
pub struct Cluster {
    pub start: u32,
    pub end: u32,
    /// Whether a baseline event forces one straight baseline on it.
    pub forced: bool,
    pub parts: Parts,
}
