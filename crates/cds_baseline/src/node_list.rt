//! The nodes of a baseline.
ghost use Rattle.std.specs.Prelude.{◌≡◌, length, slice_get};

use std::marker::Model;

/// The samples of the nodes of a baseline, rising. Seen as a list.
#[derive(Debug, Drop)]
pub struct Nodes {
    samples: Vec<u32>,
}

impl Model for Nodes {
    ghost use Rattle.std.specs.Prelude.{List, ℕ};

    ghost Value = { List ℕ };

    ghost view = { λ a. a.samples.items };
}

impl Nodes {
    /// The list of these samples. It takes no memory.
    pub(crate) fn from_vec(samples: Vec<u32>) -> Nodes
        ensures { result ≡ samples.items }
    {
        Nodes { samples }
    }

    /// The samples in their order.
    pub fn as_slice(&self) -> &[u32]
        ensures { result.now ≡ self.now }
    {
        self.samples.as_slice()
    }

    /// How many nodes there are.
    pub fn len(&self) -> usize
        ensures { result ≡ length self.now }
    {
        self.samples.len()
    }

    /// The sample of the node at a place, counted from 0. None exactly where there are not so many.
    pub fn get(&self, i: usize) -> Option<u32>
        ensures { result ≡ slice_get self.now i }
    {
        self.samples.get(i).copied()
    }
}
