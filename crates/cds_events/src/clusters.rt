//! The list of clusters that an arrangement gives.
ghost use Rattle.std.specs.Prelude.{◌≡◌, length, option_copied, slice_get};

use cds_base::Cluster;
use std::marker::Model;

/// The clusters of a trace, in the order of their ranges. Seen as a list.
#[derive(Debug, Drop)]
pub struct Clusters {
    items: Vec<Cluster>,
}

impl Model for Clusters {
    ghost use Rattle.std.specs.Prelude.{List};
    ghost use Rattle.cds_base.specs.declared.cluster.Cluster.{Cluster};

    ghost Value = { List Cluster };

    ghost view = { λ a. a.items.items };
}

impl Clusters {
    /// The list of these items. It takes no memory.
    pub(crate) fn from_vec(items: Vec<Cluster>) -> Clusters
        ensures { result ≡ items.items }
    {
        Clusters { items }
    }

    /// The clusters in their order.
    pub fn as_slice(&self) -> &[Cluster]
        ensures { result.now ≡ self.now }
    {
        self.items.as_slice()
    }

    /// How many clusters there are.
    pub fn len(&self) -> usize
        ensures { result ≡ length self.now }
    {
        self.items.len()
    }

    /// The cluster at a place, counted from 0. None exactly where there are not so many.
    pub fn get(&self, i: usize) -> Option<&Cluster>
        ensures { option_copied result ≡ slice_get self.now i }
    {
        self.items.get(i)
    }
}
