//! How lists are compared: item by item, as clauses see the items.
ghost use Rattle.std.specs.Prelude.{◌≡◌, Decides};

/// What can be compared with another of its kind.
pub(crate) trait Same {
    /// Whether the two are equal, as clauses see them.
    fn same(&self, other: &Self) -> bool
        ensures { Decides result (self.now ≡ other.now) };
}

/// Whether two lists have the same items in the same order.
pub(crate) fn are_same<T: Same>(these: &[T], those: &[T]) -> bool
    ensures { Decides result (these.now ≡ those.now) }
{
    if these.len() != those.len() {
        return false;
    }
    for place in 0..these.len() {
        if !these[place].same(&those[place]) {
            return false;
        }
    }
    true
}
