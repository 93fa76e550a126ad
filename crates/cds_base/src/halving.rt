//! The search for the greatest number that something reaches, by halving.
ghost use Rattle.std.specs.Prelude.{◌≡◌, ◌+◌, ◌<◌, ◌≤◌, ◌^◌, ℕ, Bool, true};
ghost use Rattle.cds_base.specs.Search.{greatest, PassesFromBelow};

/// What reaches each number up to some one, and none above it.
pub trait Reaching {
    ghost is_fit: { Self → Type 0 };

    ghost reached: { Self → ℕ → Bool };

    /// Whether it reaches a number.
    fn reaches(&self, number: u32) -> bool
        requires { is_fit self.now }
        ensures { result ≡ reached self.now number };
}

/// The greatest of the numbers 0 to `most` that `subject` reaches. It asks for at most 32 numbers and takes no memory.
pub fn greatest_reached<R: Reaching>(subject: &R, most: u32) -> u32
    requires fit { R.is_fit subject.now }
    requires room { most + 1 < 2 ^ 32 }
    requires falls { PassesFromBelow (R.reached subject.now) }
    ensures value { result ≡ greatest (R.reached subject.now) most }
    ensures reached { R.reached subject.now result ≡ true }
    ensures last { (k : ℕ) → k ≤ most → R.reached subject.now k ≡ true → k ≤ result }
    ensures most { result ≤ most }
{
    let (mut low, mut above) = (0, most + 1);
    while above - low > 1 {
        let middle = low + (above - low) / 2;
        if subject.reaches(middle) {
            low = middle;
        } else {
            above = middle;
        }
    }
    low
}
