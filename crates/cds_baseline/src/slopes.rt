//! Slopes, as rises over runs.
ghost use Rattle.std.specs.Prelude.{◌≡◌, ◌^◌, ◌≤◌, pos, ◌*ℤ◌, int_le, unsigned_abs};

/// A rise of the signal over a run of samples.
#[derive(Clone, Copy)]
pub(crate) struct Slope {
    pub(crate) rise: i64,
    pub(crate) run: u32,
}

/// A rise times a run.
fn product(rise: i64, run: u32) -> i64
    requires { unsigned_abs rise ≤ 2 ^ 30 }
    ensures { result ≡ rise *ℤ pos run }
{
    rise * i64::from(run)
}

/// Whether `a` is at most as steep as `b`: `a.rise / a.run <= b.rise / b.run`.
pub(crate) fn is_at_most(a: Slope, b: Slope) -> bool
    requires a_small { unsigned_abs a.rise ≤ 2 ^ 30 }
    requires b_small { unsigned_abs b.rise ≤ 2 ^ 30 }
    ensures { result ≡ int_le (a.rise *ℤ pos b.run) (b.rise *ℤ pos a.run) }
{
    product(a.rise, b.run) <= product(b.rise, a.run)
}
