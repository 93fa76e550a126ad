ghost use Rattle.std.specs.Prelude.{ℕ, ◌+◌, ◌<◌, ◌≤◌, IfSome, IfNone};
ghost use Rattle.std.specs.Int.{◌∣◌, IsGcd};
ghost use Rattle.cds_frac.specs.Divisors.{IsLcm};

/// A least common multiple stays below this number, 2^60.
pub const LCM_LIMIT: u64 = 1 << 60;

/// The greatest common divisor: it divides both numbers, and each number that divides both divides it.
/// Of 0 and 0 it is 0.
pub fn gcd(a: u128, b: u128) -> u128
    ensures greatest { IsGcd a b result }
    ensures positive { 0 < a + b → 0 < result }
{
    let mut large = a;
    let mut small = b;
    while small > 0 {
        let rest = large % small;
        large = small;
        small = rest;
    }
    large
}

/// The least common multiple: both numbers divide it, and it divides each number that both divide.
/// None exactly where it is `LCM_LIMIT`, 2^60, or more.
pub fn lcm(a: u64, b: u64) -> Option<u64>
    requires first { 1 ≤ a }
    requires second { 1 ≤ b }
    ensures least { IfSome result (IsLcm a b) }
    ensures below { IfSome result (λ m. m < LCM_LIMIT) }
    ensures too_large { IfNone result ((m : ℕ) → 0 < m → a ∣ m → b ∣ m → LCM_LIMIT ≤ m) }
{
    let common = gcd(u128::from(a), u128::from(b));
    let whole = u128::from(a) / common * u128::from(b);
    if whole < u128::from(LCM_LIMIT) {
        Some(whole as u64)
    } else {
        None
    }
}
