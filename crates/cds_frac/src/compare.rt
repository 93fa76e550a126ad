ghost use Rattle.std.specs.Prelude.{◌≡◌, ◌*◌, ◌<◌};
ghost use Rattle.std.specs.Ordering.{nat_cmp};

use std::cmp::Ordering;

/// How `a / b` stands to `c / d`. The cross products may have 256 bits, so they are not formed: the whole
/// parts are compared, and where they are equal the remainders, turned over, as in a continued fraction.
pub fn compare_ratios(a: u128, b: u128, c: u128, d: u128) -> Ordering
    requires first { 0 < b }
    requires second { 0 < d }
    ensures { result ≡ nat_cmp (a * d) (c * b) }
{
    let (mut a, mut b, mut c, mut d) = (a, b, c, d);
    loop {
        let (left, right) = (a / b, c / d);
        if left != right {
            return left.cmp(&right);
        }
        let (left_rest, right_rest) = (a % b, c % d);
        if left_rest == 0 || right_rest == 0 {
            return left_rest.cmp(&right_rest);
        }
        // The two stand as left_rest / b and right_rest / d do, and so as d / right_rest and b / left_rest.
        (a, c) = (d, b);
        (b, d) = (right_rest, left_rest);
    }
}
