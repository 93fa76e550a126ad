//! The checks that compare one value of a row with a limit.
ghost use Rattle.std.specs.Prelude.{◌≡◌, ◌≤◌, IsTrue, Some, option_map};
ghost use Rattle.cds_suit.specs.Check.{compares_one, keeps, is_at_least, is_at_most, check_of};

use crate::verdict::Verdict;
use cds_base::{HUNDREDTHS, Missing};
use cds_frac::Frac;
use cds_rules::CheckKind;

/// The limit of a check of plates is in ones.
pub const ONES: u32 = 1;

/// The verdict of a check that compares one value of a row with its limit: resolution, plates, signal to noise,
/// retention factor and peak to valley pass where the value is at least the limit, tailing where it is at most the
/// limit. The limit is in hundredths, that of plates in ones. The value is compared as the exact fraction that it is.
/// Undecided exactly where the value is missing, with its cause. It takes no memory. This project's own rule; the
/// values are after USP General Chapter 621, in this project's half-height form.
pub fn check(kind: CheckKind, value: Result<Frac, Missing>, limit: u32) -> Verdict
    requires { IsTrue (compares_one kind) }
    ensures { check_of kind value limit ≡ Some result }
{
    match value {
        Ok(value) => Verdict::from_test(Ok(is_kept(kind, &value, limit))),
        Err(cause) => Verdict::Undecided(cause),
    }
}

/// Whether the value keeps the limit of a check of this kind.
fn is_kept(kind: CheckKind, value: &Frac, limit: u32) -> bool
    requires { IsTrue (compares_one kind) }
    ensures { option_map (λ test. test value.now limit) (keeps kind) ≡ Some result }
{
    match kind {
        CheckKind::Resolution => is_at_least(value, limit, HUNDREDTHS),
        CheckKind::Tailing => is_at_most(value, limit, HUNDREDTHS),
        CheckKind::Plates => is_at_least(value, limit, ONES),
        CheckKind::SignalNoise => is_at_least(value, limit, HUNDREDTHS),
        CheckKind::Retention => is_at_least(value, limit, HUNDREDTHS),
        CheckKind::PeakValley => is_at_least(value, limit, HUNDREDTHS),
        CheckKind::RsdArea | CheckKind::RsdTime | CheckKind::R2 => unreachable!(),
    }
}

/// Whether the value is at least the limit, which is in so many parts of one.
fn is_at_least(value: &Frac, limit: u32, parts: u32) -> bool
    requires { 1 ≤ parts }
    ensures { result ≡ is_at_least parts value.now limit }
{
    value
        .cmp(&Frac::new(i128::from(limit), i128::from(parts)))
        .is_ge()
}

/// Whether the value is at most the limit, which is in so many parts of one.
fn is_at_most(value: &Frac, limit: u32, parts: u32) -> bool
    requires { 1 ≤ parts }
    ensures { result ≡ is_at_most parts value.now limit }
{
    value
        .cmp(&Frac::new(i128::from(limit), i128::from(parts)))
        .is_le()
}
