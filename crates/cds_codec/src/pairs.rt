//! Whether names rise, and whether they are different.
ghost use Rattle.std.specs.Prelude.{◌≡◌};
ghost use Rattle.std.specs.List.{list_all};
ghost use Rattle.cds_codec.specs.Reading.{are_different, are_rising, is_before, is_other};

use cds_base::Name;
use std::cmp::Ordering;

/// Whether the names of amounts rise in byte order, none of them twice.
#[tactic(auto, unfolding(crate::specs::Reading::in_pairs))]
pub(crate) fn are_rising(amounts: &[(Name, u32)]) -> bool
    ensures { result ≡ are_rising amounts.now }
{
    match amounts {
        [] => true,
        [first, rest @ ..] => are_behind(first, rest) && are_rising(rest),
    }
}

/// Whether all names of amounts are behind that of one.
fn are_behind(first: &(Name, u32), rest: &[(Name, u32)]) -> bool
    ensures { result ≡ list_all (λ a. is_before first.now.0 a.0) rest.now }
{
    rest.iter().all(|amount| is_before(&first.0, &amount.0))
}

/// Whether a name is before another in byte order.
fn is_before(a: &Name, b: &Name) -> bool
    ensures { result ≡ is_before a.now b.now }
{
    a.cmp(b) == Ordering::Less
}

/// Whether no name stands twice.
#[tactic(auto, unfolding(crate::specs::Reading::in_pairs))]
pub(crate) fn are_different(names: &[Name]) -> bool
    ensures { result ≡ are_different names.now }
{
    match names {
        [] => true,
        [first, rest @ ..] => are_others(first, rest) && are_different(rest),
    }
}

/// Whether all names are other ones than this.
fn are_others(first: &Name, rest: &[Name]) -> bool
    ensures { result ≡ list_all (is_other first.now) rest.now }
{
    rest.iter().all(|name| is_other(first, name))
}

/// Whether two names are different.
fn is_other(a: &Name, b: &Name) -> bool
    ensures { result ≡ is_other a.now b.now }
{
    a != b
}
