//! The values of a text, and what they state.
ghost use Rattle.std.specs.Prelude.{◌≡◌, ◌≤◌, ◌≤ℤ◌, IfSome, option_copied, option_map, map};
ghost use Rattle.cds_base.specs.NameText.{IsName};
ghost use Rattle.cds_fields.specs.Datum.{Datum, whole_in, word_in, flag_in, list_in, object_in};
ghost use Rattle.cds_fields.specs.Seen.{fields_seen};
ghost use Rattle.cds_fields.specs.Values.{number_in, signed_in, name_in};

use cds_base::Name;
use std::collections::BTreeMap;

/// A value of a text, whatever form the text has.
pub trait TextValue: Sized {
    ghost shown: { Self → Datum };

    /// The whole number that the value is.
    fn as_whole(&self) -> Option<i128>
        ensures { result ≡ whole_in (shown self.now) };

    /// The word that the value is.
    fn as_word(&self) -> Option<&str>
        ensures { option_copied result ≡ word_in (shown self.now) };

    /// True or false, where the value is one.
    fn as_flag(&self) -> Option<bool>
        ensures { result ≡ flag_in (shown self.now) };

    /// The list that the value is.
    fn as_list(&self) -> Option<&[Self]>
        ensures { option_map (λ vs. map shown vs.now) result ≡ list_in (shown self.now) };

    /// The named fields that the value is.
    fn as_fields(&self) -> Option<&BTreeMap<String, Self>>
        ensures { option_map (λ m. fields_seen shown m.now.entries) result ≡ object_in (shown self.now) };
}

/// The whole number from `least` to `most` that a value is.
pub(crate) fn number_in<V: TextValue>(value: &V, least: u64, most: u64) -> Option<u64>
    ensures value { result ≡ number_in least most (V.shown value.now) }
    ensures least { IfSome result (λ n. least ≤ n) }
    ensures most { IfSome result (λ n. n ≤ most) }
{
    let number = u64::try_from(value.as_whole()?).ok()?;
    (least <= number && number <= most).then_some(number)
}

/// The whole number from `least` to `most` that a value is, which may be below zero.
pub(crate) fn signed_in<V: TextValue>(value: &V, least: i64, most: i64) -> Option<i64>
    ensures value { result ≡ signed_in least most (V.shown value.now) }
    ensures least { IfSome result (λ n. least ≤ℤ n) }
    ensures most { IfSome result (λ n. n ≤ℤ most) }
{
    let number = value.as_whole()?;
    if i128::from(least) <= number && number <= i128::from(most) {
        return Some(number as i64);
    }
    None
}

/// The name that a value is.
pub(crate) fn name_in<V: TextValue>(value: &V) -> Option<Name>
    ensures value { result ≡ name_in (V.shown value.now) }
    ensures name { IfSome result IsName }
{
    Name::new(value.as_word()?.as_bytes())
}
