//! A number of the command line: 1 to 20 decimal digits, without a sign.

ghost use Rattle.std.specs.Prelude.{◌≡◌, ◌≤◌, IsTrue, IfSome};
ghost use Rattle.std.specs.Char.{is_ascii_digit};
ghost use Rattle.std.specs.List.{list_all};
ghost use Rattle.std.specs.Str.Parse.{digits_value};
ghost use Rattle.cds_words.specs.Numbers.{number_in, number_of, is_number, below_limit};

use crate::limits::MOST_DIGITS;

/// The number that 1 to 20 digits write, where it lies from `low` to `high`. None exactly where it doesn't, or the
/// text is no number.
pub fn number_in(word: &str, low: u32, high: u32) -> Option<u32>
    ensures value { result ≡ number_in low high word.now }
    ensures range { IfSome result (λ n. (low ≤ n) × (n ≤ high)) }
{
    let Some(number) = number_of(word) else {
        return None;
    };
    if (low as u64) <= number && number <= (high as u64) {
        Some(number as u32)
    } else {
        None
    }
}

/// The number that 1 to 20 digits write, leading zeros allowed. None exactly where the text is no such digits, or the
/// number is 2^64 or more.
pub fn number_of(text: &str) -> Option<u64>
    ensures { result ≡ number_of text.now }
{
    if is_number(text) {
        parse_digits(text)
    } else {
        None
    }
}

/// Whether a text is 1 to 20 digits.
fn is_number(text: &str) -> bool
    ensures { result ≡ is_number text.now }
{
    1 <= text.len() && text.len() <= MOST_DIGITS && are_digits(text)
}

/// Whether a text has digits alone.
fn are_digits(text: &str) -> bool
    ensures { result ≡ list_all is_ascii_digit text.now }
{
    text.bytes().all(|byte| byte.is_ascii_digit())
}

/// The number that digits write, where it is below 2^64.
fn parse_digits(digits: &str) -> Option<u64>
    requires { IsTrue (is_number digits.now) }
    ensures { result ≡ below_limit (digits_value 10 digits.now) }
{
    digits.parse::<u64>().ok()
}
