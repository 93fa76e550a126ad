//! A field of the text of a trace as a number.
ghost use Rattle.std.specs.Prelude.{◌≡◌, ◌<◌, ◌^◌, IfSome, length, ◌≤◌, ◌≤ℤ◌, pos, neg_ℤ};
ghost use Rattle.std.specs.List.{prefix_len, suffix_len};
ghost use Rattle.cds_trace.specs.Number.{digits_number, is_blank, number_of, signed_number, without_blanks};

/// The most digits of a number in the text of a trace.
pub const MOST_DIGITS: usize = 12;

/// The number that a field writes between the blanks at its ends: an optional `-` and 1 to 12 digits.
#[tactic(auto, unfolding(crate::specs::Number::number_of))]
pub(crate) fn number(field: &[u8]) -> Option<i64>
    ensures value { result ≡ number_of field.now }
    ensures size { IfSome result (λ n. (neg_ℤ (pos (10 ^ 12)) ≤ℤ n) × (n ≤ℤ pos (10 ^ 12))) }
{
    if let Some(number) = signed_number(field) {
        return Some(number);
    }
    signed_number(without_blanks(field))
}

/// The number that an optional `-` and 1 to 12 digits write.
fn signed_number(bytes: &[u8]) -> Option<i64>
    ensures value { result ≡ signed_number bytes.now }
    ensures size { IfSome result (λ n. (neg_ℤ (pos (10 ^ 12)) ≤ℤ n) × (n ≤ℤ pos (10 ^ 12))) }
{
    if !bytes.is_empty() && bytes[0] == b'-' {
        digits_number(&bytes[1..]).map(|n| -(n as i64))
    } else {
        digits_number(bytes).map(|n| n as i64)
    }
}

/// The number that 1 to 12 digits write.
fn digits_number(bytes: &[u8]) -> Option<u64>
    ensures value { result ≡ digits_number bytes.now }
    ensures size { IfSome result (λ n. n < 10 ^ 12) }
{
    if bytes.is_empty() || bytes.len() > MOST_DIGITS {
        return None;
    }
    let mut value = 0;
    for byte in bytes {
        if !byte.is_ascii_digit() {
            return None;
        }
        value = value * 10 + u64::from(*byte - b'0');
    }
    Some(value)
}

/// A field without the spaces and tabs at its ends.
pub(crate) fn without_blanks(field: &[u8]) -> &[u8]
    ensures { result.now ≡ without_blanks field.now }
{
    let rest = &field[first_blanks(field)..];
    &rest[..rest.len() - last_blanks(rest)]
}

/// How many blanks the bytes begin with.
fn first_blanks(bytes: &[u8]) -> usize
    ensures value { result ≡ prefix_len is_blank bytes.now }
    ensures size { result ≤ length bytes.now }
{
    for i in 0..bytes.len() {
        if !is_blank(bytes[i]) {
            return i;
        }
    }
    bytes.len()
}

/// How many blanks the bytes end with.
fn last_blanks(bytes: &[u8]) -> usize
    ensures value { result ≡ suffix_len is_blank bytes.now }
    ensures size { result ≤ length bytes.now }
{
    let len = bytes.len();
    for i in 0..len {
        if !is_blank(bytes[len - i - 1]) {
            return i;
        }
    }
    len
}

/// Whether a byte is a space or a tab.
fn is_blank(byte: u8) -> bool
    ensures { result ≡ is_blank byte }
{
    byte == b' ' || byte == b'\t'
}
