//! What the fields of a head say of its body and of the connection.

ghost use Rattle.std.specs.Prelude.{◌≡◌, length, map, All, Some, None, if◌then◌else◌};
ghost use Rattle.std.specs.List.{list_any};
ghost use Rattle.std.specs.Str.Parse.{digits_value};
ghost use Rattle.httparse.specs.Spans.{IsHeaderWithin, header_bytes};
ghost use Rattle.http1.specs.Text.{eq_ignore_case};
ghost use Rattle.http1.specs.Fields.{is_named, values_named};
ghost use Rattle.cds_http.specs.Fields.{is_length, body_length, expects_continue, closes};
ghost use Rattle.cds_http.specs.Scan.{AreValues};

use crate::limits::{MOST_BODY_BYTES, MOST_LENGTH_DIGITS};
use crate::next::Fault;
use http1::fields::KnownFields;
use http1::text::eq_ignore_case;
use httparse::spans::HeaderSpan;

/// The values of the fields of one name, as far as the length of a body asks.
#[derive(Clone, Copy)]
pub(crate) enum Values<'a> {
    Absent,
    One(&'a [u8]),
    Several,
}

fn is_named(head: &[u8], field: &HeaderSpan, name: &[u8]) -> bool
    requires { IsHeaderWithin (length head.now) field.now }
    ensures { result ≡ is_named name.now (header_bytes head.now field.now) }
{
    eq_ignore_case(field.name.of(head), name)
}

fn has_field(head: &[u8], fields: &[HeaderSpan], name: &[u8]) -> bool
    requires { All (IsHeaderWithin (length head.now)) fields.now }
    ensures { result ≡ list_any (is_named name.now) (map (header_bytes head.now) fields.now) }
{
    for field in fields {
        if is_named(head, field, name) {
            return true;
        }
    }
    false
}

fn has_value(head: &[u8], fields: &[HeaderSpan], name: &[u8], value: &[u8]) -> bool
    requires { All (IsHeaderWithin (length head.now)) fields.now }
    ensures { result
        ≡ list_any (λ v. eq_ignore_case v value.now) (values_named name.now (map (header_bytes head.now) fields.now)) }
{
    for field in fields {
        if is_named(head, field, name) && eq_ignore_case(field.value.of(head), value) {
            return true;
        }
    }
    false
}

fn values_named<'a>(head: &'a [u8], fields: &[HeaderSpan], name: &[u8]) -> Values<'a>
    requires { All (IsHeaderWithin (length head.now)) fields.now }
    ensures { AreValues result (values_named name.now (map (header_bytes head.now) fields.now)) }
{
    let mut values = Values::Absent;
    for field in fields {
        if is_named(head, field, name) {
            values = match values {
                Values::Absent => Values::One(field.value.of(head)),
                _ => Values::Several,
            };
        }
    }
    values
}

fn read_length(value: &[u8]) -> Option<u64>
    ensures { result ≡ (if is_length value.now then Some (digits_value 10 value.now) else None) }
{
    if value.is_empty() || value.len() > MOST_LENGTH_DIGITS {
        return None;
    }
    let mut length: u64 = 0;
    for digit in value {
        if !digit.is_ascii_digit() {
            return None;
        }
        length = length * 10 + u64::from(*digit - b'0');
    }
    Some(length)
}

/// The length of the body of the message at a place, or why it states none that is taken.
pub(crate) fn body_length(head: &[u8], fields: &[HeaderSpan], place: u64) -> Result<u32, Fault>
    requires { All (IsHeaderWithin (length head.now)) fields.now }
    ensures { result ≡ body_length place (map (header_bytes head.now) fields.now) }
{
    if has_field(head, fields, b"transfer-encoding") {
        return Err(Fault::LengthRequired(place));
    }
    let value = match values_named(head, fields, b"content-length") {
        Values::Absent => return Ok(0),
        Values::One(value) => value,
        Values::Several => return Err(Fault::Head(place)),
    };
    match read_length(value) {
        Some(length) if length <= MOST_BODY_BYTES as u64 => Ok(length as u32),
        Some(_) => Err(Fault::BodyTooLarge),
        None => Err(Fault::Head(place)),
    }
}

/// Whether the sender waits for `100 Continue` before the body, which has this length.
pub(crate) fn expects_continue(head: &[u8], fields: &[HeaderSpan], minor: u8, body: u32) -> bool
    requires { All (IsHeaderWithin (length head.now)) fields.now }
    ensures { result ≡ expects_continue minor (map (header_bytes head.now) fields.now) body }
{
    minor == 1 && body > 0 && has_value(head, fields, b"expect", b"100-continue")
}

/// Whether the connection closes after the response.
pub(crate) fn closes(head: &[u8], fields: &[HeaderSpan], minor: u8) -> bool
    requires { All (IsHeaderWithin (length head.now)) fields.now }
    ensures { result ≡ closes minor (map (header_bytes head.now) fields.now) }
{
    minor == 0 || KnownFields::from_spans(head, fields).close
}
