//! Reading the fields of a record from left to right: each call answers a value and the bytes behind it, or None where
//! it isn't there.
ghost use Rattle.std.specs.Prelude.{◌≡◌, ◌<◌, ◌≤◌, ◌^◌, true, IfOk, IfSome, option_map};
ghost use Rattle.std.specs.Int.{w32, w64};
ghost use Rattle.cds_codec.specs.Reading.{byte_at, byte_in, bytes_at, name_at, number_at, number_in, printed_at};
ghost use Rattle.cds_codec.specs.Reading.{sevens_at, text_at, within};
ghost use Rattle.cds_sign.specs.Printed.{is_printed};

use cds_base::{Name, Text};
use cds_sign::is_printed;
use cds_trace::SEVEN_BITS;
use std::alloc::{AllocError, Global};

/// A byte.
pub(crate) fn byte_at(bytes: &[u8]) -> Option<(u8, &[u8])>
    ensures value { option_map (λ x. (x.0, x.1.now)) result ≡ byte_at bytes.now }
    ensures size { IfSome result (λ x. x.0 < 256) }
{
    match bytes {
        [] => None,
        [byte, rest @ ..] => Some((*byte, rest)),
    }
}

/// So many bytes.
pub(crate) fn bytes_at(count: usize, bytes: &[u8]) -> Option<(&[u8], &[u8])>
    ensures { option_map (λ x. (x.0.now, x.1.now)) result ≡ bytes_at count bytes.now }
{
    if bytes.len() < count {
        return None;
    }
    Some(bytes.split_at(count))
}

/// A number of 32 bits.
pub(crate) fn u32_at(bytes: &[u8]) -> Option<(u32, &[u8])>
    ensures { option_map (λ x. (x.0, x.1.now)) result ≡ number_at w32 bytes.now }
{
    if bytes.len() < 4 {
        return None;
    }
    let (front, rest) = bytes.split_at(4);
    Some((
        u32::from_be_bytes([front[0], front[1], front[2], front[3]]),
        rest,
    ))
}

/// A number of 64 bits.
pub(crate) fn u64_at(bytes: &[u8]) -> Option<(u64, &[u8])>
    ensures { option_map (λ x. (x.0, x.1.now)) result ≡ number_at w64 bytes.now }
{
    if bytes.len() < 8 {
        return None;
    }
    let (front, rest) = bytes.split_at(8);
    let number = u64::from_be_bytes([
        front[0], front[1], front[2], front[3], front[4], front[5], front[6], front[7],
    ]);
    Some((number, rest))
}

/// A number from the least to the most.
fn within(least: u64, most: u64, number: u64) -> Option<u64>
    ensures { result ≡ within least most number }
{
    if number < least || number > most {
        return None;
    }
    Some(number)
}

/// A byte from the least to the most.
#[tactic(auto, unfolding(crate::specs::Reading::byte_in))]
pub(crate) fn byte_in(least: usize, most: usize, bytes: &[u8]) -> Option<(u8, &[u8])>
    ensures { option_map (λ x. (x.0, x.1.now)) result ≡ byte_in least most bytes.now }
{
    let (number, rest) = byte_at(bytes)?;
    within(least as u64, most as u64, u64::from(number))?;
    Some((number, rest))
}

/// A number of 32 bits from the least to the most.
#[tactic(auto, unfolding(crate::specs::Reading::number_in))]
pub(crate) fn u32_in(least: u32, most: u32, bytes: &[u8]) -> Option<(u32, &[u8])>
    ensures { option_map (λ x. (x.0, x.1.now)) result ≡ number_in w32 least most bytes.now }
{
    let (number, rest) = u32_at(bytes)?;
    within(u64::from(least), u64::from(most), u64::from(number))?;
    Some((number, rest))
}

/// A number of 64 bits from the least to the most.
#[tactic(auto, unfolding(crate::specs::Reading::number_in))]
pub(crate) fn u64_in(least: u64, most: u64, bytes: &[u8]) -> Option<(u64, &[u8])>
    ensures { option_map (λ x. (x.0, x.1.now)) result ≡ number_in w64 least most bytes.now }
{
    let (number, rest) = u64_at(bytes)?;
    within(least, most, number)?;
    Some((number, rest))
}

/// A name behind the byte of its length.
#[tactic(auto, unfolding(crate::specs::Reading::name_at))]
pub(crate) fn name_at(bytes: &[u8]) -> Option<(Name, &[u8])>
    ensures { option_map (λ x. (x.0, x.1.now)) result ≡ name_at bytes.now }
{
    let (count, rest) = byte_at(bytes)?;
    let (word, rest) = bytes_at(count as usize, rest)?;
    let name = Name::new(word)?;
    Some((name, rest))
}

/// A text behind the 32 bits of its length.
#[tactic(auto, unfolding(crate::specs::Reading::text_at))]
pub(crate) fn text_at(bytes: &[u8]) -> Option<(&[u8], &[u8])>
    ensures { option_map (λ x. (x.0.now, x.1.now)) result ≡ text_at bytes.now }
{
    let (count, rest) = u32_at(bytes)?;
    bytes_at(count as usize, rest)
}

/// What the name or the meaning of a signature may be, behind the 32 bits of its length.
#[tactic(auto, unfolding(crate::specs::Reading::printed_at))]
pub(crate) fn printed_at(alloc: Global, bytes: &[u8]) -> Result<Option<(Text, &[u8])>, AllocError>
    ensures { IfOk result (λ o. option_map (λ x. (x.0, x.1.now)) o ≡ printed_at bytes.now) }
{
    let Some((text, rest)) = text_at(bytes) else {
        return Ok(None);
    };
    if !is_printed(text) {
        return Ok(None);
    }
    let text = printed_text(alloc, text)?;
    Ok(Some((text, rest)))
}

/// A text of printed characters and spaces.
fn printed_text(alloc: Global, text: &[u8]) -> Result<Text, AllocError>
    requires { is_printed text.now ≡ true }
    ensures { IfOk result (λ made. made ≡ text.now) }
{
    match String::from_utf8(Vec::from_slice(alloc, text)?) {
        Ok(text) => Ok(Text::from_string(text)),
        Err(_) => unreachable!(),
    }
}

/// A number in at most so many bytes of 7 bits, the lowest first, none of them needless.
#[tactic(auto, unfolding(crate::specs::Reading::sevens_at))]
pub(crate) fn sevens_at(turns: u32, bytes: &[u8]) -> Option<(u64, &[u8])>
    requires { turns ≤ 5 }
    ensures value { option_map (λ x. (x.0, x.1.now)) result ≡ sevens_at turns bytes.now }
    ensures size { IfSome result (λ x. x.0 < 128 ^ turns) }
{
    let (byte, rest) = byte_at(bytes)?;
    if turns == 0 {
        return None;
    }
    let byte = u64::from(byte);
    if byte < SEVEN_BITS {
        return Some((byte, rest));
    }
    let (high, rest) = sevens_at(turns - 1, rest)?;
    if high == 0 {
        return None;
    }
    Some((byte - SEVEN_BITS + SEVEN_BITS * high, rest))
}
