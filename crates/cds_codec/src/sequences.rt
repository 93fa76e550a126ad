//! Reading the changes of a sequence, each behind the name of the sequence.
ghost use Rattle.std.specs.Prelude.{◌≡◌, IfOk, option_map};
ghost use Rattle.cds_codec.specs.Reading.{put_events_at, rebind_at, sequence_at, sign_at, sign_front_at, standards_at};

use crate::events::events_at;
use crate::fields::{byte_in, name_at, printed_at, text_at, u32_in, u64_in};
use crate::items::items_at;
use crate::pairs::are_different;
use crate::rows::rows_at;
use cds_base::{Bytes, MOMENT_LIMIT, Name};
use cds_sign::{
    Change, MOST_BASIS, MOST_EDITION, MOST_ROWS, MOST_SIGNATURES, MOST_STANDARDS, MOST_VERSIONS,
    NameList,
};
use std::alloc::{AllocError, Global};

/// A sequence that is put.
#[tactic(auto, unfolding(crate::specs::Reading::sequence_at))]
pub(crate) fn sequence_at(
    alloc: Global,
    name: Name,
    bytes: &[u8],
) -> Result<Option<(Change, &[u8])>, AllocError>
    ensures { IfOk result (λ o. option_map (λ x. (x.0, x.1.now)) o ≡ sequence_at name bytes.now) }
{
    let Some((edition, rest)) = u64_in(0, MOST_EDITION, bytes) else {
        return Ok(None);
    };
    let Some((method, rest)) = name_at(rest) else {
        return Ok(None);
    };
    let Some((version, rest)) = u32_in(0, MOST_VERSIONS, rest) else {
        return Ok(None);
    };
    let Some((standards, rest)) = standards_at(alloc, rest)? else {
        return Ok(None);
    };
    let Some((rows, rest)) = rows_at(alloc, rest)? else {
        return Ok(None);
    };
    let change = Change::Sequence {
        name,
        edition,
        method,
        version,
        standards,
        rows,
    };
    Ok(Some((change, rest)))
}

/// The names of listed sequences behind the byte of their number, none of them twice.
#[tactic(auto, unfolding(crate::specs::Reading::standards_at))]
fn standards_at(alloc: Global, bytes: &[u8]) -> Result<Option<(NameList, &[u8])>, AllocError>
    ensures { IfOk result (λ o. option_map (λ x. (x.0, x.1.now)) o ≡ standards_at bytes.now) }
{
    let Some((count, rest)) = byte_in(1, MOST_STANDARDS, bytes) else {
        return Ok(None);
    };
    let Some((names, rest)) = items_at(alloc, u32::from(count), rest)? else {
        return Ok(None);
    };
    if !are_different(&names) {
        return Ok(None);
    }
    Ok(Some((NameList::from_vec(names), rest)))
}

/// The manual events of a row that are put.
#[tactic(auto, unfolding(crate::specs::Reading::put_events_at))]
pub(crate) fn put_events_at(
    alloc: Global,
    name: Name,
    bytes: &[u8],
) -> Result<Option<(Change, &[u8])>, AllocError>
    ensures { IfOk result (λ o. option_map (λ x. (x.0, x.1.now)) o ≡ put_events_at name bytes.now) }
{
    let Some((edition, rest)) = u64_in(0, MOST_EDITION, bytes) else {
        return Ok(None);
    };
    let Some((row, rest)) = u32_in(1, MOST_ROWS as u32, rest) else {
        return Ok(None);
    };
    let Some((events, rest)) = events_at(alloc, rest)? else {
        return Ok(None);
    };
    let change = Change::Events {
        name,
        edition,
        row,
        events,
    };
    Ok(Some((change, rest)))
}

/// Another version of the method of a sequence.
#[tactic(auto, unfolding(crate::specs::Reading::rebind_at))]
pub(crate) fn rebind_at(name: Name, bytes: &[u8]) -> Option<(Change, &[u8])>
    ensures { option_map (λ x. (x.0, x.1.now)) result ≡ rebind_at name bytes.now }
{
    let (edition, rest) = u64_in(0, MOST_EDITION, bytes)?;
    let (version, rest) = u32_in(0, MOST_VERSIONS, rest)?;
    let change = Change::Rebind {
        name,
        edition,
        version,
    };
    Some((change, rest))
}

/// A signature.
#[tactic(auto, unfolding(crate::specs::Reading::sign_at))]
pub(crate) fn sign_at(
    alloc: Global,
    sequence: Name,
    bytes: &[u8],
) -> Result<Option<(Change, &[u8])>, AllocError>
    ensures { IfOk result (λ o. option_map (λ x. (x.0, x.1.now)) o ≡ sign_at sequence bytes.now) }
{
    let Some(((number, basis, moment), rest)) = sign_front_at(bytes) else {
        return Ok(None);
    };
    let Some((name, rest)) = printed_at(alloc, rest)? else {
        return Ok(None);
    };
    let Some((meaning, rest)) = printed_at(alloc, rest)? else {
        return Ok(None);
    };
    let Some((text, rest)) = text_at(rest) else {
        return Ok(None);
    };
    let text = Bytes::from_vec(Vec::from_slice(alloc, text)?);
    let change = Change::Sign {
        sequence,
        number,
        basis,
        moment,
        name,
        meaning,
        text,
    };
    Ok(Some((change, rest)))
}

/// The number of a signature, the basis and the moment.
#[tactic(auto, unfolding(crate::specs::Reading::sign_front_at))]
fn sign_front_at(bytes: &[u8]) -> Option<((u32, u64, u64), &[u8])>
    ensures { option_map (λ x. (x.0, x.1.now)) result ≡ sign_front_at bytes.now }
{
    let (number, rest) = u32_in(1, MOST_SIGNATURES, bytes)?;
    let (basis, rest) = u64_in(1, MOST_BASIS, rest)?;
    let (moment, rest) = u64_in(0, MOMENT_LIMIT - 1, rest)?;
    Some(((number, basis, moment), rest))
}
