//! Reading the rows of a sequence.
ghost use Rattle.std.specs.Prelude.{◌≡◌, IfOk, List, ℕ, option_map};
ghost use Rattle.cds_codec.specs.Reading.{amount_at, amounts_at, row_at, row_front_at, row_kind_at, row_kind_of};
ghost use Rattle.cds_codec.specs.Reading.{rows_at, used_at, used_of};

use crate::events::events_at;
use crate::fields::{byte_at, byte_in, name_at, u32_in};
use crate::items::{Item, items_at};
use crate::pairs::are_rising;
use cds_base::{MOST_AMOUNT, Name};
use cds_sign::{
    AmountList, MOST_AMOUNTS, MOST_DILUTION, MOST_ROWS, MOST_VERSIONS, Row, RowKind, RowList,
};
use std::alloc::{AllocError, Global};

/// What stands in the record of a row before its amounts.
#[derive(Clone, Copy)]
struct RowFront {
    label: Name,
    kind: RowKind,
    trace: Name,
    version: u32,
    used: bool,
    u: u32,
    v: u32,
}

/// Rows behind the 32 bits of their number.
#[tactic(auto, unfolding(crate::specs::Reading::rows_at))]
pub(crate) fn rows_at(alloc: Global, bytes: &[u8]) -> Result<Option<(RowList, &[u8])>, AllocError>
    ensures { IfOk result (λ o. option_map (λ x. (x.0, x.1.now)) o ≡ rows_at bytes.now) }
{
    let Some((count, rest)) = u32_in(1, MOST_ROWS as u32, bytes) else {
        return Ok(None);
    };
    let Some((rows, rest)) = items_at(alloc, count, rest)? else {
        return Ok(None);
    };
    Ok(Some((RowList::from_vec(rows), rest)))
}

impl Item for Row {
    ghost read = { row_at };

    fn read(alloc: Global, bytes: &[u8]) -> Result<Option<(Row, &[u8])>, AllocError> {
        row_at(alloc, bytes)
    }
}

/// A row.
#[tactic(auto, unfolding(crate::specs::Reading::row_at))]
fn row_at(alloc: Global, bytes: &[u8]) -> Result<Option<(Row, &[u8])>, AllocError>
    ensures { IfOk result (λ o. option_map (λ x. (x.0, x.1.now)) o ≡ row_at bytes.now) }
{
    let Some((front, rest)) = row_front_at(bytes) else {
        return Ok(None);
    };
    let Some((amounts, rest)) = amounts_at(alloc, rest)? else {
        return Ok(None);
    };
    let Some((events, rest)) = events_at(alloc, rest)? else {
        return Ok(None);
    };
    let row = Row {
        label: front.label,
        kind: front.kind,
        trace: front.trace,
        version: front.version,
        used: front.used,
        u: front.u,
        v: front.v,
        amounts,
        events,
    };
    Ok(Some((row, rest)))
}

/// The fields of a row before its amounts.
#[tactic(auto, unfolding(crate::specs::Reading::row_front_at))]
fn row_front_at(bytes: &[u8]) -> Option<(RowFront, &[u8])>
    ensures { option_map (λ x. (x.0, x.1.now)) result ≡ row_front_at bytes.now }
{
    let Some((label, rest)) = name_at(bytes) else {
        return None;
    };
    let (kind, rest) = row_kind_at(rest)?;
    let Some((trace, rest)) = name_at(rest) else {
        return None;
    };
    let (version, rest) = u32_in(0, MOST_VERSIONS, rest)?;
    let (used, rest) = used_at(rest)?;
    let (u, rest) = u32_in(1, MOST_DILUTION, rest)?;
    let (v, rest) = u32_in(1, MOST_DILUTION, rest)?;
    let front = RowFront {
        label,
        kind,
        trace,
        version,
        used,
        u,
        v,
    };
    Some((front, rest))
}

/// The byte of what a row is injected for.
#[tactic(auto, unfolding(crate::specs::Reading::row_kind_at))]
fn row_kind_at(bytes: &[u8]) -> Option<(RowKind, &[u8])>
    ensures { option_map (λ x. (x.0, x.1.now)) result ≡ row_kind_at bytes.now }
{
    let (byte, rest) = byte_at(bytes)?;
    let kind = row_kind_of(byte)?;
    Some((kind, rest))
}

fn row_kind_of(byte: u8) -> Option<RowKind>
    ensures { result ≡ row_kind_of byte }
{
    match byte {
        1 => Some(RowKind::Blank),
        2 => Some(RowKind::Standard),
        3 => Some(RowKind::Replicate),
        4 => Some(RowKind::Sample),
        _ => None,
    }
}

/// The byte of whether a row is used.
#[tactic(auto, unfolding(crate::specs::Reading::used_at))]
fn used_at(bytes: &[u8]) -> Option<(bool, &[u8])>
    ensures { option_map (λ x. (x.0, x.1.now)) result ≡ used_at bytes.now }
{
    let (byte, rest) = byte_at(bytes)?;
    let used = used_of(byte)?;
    Some((used, rest))
}

fn used_of(byte: u8) -> Option<bool>
    ensures { result ≡ used_of byte }
{
    match byte {
        0 => Some(false),
        1 => Some(true),
        _ => None,
    }
}

/// Amounts behind the byte of their number, their names rising in byte order.
#[tactic(auto, unfolding(crate::specs::Reading::amounts_at))]
fn amounts_at(alloc: Global, bytes: &[u8]) -> Result<Option<(AmountList, &[u8])>, AllocError>
    ensures { IfOk result (λ o. option_map (λ x. (x.0, x.1.now)) o ≡ amounts_at bytes.now) }
{
    let Some((count, rest)) = byte_in(0, MOST_AMOUNTS, bytes) else {
        return Ok(None);
    };
    let Some((amounts, rest)) = items_at(alloc, u32::from(count), rest)? else {
        return Ok(None);
    };
    if !are_rising(&amounts) {
        return Ok(None);
    }
    Ok(Some((AmountList::from_vec(amounts), rest)))
}

impl Item for (Name, u32) {
    ghost read = { amount_at };

    fn read(_alloc: Global, bytes: &[u8]) -> Result<Option<((Name, u32), &[u8])>, AllocError> {
        Ok(amount_at(bytes))
    }
}

/// An amount with its component.
#[tactic(auto, unfolding(crate::specs::Reading::amount_at))]
fn amount_at(bytes: &[u8]) -> Option<((Name, u32), &[u8])>
    ensures { option_map (λ x. (x.0, x.1.now)) result ≡ amount_at bytes.now }
{
    let Some((name, rest)) = name_at(bytes) else {
        return None;
    };
    let (amount, rest) = u32_in(1, MOST_AMOUNT, rest)?;
    Some(((name, amount), rest))
}
