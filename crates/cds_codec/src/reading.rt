//! Reading the record of a change.
ghost use Rattle.std.specs.Prelude.{◌≡◌, IfOk, option_map};
ghost use Rattle.cds_codec.specs.Record.{most_samples_in, Converts, Reads};
ghost use Rattle.cds_codec.specs.Reading.{change_at, change_of, draft_at, freeze_at, signal_at, trace_at};

use crate::fields::{byte_at, name_at, text_at, u32_in, u64_at};
use crate::format::{
    DRAFT, EVENTS, FIRST_FORMAT, FORMAT, FREEZE, MOST_FIRST_SAMPLES, REBIND, SEQUENCE, SIGN, TRACE,
};
use crate::samples::samples_at;
use crate::sequences::{put_events_at, rebind_at, sequence_at, sign_at};
use crate::writing::write;
use cds_base::{Bytes, Name};
use cds_sign::{Change, MOST_VERSIONS};
use cds_trace::{MOST_SAMPLES, Trace, TraceError};
use std::alloc::{AllocError, Global};

/// The change whose record the bytes are, in the first format or in that of today. None exactly where the whole of the
/// bytes is the record of no change: where they end too early or go on behind the last field, a format, a kind or a
/// name is none, a number is outside its range or stands where a kind has none, a difference has a needless byte, the
/// samples and the period are no trace or there are more than 100,000 of them in the first format, a sequence lists
/// another one twice, the names of amounts don't rise, or who signs or what it means isn't 1 to 64 printed characters
/// or spaces. Whether tables accept the change isn't looked at. The error is want of memory, which says nothing of the
/// bytes. This project's own form.
pub fn read(alloc: Global, bytes: &[u8]) -> Result<Option<Change>, AllocError>
    ensures { IfOk result (λ stated. Reads bytes.now stated) }
{
    change_of(alloc, bytes)
}

/// The record in today's format of the change that the bytes state. None exactly where they are the record of no
/// change. The error is want of memory.
pub fn convert(alloc: Global, bytes: &[u8]) -> Result<Option<Bytes>, AllocError>
    ensures { IfOk result (λ converted. Converts bytes.now converted) }
{
    let Some(change) = read(alloc, bytes)? else {
        return Ok(None);
    };
    Ok(Some(write(alloc, &change)?))
}

/// The change that all of the bytes state.
#[tactic(auto, unfolding(crate::specs::Reading::change_of))]
fn change_of(alloc: Global, bytes: &[u8]) -> Result<Option<Change>, AllocError>
    ensures { IfOk result (λ stated. stated ≡ change_of bytes.now) }
{
    let Some((format, rest)) = byte_at(bytes) else {
        return Ok(None);
    };
    let Some((kind, rest)) = byte_at(rest) else {
        return Ok(None);
    };
    let Some((name, fields)) = name_at(rest) else {
        return Ok(None);
    };
    if format != FIRST_FORMAT && format != FORMAT {
        return Ok(None);
    }
    let Some((change, [])) = change_at(alloc, format, kind, name, fields)? else {
        return Ok(None);
    };
    Ok(Some(change))
}

/// The change of a kind, behind the name of what is changed.
#[tactic(auto, unfolding(crate::specs::Reading::change_at))]
fn change_at(
    alloc: Global,
    format: u8,
    kind: u8,
    name: Name,
    bytes: &[u8],
) -> Result<Option<(Change, &[u8])>, AllocError>
    ensures { IfOk result (λ o. option_map (λ x. (x.0, x.1.now)) o ≡ change_at format kind name bytes.now) }
{
    match kind {
        TRACE => trace_at(alloc, format, name, bytes),
        DRAFT => draft_at(alloc, name, bytes),
        FREEZE => Ok(freeze_at(name, bytes)),
        SEQUENCE => sequence_at(alloc, name, bytes),
        EVENTS => put_events_at(alloc, name, bytes),
        REBIND => Ok(rebind_at(name, bytes)),
        SIGN => sign_at(alloc, name, bytes),
        _ => Ok(None),
    }
}

/// A trace that is put.
#[tactic(auto, unfolding(crate::specs::Reading::trace_at))]
fn trace_at(
    alloc: Global,
    format: u8,
    name: Name,
    bytes: &[u8],
) -> Result<Option<(Change, &[u8])>, AllocError>
    ensures { IfOk result (λ o. option_map (λ x. (x.0, x.1.now)) o ≡ trace_at format name bytes.now) }
{
    let Some((trace, rest)) = signal_at(alloc, format, bytes)? else {
        return Ok(None);
    };
    Ok(Some((Change::Trace { name, trace }, rest)))
}

/// A draft that is put.
#[tactic(auto, unfolding(crate::specs::Reading::draft_at))]
fn draft_at(alloc: Global, name: Name, bytes: &[u8]) -> Result<Option<(Change, &[u8])>, AllocError>
    ensures { IfOk result (λ o. option_map (λ x. (x.0, x.1.now)) o ≡ draft_at name bytes.now) }
{
    let Some((text, rest)) = text_at(bytes) else {
        return Ok(None);
    };
    let text = Bytes::from_vec(Vec::from_slice(alloc, text)?);
    Ok(Some((Change::Draft { name, text }, rest)))
}

/// A version that is frozen.
#[tactic(auto, unfolding(crate::specs::Reading::freeze_at))]
fn freeze_at(name: Name, bytes: &[u8]) -> Option<(Change, &[u8])>
    ensures { option_map (λ x. (x.0, x.1.now)) result ≡ freeze_at name bytes.now }
{
    let (version, rest) = u32_in(1, MOST_VERSIONS, bytes)?;
    Some((Change::Freeze { name, version }, rest))
}

/// A period and the samples of a trace.
#[tactic(auto, unfolding(crate::specs::Reading::signal_at))]
fn signal_at(alloc: Global, format: u8, bytes: &[u8]) -> Result<Option<(Trace, &[u8])>, AllocError>
    ensures { IfOk result (λ o. option_map (λ x. (x.0, x.1.now)) o ≡ signal_at format bytes.now) }
{
    let Some((period, rest)) = u64_at(bytes) else {
        return Ok(None);
    };
    let Some((count, rest)) = u32_in(0, most_samples_in(format), rest) else {
        return Ok(None);
    };
    let Some((samples, rest)) = samples_at(alloc, format, count, rest)? else {
        return Ok(None);
    };
    match Trace::from_samples(alloc, period, &samples) {
        Ok(trace) => Ok(Some((trace, rest))),
        Err(TraceError::NoMemory) => Err(AllocError),
        Err(_) => Ok(None),
    }
}

/// The most samples of a trace in a record of a format.
fn most_samples_in(format: u8) -> u32
    ensures { result ≡ most_samples_in format }
{
    if format == FIRST_FORMAT {
        MOST_FIRST_SAMPLES
    } else {
        MOST_SAMPLES
    }
}
