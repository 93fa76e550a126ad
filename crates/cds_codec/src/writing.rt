//! Writing the record of a change.
ghost use Rattle.std.specs.Prelude.{◌≡◌, ◌^◌, ◌<◌, ◌≤◌, ◌+◌, ◌++◌, length, IfOk, OnOk};
ghost use Rattle.cds_base.specs.EventRange.{EventRanges};
ghost use Rattle.cds_codec.specs.Record.{bytes_of_32, bytes_of_64, bytes_of_numbers, bytes_of_put_events};
ghost use Rattle.cds_codec.specs.Record.{bytes_of_sequence, bytes_of_signal, bytes_of_texts, carried_text, changed};
ghost use Rattle.cds_codec.specs.Record.{fields_of, kind_of, record_of};
ghost use Rattle.cds_codec.specs.declared.format.TheConstants.{FORMAT};
ghost use Rattle.cds_sign.specs.Ranges.{AreRows, AreStandards, IsChange, IsRow};

use crate::format::{DRAFT, EVENTS, FORMAT, FREEZE, REBIND, SEQUENCE, SIGN, TRACE};
use crate::pushing::{Field, push_few, push_many, push_text};
use cds_base::{Bytes, EventList, Name, Text};
use cds_sign::{Change, NameList, RowList};
use cds_trace::Trace;
use std::alloc::{AllocError, Global};

/// The record of a change in format 2: the byte 2, the byte of its kind, the name of what is changed, and the fields of
/// the kind, numbers with the high byte first; the samples of a trace stand as their differences. It needs a change
/// whose parts are in their ranges. The record is at most 2^22 bytes longer than the text that the change carries. The
/// error is want of memory.
pub fn write(alloc: Global, change: &Change) -> Result<Bytes, AllocError>
    requires { IsChange change.now }
    ensures value { IfOk result (λ bytes. bytes ≡ record_of change.now) }
    ensures short { IfOk result (λ bytes. length bytes ≤ length (carried_text change.now) + 2 ^ 22) }
{
    let mut bytes = Vec::from_slice(alloc, &[FORMAT, kind_of(change)])?;
    changed(change).push(&mut bytes)?;
    push_fields(change, &mut bytes)?;
    Ok(Bytes::from_vec(bytes))
}

/// The byte of the kind of a change.
fn kind_of(change: &Change) -> u8
    ensures { result ≡ kind_of change.now }
{
    match change {
        Change::Trace { .. } => TRACE,
        Change::Draft { .. } => DRAFT,
        Change::Freeze { .. } => FREEZE,
        Change::Sequence { .. } => SEQUENCE,
        Change::Events { .. } => EVENTS,
        Change::Rebind { .. } => REBIND,
        Change::Sign { .. } => SIGN,
    }
}

/// The name of what is changed: of a trace, a method or a sequence.
fn changed(change: &Change) -> &Name
    ensures { result.now ≡ changed change.now }
{
    match change {
        Change::Trace { name, .. } => name,
        Change::Draft { name, .. } => name,
        Change::Freeze { name, .. } => name,
        Change::Sequence { name, .. } => name,
        Change::Events { name, .. } => name,
        Change::Rebind { name, .. } => name,
        Change::Sign { sequence, .. } => sequence,
    }
}

/// Appends the fields of a change behind the name of what is changed.
fn push_fields(change: &Change, bytes: &mut Vec<u8>) -> Result<(), AllocError>
    requires { IsChange change.now }
    ensures { OnOk result (bytes.new.items ≡ bytes.old.items ++ fields_of FORMAT change.now) }
{
    match change {
        Change::Trace { trace, .. } => push_trace(trace, bytes),
        Change::Draft { text, .. } => push_text(text.as_slice(), bytes),
        Change::Freeze { version, .. } => version.push(bytes),
        Change::Sequence {
            edition,
            method,
            version,
            standards,
            rows,
            ..
        } => push_sequence(*edition, method, *version, standards, rows, bytes),
        Change::Events {
            edition,
            row,
            events,
            ..
        } => push_put_events(*edition, *row, events, bytes),
        Change::Rebind {
            edition,
            version,
            ..
        } => push_rebinding(*edition, *version, bytes),
        Change::Sign {
            number,
            basis,
            moment,
            name,
            meaning,
            text,
            ..
        } => {
            push_numbers(*number, *basis, *moment, bytes)?;
            push_texts(name, meaning, text, bytes)
        }
    }
}

/// Appends the period and the samples of a trace, these as their differences.
fn push_trace(trace: &Trace, bytes: &mut Vec<u8>) -> Result<(), AllocError>
    ensures { OnOk result (bytes.new.items ≡ bytes.old.items ++ bytes_of_signal FORMAT trace.now) }
{
    trace.period().push(bytes)?;
    let samples = trace.record_differences()?;
    bytes.extend_from_slice(samples.as_slice())
}

/// Appends the edition before a change, the method of a sequence with its version, the sequences that it lists, and its
/// rows.
fn push_sequence(
    edition: u64,
    method: &Name,
    version: u32,
    standards: &NameList,
    rows: &RowList,
    bytes: &mut Vec<u8>,
) -> Result<(), AllocError>
    requires standards { AreStandards standards.now }
    requires rows { AreRows IsRow rows.now }
    ensures { OnOk result (bytes.new.items ≡ bytes.old.items
        ++ bytes_of_sequence edition method.now version standards.now rows.now) }
{
    edition.push(bytes)?;
    method.push(bytes)?;
    version.push(bytes)?;
    push_few(standards.as_slice(), bytes)?;
    push_many(rows.as_slice(), bytes)
}

/// Appends the edition before a change, the number of a row and its events.
fn push_put_events(
    before: u64,
    row: u32,
    events: &EventList,
    bytes: &mut Vec<u8>,
) -> Result<(), AllocError>
    requires { EventRanges events.now }
    ensures { OnOk result (bytes.new.items ≡ bytes.old.items ++ bytes_of_put_events before row events.now) }
{
    before.push(bytes)?;
    row.push(bytes)?;
    push_few(events.as_slice(), bytes)
}

/// Appends the edition before a change, and a version.
fn push_rebinding(edition: u64, version: u32, bytes: &mut Vec<u8>) -> Result<(), AllocError>
    ensures { OnOk result (bytes.new.items ≡ bytes.old.items ++ (bytes_of_64 edition ++ bytes_of_32 version)) }
{
    edition.push(bytes)?;
    version.push(bytes)
}

/// Appends the number of a signature, the basis and the moment.
fn push_numbers(number: u32, basis: u64, moment: u64, bytes: &mut Vec<u8>) -> Result<(), AllocError>
    ensures { OnOk result (bytes.new.items ≡ bytes.old.items ++ bytes_of_numbers number basis moment) }
{
    number.push(bytes)?;
    basis.push(bytes)?;
    moment.push(bytes)
}

/// Appends who signs, what it means, and the text that is signed.
fn push_texts(
    name: &Text,
    meaning: &Text,
    text: &Bytes,
    bytes: &mut Vec<u8>,
) -> Result<(), AllocError>
    requires name { length name.now < 2 ^ 32 }
    requires meaning { length meaning.now < 2 ^ 32 }
    requires text { length text.now < 2 ^ 32 }
    ensures { OnOk result (bytes.new.items ≡ bytes.old.items ++ bytes_of_texts name.now meaning.now text.now) }
{
    push_text(name.as_str().as_bytes(), bytes)?;
    push_text(meaning.as_str().as_bytes(), bytes)?;
    push_text(text.as_slice(), bytes)
}
