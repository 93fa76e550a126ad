//! Reading the rows of a sequence that is put.
ghost use Rattle.std.specs.Prelude.{◌≡◌, IfOk, codes, map};
ghost use Rattle.serde_json.specs.View.{view};
ghost use Rattle.cds_base.specs.Answers.{Gives};
ghost use Rattle.cds_fields.specs.Json.{of_json};
ghost use Rattle.cds_fields.specs.Section.{required};
ghost use Rattle.cds_fields.specs.Values.{one_of};
ghost use Rattle.cds_base.specs.EventRange.{EventRanges};
ghost use Rattle.cds_sign.specs.Ranges.{AreAmountNames, AreRows, IsAskedRow, IsWithin};
ghost use Rattle.cds_sign.specs.declared.limits.TheConstants.{MOST_DILUTION};
ghost use Rattle.cds_wire.specs.declared.error.BodyError.TheVariants.{NoMemory};
ghost use Rattle.cds_wire.specs.Seen.{seen, entry_seen};
ghost use Rattle.cds_wire.specs.Stated.{rows_of, row_of, amounts_of, dilution_of, row_events};
ghost use Rattle.cds_wire.specs.Values.{row_kinds};

use crate::error::BodyError;
use crate::limits::{LEAST_ASKED_AMOUNT, MOST_ASKED_AMOUNT};
use cds_base::{EventList, MOST_EVENTS};
use cds_fields::{Entry, Section, TextValue, events, named_numbers};
use cds_sign::{
    AskedAmountList, AskedRow, AskedRowList, MOST_AMOUNTS, MOST_DILUTION, MOST_ROWS, MOST_VERSIONS,
    RowKind,
};
use serde_json::Value;

/// The rows that a sequence is asked to have, 1 to 200 of them.
#[tactic(auto, using(cds_fields::proofs::Judging::judging), unfolding(crate::specs::Stated::rows_of))]
pub(crate) fn rows(section: &Section<Value, BodyError>) -> Result<AskedRowList, BodyError>
    ensures value { Gives NoMemory (λ rows. rows) (rows_of (seen section.now)) result }
    ensures ranges { IfOk result (AreRows IsAskedRow) }
{
    let entries = section.entries("rows", 1, MOST_ROWS)?;
    let mut rows = Vec::new(section.alloc());
    for place in 0..entries.len() {
        let entry = entries.at(place)?;
        let row = row(&entry)?;
        rows.push(row)?;
    }
    Ok(AskedRowList::from_vec(rows))
}

/// A row. It is used, undiluted and without amounts and events where it does not say otherwise.
#[tactic(auto, unfolding(crate::specs::Stated::row_of))]
fn row(entry: &Entry<Value, BodyError>) -> Result<AskedRow, BodyError>
    ensures value { Gives NoMemory (λ row. row) (row_of (entry_seen entry.now)) result }
    ensures ranges { IfOk result IsAskedRow }
{
    let section = entry.section()?;
    let label = section.name("label")?;
    let kind = kind(&section)?;
    let trace = section.name("trace")?;
    let version = section.number("version", 0, u64::from(MOST_VERSIONS))? as u32;
    let amounts = amounts(&section)?;
    let used = section.optional_flag("used")?.unwrap_or(true);
    let (u, v) = dilution(&section)?;
    let events = row_events(&section)?;
    section.only(&[
        "label", "kind", "trace", "version", "amounts", "used", "dilution", "events",
    ])?;
    Ok(AskedRow {
        label,
        kind,
        trace,
        version,
        used,
        u,
        v,
        amounts,
        events,
    })
}

/// The kind of a row.
#[tactic(auto, unfolding(cds_fields::specs::Section::required))]
fn kind(section: &Section<Value, BodyError>) -> Result<RowKind, BodyError>
    ensures { Gives NoMemory (λ kind. kind) (required (one_of row_kinds) (codes "kind") (seen section.now)) result }
{
    let value = section.needed("kind")?;
    section.in_range("kind", kind_in(value))
}

fn kind_in(value: &Value) -> Option<RowKind>
    ensures { result ≡ one_of row_kinds (of_json (view value.now)) }
{
    match value.as_word()? {
        "blank" => Some(RowKind::Blank),
        "standard" => Some(RowKind::Standard),
        "replicate" => Some(RowKind::Replicate),
        "sample" => Some(RowKind::Sample),
        _ => None,
    }
}

/// The amounts of a row, none where the field is absent.
#[tactic(auto, unfolding(crate::specs::Stated::amounts_of))]
fn amounts(section: &Section<Value, BodyError>) -> Result<AskedAmountList, BodyError>
    ensures value { Gives NoMemory (λ amounts. amounts) (amounts_of (seen section.now)) result }
    ensures names { IfOk result (λ amounts. AreAmountNames (map (λ a. a.0) amounts)) }
{
    if !section.has("amounts") {
        return Ok(AskedAmountList::from_vec(Vec::new(section.alloc())));
    }
    let amounts = named_numbers(
        section,
        "amounts",
        MOST_AMOUNTS,
        LEAST_ASKED_AMOUNT,
        MOST_ASKED_AMOUNT,
    )?;
    Ok(AskedAmountList::from_vec(amounts))
}

/// The two parts of a row's dilution, 1 and 1 where the field is absent.
#[tactic(auto, unfolding(crate::specs::Stated::dilution_of))]
fn dilution(section: &Section<Value, BodyError>) -> Result<(u32, u32), BodyError>
    ensures value { Gives NoMemory
        (λ parts. record { u = parts.0; v = parts.1 }) (dilution_of (seen section.now)) result }
    ensures u { IfOk result (λ parts. IsWithin 1 MOST_DILUTION parts.0) }
    ensures v { IfOk result (λ parts. IsWithin 1 MOST_DILUTION parts.1) }
{
    if !section.has("dilution") {
        return Ok((1, 1));
    }
    let parts = section.entries("dilution", 2, 2)?;
    let first = parts.at(0)?;
    let u = first.number(1, u64::from(MOST_DILUTION))? as u32;
    let second = parts.at(1)?;
    let v = second.number(1, u64::from(MOST_DILUTION))? as u32;
    Ok((u, v))
}

/// The manual events of a row, none where the field is absent.
#[tactic(auto, unfolding(crate::specs::Stated::row_events))]
fn row_events(section: &Section<Value, BodyError>) -> Result<EventList, BodyError>
    ensures value { Gives NoMemory (λ events. events) (row_events (seen section.now)) result }
    ensures ranges { IfOk result EventRanges }
{
    let entries = section.optional_entries("events", MOST_EVENTS)?;
    events(&entries)
}
