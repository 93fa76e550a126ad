//! Reading the changes of a sequence that is there: the manual events of a row, and another version of its method.
ghost use Rattle.std.specs.Prelude.{IfOk};
ghost use Rattle.cds_base.specs.Answers.{Gives};
ghost use Rattle.cds_base.specs.NameText.{IsName};
ghost use Rattle.cds_sign.specs.Ranges.{IsAsked};
ghost use Rattle.cds_wire.specs.declared.error.BodyError.TheVariants.{NoMemory};
ghost use Rattle.cds_wire.specs.Seen.{seen};
ghost use Rattle.cds_wire.specs.Stated.{body, put_events_of, reprocess_of};

use crate::body::{document, whole};
use crate::error::BodyError;
use cds_base::{MOST_EVENTS, Name};
use cds_fields::{Section, events};
use cds_sign::{Command, MOST_EDITION, MOST_VERSIONS};
use serde_json::Value;
use std::alloc::Global;

/// The command to put the manual events of a row of the sequence of this name as the body states them, or the body's
/// first refusal: Json where the body is no JSON in UTF-8, else Field with the path of the first field at fault. The
/// fields are judged in this order: `edition`, 0 to 4,294,967,295; `events`, at most 64 of them, each with its ranges;
/// then the unknown ones. NoMemory says nothing of the body. The form of the body is this project's own.
#[tactic(auto, unfolding(crate::specs::Stated::body))]
pub fn read_events(alloc: Global, name: Name, row: u32, bytes: &[u8]) -> Result<Command, BodyError>
    ensures value { Gives NoMemory (λ command. command) (body (put_events_of name row) bytes.now) result }
    ensures ranges { IfOk result IsAsked }
{
    let value = document(alloc, bytes)?;
    let section = whole(alloc, &value)?;
    let _bytes = name.as_bytes();
    put_events(name, row, &section)
}

/// The command to bind the sequence of this name to the version of its method that the body states, or the body's first
/// refusal: Json where the body is no JSON in UTF-8, else Field with the path of the first field at fault. The fields
/// are judged in this order: `edition`, 0 to 4,294,967,295; `version`, 0 to 1,000; then the unknown ones. NoMemory says
/// nothing of the body. The form of the body is this project's own.
#[tactic(auto, unfolding(crate::specs::Stated::body))]
pub fn read_reprocess(alloc: Global, name: Name, bytes: &[u8]) -> Result<Command, BodyError>
    ensures value { Gives NoMemory (λ command. command) (body (reprocess_of name) bytes.now) result }
    ensures ranges { IfOk result IsAsked }
{
    let value = document(alloc, bytes)?;
    let section = whole(alloc, &value)?;
    let _bytes = name.as_bytes();
    reprocess(name, &section)
}

/// The manual events that an object states for a row.
#[tactic(auto, unfolding(crate::specs::Stated::put_events_of))]
fn put_events(
    name: Name,
    row: u32,
    section: &Section<Value, BodyError>,
) -> Result<Command, BodyError>
    requires { IsName name }
    ensures value { Gives NoMemory (λ command. command) (put_events_of name row (seen section.now)) result }
    ensures ranges { IfOk result IsAsked }
{
    let edition = section.number("edition", 0, MOST_EDITION)?;
    let entries = section.entries("events", 0, MOST_EVENTS)?;
    let events = events(&entries)?;
    section.only(&["edition", "events"])?;
    Ok(Command::Events {
        name,
        edition,
        row,
        events,
    })
}

/// The version to which an object binds a sequence.
#[tactic(auto, unfolding(crate::specs::Stated::reprocess_of))]
fn reprocess(name: Name, section: &Section<Value, BodyError>) -> Result<Command, BodyError>
    requires { IsName name }
    ensures value { Gives NoMemory (λ command. command) (reprocess_of name (seen section.now)) result }
    ensures ranges { IfOk result IsAsked }
{
    let edition = section.number("edition", 0, MOST_EDITION)?;
    let version = section.number("version", 0, u64::from(MOST_VERSIONS))? as u32;
    section.only(&["edition", "version"])?;
    Ok(Command::Rebind {
        name,
        edition,
        version,
    })
}
