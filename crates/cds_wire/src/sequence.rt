//! Reading a sequence that is put.
ghost use Rattle.std.specs.Prelude.{◌≡◌, ◌≤◌, false, IfOk};
ghost use Rattle.std.specs.List.{list_any};
ghost use Rattle.std.specs.Str.{bytes_eq};
ghost use Rattle.cds_base.specs.Answers.{Gives};
ghost use Rattle.cds_base.specs.NameText.{IsName};
ghost use Rattle.cds_sign.specs.Ranges.{AreStandards, IsAsked};
ghost use Rattle.cds_sign.specs.declared.limits.TheConstants.{MOST_VERSIONS};
ghost use Rattle.cds_wire.specs.declared.error.BodyError.TheVariants.{NoMemory};
ghost use Rattle.cds_wire.specs.Seen.{seen, entry_seen};
ghost use Rattle.cds_wire.specs.Stated.{body, sequence_of, method_of, standards_of, standard_of};

use crate::body::{document, whole};
use crate::error::BodyError;
use crate::row::rows;
use cds_base::Name;
use cds_fields::{Entry, Section};
use cds_sign::{Command, MOST_EDITION, MOST_STANDARDS, MOST_VERSIONS, NameList};
use serde_json::Value;
use std::alloc::Global;

/// The command to put the sequence of this name as the body states it, or the body's first refusal: Json where the body
/// is no JSON in UTF-8, else Field with the path of the first field at fault. The fields are judged in this order, each
/// with all that it holds: `edition`, 0 to 4,294,967,295; `method`, an object with a `name` and a `version` of 0 to
/// 1,000; `standards`, 1 to 8 different names; `rows`, 1 to 200 of them; then the unknown ones. NoMemory says nothing
/// of the body. The form of the body is this project's own.
#[tactic(auto, unfolding(crate::specs::Stated::body))]
pub fn read_sequence(alloc: Global, name: Name, bytes: &[u8]) -> Result<Command, BodyError>
    ensures value { Gives NoMemory (λ command. command) (body (sequence_of name) bytes.now) result }
    ensures ranges { IfOk result IsAsked }
{
    let value = document(alloc, bytes)?;
    let section = whole(alloc, &value)?;
    let _bytes = name.as_bytes();
    sequence(name, &section)
}

/// The sequence that an object states.
#[tactic(auto, unfolding(crate::specs::Stated::sequence_of))]
fn sequence(name: Name, section: &Section<Value, BodyError>) -> Result<Command, BodyError>
    requires { IsName name }
    ensures value { Gives NoMemory (λ command. command) (sequence_of name (seen section.now)) result }
    ensures ranges { IfOk result IsAsked }
{
    let edition = section.number("edition", 0, MOST_EDITION)?;
    let (method, version) = bound_method(section)?;
    let standards = standards(section)?;
    let rows = rows(section)?;
    section.only(&["edition", "method", "standards", "rows"])?;
    Ok(Command::Sequence {
        name,
        edition,
        method,
        version,
        standards,
        rows,
    })
}

/// The method of a sequence and the version of it that is bound.
#[tactic(auto, unfolding(crate::specs::Stated::method_of))]
fn bound_method(section: &Section<Value, BodyError>) -> Result<(Name, u32), BodyError>
    ensures value { Gives NoMemory
        (λ bound. record { name = bound.0; version = bound.1 }) (method_of (seen section.now)) result }
    ensures name { IfOk result (λ bound. IsName bound.0) }
    ensures version { IfOk result (λ bound. bound.1 ≤ MOST_VERSIONS) }
{
    let method = section.section("method")?;
    let name = method.name("name")?;
    let version = method.number("version", 0, u64::from(MOST_VERSIONS))? as u32;
    method.only(&["name", "version"])?;
    Ok((name, version))
}

/// The sequences that a sequence lists.
#[tactic(auto, using(cds_fields::proofs::Judging::judging), unfolding(crate::specs::Stated::standards_of))]
fn standards(section: &Section<Value, BodyError>) -> Result<NameList, BodyError>
    ensures value { Gives NoMemory (λ names. names) (standards_of (seen section.now)) result }
    ensures ranges { IfOk result AreStandards }
{
    let entries = section.entries("standards", 1, MOST_STANDARDS)?;
    let mut standards = Vec::new(section.alloc());
    for place in 0..entries.len() {
        let entry = entries.at(place)?;
        let standard = standard(standards.as_slice(), &entry)?;
        standards.push(standard)?;
    }
    Ok(NameList::from_vec(standards))
}

/// A listed sequence, which is none of those before it.
#[tactic(auto, unfolding(crate::specs::Stated::standard_of))]
fn standard(before: &[Name], entry: &Entry<Value, BodyError>) -> Result<Name, BodyError>
    ensures value { Gives NoMemory (λ name. name) (standard_of before.now (entry_seen entry.now)) result }
    ensures name { IfOk result IsName }
    ensures other { IfOk result (λ name. list_any (bytes_eq name) before.now ≡ false) }
{
    let name = entry.name()?;
    if is_among(&name, before) {
        return Err(entry.out_of_range());
    }
    Ok(name)
}

fn is_among(name: &Name, names: &[Name]) -> bool
    ensures { result ≡ list_any (bytes_eq name.now) names.now }
{
    names.iter().any(|one| *name == *one)
}
