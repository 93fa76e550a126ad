//! Reading what is to be frozen.
ghost use Rattle.std.specs.Prelude.{◌≤◌, IfOk};
ghost use Rattle.cds_base.specs.Answers.{Gives};
ghost use Rattle.cds_wire.specs.declared.error.BodyError.TheVariants.{NoMemory};
ghost use Rattle.cds_wire.specs.declared.limits.TheConstants.{MOST_FREEZE_VERSION};
ghost use Rattle.cds_wire.specs.Seen.{seen};
ghost use Rattle.cds_wire.specs.Stated.{body, freeze_of};

use crate::body::{document, whole};
use crate::error::BodyError;
use crate::limits::MOST_FREEZE_VERSION;
use cds_fields::Section;
use serde_json::Value;
use std::alloc::Global;

/// The version that the body of a freeze names, 1 to 1,001. Where it names none, its first refusal: Json where
/// the body is no JSON in UTF-8; Field with the empty path where it is no object; Field `version` where that is
/// missing, no whole number or out of its range; Field with the unknown name that is the least in byte order.
/// NoMemory says nothing of the body. The form of the body is this project's own.
#[tactic(auto, unfolding(crate::specs::Stated::body))]
pub fn read_freeze(alloc: Global, bytes: &[u8]) -> Result<u32, BodyError>
    ensures value { Gives NoMemory (λ version. version) (body freeze_of bytes.now) result }
    ensures least { IfOk result (λ version. 1 ≤ version) }
    ensures most { IfOk result (λ version. version ≤ MOST_FREEZE_VERSION) }
{
    let value = document(alloc, bytes)?;
    let section = whole(alloc, &value)?;
    freeze(&section)
}

/// The version that a freeze names.
#[tactic(auto, unfolding(crate::specs::Stated::freeze_of))]
fn freeze(section: &Section<Value, BodyError>) -> Result<u32, BodyError>
    ensures value { Gives NoMemory (λ version. version) (freeze_of (seen section.now)) result }
    ensures least { IfOk result (λ version. 1 ≤ version) }
    ensures most { IfOk result (λ version. version ≤ MOST_FREEZE_VERSION) }
{
    let version = section.number("version", 1, MOST_FREEZE_VERSION as u64)?;
    section.only(&["version"])?;
    Ok(version as u32)
}
