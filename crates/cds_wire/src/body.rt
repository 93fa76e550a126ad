//! Reading the object that a request's body is.
ghost use Rattle.std.specs.Prelude.{ok_or};
ghost use Rattle.serde_json.specs.View.{view};
ghost use Rattle.cds_base.specs.Answers.{Gives};
ghost use Rattle.cds_fields.specs.Json.{of_json, json_value};
ghost use Rattle.cds_wire.specs.declared.error.BodyError.TheVariants.{Json, NoMemory};
ghost use Rattle.cds_wire.specs.Seen.{seen};
ghost use Rattle.cds_wire.specs.Stated.{whole};

use crate::error::BodyError;
use cds_base::Text;
use cds_fields::{Section, TextValue, read_json};
use serde_json::Value;
use std::alloc::Global;

/// The value of a body, which is JSON in UTF-8.
pub(crate) fn document(alloc: Global, bytes: &[u8]) -> Result<Value, BodyError>
    ensures { Gives NoMemory (λ v. of_json (view v)) (ok_or (json_value bytes.now) Json) result }
{
    match read_json(alloc, bytes) {
        Ok(Some(value)) => Ok(value),
        Ok(None) => Err(BodyError::Json),
        Err(_) => Err(BodyError::NoMemory),
    }
}

/// The object that a body's value is.
#[tactic(auto, unfolding(crate::specs::Stated::whole))]
pub(crate) fn whole(alloc: Global, value: &Value) -> Result<Section<Value, BodyError>, BodyError>
    ensures { Gives NoMemory seen (whole (of_json (view value.now))) result }
{
    let Some(fields) = value.as_fields() else {
        return Err(BodyError::Field(Text::from_string(String::new(alloc))));
    };
    Ok(Section::top(alloc, fields))
}
