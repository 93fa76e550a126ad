//! Reading what is to be signed.
ghost use Rattle.std.specs.Prelude.{◌≡◌, true, IfOk, IfSome, option_copied};
ghost use Rattle.serde_json.specs.View.{view};
ghost use Rattle.cds_base.specs.Answers.{Gives};
ghost use Rattle.cds_fields.specs.Json.{of_json};
ghost use Rattle.cds_fields.specs.Section.{required};
ghost use Rattle.cds_wire.specs.declared.error.BodyError.TheVariants.{NoMemory};
ghost use Rattle.cds_wire.specs.Seen.{seen};
ghost use Rattle.cds_sign.specs.Printed.{is_printed};
ghost use Rattle.cds_wire.specs.Stated.{body, sign_of, IsSignBody};
ghost use Rattle.cds_wire.specs.Values.{printed_in};

use crate::body::{document, whole};
use crate::error::BodyError;
use crate::limits::MOST_SIGN_NUMBER;
use cds_base::Text;
use cds_fields::{Section, TextValue};
use cds_sign::{MOST_BASIS, is_printed};
use serde_json::Value;
use std::alloc::Global;

/// What a signature is asked to be.
#[derive(Debug, Drop)]
pub struct SignBody {
    /// The basis that is signed, 1 to 2^63 - 1.
    pub basis: u64,
    /// The number of the signature in its sequence, 1 to 101.
    pub number: u32,
    /// Who signs: 1 to 64 printed ASCII characters or spaces.
    pub name: Text,
    /// What the signature means: 1 to 64 printed ASCII characters or spaces.
    pub meaning: Text,
}

/// What the body of a signature states, or its first refusal: Json where the body is no JSON in UTF-8, else Field with
/// the path of the first field at fault. The fields are judged in this order: `basis`, 1 to 2^63 - 1; `number`, 1 to
/// 101; `name` and `meaning`, each 1 to 64 printed ASCII characters or spaces; then the unknown ones. NoMemory says
/// nothing of the body. The form of the body is this project's own.
#[tactic(auto, unfolding(crate::specs::Stated::body))]
pub fn read_sign(alloc: Global, bytes: &[u8]) -> Result<SignBody, BodyError>
    ensures value { Gives NoMemory (λ sign. sign) (body sign_of bytes.now) result }
    ensures ranges { IfOk result IsSignBody }
{
    let value = document(alloc, bytes)?;
    let section = whole(alloc, &value)?;
    sign(&section)
}

/// What an object asks a signature to be.
#[tactic(auto, unfolding(crate::specs::Stated::sign_of))]
fn sign(section: &Section<Value, BodyError>) -> Result<SignBody, BodyError>
    ensures value { Gives NoMemory (λ sign. sign) (sign_of (seen section.now)) result }
    ensures ranges { IfOk result IsSignBody }
{
    let basis = section.number("basis", 1, MOST_BASIS)?;
    let number = section.number("number", 1, u64::from(MOST_SIGN_NUMBER))? as u32;
    let name = printed(section, "name")?;
    let meaning = printed(section, "meaning")?;
    section.only(&["basis", "number", "name", "meaning"])?;
    Ok(SignBody {
        basis,
        number,
        name,
        meaning,
    })
}

/// The name or the meaning of a signature, as a field states it.
#[tactic(auto, unfolding(cds_fields::specs::Section::required))]
fn printed(section: &Section<Value, BodyError>, name: &str) -> Result<Text, BodyError>
    ensures value { Gives NoMemory (λ text. text) (required printed_in name.now (seen section.now)) result }
    ensures printed { IfOk result (λ text. is_printed text ≡ true) }
{
    let value = section.needed(name)?;
    let Some(word) = printed_in(value) else {
        return section.in_range(name, None);
    };
    let text = String::from_str(section.alloc(), word)?;
    Ok(Text::from_string(text))
}

fn printed_in(value: &Value) -> Option<&str>
    ensures value { option_copied result ≡ printed_in (of_json (view value.now)) }
    ensures printed { IfSome (option_copied result) (λ word. is_printed word ≡ true) }
{
    let word = value.as_word()?;
    if !is_printed(word.as_bytes()) {
        return None;
    }
    Some(word)
}
