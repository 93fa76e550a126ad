//! Writing the text of a reply.
ghost use Rattle.std.specs.Prelude.{◌≡◌, IfOk};
ghost use Rattle.serde_json.specs.Data.{object};
ghost use Rattle.serde_json.specs.View.{view};
ghost use Rattle.cds_wire.specs.Reply.{fields_of, shown_value, reply_text};

use crate::answer::{Answer, Shown};
use cds_base::Bytes;
use serde_json::{Value, json};
use std::alloc::{AllocError, Global};

/// The text of a reply: its object in compact JSON, with the keys in byte order. The error is want of memory.
pub fn reply(alloc: Global, answer: &Answer) -> Result<Bytes, AllocError>
    ensures { IfOk result (λ text. text ≡ reply_text answer.now) }
{
    let value = value_of(alloc, answer)?;
    let text = value.to_vec(alloc)?;
    Ok(Bytes::from_vec(text))
}

/// The object of a reply.
fn value_of(alloc: Global, answer: &Answer) -> Result<Value, AllocError>
    ensures { IfOk result (λ v. view v ≡ object (fields_of answer.now)) }
{
    match answer {
        Answer::Trace {
            samples,
            unchanged,
            version,
        } => {
            json!(in alloc; {"samples": *samples, "unchanged": *unchanged, "version": *version})
        }
        Answer::Draft { unchanged } => json!(in alloc; {"unchanged": *unchanged}),
        Answer::Freeze { unchanged, version } => {
            json!(in alloc; {"unchanged": *unchanged, "version": *version})
        }
        Answer::Sequence {
            basis,
            edition,
            unchanged,
        } => { json!(in alloc; {"basis": *basis, "edition": *edition, "unchanged": *unchanged}) }
        Answer::Sign {
            basis,
            number,
            signed,
            unchanged,
        } => {
            let signed = signed.as_str();
            json!(in alloc; {"basis": *basis, "number": *number, "signed": signed, "unchanged": *unchanged})
        }
        Answer::Refusal {
            error,
            number,
            value,
        } => {
            let shown = shown(alloc, value)?;
            json!(in alloc; {"error": error.as_str(), "number": *number, "value": shown})
        }
    }
}

/// What a refusal shows, as JSON.
fn shown(alloc: Global, value: &Shown) -> Result<Value, AllocError>
    ensures { IfOk result (λ v. view v ≡ shown_value value.now) }
{
    match value {
        Shown::Number(number) => Ok(Value::from(*number)),
        Shown::Word(word) => Value::try_from_str(alloc, word.as_str()),
    }
}
