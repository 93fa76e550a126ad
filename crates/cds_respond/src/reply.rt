//! Replies: what is answered to a request.

ghost use Rattle.std.specs.Prelude.{◌≡◌, None, IfOk};
ghost use Rattle.cds_respond.specs.Replies.{answered, refusal_reply};
ghost use Rattle.cds_wire.specs.declared.answer.Answer.TheVariants.{Refusal};

use cds_base::{Bytes, NoMemory, Text};
use cds_wire::{Answer, Shown, reply};
use http::{Method, StatusCode};
use std::alloc::Global;

/// What the bytes of a body are.
#[derive(Clone, Copy, Debug, PartialEq, Eq)]
pub enum Content {
    /// JSON.
    Json,
    /// CSV, as a trace's text is.
    Csv,
    /// TOML, as a method's text is.
    Toml,
    /// Plain text, as a report is.
    Plain,
}

/// What is answered to a request.
#[derive(Drop)]
pub struct Reply {
    /// Its status.
    pub status: StatusCode,
    /// What the bytes of its body are.
    pub content: Content,
    /// The method that the path takes, where another was asked.
    pub allow: Option<Method>,
    /// Its body.
    pub body: Bytes,
}

/// The reply with an answer as its body.
pub fn answered(alloc: Global, status: StatusCode, answer: &Answer) -> Result<Reply, NoMemory>
    ensures { IfOk result (λ r. r ≡ answered status answer.now) }
{
    Ok(Reply {
        status,
        content: Content::Json,
        allow: None,
        body: reply(alloc, answer)?,
    })
}

/// The reply to what is refused: the word and the number of the refusal, and the value that it shows.
pub fn refusal(
    alloc: Global,
    status: StatusCode,
    error: &str,
    number: u32,
    value: Shown,
) -> Result<Reply, NoMemory>
    ensures { IfOk result (λ r. r ≡ refusal_reply status error.now number value) }
{
    let error = Text::from_string(String::from_str(alloc, error)?);
    answered(
        alloc,
        status,
        &Answer::Refusal {
            error,
            number,
            value,
        },
    )
}

/// The value of a refusal that is shown as a word.
pub fn word(alloc: Global, word: &str) -> Result<Shown, NoMemory>
    ensures { IfOk result (λ value. value ≡ Shown.Word word.now) }
{
    Ok(Shown::Word(Text::from_string(String::from_str(alloc, word)?)))
}
