//! The replies to what is refused.

ghost use Rattle.std.specs.Prelude.{◌≡◌, ◌≢◌, IfOk, Some, None};
ghost use Rattle.cds_wire.specs.declared.error.BodyError.TheVariants.{NoMemory as WantsMemory};
ghost use Rattle.cds_desk.specs.Refusals.{no_route, other_method, csv_reply, toml_reply, body_reply, absent_reply};
ghost use Rattle.cds_desk.specs.Refusals.{absent_version, in_path, in_body, missing_method, missing_sequence, told_as};
ghost use Rattle.cds_desk.specs.Refusals.{value_told, plan_reply, refused_field};
ghost use Rattle.cds_desk.specs.Refusals.{absent_sequence, absent_row, absent_signature};

use cds_base::{Name, NoMemory, Text};
use cds_book::{Command, PlanError};
use cds_respond::{Reply, refusal, word};
use cds_rules::MethodError;
use cds_trace::TraceError;
use cds_wire::{BodyError, Shown};
use http::{Method, StatusCode};
use std::alloc::Global;

/// The reply where no pattern fits the path.
pub(crate) fn no_route(alloc: Global) -> Result<Reply, NoMemory>
    ensures { IfOk result (λ r. r ≡ no_route) }
{
    refusal(alloc, StatusCode::NOT_FOUND, "route", 0, word(alloc, "")?)
}

/// The reply where the path takes another method.
pub(crate) fn other_method(alloc: Global, method: Method) -> Result<Reply, NoMemory>
    ensures { IfOk result (λ r. r ≡ other_method method) }
{
    let shown = word(alloc, method.as_str())?;
    let mut reply = refusal(alloc, StatusCode::METHOD_NOT_ALLOWED, "method", 0, shown)?;
    reply.allow = Some(method);
    Ok(reply)
}

/// The reply to a body that states no trace.
pub(crate) fn csv_reply(alloc: Global, error: TraceError) -> Result<Reply, NoMemory>
    ensures { IfOk result (λ r. r ≡ csv_reply error) }
{
    let number = u32::from(error.number().unwrap_or(0));
    let record = u64::from(error.record().unwrap_or(0));
    refusal(
        alloc,
        StatusCode::BAD_REQUEST,
        "csv",
        number,
        Shown::Number(record),
    )
}

/// The reply to a text that states no method.
pub(crate) fn toml_reply(alloc: Global, error: &MethodError) -> Result<Reply, NoMemory>
    ensures { IfOk result (λ r. r ≡ toml_reply error.now) }
{
    let number = u32::from(error.number().unwrap_or(0));
    let shown = word_of(alloc, error.field())?;
    refusal(alloc, StatusCode::BAD_REQUEST, "toml", number, shown)
}

/// The reply to a body in JSON that states nothing: this field of it is refused, or it is no JSON.
fn body_reply(alloc: Global, field: Option<Text>) -> Result<Reply, NoMemory>
    ensures { IfOk result (λ r. r ≡ body_reply field) }
{
    match field {
        Some(path) => refusal(
            alloc,
            StatusCode::BAD_REQUEST,
            "field",
            0,
            Shown::Word(path),
        ),
        None => refusal(alloc, StatusCode::BAD_REQUEST, "json", 0, word(alloc, "")?),
    }
}

/// The reply to a body that is refused. It wants memory where the reader of the body did.
pub(crate) fn body_refused(alloc: Global, error: BodyError) -> Result<Reply, NoMemory>
    ensures value { IfOk result (λ r. r ≡ body_reply (refused_field error)) }
    ensures refused { IfOk result (λ r. error ≢ WantsMemory) }
{
    match error {
        BodyError::NoMemory => Err(NoMemory),
        BodyError::Json => body_reply(alloc, None),
        BodyError::Field(path) => body_reply(alloc, Some(path)),
    }
}

/// The reply to a command that the tables refuse.
pub(crate) fn plan_reply(
    alloc: Global,
    command: &Command,
    error: PlanError,
) -> Result<Reply, NoMemory>
    ensures { IfOk result (λ r. r ≡ plan_reply command.now error) }
{
    let (status, word) = told_as(command, error);
    let number = error.number().unwrap_or(0);
    refusal(alloc, status, word, number, value_told(alloc, error)?)
}

/// The status and the word of what the tables refuse.
fn told_as(command: &Command, error: PlanError) -> (StatusCode, &'static str)
    ensures status { result.0 ≡ (told_as command.now error).0 }
    ensures word { result.1.now ≡ (told_as command.now error).1 }
{
    match error {
        PlanError::NoMethod(_) => missing_method(command),
        PlanError::NoSequence(_) => missing_sequence(command),
        PlanError::NoRow(_) | PlanError::NoRecord(_) => in_path(),
        PlanError::Edition(_) | PlanError::Basis(_) | PlanError::Number(_) => {
            (StatusCode::CONFLICT, "conflict")
        }
        PlanError::Full(_) => (StatusCode::UNPROCESSABLE_ENTITY, "full"),
        PlanError::NoTrace(_)
        | PlanError::NoVersion(_)
        | PlanError::TwoLabels(_)
        | PlanError::BadAmount(_)
        | PlanError::NoMemory => in_body(),
    }
}

/// How it is told that something isn't there which the path names.
fn in_path() -> (StatusCode, &'static str)
    ensures status { result.0 ≡ in_path.0 }
    ensures word { result.1.now ≡ in_path.1 }
{
    (StatusCode::NOT_FOUND, "absent")
}

/// How it is told that the body names something that isn't there, or breaks a rule of the tables.
fn in_body() -> (StatusCode, &'static str)
    ensures status { result.0 ≡ in_body.0 }
    ensures word { result.1.now ≡ in_body.1 }
{
    (StatusCode::UNPROCESSABLE_ENTITY, "rule")
}

/// How it is told that there is no such method: a freeze names it in the path, and a sequence that is put in the body.
fn missing_method(command: &Command) -> (StatusCode, &'static str)
    ensures status { result.0 ≡ (missing_method command.now).0 }
    ensures word { result.1.now ≡ (missing_method command.now).1 }
{
    match command {
        Command::Freeze { .. } => in_path(),
        _ => in_body(),
    }
}

/// How it is told that there is no such sequence: a sequence that is put names those that it lists in the body, and any
/// other command its sequence in the path.
fn missing_sequence(command: &Command) -> (StatusCode, &'static str)
    ensures status { result.0 ≡ (missing_sequence command.now).0 }
    ensures word { result.1.now ≡ (missing_sequence command.now).1 }
{
    match command {
        Command::Sequence { .. } => in_body(),
        _ => in_path(),
    }
}

/// What is shown of what the tables refuse.
fn value_told(alloc: Global, error: PlanError) -> Result<Shown, NoMemory>
    ensures { IfOk result (λ value. value ≡ value_told error) }
{
    match error {
        PlanError::NoTrace(name)
        | PlanError::NoMethod(name)
        | PlanError::NoVersion(name)
        | PlanError::NoSequence(name)
        | PlanError::TwoLabels(name) => word_of(alloc, name.as_bytes()),
        PlanError::NoRow(number)
        | PlanError::NoRecord(number)
        | PlanError::Number(number)
        | PlanError::BadAmount(number) => Ok(Shown::Number(u64::from(number))),
        PlanError::Edition(number) | PlanError::Basis(number) | PlanError::Full(number) => {
            Ok(Shown::Number(number))
        }
        PlanError::NoMemory => Err(NoMemory),
    }
}

/// The reply where a version isn't there: it shows the version where the name has versions or a draft, and else the
/// name, with this number of refusal.
pub(crate) fn absent_version(
    alloc: Global,
    number: u32,
    name: Name,
    version: u32,
    count: Option<u32>,
) -> Result<Reply, NoMemory>
    ensures { IfOk result (λ r. r ≡ absent_version number name version count) }
{
    match count {
        Some(_) => absent(alloc, 3, Shown::Number(u64::from(version))),
        None => absent(alloc, number, word_of(alloc, name.as_bytes())?),
    }
}

/// The reply where a sequence isn't there.
pub(crate) fn absent_sequence(alloc: Global, name: Name) -> Result<Reply, NoMemory>
    ensures { IfOk result (λ r. r ≡ absent_sequence name) }
{
    absent(alloc, 4, word_of(alloc, name.as_bytes())?)
}

/// The reply where a row isn't there: it shows the number where the sequence is there, and else its name.
pub(crate) fn absent_row(
    alloc: Global,
    name: Name,
    n: u32,
    has_sequence: bool,
) -> Result<Reply, NoMemory>
    ensures { IfOk result (λ r. r ≡ absent_row name n has_sequence) }
{
    if has_sequence {
        return absent(alloc, 5, Shown::Number(u64::from(n)));
    }
    absent_sequence(alloc, name)
}

/// The reply where a signature isn't there: it shows the number where the sequence is there, and else its name.
pub(crate) fn absent_signature(
    alloc: Global,
    name: Name,
    number: u32,
    has_sequence: bool,
) -> Result<Reply, NoMemory>
    ensures { IfOk result (λ r. r ≡ absent_signature name number has_sequence) }
{
    if has_sequence {
        return absent(alloc, 6, Shown::Number(u64::from(number)));
    }
    absent_sequence(alloc, name)
}

/// The reply where what a path names isn't there.
fn absent(alloc: Global, number: u32, value: Shown) -> Result<Reply, NoMemory>
    ensures { IfOk result (λ r. r ≡ absent_reply number value) }
{
    refusal(alloc, StatusCode::NOT_FOUND, "absent", number, value)
}

/// Bytes of a name or of a path, to be shown as a word.
fn word_of(alloc: Global, bytes: &[u8]) -> Result<Shown, NoMemory>
    ensures { IfOk result (λ value. value ≡ Shown.Word bytes.now) }
{
    match String::from_utf8(Vec::from_slice(alloc, bytes)?) {
        Ok(text) => Ok(Shown::Word(Text::from_string(text))),
        Err(_) => Err(NoMemory),
    }
}
