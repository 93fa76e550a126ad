//! Responses as bytes.

ghost use Rattle.std.specs.Prelude.{◌≡◌, ◌++◌, length, decimal, IfOk, OnOk};
ghost use Rattle.cds_respond.specs.Response.{phrase, media_type, close_field, field_line, status_line, body_fields, head_text, response_text, continue_text};

use crate::reply::{Content, Reply};
use cds_base::{Bytes, NoMemory};
use http::StatusCode;
use itoa::Buffer;
use std::alloc::Global;

/// How many bytes a head takes at most, beside its body.
const HEAD_ROOM: usize = 256;

/// What asks the sender of a head for the body.
pub(crate) fn continue_text() -> &'static [u8]
    ensures { result.now ≡ continue_text }
{
    b"HTTP/1.1 100 Continue\r\n\r\n"
}

/// The bytes of a response. The connection closes behind it where `close` says so; to the method HEAD the body is
/// left out, and its length stays.
#[tactic(auto, unfolding(crate::specs::Response::response_text))]
pub fn response_text(
    alloc: Global,
    reply: &Reply,
    close: bool,
    without_body: bool,
) -> Result<Bytes, NoMemory>
    ensures { IfOk result (λ text. text ≡ response_text reply.now close without_body) }
{
    let mut text = Vec::with_capacity(alloc, reply.body.len().saturating_add(HEAD_ROOM))?;
    add_head(&mut text, reply, close)?;
    if !without_body {
        text.extend_from_slice(reply.body.as_slice())?;
    }
    Ok(Bytes::from_vec(text))
}

/// Appends the head of a response, with the empty line at its end.
#[tactic(auto, unfolding(crate::specs::Response::head_text))]
fn add_head(text: &mut Vec<u8>, reply: &Reply, close: bool) -> Result<(), NoMemory>
    ensures { OnOk result (text.new.items ≡ text.old.items ++ head_text reply.now.status (media_type reply.now.content) (length reply.now.body) reply.now.allow close) }
{
    add_status_line(text, reply.status)?;
    add_body_fields(text, reply.content, reply.body.len())?;
    if let Some(method) = &reply.allow {
        add_field(text, b"Allow", method.as_str().as_bytes())?;
    }
    text.extend_from_slice(close_field(close))?;
    text.extend_from_slice(b"\r\n")?;
    Ok(())
}

/// Appends a field.
#[tactic(auto, unfolding(crate::specs::Response::field_line))]
fn add_field(text: &mut Vec<u8>, name: &[u8], value: &[u8]) -> Result<(), NoMemory>
    ensures { OnOk result (text.new.items ≡ text.old.items ++ field_line name.now value.now) }
{
    text.extend_from_slice(name)?;
    text.extend_from_slice(b": ")?;
    text.extend_from_slice(value)?;
    text.extend_from_slice(b"\r\n")?;
    Ok(())
}

/// Appends the status line.
#[tactic(auto, unfolding(crate::specs::Response::status_line))]
fn add_status_line(text: &mut Vec<u8>, status: StatusCode) -> Result<(), NoMemory>
    ensures { OnOk result (text.new.items ≡ text.old.items ++ status_line status) }
{
    text.extend_from_slice(b"HTTP/1.1 ")?;
    add_number(text, u64::from(status.as_u16()))?;
    text.extend_from_slice(b" ")?;
    text.extend_from_slice(phrase(status))?;
    text.extend_from_slice(b"\r\n")?;
    Ok(())
}

/// Appends the fields on the body.
fn add_body_fields(text: &mut Vec<u8>, content: Content, count: usize) -> Result<(), NoMemory>
    ensures { OnOk result (text.new.items ≡ text.old.items ++ body_fields (media_type content) count) }
{
    let mut digits = Buffer::new();
    add_field(text, b"Content-Type", media_type(content))?;
    add_field(
        text,
        b"Content-Length",
        digits.format(count as u64).as_bytes(),
    )?;
    Ok(())
}

/// Appends a number in decimal digits.
fn add_number(text: &mut Vec<u8>, number: u64) -> Result<(), NoMemory>
    ensures { OnOk result (text.new.items ≡ text.old.items ++ decimal number) }
{
    let mut buffer = Buffer::new();
    text.extend_from_slice(buffer.format(number).as_bytes())
}

/// The field that says that the connection closes.
pub(crate) fn close_field(close: bool) -> &'static [u8]
    ensures { result.now ≡ close_field close }
{
    if close { b"Connection: close\r\n" } else { b"" }
}

/// The media type of a body.
fn media_type(content: Content) -> &'static [u8]
    ensures { result.now ≡ media_type content }
{
    match content {
        Content::Json => b"application/json",
        Content::Csv => b"text/csv",
        Content::Toml => b"application/toml",
        Content::Plain => b"text/plain",
    }
}

/// The phrase of a status, which this project writes itself; empty for a status that it doesn't answer.
#[tactic(auto, unfolding(crate::specs::Response::phrase))]
pub(crate) fn phrase(status: StatusCode) -> &'static [u8]
    ensures { result.now ≡ phrase status }
{
    let status = status.as_u16();
    if status == 200 {
        b"OK"
    } else if status == 201 {
        b"Created"
    } else if status == 400 {
        b"Bad Request"
    } else if status == 404 {
        b"Not Found"
    } else if status == 405 {
        b"Method Not Allowed"
    } else if status == 409 {
        b"Conflict"
    } else if status == 411 {
        b"Length Required"
    } else if status == 413 {
        b"Content Too Large"
    } else if status == 422 {
        b"Unprocessable Content"
    } else if status == 431 {
        b"Request Header Fields Too Large"
    } else if status == 503 {
        b"Service Unavailable"
    } else if status == 507 {
        b"Insufficient Storage"
    } else {
        b""
    }
}
