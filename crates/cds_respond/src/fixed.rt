//! Responses that are the same whatever a desk holds, and are written without memory: to faults of the stream, where
//! memory or the keeper is wanting, and what asks for a body.

ghost use Rattle.std.specs.Prelude.{◌≡◌, ◌≤◌, true, false, length, codes, None, OnOk, OnErr};
ghost use Rattle.cds_base.specs.Faults.{Rose};
ghost use Rattle.cds_base.specs.Told.{then_more};
ghost use Rattle.cds_respond.specs.Sending.{HoldsPart};
ghost use Rattle.cds_respond.specs.Fixed.{fault_text, memory_text, keeper_text, fixed_text};
ghost use Rattle.cds_respond.specs.Response.{head_text, refusal_body, refusal_text};

use crate::response::{close_field, continue_text, phrase};
use crate::sending::{send, send_parts};
use cds_base::{Failed, Sink};
use cds_http::{Fault, MOST_BODY_BYTES, MOST_FIELDS, MOST_HEAD_BYTES};
use http::StatusCode;
use itoa::Buffer;

/// How many bytes of the body of a refusal stand around its word and the digits of its value.
const FRAME_BYTES: usize = 32;

/// A response that is the same whatever a desk holds.
#[derive(Clone, Copy, Debug, PartialEq, Eq)]
pub enum Fixed {
    /// Asks the sender of a head for the body.
    Continue,
    /// Tells a fault of the stream, after which the connection closes. Its body is never left out.
    Fault(Fault),
    /// Memory is wanting. The connection closes behind it where `close` says so; `without_body` leaves its body out.
    NoMemory { close: bool, without_body: bool },
    /// The keeper failed; `close` and `without_body` as above.
    KeeperFailed { close: bool, without_body: bool },
}

/// Writes a fixed response, and takes no memory. The sink's count of faults is then as before. `Failed` comes only where
/// it rose; a front of the response, and not all of it, then stands in the sink.
pub fn send_fixed<W: Sink>(sink: &mut W, fixed: Fixed) -> Result<(), Failed>
    ensures whole { OnOk result ((W.told sink.new).written ≡ then_more (W.told sink.old).written (fixed_text fixed)) }
    ensures prefix { OnErr result (HoldsPart (W.told sink.old).written (W.told sink.new).written (fixed_text fixed)) }
    ensures kept { OnOk result ((W.told sink.new).faults ≡ (W.told sink.old).faults) }
    ensures counts { (W.told sink.old).faults ≤ (W.told sink.new).faults }
    ensures failed { OnErr result (Rose (W.told sink.old).faults (W.told sink.new).faults) }
{
    match fixed {
        Fixed::Continue => return send(sink, continue_text()),
        Fixed::Fault(fault) => return send_fault(sink, fault),
        Fixed::NoMemory {
            close,
            without_body,
        } => return send_no_memory(sink, close, without_body),
        Fixed::KeeperFailed {
            close,
            without_body,
        } => return send_keeper_failed(sink, close, without_body),
    }
}

/// The status, the word and the number of the refusal that tells a fault of the stream.
#[tactic(auto, using(crate::proofs::RefusalTexts::head_is, crate::proofs::RefusalTexts::truncated_is, crate::proofs::RefusalTexts::length_is, crate::proofs::RefusalTexts::body_too_large_is, crate::proofs::RefusalTexts::head_too_large_is, crate::proofs::RefusalTexts::fields_is))]
fn fault_parts(fault: Fault) -> (StatusCode, &'static str, u64)
    ensures text { refusal_text result.0 result.1.now result.2 true false ≡ fault_text fault }
    ensures short { length result.1.now ≤ 1000 }
{
    match fault {
        Fault::Head(place) => (StatusCode::BAD_REQUEST, "head", place),
        Fault::Truncated(place) => (StatusCode::BAD_REQUEST, "truncated", place),
        Fault::LengthRequired(place) => (StatusCode::LENGTH_REQUIRED, "length", place),
        Fault::BodyTooLarge => (
            StatusCode::PAYLOAD_TOO_LARGE,
            "body",
            MOST_BODY_BYTES as u64,
        ),
        Fault::HeadTooLarge => {
            (
                StatusCode::REQUEST_HEADER_FIELDS_TOO_LARGE,
                "size",
                MOST_HEAD_BYTES as u64,
            )
        }
        Fault::TooManyFields => {
            (
                StatusCode::REQUEST_HEADER_FIELDS_TOO_LARGE,
                "fields",
                MOST_FIELDS as u64,
            )
        }
    }
}

/// Writes the response to a fault of the stream, after which the connection closes. Its body is never left out.
#[tactic(auto, using(crate::proofs::SendingLaws::text_err, crate::proofs::SendingLaws::text_ok))]
fn send_fault<W: Sink>(sink: &mut W, fault: Fault) -> Result<(), Failed>
    ensures whole { OnOk result ((W.told sink.new).written ≡ then_more (W.told sink.old).written (fault_text fault)) }
    ensures prefix { OnErr result (HoldsPart (W.told sink.old).written (W.told sink.new).written (fault_text fault)) }
    ensures kept { OnOk result ((W.told sink.new).faults ≡ (W.told sink.old).faults) }
    ensures counts { (W.told sink.old).faults ≤ (W.told sink.new).faults }
    ensures failed { OnErr result (Rose (W.told sink.old).faults (W.told sink.new).faults) }
{
    let (status, error, value) = fault_parts(fault);
    send_refusal(sink, status, error, value, true, false)
}

/// Writes the response where memory is wanting.
#[tactic(auto, using(crate::proofs::RefusalTexts::memory_is, crate::proofs::SendingLaws::text_err, crate::proofs::SendingLaws::text_ok))]
fn send_no_memory<W: Sink>(sink: &mut W, close: bool, without_body: bool) -> Result<(), Failed>
    ensures whole { OnOk result ((W.told sink.new).written ≡ then_more (W.told sink.old).written (memory_text close without_body)) }
    ensures prefix { OnErr result (HoldsPart (W.told sink.old).written (W.told sink.new).written (memory_text close without_body)) }
    ensures kept { OnOk result ((W.told sink.new).faults ≡ (W.told sink.old).faults) }
    ensures counts { (W.told sink.old).faults ≤ (W.told sink.new).faults }
    ensures failed { OnErr result (Rose (W.told sink.old).faults (W.told sink.new).faults) }
{
    send_refusal(
        sink,
        StatusCode::INSUFFICIENT_STORAGE,
        "memory",
        0,
        close,
        without_body,
    )
}

/// Writes the response where the keeper failed.
#[tactic(auto, using(crate::proofs::RefusalTexts::keeper_is, crate::proofs::SendingLaws::text_err, crate::proofs::SendingLaws::text_ok))]
fn send_keeper_failed<W: Sink>(sink: &mut W, close: bool, without_body: bool) -> Result<(), Failed>
    ensures whole { OnOk result ((W.told sink.new).written ≡ then_more (W.told sink.old).written (keeper_text close without_body)) }
    ensures prefix { OnErr result (HoldsPart (W.told sink.old).written (W.told sink.new).written (keeper_text close without_body)) }
    ensures kept { OnOk result ((W.told sink.new).faults ≡ (W.told sink.old).faults) }
    ensures counts { (W.told sink.old).faults ≤ (W.told sink.new).faults }
    ensures failed { OnErr result (Rose (W.told sink.old).faults (W.told sink.new).faults) }
{
    send_refusal(
        sink,
        StatusCode::SERVICE_UNAVAILABLE,
        "keeper",
        0,
        close,
        without_body,
    )
}

/// Writes a refusal that shows a number, with the number 0 of its own and a word of small letters.
#[tactic(auto, using(crate::proofs::SendingLaws::prefix_front, crate::proofs::SendingLaws::behind_err, crate::proofs::SendingLaws::behind_ok))]
fn send_refusal<W: Sink>(
    sink: &mut W,
    status: StatusCode,
    error: &str,
    value: u64,
    close: bool,
    without_body: bool,
) -> Result<(), Failed>
    requires { length error.now ≤ 1000 }
    ensures whole { OnOk result ((W.told sink.new).written ≡ then_more (W.told sink.old).written (refusal_text status error.now value close without_body)) }
    ensures prefix { OnErr result (HoldsPart (W.told sink.old).written (W.told sink.new).written (refusal_text status error.now value close without_body)) }
    ensures kept { OnOk result ((W.told sink.new).faults ≡ (W.told sink.old).faults) }
    ensures counts { (W.told sink.old).faults ≤ (W.told sink.new).faults }
    ensures failed { OnErr result (Rose (W.told sink.old).faults (W.told sink.new).faults) }
{
    let mut digits = Buffer::new();
    let value = digits.format(value).as_bytes();
    let count = FRAME_BYTES + error.len() + value.len();
    send_head(sink, status, count, close)?;
    if without_body {
        return Ok(());
    }
    send_body(sink, error, value)
}

/// Writes the head of a refusal whose body has so many bytes.
fn send_head<W: Sink>(
    sink: &mut W,
    status: StatusCode,
    count: usize,
    close: bool,
) -> Result<(), Failed>
    ensures whole { OnOk result ((W.told sink.new).written ≡ then_more (W.told sink.old).written (head_text status (codes "application/json") count None close)) }
    ensures prefix { OnErr result (HoldsPart (W.told sink.old).written (W.told sink.new).written (head_text status (codes "application/json") count None close)) }
    ensures kept { OnOk result ((W.told sink.new).faults ≡ (W.told sink.old).faults) }
    ensures counts { (W.told sink.old).faults ≤ (W.told sink.new).faults }
    ensures failed { OnErr result (Rose (W.told sink.old).faults (W.told sink.new).faults) }
{
    let mut code = Buffer::new();
    let mut digits = Buffer::new();
    send_parts(
        sink,
        &[
            b"HTTP/1.1 ",
            code.format(status.as_u16()).as_bytes(),
            b" ",
            phrase(status),
            b"\r\nContent-Type: application/json\r\nContent-Length: ",
            digits.format(count as u64).as_bytes(),
            b"\r\n",
            close_field(close),
            b"\r\n",
        ],
    )
}

/// Writes the body of a refusal.
#[tactic(auto, using(crate::proofs::RefusalTexts::body_parts, crate::proofs::SendingLaws::text_err, crate::proofs::SendingLaws::text_ok))]
fn send_body<W: Sink>(sink: &mut W, error: &str, digits: &[u8]) -> Result<(), Failed>
    ensures whole { OnOk result ((W.told sink.new).written ≡ then_more (W.told sink.old).written (refusal_body error.now digits.now)) }
    ensures prefix { OnErr result (HoldsPart (W.told sink.old).written (W.told sink.new).written (refusal_body error.now digits.now)) }
    ensures kept { OnOk result ((W.told sink.new).faults ≡ (W.told sink.old).faults) }
    ensures counts { (W.told sink.old).faults ≤ (W.told sink.new).faults }
    ensures failed { OnErr result (Rose (W.told sink.old).faults (W.told sink.new).faults) }
{
    send_parts(
        sink,
        &[
            b"{\"error\":\"",
            error.as_bytes(),
            b"\",\"number\":0,\"value\":",
            digits,
            b"}",
        ],
    )
}
