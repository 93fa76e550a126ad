//! Streams and their items, told by hand, fed in every cut.

ghost use Rattle.std.specs.Prelude.{◌≡◌, ◌<◌, false, IfOk};
ghost use Rattle.std.specs.Bool.{OnTrue};
ghost use Rattle.cds_http.specs.Stream.{IsOpenAfter};

use crate::next::{Fault, Span};
use crate::{Messages, Next, Request};
use std::alloc::{AllocError, Global};
use std::test::Fail;

fn tell_span(text: &mut Vec<u8>, bytes: &[u8], span: Span) -> Result<(), AllocError> {
    if let Some(word) = bytes.get(span.start as usize..span.end as usize) {
        text.extend_from_slice(word)?;
    }
    text.extend_from_slice(b" ")
}

fn tell_request(text: &mut Vec<u8>, bytes: &[u8], request: &Request) -> Result<(), AllocError> {
    tell_span(text, bytes, request.method)?;
    tell_span(text, bytes, request.path)?;
    tell_span(text, bytes, request.body)?;
    text.extend_from_slice(if request.version == 1 { b"1.1" } else { b"1.0" })?;
    text.extend_from_slice(if request.close { b" close; " } else { b"; " })
}

fn tell_fault(alloc: Global, text: &mut Vec<u8>, fault: Fault) -> Result<(), AllocError> {
    let told = match fault {
        Fault::Head(place) => format!(in alloc; "head {place}")?,
        Fault::Truncated(place) => format!(in alloc; "truncated {place}")?,
        Fault::LengthRequired(place) => format!(in alloc; "length {place}")?,
        Fault::BodyTooLarge => format!(in alloc; "body")?,
        Fault::HeadTooLarge => format!(in alloc; "size")?,
        Fault::TooManyFields => format!(in alloc; "fields")?,
    };
    text.extend_from_slice(told.as_bytes())
}

/// Tells what the messages have next, up to `More`: true then, and false after the last item of the stream.
fn tell(alloc: Global, text: &mut Vec<u8>, messages: &mut Messages) -> Result<bool, AllocError>
    requires { messages.old.closed ≡ false }
    ensures { IfOk result (λ more. OnTrue more (IsOpenAfter messages.old messages.new)) }
{
    for _ in 0..1000 {
        match messages.next() {
            Next::More => return Ok(true),
            Next::Continue => text.extend_from_slice(b"continue; ")?,
            Next::Request(request) => {
                tell_request(text, messages.bytes(), &request)?;
                messages.done();
                if request.close {
                    return Ok(false);
                }
            }
            Next::Fault(fault) => {
                tell_fault(alloc, text, fault)?;
                return Ok(false);
            }
        }
    }
    Ok(false)
}

/// The items of the stream, fed in a first piece and then pieces of one size.
fn items(alloc: Global, stream: &[u8], first: usize, step: usize) -> Result<Vec<u8>, AllocError>
    requires { 0 < step }
{
    let mut text = Vec::new(alloc);
    let mut messages = Messages::new(alloc)?;
    let mut at = 0;
    let mut end = first.min(stream.len());
    loop {
        let piece = &stream[at..end];
        if piece.len() > messages.room() {
            text.extend_from_slice(b"no room")?;
            return Ok(text);
        }
        messages.feed(piece);
        if !tell(alloc, &mut text, &mut messages)? {
            return Ok(text);
        }
        if end == stream.len() {
            if let Some(fault) = messages.end() {
                tell_fault(alloc, &mut text, fault)?;
            }
            return Ok(text);
        }
        at = end;
        end = end.saturating_add(step).min(stream.len());
    }
}

/// Whether the stream has these items, fed whole, byte by byte and in every cut in two.
fn has_items(alloc: Global, stream: &[u8], expected: &[u8]) -> Result<bool, AllocError> {
    if items(alloc, stream, 1, 1)?.as_slice() != expected {
        return Ok(false);
    }
    for first in 0..stream.len() + 1 {
        if items(alloc, stream, first, usize::MAX)?.as_slice() != expected {
            return Ok(false);
        }
    }
    Ok(true)
}

/// What a row shows, its stream and its items.
const STREAMS: [(&str, &[u8], &[u8]); 26] = [
    ("no bytes", b"", b""),
    ("only empty lines", b"\r\n\n\r\n", b""),
    (
        "requests in one piece",
        b"GET /a HTTP/1.1\r\n\r\nPUT /b HTTP/1.1\r\nContent-Length: 3\r\n\r\nxyzGET /c HTTP/1.1\r\n\r\n",
        b"GET /a  1.1; PUT /b xyz 1.1; GET /c  1.1; ",
    ),
    (
        "empty lines before and after",
        b"\r\n\nGET / HTTP/1.1\r\n\r\n\r\n",
        b"GET /  1.1; ",
    ),
    (
        "lines that end in LF alone",
        b"GET / HTTP/1.1\nHost: x\n\n",
        b"GET /  1.1; ",
    ),
    (
        "Expect in any case",
        b"PUT /b HTTP/1.1\r\neXPECT: 100-Continue\r\ncontent-length: 2\r\n\r\nab",
        b"continue; PUT /b ab 1.1; ",
    ),
    (
        "Expect, and the body doesn't come",
        b"PUT /b HTTP/1.1\r\nExpect: 100-continue\r\nContent-Length: 2\r\n\r\n",
        b"continue; truncated 0",
    ),
    (
        "Expect of no body",
        b"PUT /b HTTP/1.1\r\nExpect: 100-continue\r\n\r\n",
        b"PUT /b  1.1; ",
    ),
    (
        "Expect in 1.0, which closes",
        b"PUT /b HTTP/1.0\r\nExpect: 100-continue\r\nContent-Length: 2\r\n\r\nabGET",
        b"PUT /b ab 1.0 close; ",
    ),
    (
        "close in a list",
        b"GET / HTTP/1.1\r\nConnection: keep-alive, \tCLOSE \r\n\r\nGET",
        b"GET /  1.1 close; ",
    ),
    (
        "no close",
        b"GET / HTTP/1.1\r\nConnection: clo se, closed\r\n\r\n",
        b"GET /  1.1; ",
    ),
    (
        "two lengths",
        b"PUT / HTTP/1.1\r\nContent-Length: 1\r\nContent-Length: 1\r\n\r\nx",
        b"head 0",
    ),
    (
        "19 digits",
        b"PUT / HTTP/1.1\r\nContent-Length:\t0000000000000000001 \r\n\r\nx",
        b"PUT / x 1.1; ",
    ),
    (
        "20 digits",
        b"PUT / HTTP/1.1\r\nContent-Length: 00000000000000000001\r\n\r\nx",
        b"head 0",
    ),
    (
        "a length that is no number",
        b"PUT / HTTP/1.1\r\nContent-Length: +1\r\n\r\nx",
        b"head 0",
    ),
    (
        "19 digits above the limit",
        b"PUT / HTTP/1.1\r\nExpect: 100-continue\r\nContent-Length: 9999999999999999999\r\n\r\n",
        b"body",
    ),
    (
        "one byte too long",
        b"PUT / HTTP/1.1\r\nContent-Length: 16777217\r\n\r\n",
        b"body",
    ),
    (
        "the longest body, cut off",
        b"PUT / HTTP/1.1\r\nContent-Length: 16777216\r\n\r\nx",
        b"truncated 0",
    ),
    (
        "chunked, and two lengths",
        b"PUT / HTTP/1.1\r\nContent-Length: 1\r\nContent-Length: 1\r\nTransfer-Encoding: chunked\r\n\r\n",
        b"length 0",
    ),
    (
        "a body that is cut off",
        b"PUT /b HTTP/1.1\r\nContent-Length: 3\r\n\r\nxy",
        b"truncated 0",
    ),
    (
        "a head that is cut off",
        b"GET / HTTP/1.1\r\n",
        b"truncated 0",
    ),
    (
        "a lone CR",
        b"GET / HTTP/1.1\r\n\r\n\r",
        b"GET /  1.1; truncated 18",
    ),
    (
        "a fault behind empty lines of its own",
        b"\r\nGET / HTTP/1.1\r\n\r\n\r\nbad\r\n\r\n",
        b"GET /  1.1; head 20",
    ),
    (
        "a target that is no UTF-8",
        b"GET /\xff HTTP/1.1\r\n\r\n",
        b"head 0",
    ),
    ("another version", b"GET / HTTP/1.2\r\n\r\n", b"head 0"),
    (
        "a space before the colon",
        b"GET / HTTP/1.1\r\nHost : x\r\n\r\n",
        b"head 0",
    ),
];

/// The first bytes, another text some times over, and the last bytes.
fn repeated(
    alloc: Global,
    front: &[u8],
    middle: &[u8],
    times: usize,
    back: &[u8],
) -> Result<Vec<u8>, AllocError> {
    let mut stream = Vec::from_slice(alloc, front)?;
    for _ in 0..times {
        stream.extend_from_slice(middle)?;
    }
    stream.extend_from_slice(back)?;
    Ok(stream)
}

const LINE: &[u8] = b"GET / HTTP/1.1\r\n";

#[test]
fn streams_have_their_items(rt: HostRuntime) -> Result<(), Fail> {
    for (shows, stream, expected) in STREAMS {
        assert!(rt; has_items(rt.alloc(), stream, expected)?, "{shows}");
    }
    for (fields, expected) in [(64, b"GET /  1.1; ".as_slice()), (65, b"fields")] {
        let stream = repeated(rt.alloc(), LINE, b"a: b\r\n", fields, b"\r\n")?;
        assert!(rt;
            has_items(rt.alloc(), &stream, expected)?,
            "{fields} fields"
        );
    }
    Ok(())
}

// A line of 16 bytes, 16,363 bytes of a name and the last 5 bytes are a head that is as long as one can be.
#[test]
fn the_longest_head_is_a_request(rt: HostRuntime) -> Result<(), Fail> {
    let stream = repeated(rt.alloc(), LINE, b"a", 16_363, b":\r\n\r\n")?;
    assert!(rt; has_items(rt.alloc(), &stream, b"GET /  1.1; ")?);
    Ok(())
}

#[test]
fn a_head_of_one_byte_more_is_too_large(rt: HostRuntime) -> Result<(), Fail> {
    let stream = repeated(rt.alloc(), LINE, b"a", 16_364, b":\r\n\r\n")?;
    assert!(rt; has_items(rt.alloc(), &stream, b"size")?);
    Ok(())
}

#[test]
fn empty_lines_count_for_the_head(rt: HostRuntime) -> Result<(), Fail> {
    let stream = repeated(rt.alloc(), b"", b"\r\n", 8_192, b"GET / HTTP/1.1\r\n\r\n")?;
    assert!(rt; has_items(rt.alloc(), &stream, b"size")?);
    Ok(())
}
