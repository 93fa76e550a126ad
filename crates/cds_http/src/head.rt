//! A head that has ended, as `httparse` reads it.

ghost use Rattle.std.specs.Prelude.{◌≡◌, ◌+◌, ◌-◌, ◌≤◌, length};
ghost use Rattle.std.specs.List.{prefix_len};
ghost use Rattle.httparse.specs.Pieces.{is_newline};
ghost use Rattle.cds_http.specs.Lines.{lines_of, state_of_lines, ended};
ghost use Rattle.cds_http.specs.Scan.{ParsesHead, JudgesHead};

use crate::fields::{body_length, closes, expects_continue};
use crate::limits::{MOST_FIELDS, MOST_HEAD_BYTES};
use crate::next::{Fault, Request, Span};
use httparse::Status;
use httparse::spans::{EMPTY_HEADER_SPAN, HeaderSpan, RequestSpans, parse_request};

/// What is kept of a whole head.
#[derive(Clone, Copy, Debug)]
pub(crate) struct Head {
    /// Where the parts of the request stand, its body too, also where that has not come yet.
    pub(crate) request: Request,
    /// Whether the sender waits for `100 Continue`.
    pub(crate) expects: bool,
}

fn parse_head(bytes: &[u8], headers: &mut [HeaderSpan]) -> Option<RequestSpans>
    requires { length headers.old ≡ MOST_FIELDS }
    ensures { ParsesHead bytes.now headers.new result }
{
    match parse_request(bytes, headers) {
        Ok(Status::Complete(spans)) => Some(spans),
        _ => None,
    }
}

/// How many bytes the line ends at the front take.
fn blank_len(bytes: &[u8]) -> usize
    ensures { result ≡ prefix_len is_newline bytes.now }
{
    for (at, byte) in bytes.iter().enumerate() {
        if !matches!(byte, b'\r' | b'\n') {
            return at;
        }
    }
    bytes.len()
}

/// As many bytes as another span has, from a place in a head on.
fn span_at(start: usize, like: httparse::spans::Span) -> Span
    requires ordered { like.start ≤ like.end }
    requires in_head { start + (like.end - like.start) ≤ MOST_HEAD_BYTES }
    ensures { result ≡ record { start = start; end = start + (like.end - like.start) } }
{
    Span {
        start: start as u32,
        end: (start + (like.end - like.start)) as u32,
    }
}

/// Judges a head that has ended, with the empty lines before it: the head of the message at a place.
pub(crate) fn read_head(bytes: &[u8], place: u64) -> Result<Head, Fault>
    requires whole { state_of_lines (lines_of bytes.now) ≡ ended (length bytes.now) }
    requires in_head { length bytes.now ≤ MOST_HEAD_BYTES }
    ensures { JudgesHead place bytes.now result }
{
    let mut headers = [EMPTY_HEADER_SPAN; MOST_FIELDS];
    let Some(spans) = parse_head(bytes, &mut headers) else {
        return Err(Fault::Head(place));
    };
    let fields = &headers[..spans.headers];
    let length = body_length(bytes, fields, place)?;
    let method = span_at(blank_len(bytes), spans.method);
    let path = span_at(method.end as usize + 1, spans.path);
    let start = bytes.len() as u32;
    let request = Request {
        method,
        path,
        body: Span {
            start,
            end: start + length,
        },
        version: spans.version,
        close: closes(bytes, fields, spans.version),
    };
    Ok(Head {
        request,
        expects: expects_continue(bytes, fields, spans.version, length),
    })
}
