//! What is known of the message at the front of the bytes held, and how it grows.

ghost use Rattle.std.specs.Prelude.{◌≡◌, ◌<◌};
ghost use Rattle.cds_http.specs.Known.{Knows, KnowsAll, AnswersFront, is_blank};

use crate::head::{Head, read_head};
use crate::limits::MOST_HEAD_BYTES;
use crate::lines::{Scan, Seen, look_on};
use crate::next::{Fault, Next};

/// What is known of the message at the front.
#[derive(Clone, Copy, Debug)]
pub(crate) enum Known {
    /// Its head has not ended, as far as its lines were looked at.
    Lines(Scan),
    /// Its head is whole.
    Head(Head),
    /// It is none.
    Fault(Fault),
}

impl Known {
    /// Nothing was looked at.
    pub(crate) const START: Known = Known::Lines(Scan::START);
}

/// Looks at the bytes that were not looked at: each byte of a head once. The head is read when it has ended, once.
pub(crate) fn look(known: Known, bytes: &[u8], place: u64) -> Known
    requires { Knows place bytes.now known }
    ensures { KnowsAll place bytes.now result }
{
    let Known::Lines(scan) = known else {
        return known;
    };
    let front = &bytes[..bytes.len().min(MOST_HEAD_BYTES)];
    match look_on(scan, front) {
        Seen::Open(scan) => {
            if bytes.len() < MOST_HEAD_BYTES {
                Known::Lines(scan)
            } else {
                Known::Fault(Fault::HeadTooLarge)
            }
        }
        Seen::Crowded => Known::Fault(Fault::TooManyFields),
        Seen::Ended(size) => match read_head(&front[..size], place) {
            Ok(head) => Known::Head(head),
            Err(fault) => Known::Fault(fault),
        },
    }
}

/// What the message at the front has next, where so many bytes are held and its `Continue` was answered or not.
pub(crate) fn answer(known: &Known, held: usize, continued: bool) -> Next
    ensures { AnswersFront known.now held continued result }
{
    match known {
        Known::Lines(_) => Next::More,
        Known::Fault(fault) => Next::Fault(*fault),
        Known::Head(head) => {
            if head.expects && !continued {
                Next::Continue
            } else if head.request.body.end as usize <= held {
                Next::Request(head.request)
            } else {
                Next::More
            }
        }
    }
}

/// Whether all bytes, so many, are of empty lines, where every byte was looked at.
pub(crate) fn is_blank(known: &Known, held: usize) -> bool
    ensures { result ≡ is_blank known.now held }
{
    match known {
        Known::Lines(scan) => scan.count == 0 && scan.line == held,
        _ => false,
    }
}
