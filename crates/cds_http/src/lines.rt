//! The lines of a head, each byte looked at once.

ghost use Rattle.std.specs.Prelude.{◌≡◌, ◌≤◌, ◌+◌, length};
ghost use Rattle.cds_http.specs.Lines.{is_empty_line};
ghost use Rattle.cds_http.specs.Scan.{IsScanned, Finds, step_of};

use crate::limits::{MOST_FIELDS, MOST_HEAD_BYTES};

/// How far the lines of a head were looked at. Places count from the first byte of the message.
#[derive(Clone, Copy, Debug)]
pub(crate) struct Scan {
    /// Where the line begins that has not ended.
    pub(crate) line: usize,
    /// The byte to look at next.
    pub(crate) looked: usize,
    /// How many lines of the head have ended, the request line and fields.
    pub(crate) count: usize,
}

/// What the lines say of a head.
#[derive(Clone, Copy, Debug)]
pub(crate) enum Seen {
    /// It has not ended.
    Open(Scan),
    /// It has more lines than a request line and `MOST_FIELDS` fields.
    Crowded,
    /// It has so many bytes, with the empty lines before it and the one that ends it.
    Ended(usize),
}

/// What one more line says of a head.
#[derive(Clone, Copy, Debug)]
pub(crate) enum Step {
    /// So many of its lines have ended now.
    Passed(usize),
    Crowds,
    Ends,
}

impl Scan {
    /// Nothing was looked at.
    pub(crate) const START: Scan = Scan {
        line: 0,
        looked: 0,
        count: 0,
    };
}

fn is_empty_line(line: &[u8]) -> bool
    ensures { result ≡ is_empty_line line.now }
{
    matches!(line, [] | [b'\r'])
}

fn step_of(count: usize, line: &[u8]) -> Step
    requires { count ≤ MOST_FIELDS + 1 }
    ensures { result ≡ step_of count line.now }
{
    if is_empty_line(line) {
        if count == 0 {
            Step::Passed(0)
        } else {
            Step::Ends
        }
    } else if count == MOST_FIELDS + 1 {
        Step::Crowds
    } else {
        Step::Passed(count + 1)
    }
}

/// Looks on at the lines of the first bytes of a head.
pub(crate) fn look_on(scan: Scan, bytes: &[u8]) -> Seen
    requires scanned { IsScanned bytes.now scan }
    requires in_head { length bytes.now ≤ MOST_HEAD_BYTES }
    ensures { Finds bytes.now result }
{
    let Scan {
        mut line,
        looked,
        mut count,
    } = scan;
    for at in looked..bytes.len() {
        if bytes[at] != b'\n' {
            continue;
        }
        match step_of(count, &bytes[line..at]) {
            Step::Passed(next) => {
                line = at + 1;
                count = next;
            }
            Step::Crowds => return Seen::Crowded,
            Step::Ends => return Seen::Ended(at + 1),
        }
    }
    Seen::Open(Scan {
        line,
        looked: bytes.len(),
        count,
    })
}
