//! A stream that comes in pieces, and what it has next.

ghost use Rattle.std.specs.Prelude.{◌≡◌, ◌+◌, ◌-◌, ◌^◌, ◌<◌, ◌≤◌, ◌++◌, [], length, drop, false, true, Some, None, IsSome, IfSome, IfOk, MatchOption, vec_len, if◌then◌else◌};
ghost use Rattle.std.specs.Vec.{vec_capacity};
ghost use Rattle.cds_http.specs.Items.{is_only_empty_lines};
ghost use Rattle.cds_http.specs.Stream.{new_stream, room_of, kept_answer, fed, fault_in, request_in, Decides, TellsItem, is_continue, answered, dropped, IfRequest, IsRequestIn, AddsPiece, AddsAnswer, AddsRequest, ItemsFrom, last_items, judged_end};

use crate::known::{Known, answer, is_blank, look};
use crate::limits::MESSAGE_ROOM;
use crate::next::{Fault, Next, Request};
use cds_base::NoMemory;
use std::alloc::Global;
use std::marker::Model;

/// The bytes of a stream that were fed and not dropped, with what they have next.
#[derive(Drop)]
pub struct Messages {
    /// The bytes from `start` on are those held.
    held: Vec<u8>,
    start: usize,
    /// How many bytes of the stream stood before those held.
    place: u64,
    known: Known,
    continued: bool,
    last: Option<Next>,
    closed: bool,
}

impl Model for Messages {
    ghost use Rattle.cds_http.specs.Stream.{Stream};

    ghost Value = { Stream };

    ghost use Rattle.cds_http.specs.Inside.{stream_of, Holds};

    ghost view = { stream_of };

    ghost invariant = { Holds };
}

/// Moves the bytes from a place on to the front, and drops those before.
fn move_down(held: &mut Vec<u8>, start: usize)
    requires { start ≤ vec_len held.old }
    ensures items { held.new.items ≡ drop start held.old.items }
    ensures len { vec_len held.new ≡ vec_len held.old - start }
    ensures capacity { vec_capacity held.new ≡ vec_capacity held.old }
{
    let len = held.len();
    held.copy_within(start..len, 0);
    held.truncate(len - start);
}

/// Adds bytes that there is room for.
fn append(held: &mut Vec<u8>, piece: &[u8])
    requires { vec_len held.old + length piece.now ≤ vec_capacity held.old }
    ensures items { held.new.items ≡ held.old.items ++ piece.now }
    ensures len { vec_len held.new ≡ vec_len held.old + length piece.now }
    ensures capacity { vec_capacity held.old ≤ vec_capacity held.new }
{
    held.extend_from_slice(piece).unwrap();
}

/// Adds bytes behind those held, which begin at `start`, and answers where they begin then. Those held are moved to
/// the front where they are no more than those that were dropped before them, or where the room behind them is too
/// small for the piece: so no memory is written but what a message needs, and each byte that is moved was paid for
/// by one that was dropped.
fn take_in(held: &mut Vec<u8>, start: usize, piece: &[u8]) -> usize
    requires start { start ≤ vec_len held.old }
    requires total { vec_len held.old ≤ MESSAGE_ROOM }
    requires capacity { MESSAGE_ROOM ≤ vec_capacity held.old }
    requires in_room { vec_len held.old - start + length piece.now ≤ MESSAGE_ROOM }
    ensures bytes { drop result held.new.items ≡ drop start held.old.items ++ piece.now }
    ensures start { result ≤ vec_len held.new }
    ensures len { vec_len held.new - result ≡ vec_len held.old - start + length piece.now }
    ensures total { vec_len held.new ≤ MESSAGE_ROOM }
    ensures capacity { MESSAGE_ROOM ≤ vec_capacity held.new }
{
    if start < held.len() - start && piece.len() <= MESSAGE_ROOM - held.len() {
        append(held, piece);
        return start;
    }
    move_down(held, start);
    append(held, piece);
    0
}

fn fault_in(last: Option<Next>) -> Option<Fault>
    ensures { result ≡ fault_in last }
{
    match last {
        Some(Next::Fault(fault)) => Some(fault),
        _ => None,
    }
}

fn request_in(last: Option<Next>) -> Option<Request>
    ensures { result ≡ request_in last }
{
    match last {
        Some(Next::Request(request)) => Some(request),
        _ => None,
    }
}

fn kept_answer(last: Option<Next>) -> Option<Next>
    ensures { result ≡ kept_answer last }
{
    match fault_in(last) {
        Some(fault) => Some(Next::Fault(fault)),
        None => None,
    }
}

fn is_continue(next: &Next) -> bool
    ensures { result ≡ is_continue next.now }
{
    matches!(next, Next::Continue)
}

impl Messages {
    /// A stream of which nothing has come. Takes the whole room, for one greatest message: want of memory is its one
    /// refusal, and no other call takes memory.
    pub fn new(alloc: Global) -> Result<Messages, NoMemory>
        ensures { IfOk result (λ m. m ≡ new_stream) }
    {
        Ok(Messages {
            held: Vec::with_capacity(alloc, MESSAGE_ROOM)?,
            start: 0,
            place: 0,
            known: Known::START,
            continued: false,
            last: None,
            closed: false,
        })
    }

    /// How many bytes may be fed now.
    pub fn room(&self) -> usize
        ensures { result ≡ room_of self.now }
    {
        MESSAGE_ROOM - (self.held.len() - self.start)
    }

    /// The bytes that were fed and not dropped. The ranges of a request are ranges of these.
    pub fn bytes(&self) -> &[u8]
        ensures { result.now ≡ self.now.bytes }
    {
        &self.held[self.start..]
    }

    /// Takes the next bytes of the stream, at most `room` of them. The stream with them is below 2^64 bytes, and no
    /// request that closes the connection was dropped. The bytes held are moved only where they are no more than
    /// those that were dropped before them, or where the room behind them is too small for the piece.
    pub fn feed(&mut self, piece: &[u8])
        requires in_room { length piece.now ≤ room_of self.old }
        requires counted { self.old.place + length self.old.bytes + length piece.now < 2 ^ 64 }
        requires not_closed { self.old.closed ≡ false }
        ensures after { self.new ≡ fed self.old piece.now }
        ensures items { AddsPiece self.old piece.now self.new }
    {
        self.start = take_in(&mut self.held, self.start, piece);
        self.last = kept_answer(self.last);
    }

    /// What the stream has next, by the bytes held alone. `More` comes exactly where they have no whole request, no
    /// fault and no `Continue` that was not answered, and then at least one byte may be fed. The same request is
    /// answered again until it is dropped. A `Continue` is answered once. After a fault it is the same fault. No
    /// request that closes the connection was dropped.
    pub fn next(&mut self) -> Next
        requires { self.old.closed ≡ false }
        ensures answer { MatchOption (fault_in self.old.last) (Decides self.old result)
            (λ fault. result ≡ Next.Fault fault) }
        ensures item { fault_in self.old.last ≡ None → TellsItem self.old result }
        ensures after { self.new ≡ answered self.old result }
        ensures room { result ≡ Next.More → 0 < room_of self.new }

        // The ranges of a request lie within the bytes held.
        ensures request { IfRequest result (IsRequestIn self.new.bytes) }

        // The items of the stream from here on are what the answer adds, and then those after it.
        ensures items { fault_in self.old.last ≡ None → AddsAnswer self.old result self.new }
    {
        if let Some(fault) = fault_in(self.last) {
            return Next::Fault(fault);
        }
        self.decide()
    }

    /// Answers what the bytes held decide.
    fn decide(&mut self) -> Next
        ensures answer { Decides self.old result }
        ensures after { self.new ≡ answered self.old result }
    {
        let bytes = &self.held[self.start..];
        self.known = look(self.known, bytes, self.place);
        let next = answer(&self.known, bytes.len(), self.continued);
        self.continued |= is_continue(&next);
        self.last = Some(next);
        next
    }

    /// Drops the message that `next` answered last, since when nothing was fed and no message was dropped.
    pub fn done(&mut self)
        requires { IsSome (request_in self.old.last) }
        ensures after { IfSome (request_in self.old.last) (λ request. self.new ≡ dropped self.old request) }

        // The message is the next item of the stream, and the items after it are those of what is left.
        ensures items { IfSome (request_in self.old.last) (λ request. AddsRequest self.old request self.new) }
    {
        let request = request_in(self.last).unwrap();
        self.drop_front(&request);
    }

    /// Drops the bytes of a request at the front.
    fn drop_front(&mut self, request: &Request)
        requires { request.now.body.end ≤ length self.old.bytes }
        ensures { self.new ≡ dropped self.old request.now }
    {
        self.start += request.body.end as usize;
        self.place += u64::from(request.body.end);
        self.known = Known::START;
        self.continued = false;
        self.last = None;
        self.closed = request.close;
    }

    /// Judges what is left at the end of the input: a fault exactly where it isn't only empty lines. `next` answered
    /// `More` last, and nothing was fed since. No request that closes the connection was dropped.
    pub fn end(&mut self) -> Option<Fault>
        requires asked { self.old.last ≡ Some Next.More }
        requires not_closed { self.old.closed ≡ false }
        ensures answer { result
            ≡ (if is_only_empty_lines self.old.bytes then None else Some (Fault.Truncated self.old.place)) }
        ensures after { self.new ≡ judged_end self.old result }

        // With the end of the input, the fault is the one item that is left.
        ensures items { ItemsFrom self.old [] true (last_items result) }
    {
        let held = self.held.len() - self.start;
        if is_blank(&self.known, held) {
            return None;
        }
        let fault = Fault::Truncated(self.place);
        self.last = Some(Next::Fault(fault));
        Some(fault)
    }
}
