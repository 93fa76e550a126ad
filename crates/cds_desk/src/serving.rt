//! Serving a connection: items of the stream are taken one after the other, each is served before the next.

ghost use Rattle.std.specs.Prelude.{◌≡◌, ◌≢◌, ℕ, List, ◌+◌, ◌^◌, ◌<◌, ◌≤◌, true, false, [], ◌∷◌, length, slice_range};
ghost use Rattle.std.specs.Prelude.{Some, None, ◌⊎◌, IsUtf8, IfOk, OnOk, OnErr, vec_len};
ghost use Rattle.cds_base.specs.Faults.{Rose};
ghost use Rattle.cds_base.specs.Told.{then_more};
ghost use Rattle.cds_respond.specs.Sending.{HoldsPart};
ghost use Rattle.cds_http.specs.Items.{request as request_item, fault as fault_item};
ghost use Rattle.cds_http.specs.Stream.{message_of, IsRequestIn, room_of, ItemsFrom};
ghost use Rattle.cds_http.specs.declared.next.Fault.{Fault};
ghost use Rattle.cds_http.specs.declared.next.Next.TheVariants as next;
ghost use Rattle.cds_desk.specs.Serving.{world, reading, ItemServed, ItemBroken, EndsAs, FindsOn, ReadOn};
ghost use Rattle.cds_respond.specs.Fixed.{fault_text};
ghost use Rattle.cds_desk.specs.Turn.{Asks};

use crate::desk::Desk;
use crate::turn::{Asked, answer, write_answer};
use cds_base::{Clock, Failed, Sink, Source, Steps};
use cds_http::{Fault, Messages, Next, Request, Span};
use cds_keep::Keeper;
use cds_respond::{Fixed, new_piece, send_fixed};
use std::alloc::{AllocError, Global};
use std::str;
use std::sync::ledger::Ledger;

/// How the serving of a connection ended.
#[derive(Clone, Copy, Debug, PartialEq, Eq)]
pub enum Ended {
    /// Every response was written, and the source was read to its end without a fault of the stream, or to a request
    /// after which the connection closes by its own wish.
    Done,
    /// The last response tells a fault of the stream.
    Refused,
    /// The source failed; the items of the bytes that were read before were served.
    SourceFailed,
    /// The sink failed in what is written for an item; a change that the item made stays, and was kept.
    SinkFailed,
    /// Memory was wanting before anything was read.
    NoMemory,
}

impl Desk {
    #[tactic(auto, using(crate::proofs::ServingLaws::finds_then))]
    /// Serves a connection: reads HTTP messages from the source and writes the responses to the sink, each message in
    /// its turn, until the source ends, a request closes the connection or a fault of the stream is told. The bytes
    /// that were read fix what is written, whatever the sizes of the reads. A change is put to the keeper, whose
    /// store is open, and then carried out; a request that is refused, finds no memory or a keeper that fails changes
    /// nothing. After `SinkFailed` a front of what is due stands in the sink; with every other answer no write failed.
    /// What a load would find keeps step with what is kept. `NoMemory` comes before anything is read or written. The
    /// clock is asked once for each signature that would be made, and for nothing else. No more steps are taken than the
    /// changes of the requests cost, of which each costs those of the rows and noises whose keys it makes new.
    pub fn serve_connection<S: Source, W: Sink, K: Keeper, C: Clock, L: Ledger>(
        &mut self,
        source: &mut S,
        sink: &mut W,
        keeper: &mut K,
        clock: &mut C,
        steps: &mut Steps<L>,
    ) -> Ended
        requires { (K.told keeper.old).is_open ≡ true }
        ensures ends { EndsAs result
            (world (W.told sink.old).written self.old (K.told keeper.old) steps.old (C.moments clock.old))
            (world (W.told sink.new).written self.new (K.told keeper.new) steps.new (C.moments clock.new))
            (reading (S.told source.old).given (S.told source.old).left)
            (reading (S.told source.new).given (S.told source.new).left) }
        ensures failed_read { result ≢ Ended.SourceFailed → (S.told source.new).faults ≡ (S.told source.old).faults }
        ensures failed_write { result ≢ Ended.SinkFailed → (W.told sink.new).faults ≡ (W.told sink.old).faults }
        ensures finds { (name : List ℕ)
            → FindsOn (K.finds keeper.old name) (K.finds keeper.new name) (K.told keeper.old) (K.told keeper.new) }
        ensures source_failed { result ≡ Ended.SourceFailed
            → Rose (S.told source.old).faults (S.told source.new).faults }
        ensures sink_failed { result ≡ Ended.SinkFailed → Rose (W.told sink.old).faults (W.told sink.new).faults }
        ensures no_memory { result ≡ Ended.NoMemory → (self.new ≡ self.old) × (source.new ≡ source.old)
            × (sink.new ≡ sink.old) × (keeper.new ≡ keeper.old) × (steps.new ≡ steps.old)
            × (clock.new ≡ clock.old) }
        ensures stays_open { (K.told keeper.new).is_open ≡ true }
        ensures source_counts { (S.told source.old).faults ≤ (S.told source.new).faults }
        ensures sink_counts { (W.told sink.old).faults ≤ (W.told sink.new).faults }
        ensures keeper_counts { (K.told keeper.old).faults ≤ (K.told keeper.new).faults }
    {
        let Ok(mut messages) = Messages::new(self.alloc) else {
            return Ended::NoMemory;
        };
        let Ok(mut piece) = new_piece(self.alloc) else {
            return Ended::NoMemory;
        };
        loop {
            match messages.next() {
                Next::More => match ask(source, &mut messages, &mut piece) {
                    Ok(0) => return finish(&mut messages, sink),
                    Ok(_) => {}
                    Err(Failed) => return Ended::SourceFailed,
                },
                Next::Continue => match send_fixed(sink, Fixed::Continue) {
                    Ok(()) => {}
                    Err(Failed) => return Ended::SinkFailed,
                },
                Next::Request(request) => {
                    match self.serve(&messages, request, sink, keeper, clock, steps) {
                        Ok(()) => messages.done(),
                        Err(Failed) => return Ended::SinkFailed,
                    }
                    if request.close {
                        return Ended::Done;
                    }
                }
                Next::Fault(fault) => return refuse(sink, fault),
            }
        }
    }
}

impl Desk {
    /// Serves a request: what is answered to it is written, and what it changes is kept and carried out.
    fn serve<W: Sink, K: Keeper, C: Clock, L: Ledger>(
        &mut self,
        messages: &Messages,
        request: Request,
        sink: &mut W,
        keeper: &mut K,
        clock: &mut C,
        steps: &mut Steps<L>,
    ) -> Result<(), Failed>
        requires opened { (K.told keeper.old).is_open ≡ true }
        requires whole { IsRequestIn messages.now.bytes request }
        ensures served { OnOk result (ItemServed
            (world (W.told sink.old).written self.old (K.told keeper.old) steps.old (C.moments clock.old))
            (world (W.told sink.new).written self.new (K.told keeper.new) steps.new (C.moments clock.new))
            (request_item (message_of messages.now.bytes request))) }
        ensures broken { OnErr result (ItemBroken
            (world (W.told sink.old).written self.old (K.told keeper.old) steps.old (C.moments clock.old))
            (world (W.told sink.new).written self.new (K.told keeper.new) steps.new (C.moments clock.new))
            (request_item (message_of messages.now.bytes request))) }
        ensures finds { (name : List ℕ)
            → FindsOn (K.finds keeper.old name) (K.finds keeper.new name) (K.told keeper.old) (K.told keeper.new) }
        ensures failed { OnErr result (Rose (W.told sink.old).faults (W.told sink.new).faults) }
        ensures kept { OnOk result ((W.told sink.new).faults ≡ (W.told sink.old).faults) }
        ensures counts { (W.told sink.old).faults ≤ (W.told sink.new).faults }
        ensures stays_open { (K.told keeper.new).is_open ≡ true }
        ensures keeper_counts { (K.told keeper.old).faults ≤ (K.told keeper.new).faults }
    {
        let asked = asked_in(messages.bytes(), request);
        let turned = answer(
            self.alloc,
            &self.router,
            &mut self.state,
            keeper,
            clock,
            steps,
            asked,
        );
        write_answer(sink, &turned.answered, asked.close, asked.without_body)
    }
}

/// The parts of a request, which are ranges of these bytes.
fn asked_in(bytes: &[u8], request: Request) -> Asked<'_>
    requires { IsRequestIn bytes.now request }
    ensures { Asks result (message_of bytes.now request) }
{
    let method = range(bytes, request.method);
    Asked {
        method,
        target: text(range(bytes, request.path)),
        body: range(bytes, request.body),
        close: request.close,
        without_body: method == b"HEAD".as_slice(),
    }
}

/// The bytes of a range.
fn range(bytes: &[u8], span: Span) -> &[u8]
    requires ordered { span.start ≤ span.end }
    requires in_range { span.end ≤ length bytes.now }
    ensures { result.now ≡ slice_range bytes.now span.start span.end }
{
    &bytes[span.start as usize..span.end as usize]
}

/// The text that the bytes are.
fn text(bytes: &[u8]) -> &str
    requires { IsUtf8 bytes.now }
    ensures { result.now ≡ bytes.now }
{
    str::from_utf8(bytes).unwrap()
}

/// Asks the source for as many bytes as the stream and the piece have room for.
fn ask<S: Source>(
    source: &mut S,
    messages: &mut Messages,
    piece: &mut Vec<u8>,
) -> Result<usize, Failed>
    requires room { 0 < room_of messages.old }
    requires some { 0 < vec_len piece.old }
    requires not_closed { messages.old.closed ≡ false }
    requires counted { (S.told source.old).bound < 2 ^ 64
        → messages.old.place + length messages.old.bytes + (S.told source.old).bound < 2 ^ 64 }
    ensures read { IfOk result (ReadOn (reading (S.told source.old).given (S.told source.old).left)
        (reading (S.told source.new).given (S.told source.new).left) messages.old messages.new) }
    ensures nears { IfOk result (λ n. (S.told source.new).bound + n ≡ (S.told source.old).bound) }
    ensures bounded { (S.told source.old).bound < 2 ^ 64 }
    ensures counts { (S.told source.old).faults ≤ (S.told source.new).faults }
    ensures kept { IfOk result (λ _. (S.told source.new).faults ≡ (S.told source.old).faults) }
    ensures failed { OnErr result (Rose (S.told source.old).faults (S.told source.new).faults) }
    ensures given_stays { OnErr result ((S.told source.new).given ≡ (S.told source.old).given) }
    ensures left_stays { OnErr result ((S.told source.new).left ≡ (S.told source.old).left) }
    ensures stream_stays { OnErr result (messages.new ≡ messages.old) }
    ensures piece { vec_len piece.new ≡ vec_len piece.old }
{
    let most = messages.room().min(piece.len());
    read_on(source, messages, &mut piece[..most])
}

/// Asks the source for the next bytes of the stream, and answers how many came; 0 is its end.
#[tactic(auto, using(crate::proofs::ServingLaws::read_some))]
fn read_on<S: Source>(
    source: &mut S,
    messages: &mut Messages,
    piece: &mut [u8],
) -> Result<usize, Failed>
    requires in_room { length piece.old ≤ room_of messages.old }
    requires some { 0 < length piece.old }
    requires not_closed { messages.old.closed ≡ false }
    requires counted { (S.told source.old).bound < 2 ^ 64
        → messages.old.place + length messages.old.bytes + (S.told source.old).bound < 2 ^ 64 }
    ensures read { IfOk result (ReadOn (reading (S.told source.old).given (S.told source.old).left)
        (reading (S.told source.new).given (S.told source.new).left) messages.old messages.new) }
    ensures nears { IfOk result (λ n. (S.told source.new).bound + n ≡ (S.told source.old).bound) }
    ensures bounded { (S.told source.old).bound < 2 ^ 64 }
    ensures counts { (S.told source.old).faults ≤ (S.told source.new).faults }
    ensures kept { IfOk result (λ _. (S.told source.new).faults ≡ (S.told source.old).faults) }
    ensures failed { OnErr result (Rose (S.told source.old).faults (S.told source.new).faults) }
    ensures given_stays { OnErr result ((S.told source.new).given ≡ (S.told source.old).given) }
    ensures left_stays { OnErr result ((S.told source.new).left ≡ (S.told source.old).left) }
    ensures stream_stays { OnErr result (messages.new ≡ messages.old) }
    ensures piece { length piece.new ≡ length piece.old }
{
    let count = source.read(piece)?;
    if 0 < count {
        messages.feed(&piece[..count]);
    }
    Ok(count)
}

/// Judges what is left at the end of the source, and tells a fault.
fn finish<W: Sink>(messages: &mut Messages, sink: &mut W) -> Ended
    requires asked { messages.old.last ≡ Some Next.More }
    requires not_closed { messages.old.closed ≡ false }
    ensures done { result ≡ Ended.Done → ItemsFrom messages.old [] true [] × (sink.new ≡ sink.old) }
    ensures refused { result ≡ Ended.Refused → (fault : Fault) × ItemsFrom messages.old [] true (fault_item fault ∷ [])
        × ((W.told sink.new).written ≡ then_more (W.told sink.old).written (fault_text fault)) }
    ensures broken { result ≡ Ended.SinkFailed → (fault : Fault)
        × ItemsFrom messages.old [] true (fault_item fault ∷ [])
        × HoldsPart (W.told sink.old).written (W.told sink.new).written (fault_text fault) }
    ensures rose { result ≡ Ended.SinkFailed → Rose (W.told sink.old).faults (W.told sink.new).faults }
    ensures kept { result ≢ Ended.SinkFailed → (W.told sink.new).faults ≡ (W.told sink.old).faults }
    ensures either { (result ≡ Ended.Done) ⊎ (result ≡ Ended.Refused) ⊎ (result ≡ Ended.SinkFailed) }
    ensures counts { (W.told sink.old).faults ≤ (W.told sink.new).faults }
{
    match messages.end() {
        None => return Ended::Done,
        Some(fault) => return refuse(sink, fault),
    }
}

/// Tells a fault of the stream.
fn refuse<W: Sink>(sink: &mut W, fault: Fault) -> Ended
    ensures refused { result ≡ Ended.Refused
        → (W.told sink.new).written ≡ then_more (W.told sink.old).written (fault_text fault) }
    ensures broken { result ≡ Ended.SinkFailed
        → HoldsPart (W.told sink.old).written (W.told sink.new).written (fault_text fault)
        × Rose (W.told sink.old).faults (W.told sink.new).faults }
    ensures kept { result ≢ Ended.SinkFailed → (W.told sink.new).faults ≡ (W.told sink.old).faults }
    ensures either { (result ≡ Ended.Refused) ⊎ (result ≡ Ended.SinkFailed) }
    ensures counts { (W.told sink.old).faults ≤ (W.told sink.new).faults }
{
    match send_fixed(sink, Fixed::Fault(fault)) {
        Ok(()) => Ended::Refused,
        Err(Failed) => Ended::SinkFailed,
    }
}
