//! The top call.

ghost use Rattle.std.specs.Prelude.{◌≡◌, ◌≤◌, map};
ghost use Rattle.std.specs.String.{string_bytes};
ghost use Rattle.cds_respond.specs.Sending.{Sent};
ghost use Rattle.cds_desk.specs.Stores.{command_in};
ghost use Rattle.cds_desk.specs.Statuses.{exit_number};
ghost use Rattle.cds_desk.specs.Run.{Ran, StreamsEnd, streams, devices, outside};
ghost use Rattle.cds_desk.specs.declared.status.Status.{Status};

use crate::peaks::peaks;
use crate::serve::serve;
use crate::session::session;
use crate::status::Status;
use crate::store::is_store;
use cds_base::{Clock, Door, Sink, Source, Steps};
use cds_keep::Keeper;
use cds_respond::send;
use cds_words::{CommandLine, read_words};
use std::alloc::Global;
use std::sync::ledger::Ledger;

/// What is written where the words are no command.
const USAGE: &[u8] = b"usage: cds peaks|session|serve|demo|migrate\n";

/// Carries out the command that the words state, and answers the status with which the program ends.
///
/// `peaks --bunch B --on T --off T --plateau P` reads a trace from the source to its end and writes to the sink
/// the table of its raw peaks, or `too many` and their number where there are more than 500 (status 0); or, where
/// the trace is refused, `refused`, the number of the refusal and the record at fault if there is one (status 1).
/// A source of more than 16,777,216 bytes is refused with number 9, whatever they are. Status 3 comes only where the
/// source failed, and nothing is then written; status 4 only where the sink failed while a table was written, of
/// which a front then stands in it.
///
/// `session`, with `--store FILE` where the store isn't the one of the empty name, loads the store and serves the source
/// as one connection, with the responses written to the sink: 0 where the source was read to its end or to a request that
/// closes the connection, 1 where the last response tells a fault of the stream, 3 and 4 where the source or the sink
/// failed, 5 where the keeper failed in the load, and nothing was then read or written, and 8 where the store is damaged,
/// which `damaged` and the record's number tell. Over a store without records it takes no more steps than the changes of
/// its requests cost, of which each costs those of the rows and noises whose keys it makes new; so a session of requests
/// that only read takes none.
///
/// `serve --port P --connections N`, with `--store FILE` as before, loads the store, opens the door at this port and
/// serves this number of connections, one after the other: 0 where all were served and closed, 7 where the door failed,
/// and 5, 6 and 8 as before. A fault of a connection's source or sink ends that connection alone. Nothing is read from
/// the source, and nothing is written to the sink but where the store is damaged.
///
/// Other words are no command: the line of usage is written, and nothing is read or loaded (status 2). A sink that
/// fails in the line of 2, of 8 or of a refused trace leaves that status. Status 6 is want of memory, and nothing is
/// then written to the sink. The clock is asked once for each signature that would be made, and for nothing else. Only
/// `serve` uses the door.
pub fn run<S: Source, W: Sink, K: Keeper, C: Clock, D: Door, L: Ledger>(
    alloc: Global,
    words: &[String],
    source: &mut S,
    sink: &mut W,
    keeper: &mut K,
    clock: &mut C,
    door: &mut D,
    steps: &mut Steps<L>,
) -> u8
    ensures ran { (ended : Status) × (result ≡ exit_number ended) × Ran (command_in (map string_bytes words.now)) ended
        (outside (devices (streams source.old (S.told source.old) sink.old (W.told sink.old)) keeper.old
        (K.told keeper.old) (K.finds keeper.old) steps.old clock.old (C.moments clock.old)) door.old (D.told door.old))
        (outside (devices (streams source.new (S.told source.new) sink.new (W.told sink.new)) keeper.new
        (K.told keeper.new) (K.finds keeper.new) steps.new clock.new (C.moments clock.new)) door.new (D.told door.new))
        × StreamsEnd ended (streams source.old (S.told source.old) sink.old (W.told sink.old))
        (streams source.new (S.told source.new) sink.new (W.told sink.new)) }
    ensures keeper_counts { (K.told keeper.old).faults ≤ (K.told keeper.new).faults }
{
    carry_out(alloc, words, source, sink, keeper, clock, door, steps).number()
}

/// Carries out the command that the words state, and answers how it ended.
fn carry_out<S: Source, W: Sink, K: Keeper, C: Clock, D: Door, L: Ledger>(
    alloc: Global,
    words: &[String],
    source: &mut S,
    sink: &mut W,
    keeper: &mut K,
    clock: &mut C,
    door: &mut D,
    steps: &mut Steps<L>,
) -> Status
    ensures ran { Ran (command_in (map string_bytes words.now)) result
        (outside (devices (streams source.old (S.told source.old) sink.old (W.told sink.old)) keeper.old
        (K.told keeper.old) (K.finds keeper.old) steps.old clock.old (C.moments clock.old)) door.old (D.told door.old))
        (outside (devices (streams source.new (S.told source.new) sink.new (W.told sink.new)) keeper.new
        (K.told keeper.new) (K.finds keeper.new) steps.new clock.new (C.moments clock.new)) door.new (D.told door.new)) }
    ensures ends { StreamsEnd result (streams source.old (S.told source.old) sink.old (W.told sink.old))
        (streams source.new (S.told source.new) sink.new (W.told sink.new)) }
    ensures keeper_counts { (K.told keeper.old).faults ≤ (K.told keeper.new).faults }
{
    match read_words(words) {
        Some(CommandLine::Peaks(options)) => return peaks(alloc, options, source, sink, steps),
        Some(CommandLine::Session(store)) if is_store(store) => {
            return session(alloc, store, source, sink, keeper, clock, steps);
        }
        Some(
            CommandLine::Serve {
                port,
                connections,
                store,
            },
        ) if is_store(store) => {
            return serve(
                alloc,
                port,
                connections,
                store,
                sink,
                keeper,
                clock,
                door,
                steps,
            );
        }
        _ => {}
    }
    attempt(sink, USAGE);
    Status::NoCommand
}

/// Writes the text, as far as the sink takes it.
pub(crate) fn attempt<W: Sink>(sink: &mut W, text: &[u8])
    ensures sent { Sent (W.told sink.old).written (W.told sink.new).written (W.told sink.old).faults
        (W.told sink.new).faults text.now }
    ensures counts { (W.told sink.old).faults ≤ (W.told sink.new).faults }
{
    let _ = send(sink, text);
}
