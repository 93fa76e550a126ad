//! The command `session`: one connection over the source and the sink, with a store.

ghost use Rattle.std.specs.Prelude.{◌≡◌};
ghost use Rattle.cds_desk.specs.Run.{SessionRan, StreamsEnd, streams, devices};
ghost use Rattle.cds_desk.specs.Session.{status_of};

use crate::serving::Ended;
use crate::status::Status;
use crate::store::open_store;
use cds_base::{Clock, Sink, Source, Steps};
use cds_keep::Keeper;
use std::alloc::Global;
use std::sync::ledger::Ledger;

/// The command `session`: loads the store of this name, opens the desk and serves the source.
pub(crate) fn session<S: Source, W: Sink, K: Keeper, C: Clock, L: Ledger>(
    alloc: Global,
    store: &str,
    source: &mut S,
    sink: &mut W,
    keeper: &mut K,
    clock: &mut C,
    steps: &mut Steps<L>,
) -> Status
    ensures ran { SessionRan store.now result
        (devices (streams source.old (S.told source.old) sink.old (W.told sink.old)) keeper.old (K.told keeper.old)
        (K.finds keeper.old) steps.old clock.old (C.moments clock.old))
        (devices (streams source.new (S.told source.new) sink.new (W.told sink.new)) keeper.new (K.told keeper.new)
        (K.finds keeper.new) steps.new clock.new (C.moments clock.new)) }
    ensures ends { StreamsEnd result (streams source.old (S.told source.old) sink.old (W.told sink.old))
        (streams source.new (S.told source.new) sink.new (W.told sink.new)) }
{
    let mut desk = match open_store(alloc, store, sink, keeper, steps) {
        Ok(desk) => desk,
        Err(how) => return how,
    };
    let ended = desk.serve_connection(source, sink, keeper, clock, steps);
    status_of(ended)
}

/// The status of a session whose serving ended so.
pub(crate) fn status_of(ended: Ended) -> Status
    ensures { result ≡ status_of ended }
{
    match ended {
        Ended::Done => Status::Done,
        Ended::Refused => Status::Refused,
        Ended::SourceFailed => Status::SourceFailed,
        Ended::SinkFailed => Status::SinkFailed,
        Ended::NoMemory => Status::NoMemory,
    }
}
