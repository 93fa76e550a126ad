//! The command `serve`: connections are taken from a door, served over one store, and closed, one after the other.

ghost use Rattle.std.specs.Prelude.{◌≡◌, ◌≢◌, ◌≤◌, ℕ, List, true};
ghost use Rattle.cds_desk.specs.Run.{server, ServeRan};
ghost use Rattle.cds_desk.specs.Serving.{lasting, FindsOn};
ghost use Rattle.cds_desk.specs.Statuses.{ends_serve};
ghost use Rattle.cds_desk.specs.Serve.{served, IsVisited, Listens, TakesOne, Visited};

use crate::desk::Desk;
use crate::serving::Ended;
use crate::status::Status;
use crate::store::open_store;
use cds_base::{Clock, Door, Sink, Steps};
use cds_keep::Keeper;
use std::alloc::Global;
use std::sync::ledger::Ledger;

/// The command `serve`: opens the store of this name, listens at this port and serves this number of connections. The
/// sink is written to only where the store is damaged.
pub(crate) fn serve<W: Sink, K: Keeper, C: Clock, D: Door, L: Ledger>(
    alloc: Global,
    port: u16,
    number: u32,
    store: &str,
    sink: &mut W,
    keeper: &mut K,
    clock: &mut C,
    door: &mut D,
    steps: &mut Steps<L>,
) -> Status
    ensures ran { ServeRan port number store.now result
        (server sink.old (W.told sink.old) (K.told keeper.old) (K.finds keeper.old) steps.old clock.old
        (C.moments clock.old) door.old (D.told door.old))
        (server sink.new (W.told sink.new) (K.told keeper.new) (K.finds keeper.new) steps.new clock.new
        (C.moments clock.new) door.new (D.told door.new)) }
    ensures statuses { ends_serve result ≡ true }
    ensures quiet { result ≢ Status.Damaged → sink.new ≡ sink.old }
    ensures sink_counts { (W.told sink.old).faults ≤ (W.told sink.new).faults }
{
    let mut desk = match open_store(alloc, store, sink, keeper, steps) {
        Ok(desk) => desk,
        Err(how) => return how,
    };
    desk.serve_door(port, number, keeper, clock, door, steps)
}

/// What came of one connection.
#[derive(Clone, Copy, Debug, PartialEq, Eq)]
pub(crate) enum Taken {
    /// It was served and closed.
    Closed,
    /// It was closed, and memory was wanting before anything of it was read.
    NoMemory,
    /// The door gave none.
    DoorFailed,
}

impl Desk {
    /// Listens at this port, and serves this number of connections, one after the other, each over what those before it
    /// left. A fault of a connection's source or sink ends that connection alone.
    pub(crate) fn serve_door<K: Keeper, C: Clock, D: Door, L: Ledger>(
        &mut self,
        port: u16,
        number: u32,
        keeper: &mut K,
        clock: &mut C,
        door: &mut D,
        steps: &mut Steps<L>,
    ) -> Status
        requires { (K.told keeper.old).is_open ≡ true }
        ensures serves { Listens result port number
            (served (lasting self.old (K.told keeper.old) steps.old (C.moments clock.old)) (D.told door.old))
            (served (lasting self.new (K.told keeper.new) steps.new (C.moments clock.new)) (D.told door.new)) }
        ensures finds { (name : List ℕ)
            → FindsOn (K.finds keeper.old name) (K.finds keeper.new name) (K.told keeper.old) (K.told keeper.new) }
        ensures stays_open { (K.told keeper.new).is_open ≡ true }
        ensures counts { ((K.told keeper.old).faults ≤ (K.told keeper.new).faults)
            × ((D.told door.old).faults ≤ (D.told door.new).faults) }
    {
        match door.open(port) {
            Ok(()) => self.serve_all(number, keeper, clock, door, steps),
            Err(_) => Status::DoorFailed,
        }
    }

    /// Serves this number of connections of a door that listens.
    fn serve_all<K: Keeper, C: Clock, D: Door, L: Ledger>(
        &mut self,
        number: u32,
        keeper: &mut K,
        clock: &mut C,
        door: &mut D,
        steps: &mut Steps<L>,
    ) -> Status
        requires { (K.told keeper.old).is_open ≡ true }
        ensures visited { Visited result number
            (served (lasting self.old (K.told keeper.old) steps.old (C.moments clock.old)) (D.told door.old))
            (served (lasting self.new (K.told keeper.new) steps.new (C.moments clock.new)) (D.told door.new)) }
        ensures finds { (name : List ℕ)
            → FindsOn (K.finds keeper.old name) (K.finds keeper.new name) (K.told keeper.old) (K.told keeper.new) }
        ensures stays_open { (K.told keeper.new).is_open ≡ true }
        ensures counts { ((K.told keeper.old).faults ≤ (K.told keeper.new).faults)
            × ((D.told door.old).faults ≤ (D.told door.new).faults) }
    {
        for count in 0..number {
            match self.serve_next(keeper, clock, door, steps) {
                Taken::Closed => {}
                Taken::NoMemory => return Status::NoMemory,
                Taken::DoorFailed => return Status::DoorFailed,
            }
        }
        Status::Done
    }

    /// Takes the next connection from the door, serves it and closes it.
    fn serve_next<K: Keeper, C: Clock, D: Door, L: Ledger>(
        &mut self,
        keeper: &mut K,
        clock: &mut C,
        door: &mut D,
        steps: &mut Steps<L>,
    ) -> Taken
        requires { (K.told keeper.old).is_open ≡ true }
        ensures takes { TakesOne result
            (served (lasting self.old (K.told keeper.old) steps.old (C.moments clock.old)) (D.told door.old))
            (served (lasting self.new (K.told keeper.new) steps.new (C.moments clock.new)) (D.told door.new)) }
        ensures finds { (name : List ℕ)
            → FindsOn (K.finds keeper.old name) (K.finds keeper.new name) (K.told keeper.old) (K.told keeper.new) }
        ensures stays_open { (K.told keeper.new).is_open ≡ true }
        ensures counts { ((K.told keeper.old).faults ≤ (K.told keeper.new).faults)
            × ((D.told door.old).faults ≤ (D.told door.new).faults) }
    {
        let Ok((mut input, mut output)) = door.next() else {
            return Taken::DoorFailed;
        };
        let ended = self.serve_connection(&mut input, &mut output, keeper, clock, steps);
        door.close(input, output);
        match ended {
            Ended::NoMemory => Taken::NoMemory,
            Ended::Done | Ended::Refused | Ended::SourceFailed | Ended::SinkFailed => Taken::Closed,
        }
    }
}
