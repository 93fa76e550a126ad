ghost use Rattle.std.specs.Prelude.{◌≡◌, ◌+◌, ◌<◌, ◌≤◌, [], length, map, true, false, get_or, Option, Some, None, option_map, IfOk, IsOk, IsErr, OnErr};
ghost use Rattle.std.specs.List.{All};
ghost use Rattle.std.specs.Result.{is_err};
ghost use Rattle.cds_base.specs.Failing.{after_call, fails_next, one_more};
ghost use Rattle.cds_base.specs.Faults.{Rose};
ghost use Rattle.cds_base.specs.Door.{opened_at, first_taken};
ghost use Rattle.cds_base.specs.MemDoor.{bytes_of, closed_pair, IsUnused};

use crate::door::Door;
use crate::failed::Failed;
use crate::failing::Failing;
use crate::mem_sink::MemSink;
use crate::mem_source::MemSource;
use std::alloc::{AllocError, Global};
use std::collections::VecDeque;
use std::marker::Model;

/// A door in memory, which tells its port, the connections to come and the closed ones. The calls of `open` and
/// `next` whose numbers, counted together from 1, it was made with fail, and so does `next` where no connection is
/// to come.
#[derive(Debug, Drop)]
pub struct MemDoor {
    port: Option<u16>,
    coming: VecDeque<(MemSource, MemSink)>,
    closed: Vec<(MemSource, MemSink)>,
    pairs: usize,
    failing: Failing,
}

impl Model for MemDoor {
    ghost use Rattle.std.specs.Prelude.{map, vec_len, vec_capacity};
    ghost use Rattle.std.specs.VecDeque.{deque_len};
    ghost use Rattle.cds_base.specs.MemDoor.{MemDoorState, HasRoom, bytes_of, closed_pair};

    ghost Value = { MemDoorState };

    ghost view = { λ a. record { told = record { port = a.port; coming = map bytes_of a.coming.items; closed = map closed_pair a.closed.items }; pairs = a.pairs; failing = a.failing } };

    ghost invariant = { λ a. HasRoom a.coming.items (vec_len a.closed) a.pairs (deque_len a.coming)
        (vec_capacity a.closed) };
}

impl MemDoor {
    /// A door with these connections to come, none of whose sources and sinks was used, which fails at the calls
    /// whose numbers are listed. It takes all its room: no call behind it takes memory.
    pub fn new(
        alloc: Global,
        coming: VecDeque<(MemSource, MemSink)>,
        failing: &[u64],
    ) -> Result<MemDoor, AllocError>
        requires { All IsUnused coming.items }
        ensures { IfOk result (λ door. door ≡ record {
          told = record { port = None; coming = map bytes_of coming.items; closed = [] };
          pairs = 0;
          failing = record { numbers = failing.now; calls = 0; faults = 0 };
        }) }
    {
        Ok(MemDoor {
            port: None,
            closed: Vec::with_capacity(alloc, coming.len())?,
            coming,
            pairs: 0,
            failing: Failing::new(alloc, failing)?,
        })
    }

    /// The port of the last opening that succeeded.
    pub fn port(&self) -> Option<u16>
        ensures { result ≡ self.now.told.port }
    {
        self.port
    }

    /// The closed connections, in the order of their closing.
    pub fn closed(&self) -> &[(MemSource, MemSink)]
        ensures { map closed_pair result.now ≡ self.now.told.closed }
    {
        self.closed.as_slice()
    }
}

impl Door for MemDoor {
    type In = MemSource;

    type Out = MemSink;

    ghost told = { λ s. record { connections = Some s.told; pairs = s.pairs; faults = s.failing.faults } };

    /// As the trait says. It fails exactly at the calls that are to fail.
    fn open(&mut self, port: u16) -> Result<(), Failed>
        ensures opens { IfOk result (λ _. Some self.new.told ≡ option_map (opened_at port) (Some self.old.told)) }
        ensures pairs_stay { self.new.pairs ≡ self.old.pairs }
        ensures counts { self.old.failing.faults ≤ self.new.failing.faults }
        ensures failed { OnErr result (Rose self.old.failing.faults self.new.failing.faults) }
        ensures kept { IfOk result (λ _. self.new.failing.faults ≡ self.old.failing.faults) }
        ensures told_stays { OnErr result (self.new.told ≡ self.old.told) }
        ensures calls { self.new.failing ≡ after_call self.old.failing }
        ensures fails { is_err result ≡ fails_next self.old.failing }
    {
        if self.failing.call() {
            return Err(Failed);
        }
        self.port = Some(port);
        Ok(())
    }

    /// As the trait says. It fails exactly at the calls that are to fail, and where no connection is to come.
    fn next(&mut self) -> Result<(MemSource, MemSink), Failed>
        ensures takes { IfOk result (λ _. Some self.new.told ≡ option_map first_taken (Some self.old.told)) }
        ensures gives { IfOk result (λ pair. Some pair.0.left ≡ Some (get_or self.old.told.coming 0 [])) }
        ensures tells_given { IfOk result (λ pair. Some pair.0.given ≡ Some []) }
        ensures tells_written { IfOk result (λ pair. Some pair.1.written ≡ Some []) }
        ensures none_comes { self.old.told.coming ≡ [] → IsErr result }
        ensures nothing_given { IfOk result (λ pair. pair.0.given ≡ []) }
        ensures nothing_written { IfOk result (λ pair. pair.1.written ≡ []) }
        ensures no_source_fault { IfOk result (λ pair. pair.0.failing.faults ≡ 0) }
        ensures no_sink_fault { IfOk result (λ pair. pair.1.failing.faults ≡ 0) }
        ensures one_more { IfOk result (λ _. self.new.pairs ≡ self.old.pairs + 1) }
        ensures counts { self.old.failing.faults ≤ self.new.failing.faults }
        ensures failed { OnErr result (Rose self.old.failing.faults self.new.failing.faults) }
        ensures kept { IfOk result (λ _. self.new.failing.faults ≡ self.old.failing.faults) }
        ensures told_stays { OnErr result (self.new.told ≡ self.old.told) }
        ensures pairs_stay { OnErr result (self.new.pairs ≡ self.old.pairs) }
        ensures calls { self.new.failing.calls ≡ one_more self.old.failing.calls }
        ensures fails { fails_next self.old.failing ≡ true → IsErr result }
        ensures succeeds { fails_next self.old.failing ≡ false → 0 < length self.old.told.coming → IsOk result }
        ensures numbers_stay { self.new.failing.numbers ≡ self.old.failing.numbers }
    {
        if self.failing.call() {
            return Err(Failed);
        }
        let Some(pair) = self.coming.pop_front() else {
            self.failing.fault();
            return Err(Failed);
        };
        self.pairs += 1;
        Ok(pair)
    }

    fn close(&mut self, input: MemSource, output: MemSink) {
        self.pairs -= 1;
        let Ok(()) = self.closed.push((input, output)) else {
            unreachable!()
        };
    }
}
