ghost use Rattle.std.specs.Prelude.{◌≡◌, ◌<◌, ◌≤◌, [], length, take, true, IfOk, IsErr, OnErr, Some};
ghost use Rattle.cds_base.specs.Failing.{fails_next, one_more};
ghost use Rattle.cds_base.specs.Faults.{Rose};
ghost use Rattle.cds_base.specs.Sink.{taken_at_once};
ghost use Rattle.cds_base.specs.Told.{then_more};

use crate::failed::Failed;
use crate::failing::Failing;
use crate::sink::Sink;
use std::alloc::{AllocError, Global};
use std::marker::Model;

/// A sink in memory, which tells what was written. Each call takes at most as many bytes as its piece has, and
/// the calls whose numbers, counted from 1, it was made with fail. A growth that finds no memory is a fault.
#[derive(Debug, Drop)]
pub struct MemSink {
    written: Vec<u8>,
    piece: usize,
    failing: Failing,
}

impl Model for MemSink {
    ghost use Rattle.std.specs.Prelude.{◌<◌};
    ghost use Rattle.cds_base.specs.Sink.{SinkState};

    ghost Value = { SinkState };

    ghost view = { λ a. record { written = a.written.items; piece = a.piece; failing = a.failing } };

    ghost invariant = { λ a. 0 < a.piece };
}

impl MemSink {
    /// An empty sink, which takes at most `piece` bytes in one call and fails at the calls whose numbers are
    /// listed.
    pub fn new(alloc: Global, piece: usize, failing: &[u64]) -> Result<MemSink, AllocError>
        requires { 0 < piece }
        ensures { IfOk result (λ s. s ≡ record { written = []; piece = piece; failing = record { numbers = failing.now; calls = 0; faults = 0 } }) }
    {
        Ok(MemSink {
            written: Vec::new(alloc),
            piece,
            failing: Failing::new(alloc, failing)?,
        })
    }

    /// The bytes that were written.
    pub fn written(&self) -> &[u8]
        ensures { result.now ≡ self.now.written }
    {
        self.written.as_slice()
    }
}

impl Sink for MemSink {
    ghost told = { λ s. record { written = Some s.written; faults = s.failing.faults } };

    /// As the trait says. It fails at the calls that are to fail, and else only where memory is wanting.
    fn write(&mut self, piece: &[u8]) -> Result<usize, Failed>
        ensures within { IfOk result (λ n. n ≤ length piece.now) }
        ensures count { IfOk result (λ n. n ≡ taken_at_once self.old piece.now) }
        ensures some { IfOk result (λ n. 0 < length piece.now → 0 < n) }
        ensures writes { IfOk result
            (λ n. Some self.new.written ≡ then_more (Some self.old.written) (take n piece.now)) }
        ensures counts { self.old.failing.faults ≤ self.new.failing.faults }
        ensures failed { OnErr result (Rose self.old.failing.faults self.new.failing.faults) }
        ensures kept { IfOk result (λ _. self.new.failing.faults ≡ self.old.failing.faults) }
        ensures written_stays { OnErr result (self.new.written ≡ self.old.written) }
        ensures calls { self.new.failing.calls ≡ one_more self.old.failing.calls }
        ensures fails { fails_next self.old.failing ≡ true → IsErr result }
        ensures numbers_stay { self.new.failing.numbers ≡ self.old.failing.numbers }
        ensures piece_stays { self.new.piece ≡ self.old.piece }
    {
        if self.failing.call() {
            return Err(Failed);
        }
        let count = piece.len().min(self.piece);
        let Ok(()) = self.written.extend_from_slice(&piece[..count]) else {
            self.failing.fault();
            return Err(Failed);
        };
        Ok(count)
    }
}
