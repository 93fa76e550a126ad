ghost use Rattle.std.specs.Prelude.{◌≡◌, [], length, IfOk, Some, None};

use crate::failed::Failed;
use crate::sink::Sink;
use crate::source::{Source, give};
use std::alloc::{AllocError, Global};
use std::marker::Model;

/// A source in memory that cannot fail: its count of faults is always 0.
#[derive(Debug, Drop)]
pub struct NoFailSource {
    bytes: Vec<u8>,
    at: usize,
}

impl Model for NoFailSource {
    ghost use Rattle.std.specs.Prelude.{◌≤◌, take, drop, List, ℕ, vec_len};

    ghost Value = { List ℕ × List ℕ };

    ghost view = { λ a. (take a.at a.bytes.items, drop a.at a.bytes.items) };

    ghost invariant = { λ a. a.at ≤ vec_len a.bytes };
}

impl NoFailSource {
    /// A source with these bytes left.
    pub fn new(alloc: Global, bytes: &[u8]) -> Result<NoFailSource, AllocError>
        ensures { IfOk result (λ s. s ≡ ([], bytes.now)) }
    {
        Ok(NoFailSource {
            bytes: Vec::from_slice(alloc, bytes)?,
            at: 0,
        })
    }
}

impl Source for NoFailSource {
    ghost told = { λ s. record { given = Some s.0; left = Some s.1; bound = length s.1; faults = 0 } };

    #[tactic(auto, using(crate::proofs::Reading::take_read, crate::proofs::Reading::left_read))]
    fn read(&mut self, buf: &mut [u8]) -> Result<usize, Failed> {
        let count = give(&self.bytes, self.at, buf.len(), buf);
        self.at += count;
        Ok(count)
    }
}

/// A sink that takes all and keeps nothing. It tells nothing, and its count of faults is always 0.
#[derive(Clone, Copy, Debug)]
pub struct NoFailSink;

impl Sink for NoFailSink {
    ghost told = { λ _. record { written = None; faults = 0 } };

    fn write(&mut self, piece: &[u8]) -> Result<usize, Failed> {
        Ok(piece.len())
    }
}
