ghost use Rattle.std.specs.Prelude.{◌≡◌, ◌^◌, ◌+◌, ◌<◌, ◌≤◌, [], length, take, Some, IfOk, OnErr};
ghost use Rattle.std.specs.Result.{is_err};
ghost use Rattle.cds_base.specs.Failing.{after_call, fails_next};
ghost use Rattle.cds_base.specs.Faults.{Rose};
ghost use Rattle.cds_base.specs.Source.{given_at_once};
ghost use Rattle.cds_base.specs.Told.{then_more, more_before};

use crate::failed::Failed;
use crate::failing::Failing;
use crate::source::{Source, give};
use std::alloc::{AllocError, Global};
use std::marker::Model;

/// A source in memory, which tells what it has given and what is left. Each call gives at most as many bytes as
/// its piece has, and the calls whose numbers, counted from 1, it was made with fail.
#[derive(Debug, Drop)]
pub struct MemSource {
    bytes: Vec<u8>,
    at: usize,
    piece: usize,
    failing: Failing,
}

impl Model for MemSource {
    ghost use Rattle.std.specs.Prelude.{◌<◌, ◌≤◌, take, drop, vec_len};
    ghost use Rattle.cds_base.specs.Source.{SourceState};

    ghost Value = { SourceState };

    ghost view = { λ a. record { given = take a.at a.bytes.items; left = drop a.at a.bytes.items; piece = a.piece; failing = a.failing } };

    ghost invariant = { λ a. (a.at ≤ vec_len a.bytes) × (0 < a.piece) };
}

impl MemSource {
    /// A source with these bytes left, which gives at most `piece` of them in one call and fails at the calls
    /// whose numbers are listed.
    pub fn new(
        alloc: Global,
        bytes: &[u8],
        piece: usize,
        failing: &[u64],
    ) -> Result<MemSource, AllocError>
        requires { 0 < piece }
        ensures { IfOk result (λ s. s ≡ record { given = []; left = bytes.now; piece = piece; failing = record { numbers = failing.now; calls = 0; faults = 0 } }) }
    {
        Ok(MemSource {
            bytes: Vec::from_slice(alloc, bytes)?,
            at: 0,
            piece,
            failing: Failing::new(alloc, failing)?,
        })
    }

    /// The bytes that are left to read.
    pub fn left(&self) -> &[u8]
        ensures { result.now ≡ self.now.left }
    {
        &self.bytes[self.at..]
    }
}

impl Source for MemSource {
    ghost told = { λ s. record { given = Some s.given; left = Some s.left; bound = length s.left; faults = s.failing.faults } };

    #[tactic(auto, using(crate::proofs::Reading::take_read, crate::proofs::Reading::left_read))]
    /// As the trait says. It fails exactly at the calls that are to fail.
    fn read(&mut self, buf: &mut [u8]) -> Result<usize, Failed>
        requires { 0 < length buf.old }
        ensures within { IfOk result (λ n. n ≤ length buf.old) }
        ensures count { IfOk result (λ n. n ≡ given_at_once self.old (length buf.old)) }
        ensures gives { IfOk result (λ n. Some self.new.given ≡ then_more (Some self.old.given) (take n buf.new)) }
        ensures takes { IfOk result (λ n. Some self.old.left ≡ more_before (take n buf.new) (Some self.new.left)) }
        ensures ended { IfOk result (λ n. n ≡ 0 → self.new.left ≡ []) }
        ensures nears { IfOk result (λ n. length self.new.left + n ≡ length self.old.left) }
        ensures bounded { length self.old.left < 2 ^ 64 }
        ensures counts { self.old.failing.faults ≤ self.new.failing.faults }
        ensures failed { OnErr result (Rose self.old.failing.faults self.new.failing.faults) }
        ensures kept { IfOk result (λ _. self.new.failing.faults ≡ self.old.failing.faults) }
        ensures given_stays { OnErr result (self.new.given ≡ self.old.given) }
        ensures left_stays { OnErr result (self.new.left ≡ self.old.left) }
        ensures bound_stays { OnErr result (length self.new.left ≡ length self.old.left) }
        ensures calls { self.new.failing ≡ after_call self.old.failing }
        ensures fails { is_err result ≡ fails_next self.old.failing }
        ensures piece_stays { self.new.piece ≡ self.old.piece }
    {
        if self.failing.call() {
            return Err(Failed);
        }
        let count = give(&self.bytes, self.at, self.piece, buf);
        self.at += count;
        Ok(count)
    }
}
