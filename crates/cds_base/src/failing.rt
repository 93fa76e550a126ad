ghost use Rattle.std.specs.Prelude.{◌≡◌, ◌≤◌, false, IsTrue, IfOk};
ghost use Rattle.cds_base.specs.Faults.{Rose};
ghost use Rattle.cds_base.specs.Failing.{after_call, after_fault, fails_next};

use std::alloc::{AllocError, Global};
use std::marker::Model;

/// Which calls of an object in memory are to fail: the numbers of those calls, counted from 1, how many calls there
/// were, and how many faults. Both counts stand still at 2^64 - 1. Seen as the three.
#[derive(Debug, Drop)]
pub struct Failing {
    numbers: Vec<u64>,
    calls: u64,
    faults: u64,
}

impl Model for Failing {
    ghost use Rattle.cds_base.specs.Faults.{Rose};
    ghost use Rattle.cds_base.specs.Failing.{FailingState};

    ghost Value = { FailingState };

    ghost view = { λ a. record { numbers = a.numbers.items; calls = a.calls; faults = a.faults } };
}

impl Failing {
    /// No call was made yet; those of these numbers are to fail.
    pub fn new(alloc: Global, numbers: &[u64]) -> Result<Failing, AllocError>
        ensures { IfOk result (λ failing. failing ≡ record { numbers = numbers.now; calls = 0; faults = 0 }) }
    {
        Ok(Failing {
            numbers: Vec::from_slice(alloc, numbers)?,
            calls: 0,
            faults: 0,
        })
    }

    /// Counts a call and answers whether it is one that is to fail, which is then counted as a fault.
    pub fn call(&mut self) -> bool
        ensures fails { result ≡ fails_next self.old }
        ensures counted { self.new ≡ after_call self.old }
        ensures counts { self.old.faults ≤ self.new.faults }
        ensures rose { IsTrue result → Rose self.old.faults self.new.faults }
        ensures same { result ≡ false → self.new.faults ≡ self.old.faults }
    {
        self.calls = self.calls.saturating_add(1);
        let fails = self.numbers.contains(&self.calls);
        if fails {
            self.faults = self.faults.saturating_add(1);
        }
        fails
    }

    /// Counts a fault of the last call that has another cause.
    pub(crate) fn fault(&mut self)
        ensures counted { self.new ≡ after_fault self.old }
        ensures counts { self.old.faults ≤ self.new.faults }
        ensures rose { Rose self.old.faults self.new.faults }
    {
        self.faults = self.faults.saturating_add(1);
    }
}
