ghost use Rattle.std.specs.Prelude.{◌≡◌, IfOk, Some};
ghost use Rattle.std.specs.List.{All};
ghost use Rattle.cds_base.specs.Clock.{IsMoment};

use crate::clock::Clock;
use std::alloc::{AllocError, Global};
use std::marker::Model;

/// A clock that answers stated moments one after the other, and then the last one again and again. It tells them.
#[derive(Debug, Drop)]
pub struct FixedClock {
    coming: Vec<u64>,
    at: usize,
    last: u64,
}

impl Model for FixedClock {
    ghost use Rattle.std.specs.Prelude.{◌<◌, ◌≤◌, drop, vec_len};
    ghost use Rattle.cds_base.specs.Clock.{Moments, IsMoment};
    ghost use Rattle.std.specs.List.{All};

    ghost Value = { Moments };

    ghost view = { λ a. record { coming = drop a.at a.coming.items; last = a.last } };

    ghost invariant = { λ a. (a.at ≤ vec_len a.coming) × (All IsMoment a.coming.items) × (IsMoment a.last) };
}

impl FixedClock {
    /// A clock that answers the moments `coming` and then `last`, in seconds since the start of 1970, all below
    /// `MOMENT_LIMIT`.
    pub fn new(alloc: Global, coming: &[u64], last: u64) -> Result<FixedClock, AllocError>
        requires coming { All IsMoment coming.now }
        requires last { IsMoment last }
        ensures { IfOk result (λ clock. clock ≡ record { coming = coming.now; last = last }) }
    {
        Ok(FixedClock {
            coming: Vec::from_slice(alloc, coming)?,
            at: 0,
            last,
        })
    }
}

impl Clock for FixedClock {
    ghost moments = { λ s. Some s };

    fn now(&mut self) -> u64 {
        if self.at == self.coming.len() {
            return self.last;
        }
        let moment = self.coming[self.at];
        self.at += 1;
        moment
    }
}
