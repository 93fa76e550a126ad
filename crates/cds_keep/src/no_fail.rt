ghost use Rattle.std.specs.Prelude.{◌≡◌, [], false, Some};
ghost use Rattle.cds_keep.specs.Found.{records};

use crate::error::{LoadError, PutError};
use crate::keeper::Keeper;
use crate::records::Records;
use std::alloc::Global;
use std::marker::Model;

/// A store in memory that cannot fail: its count of faults is always 0. It tells its content and finds it under every
/// name.
#[derive(Debug, Drop)]
pub struct NoFailKeeper {
    held: Records,
    is_open: bool,
    calls: u64,
}

impl Model for NoFailKeeper {
    ghost use Rattle.cds_keep.specs.Held.{NoFailState};

    ghost Value = { NoFailState };

    ghost view = { λ a. record { content = a.held; is_open = a.is_open; calls = a.calls } };
}

impl NoFailKeeper {
    /// A store without records that isn't open. It takes no memory.
    pub fn new(alloc: Global) -> NoFailKeeper
        ensures { result ≡ record { content = []; is_open = false; calls = 0 } }
    {
        NoFailKeeper {
            held: Records::new(alloc),
            is_open: false,
            calls: 0,
        }
    }
}

impl Keeper for NoFailKeeper {
    ghost told = { λ s. record { content = Some s.content; is_open = s.is_open; faults = 0; calls = s.calls } };

    ghost finds = { λ s _. Some (records s.content) };

    ghost leaves_now = { λ _ tells _ _ _. absurd tells };

    fn load(&mut self, _store: &str) -> Result<Records, LoadError> {
        self.is_open = false;
        self.calls = self.calls.saturating_add(1);
        let records = self.held.copy()?;
        self.is_open = true;
        Ok(records)
    }

    fn put(&mut self, body: &[u8]) -> Result<(), PutError> {
        self.calls = self.calls.saturating_add(1);
        self.held.add(body)?;
        Ok(())
    }
}
