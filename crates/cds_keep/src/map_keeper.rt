ghost use Rattle.std.specs.Prelude.{◌≡◌, ◌≢◌, ◌^◌, ◌<◌, ◌≤◌, ◌↔◌, ◌⊎◌, ◌∷◌, ◌++◌, [], true, false, length, is_ok, IfOk, IsOk, OnOk, OnErr, Err, IsTrue, Some};
ghost use Rattle.cds_base.specs.Failing.{after_call, fails_next};
ghost use Rattle.cds_base.specs.Faults.{Rose};
ghost use Rattle.cds_keep.specs.Found.{records};

use crate::error::{LoadError, PutError};
use crate::keeper::{Keeper, RECORD_LIMIT};
use crate::records::Records;
use cds_base::Failing;
use std::alloc::{AllocError, Global};
use std::marker::Model;

/// A store in memory, which tells its content and finds it under every name. The calls of `load` and `put` whose
/// numbers, counted from 1 over both, it was made with fail; a record whose put fails isn't kept.
#[derive(Debug, Drop)]
pub struct MapKeeper {
    held: Records,
    is_open: bool,
    failing: Failing,
}

impl Model for MapKeeper {
    ghost use Rattle.cds_keep.specs.Held.{MapState};

    ghost Value = { MapState };

    ghost view = { λ a. record { content = a.held; is_open = a.is_open; failing = a.failing } };
}

impl MapKeeper {
    /// A store without records that isn't open, and fails at the calls whose numbers are listed.
    pub fn new(alloc: Global, failing: &[u64]) -> Result<MapKeeper, AllocError>
        ensures { IfOk result (λ k. k ≡ record { content = []; is_open = false; failing = record { numbers = failing.now; calls = 0; faults = 0 } }) }
    {
        Ok(MapKeeper {
            held: Records::new(alloc),
            is_open: false,
            failing: Failing::new(alloc, failing)?,
        })
    }

    /// The records that it holds.
    pub fn content(&self) -> &Records
        ensures { result.now ≡ self.now.content }
    {
        &self.held
    }

    /// Whether a store is open.
    pub fn is_open(&self) -> bool
        ensures { result ≡ self.now.is_open }
    {
        self.is_open
    }
}

impl Keeper for MapKeeper {
    ghost told = { λ s. record { content = Some s.content; is_open = s.is_open; faults = s.failing.faults; calls = s.failing.calls } };

    ghost finds = { λ s _. Some (records s.content) };

    ghost leaves_now = { λ _ tells _ _ _. absurd tells };

    /// As the trait says. It fails exactly at the calls that are to fail, and finds no record damaged.
    fn load(&mut self, _store: &str) -> Result<Records, LoadError>
        ensures opened { self.new.is_open ≡ is_ok result }
        ensures found { IfOk result (λ list. list ≡ self.old.content) }
        ensures content_stays { self.new.content ≡ self.old.content }
        ensures fails { (result ≡ Err LoadError.Failed) ↔ IsTrue (fails_next self.old.failing) }
        ensures undamaged { (result ≡ Err LoadError.Failed) ⊎ (result ≡ Err LoadError.NoMemory) ⊎ IsOk result }
        ensures calls { self.new.failing ≡ after_call self.old.failing }
        ensures counts { self.old.failing.faults ≤ self.new.failing.faults }
        ensures failed { result ≡ Err LoadError.Failed → Rose self.old.failing.faults self.new.failing.faults }
        ensures count_stays { result ≢ Err LoadError.Failed → self.new.failing.faults ≡ self.old.failing.faults }
    {
        self.is_open = false;
        if self.failing.call() {
            return Err(LoadError::Failed);
        }
        let records = self.held.copy()?;
        self.is_open = true;
        Ok(records)
    }

    /// As the trait says. It fails exactly at the calls that are to fail.
    fn put(&mut self, body: &[u8]) -> Result<(), PutError>
        requires opened { self.old.is_open ≡ true }
        requires short { length body.now < RECORD_LIMIT }
        ensures stays_open { self.new.is_open ≡ true }
        ensures appended { OnOk result (self.new.content ≡ self.old.content ++ body.now ∷ []) }
        ensures as_before { OnErr result (self.new.content ≡ self.old.content) }
        ensures fails { (result ≡ Err PutError.Failed) ↔ IsTrue (fails_next self.old.failing) }
        ensures calls { self.new.failing ≡ after_call self.old.failing }
        ensures counts { self.old.failing.faults ≤ self.new.failing.faults }
        ensures failed { result ≡ Err PutError.Failed → Rose self.old.failing.faults self.new.failing.faults }
        ensures count_stays { result ≢ Err PutError.Failed → self.new.failing.faults ≡ self.old.failing.faults }
    {
        if self.failing.call() {
            return Err(PutError::Failed);
        }
        self.held.add(body)?;
        Ok(())
    }
}
