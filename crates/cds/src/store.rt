//! The stores of the program: in memory, or in a file that SQLite reads.

ghost use Rattle.std.specs.Prelude.{None, is_some};

use cds_keep::{Keeper, LoadError, MapKeeper, PutError, Records};
use cds_keep_sql::SqlKeeper;

/// Where the records of the open store are.
#[derive(Clone, Copy, Debug, PartialEq, Eq)]
enum Place {
    Memory,
    Sql,
}

/// The store that the name of a load picks: the one in memory for the empty name, and a file that SQLite reads for every
/// other. It tells nothing of its content. It fails where the picked store fails.
#[derive(Drop)]
pub struct StoreKeeper<'r> {
    memory: MapKeeper,
    sql: SqlKeeper<'r>,
    open: Option<Place>,
    faults: u64,
    calls: u64,
}

impl<'r> StoreKeeper<'r> {
    /// The store over these two, of which none is open yet.
    pub fn new(memory: MapKeeper, sql: SqlKeeper<'r>) -> StoreKeeper<'r> {
        StoreKeeper {
            memory,
            sql,
            open: None,
            faults: 0,
            calls: 0,
        }
    }

    /// Closes the store.
    pub fn close(self) {
        self.sql.close();
    }
}

impl<'r> Keeper for StoreKeeper<'r> {
    ghost told = { λ s. record { content = None; is_open = is_some s.open; faults = s.faults; calls = s.calls } };

    ghost finds = { λ _ _. None };

    ghost leaves_now = { λ _ tells _ _ _. absurd tells };

    fn load(&mut self, store: &str) -> Result<Records, LoadError> {
        self.calls = self.calls.saturating_add(1);
        self.open = None;
        let (place, loaded) = if store.is_empty() {
            (Place::Memory, self.memory.load(store))
        } else {
            (Place::Sql, self.sql.load(store))
        };
        match loaded {
            Ok(records) => {
                self.open = Some(place);
                Ok(records)
            }
            Err(LoadError::NoMemory) => Err(LoadError::NoMemory),
            Err(LoadError::Failed) | Err(LoadError::Damaged(_)) => {
                self.faults = self.faults.saturating_add(1);
                Err(LoadError::Failed)
            }
        }
    }

    fn put(&mut self, body: &[u8]) -> Result<(), PutError> {
        self.calls = self.calls.saturating_add(1);
        let put = match self.open {
            Some(Place::Memory) if self.memory.is_open() => self.memory.put(body),
            Some(Place::Sql) if self.sql.is_open() => self.sql.put(body),
            _ => Err(PutError::Failed),
        };
        match put {
            Ok(()) => Ok(()),
            Err(PutError::NoMemory) => Err(PutError::NoMemory),
            Err(PutError::Failed) => {
                self.faults = self.faults.saturating_add(1);
                Err(PutError::Failed)
            }
        }
    }
}
