//! The store over SQLite, as a keeper.

ghost use Rattle.std.specs.Prelude.{◌≡◌, None, false, is_some};

use crate::connection::{Fault, SqlFile, append, open};
use cds_keep::{Keeper, LoadError, PutError, Records};

/// A store of records in one file, which the program `sqlite3` reads too: a table `records` with the number of each
/// record, counted from 1, and its bytes as `body`. A load opens the file of its name, or makes it. It tells nothing of
/// its content.
///
/// It fails, and its count of faults rises, where the file can't be opened or made, where SQLite refuses a statement for
/// another cause than want of memory, where a record's number isn't its place, and where a body is no BLOB. It never finds
/// a record damaged. A put is on the disk when it answers Ok.
#[derive(Drop)]
pub struct SqlKeeper<'r> {
    system: &'r HostRuntime,
    file: Option<SqlFile>,
    faults: u64,
    calls: u64,
}

impl<'r> SqlKeeper<'r> {
    /// A keeper that hasn't opened a store yet. It takes no memory.
    pub fn new(system: &'r HostRuntime) -> SqlKeeper<'r>
        ensures closed { is_some result.file ≡ false }
        ensures faults { result.faults ≡ 0 }
        ensures calls { result.calls ≡ 0 }
    {
        SqlKeeper {
            system,
            file: None,
            faults: 0,
            calls: 0,
        }
    }

    /// Whether a store is open.
    pub fn is_open(&self) -> bool
        ensures { result ≡ is_some self.now.file }
    {
        self.file.is_some()
    }

    /// Closes the store, so that all of it stands in its one file. What was put is on the disk without it, in a second
    /// file beside the first.
    pub fn close(self) {
        if let Some(file) = self.file {
            file.close();
        }
    }
}

impl<'r> Keeper for SqlKeeper<'r> {
    ghost told = { λ s. record { content = None; is_open = is_some s.file; faults = s.faults; calls = s.calls } };

    ghost finds = { λ _ _. None };

    ghost leaves_now = { λ _ tells _ _ _. absurd tells };

    fn load(&mut self, store: &str) -> Result<Records, LoadError> {
        self.calls = self.calls.saturating_add(1);
        self.file = None;
        match open(self.system, store) {
            Ok((file, records)) => {
                self.file = Some(file);
                Ok(records)
            }
            Err(Fault::NoMemory) => Err(LoadError::NoMemory),
            Err(Fault::Failed) => {
                self.faults = self.faults.saturating_add(1);
                Err(LoadError::Failed)
            }
        }
    }

    fn put(&mut self, body: &[u8]) -> Result<(), PutError> {
        self.calls = self.calls.saturating_add(1);
        let put = match &mut self.file {
            Some(file) => append(file, body),
            None => Err(Fault::Failed),
        };
        match put {
            Ok(()) => Ok(()),
            Err(Fault::NoMemory) => Err(PutError::NoMemory),
            Err(Fault::Failed) => {
                self.faults = self.faults.saturating_add(1);
                Err(PutError::Failed)
            }
        }
    }
}
