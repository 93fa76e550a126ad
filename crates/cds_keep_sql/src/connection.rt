//! What the store asks of SQLite.

ghost use Rattle.std.specs.Prelude.{◌≡◌};

use cds_keep::Records;
use sqlite::types::ValueRef;
use sqlite::{Connection, Error, ErrorCode, File, FileStore, Row, params};
use std::alloc::AllocError;

/// Makes the table of a new file.
const MAKE: &str =
    "CREATE TABLE IF NOT EXISTS records (number INTEGER PRIMARY KEY, body BLOB NOT NULL)";

/// The records in their order.
const LIST: &str = "SELECT number, body FROM records ORDER BY number";

/// Appends a record.
const APPEND: &str = "INSERT INTO records (number, body) VALUES (?1, ?2)";

/// Why SQLite didn't do what was asked.
#[derive(Clone, Copy, Debug, PartialEq, Eq)]
pub(crate) enum Fault {
    /// Memory was wanting.
    NoMemory,
    /// It refused, or the file holds what no store of records holds.
    Failed,
}

impl From<Error> for Fault {
    fn from(error: Error) -> Fault {
        match error {
            Error::SqliteFailure(ErrorCode::OutOfMemory) => Fault::NoMemory,
            _ => Fault::Failed,
        }
    }
}

impl From<AllocError> for Fault {
    fn from(_error: AllocError) -> Fault {
        Fault::NoMemory
    }
}

/// The file of an open store.
#[derive(Drop)]
pub(crate) struct SqlFile {
    connection: Connection<FileStore<File>>,
    /// The number of the next record.
    next: i64,
}

impl SqlFile {
    /// Closes the file; what stood beside it is copied into it.
    pub(crate) fn close(self) {
        let _ = self.connection.close();
    }
}

/// Opens the file at this path, or makes it, and answers its records.
pub(crate) fn open(system: &HostRuntime, path: &str) -> Result<(SqlFile, Records), Fault> {
    let mut connection = Connection::open(system, path)?;
    connection.execute_batch(MAKE)?;
    let records = list(system, &mut connection)?;
    let next = match i64::try_from(records.len()) {
        Ok(count) if count < i64::MAX => count + 1,
        _ => return Err(Fault::Failed),
    };
    Ok((SqlFile { connection, next }, records))
}

/// The records of an open file.
fn list(
    system: &HostRuntime,
    connection: &mut Connection<FileStore<File>>,
) -> Result<Records, Fault> {
    let mut records = Records::new(system.alloc());
    let mut rows = connection.query(LIST, &[])?;
    for place in 1..i64::MAX {
        let Some(row) = rows.next()? else {
            return Ok(records);
        };
        add(&mut records, row, place)?;
    }
    Err(Fault::Failed)
}

/// Adds the record of a row, whose number must be its place.
fn add(records: &mut Records, row: &Row, place: i64) -> Result<(), Fault> {
    let number: i64 = row.get(0)?;
    if number != place {
        return Err(Fault::Failed);
    }
    match row.get_ref(1)? {
        ValueRef::Blob(body) => records.add(body)?,
        _ => return Err(Fault::Failed),
    }
    Ok(())
}

/// Appends a record. SQLite commits it, and it is on the disk, where this answers Ok.
pub(crate) fn append(file: &mut SqlFile, body: &[u8]) -> Result<(), Fault> {
    if file.next == i64::MAX {
        return Err(Fault::Failed);
    }
    file.connection.execute(APPEND, params![file.next, body])?;
    file.next += 1;
    Ok(())
}
