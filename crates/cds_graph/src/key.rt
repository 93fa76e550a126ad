//! What a kept row is found by.
ghost use Rattle.std.specs.Prelude.{◌≡◌, Decides, IfOk};
ghost use Rattle.cds_graph.specs.Building.{listed_key};
ghost use Rattle.cds_graph.specs.Keys.{row_key};

use cds_base::{EventList, Name, NoMemory};
use cds_sign::{Inputs, Listed, ListedRow, Row};

/// The key of a row: all that its integration rests on. Rows with one key are one row, whatever sequence they are of.
#[derive(Debug, Drop)]
pub struct RowKey {
    /// The trace that was recorded.
    pub trace: Name,
    /// The version of the trace, counted from 1.
    pub version: u32,
    /// The method of the sequence.
    pub method: Name,
    /// The version of the method, counted from 1.
    pub method_version: u32,
    /// The manual events of the row.
    pub events: EventList,
}

impl RowKey {
    /// The key of a row of a sequence with these inputs. The only refusal is want of memory.
    pub fn of_row(inputs: &Inputs, row: &Row) -> Result<RowKey, NoMemory>
        ensures { IfOk result (λ key. key ≡ row_key inputs.now row.now) }
    {
        let events = row.events.copy()?;
        Ok(RowKey {
            trace: row.trace,
            version: row.version,
            method: inputs.method,
            method_version: inputs.version,
            events,
        })
    }

    /// The key of a standard row of a listed sequence. The only refusal is want of memory.
    pub(crate) fn of_listed(listed: &Listed, row: &ListedRow) -> Result<RowKey, NoMemory>
        ensures { IfOk result (λ key. key ≡ listed_key listed.now row.now) }
    {
        let events = row.events.copy()?;
        Ok(RowKey {
            trace: row.trace,
            version: row.version,
            method: listed.method,
            method_version: listed.version,
            events,
        })
    }

    /// An equal key with memory of its own.
    pub fn copy(&self) -> Result<RowKey, NoMemory>
        ensures { IfOk result (λ copy. copy ≡ self.now) }
    {
        let events = self.events.copy()?;
        Ok(RowKey {
            trace: self.trace,
            version: self.version,
            method: self.method,
            method_version: self.method_version,
            events,
        })
    }

    /// Whether two keys are the same: the same versions of the same trace and of the same method, and the same events
    /// in the same order.
    pub fn same(&self, other: &RowKey) -> bool
        ensures { Decides result (self.now ≡ other.now) }
    {
        self.trace == other.trace
            && self.version == other.version
            && self.method == other.method
            && self.method_version == other.method_version
            && self.events.same(&other.events)
    }
}
