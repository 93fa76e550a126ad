//! The sequence that a change makes, but for its basis.
ghost use Rattle.std.specs.Prelude.{◌≡◌, ◌+◌, ◌≤◌, IfOk};
ghost use Rattle.cds_sign.specs.declared.command.Change.TheVariants as change;
ghost use Rattle.cds_sign.specs.declared.limits.TheConstants.{MOST_EDITION};
ghost use Rattle.cds_book.specs.Judged.{edition_of};
ghost use Rattle.cds_book.specs.Plan.{basis_of, sequence_made, sequence_put, with_events};

use crate::tables::Tables;
use cds_base::{EventList, Name, NoMemory};
use cds_sign::{Change, NameList, Row, RowList, Sequence, copies_of};
use std::alloc::Global;

impl Tables {
    // The sequence that a change makes, with the basis of the kept one; none where it makes none.
    #[tactic(auto, unfolding(crate::specs::Plan::sequence_made))]
    pub(crate) fn made(&self, change: &Change) -> Result<Option<Sequence>, NoMemory>
        ensures { IfOk result (λ m. m ≡ sequence_made self.now.state change.now) }
    {
        match change {
            Change::Sequence {
                name,
                method,
                version,
                standards,
                rows,
                ..
            } => {
                let made = self.made_put(*name, *method, *version, standards, rows)?;
                Ok(Some(made))
            }
            Change::Events {
                name,
                row,
                events,
                ..
            } => {
                let Some(kept) = self.sequence(*name) else {
                    return Ok(None);
                };
                let made = made_events(self.alloc(), kept, self.next_edition(*name), *row, events)?;
                Ok(Some(made))
            }
            Change::Rebind { name, version, .. } => {
                let Some(kept) = self.sequence(*name) else {
                    return Ok(None);
                };
                let made = made_rebound(kept, self.next_edition(*name), *version)?;
                Ok(Some(made))
            }
            _ => Ok(None),
        }
    }

    // A sequence that is put.
    fn made_put(
        &self,
        name: Name,
        method: Name,
        version: u32,
        standards: &NameList,
        rows: &RowList,
    ) -> Result<Sequence, NoMemory>
        ensures { IfOk result (λ s. s ≡ sequence_put self.now.state name method version standards.now rows.now) }
    {
        let standards = standards.copy()?;
        let rows = rows.copy()?;
        Ok(Sequence {
            edition: self.next_edition(name),
            basis: self.basis(name),
            method,
            version,
            standards,
            rows,
        })
    }

    // Where the tables take their memory.
    fn alloc(&self) -> Global {
        *self.sequences.entries.allocator()
    }

    // The next edition of a sequence, 1 for a new one.
    pub(crate) fn next_edition(&self, name: Name) -> u64
        ensures { result ≡ edition_of self.now.state name + 1 }
    {
        self.edition(name) + 1
    }

    // The basis of a sequence, 1 for a new one.
    #[tactic(auto, unfolding(crate::specs::Plan::basis_of))]
    pub(crate) fn basis(&self, name: Name) -> u64
        ensures { result ≡ basis_of self.now.state name }
    {
        let Some(sequence) = self.sequence(name) else {
            return 1;
        };
        sequence.basis
    }
}

// A sequence with other manual events of a row.
fn made_events(
    alloc: Global,
    kept: &Sequence,
    edition: u64,
    row: u32,
    events: &EventList,
) -> Result<Sequence, NoMemory>
    ensures { IfOk result (λ s. s
        ≡ record kept.now { edition = edition; rows = with_events kept.now.rows row events.now }) }
{
    let standards = kept.standards.copy()?;
    let rows = rows_with(alloc, kept.rows.as_slice(), row, events)?;
    Ok(Sequence {
        edition,
        basis: kept.basis,
        method: kept.method,
        version: kept.version,
        standards,
        rows,
    })
}

// A sequence that is bound to another version of its method.
fn made_rebound(kept: &Sequence, edition: u64, version: u32) -> Result<Sequence, NoMemory>
    ensures { IfOk result (λ s. s ≡ record kept.now { edition = edition; version = version }) }
{
    let standards = kept.standards.copy()?;
    let rows = kept.rows.copy()?;
    Ok(Sequence {
        edition,
        basis: kept.basis,
        method: kept.method,
        version,
        standards,
        rows,
    })
}

// The rows with these manual events of the row of a number, counted from 1.
fn rows_with(alloc: Global, rows: &[Row], row: u32, events: &EventList) -> Result<RowList, NoMemory>
    ensures { IfOk result (λ r. r ≡ with_events rows.now row events.now) }
{
    let mut copies = copies_of(alloc, rows)?;
    let events = events.copy()?;
    put_events(&mut copies, row, events);
    Ok(RowList::from_vec(copies))
}

// Puts the manual events of the row of a number, counted from 1, if there is such a row.
fn put_events(rows: &mut [Row], row: u32, events: EventList)
    ensures { rows.new ≡ with_events rows.old row events }
{
    if row == 0 || rows.len() < row as usize {
        return;
    }
    rows[row as usize - 1].events = events;
}
