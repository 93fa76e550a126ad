//! Which sequences a change reaches, told without their inputs.
ghost use Rattle.std.specs.Prelude.{◌≡◌, ◌&&◌, ◌==◌};
ghost use Rattle.std.specs.List.{list_any};
ghost use Rattle.std.specs.Str.{bytes_eq};
ghost use Rattle.cds_sign.specs.declared.row.Row.{Row as RowSeen};
ghost use Rattle.cds_book.specs.Inputs.{is_standard};
ghost use Rattle.cds_book.specs.Reach.{is_made, is_reached, listed_reached, method_reached, own_reached, row_reached, standards_reached};

use crate::judge::is_standard;
use crate::tables::Tables;
use cds_base::Name;
use cds_sign::{Change, Row, Sequence};

impl Tables {
    /// Whether a change reaches a sequence; the inputs of one that it doesn't reach stay as they are. A sequence that
    /// is put, gets other events or is bound to another version is reached, and so are those that list it. A trace that
    /// is put reaches the sequences of which a row binds it by the latest version, and those that list one of which a
    /// standard row does, used or not; a freeze the sequences that bind the method by the latest version, and those
    /// that list one. A draft and a signature reach none. It builds no inputs and takes no memory.
    #[tactic(auto, unfolding(crate::specs::Reach::is_reached))]
    pub fn is_reached(&self, change: &Change, name: Name) -> bool
        ensures { result ≡ is_reached self.now.state change.now name }
    {
        if is_made(change, name) {
            return true;
        }
        let Some(sequence) = self.sequence(name) else {
            return false;
        };
        if is_own_reached(change, sequence) {
            return true;
        }
        self.are_listed_reached(change, sequence.standards.as_slice())
    }

    // Whether one of the listed sequences passes a change on.
    fn are_listed_reached(&self, change: &Change, names: &[Name]) -> bool
        ensures { result ≡ list_any (listed_reached self.now.state change.now) names.now }
    {
        for place in 0..names.len() {
            if self.is_listed_reached(change, names[place]) {
                return true;
            }
        }
        false
    }

    // Whether a listed sequence passes a change on.
    #[tactic(auto, unfolding(crate::specs::Reach::listed_reached))]
    fn is_listed_reached(&self, change: &Change, listed: Name) -> bool
        ensures { result ≡ listed_reached self.now.state change.now listed }
    {
        if is_made(change, listed) {
            return true;
        }
        let Some(sequence) = self.sequence(listed) else {
            return false;
        };
        are_standards_reached(change, sequence)
    }
}

// Whether a change makes the sequence of this name.
fn is_made(change: &Change, name: Name) -> bool
    ensures { result ≡ is_made change.now name }
{
    match change {
        Change::Sequence { name: made, .. } => *made == name,
        Change::Events { name: made, .. } => *made == name,
        Change::Rebind { name: made, .. } => *made == name,
        _ => false,
    }
}

// Whether a change reaches what a sequence binds.
fn is_own_reached(change: &Change, sequence: &Sequence) -> bool
    ensures { result ≡ own_reached change.now sequence.now }
{
    is_method_reached(change, sequence) || are_rows_reached(change, sequence.rows.as_slice())
}

// Whether a change reaches what a sequence gives to those that list it.
fn are_standards_reached(change: &Change, sequence: &Sequence) -> bool
    ensures { result ≡ standards_reached change.now sequence.now }
{
    is_method_reached(change, sequence) || are_given_reached(change, sequence.rows.as_slice())
}

// Whether a sequence binds the latest version of the method that is frozen.
fn is_method_reached(change: &Change, sequence: &Sequence) -> bool
    ensures { result ≡ method_reached change.now sequence.now }
{
    match change {
        Change::Freeze { name, .. } => is_latest_of(sequence.method, sequence.version, *name),
        _ => false,
    }
}

// Whether one of the rows binds the latest version of the trace that is put.
fn are_rows_reached(change: &Change, rows: &[Row]) -> bool
    ensures { result ≡ list_any (row_reached change.now) rows.now }
{
    rows.iter().any(|row| is_row_reached(change, row))
}

// Whether one of the standard rows does.
fn are_given_reached(change: &Change, rows: &[Row]) -> bool
    ensures { result ≡ list_any (λ (row : RowSeen). is_standard row.kind && row_reached change.now row) rows.now }
{
    rows.iter()
        .any(|row| is_standard(row.kind) && is_row_reached(change, row))
}

// Whether a row binds the latest version of the trace that is put.
fn is_row_reached(change: &Change, row: &Row) -> bool
    ensures { result ≡ row_reached change.now row.now }
{
    match change {
        Change::Trace { name, .. } => is_latest_of(row.trace, row.version, *name),
        _ => false,
    }
}

// Whether what is bound is the latest version of this name.
fn is_latest_of(bound: Name, version: u32, name: Name) -> bool
    ensures { result ≡ (bytes_eq bound name && (version == 0)) }
{
    bound == name && version == 0
}
