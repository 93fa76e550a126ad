//! What the commands on sequences come to.
ghost use Rattle.std.specs.Prelude.{◌≡◌, ◌≤◌, ◌<◌, ℕ, List, length, IfOk, IsSome};
ghost use Rattle.std.specs.Cmp.Lexicographic.{pointwise};
ghost use Rattle.std.specs.Option.{option_map_or};
ghost use Rattle.std.specs.Str.{bytes_eq};
ghost use Rattle.cds_base.specs.Answers.{Gives};
ghost use Rattle.cds_sign.specs.declared.command.Change.TheVariants as change;
ghost use Rattle.cds_sign.specs.declared.limits.TheConstants.{MOST_ROWS, TEXT_LIMIT};
ghost use Rattle.cds_sign.specs.declared.sequence.Sequence.{Sequence as SequenceSeen};
ghost use Rattle.cds_book.specs.Plan.{carried, counts_of, has_content, is_kept, other_planned, sequence_planned, row_at, events_planned, rebind_planned, signature_planned, within_limits};
ghost use Rattle.cds_book.specs.Same.{same_events, same_rows};
ghost use Rattle.cds_book.specs.Tables.{sequence_of};
ghost use Rattle.cds_book.specs.declared.error.PlanError.TheVariants.{NoMemory as WantsMemory};

use crate::command::{Plan, SignPlan};
use crate::entry::numbered;
use crate::error::PlanError;
use crate::judge::can_bind;
use crate::limits::{MOST_ROWS_IN_ALL, MOST_SEQUENCES, MOST_SIGNED_BYTES};
use crate::plan::limit_passed;
use crate::tables::Tables;
use cds_base::{Bytes, EventList, Name, NoMemory, Text};
use cds_sign::{AskedRowList, Change, MOST_SIGNATURES, NameList, Row, RowList, Sequence};
use std::alloc::Global;

impl Tables {
    // A sequence that is put.
    #[tactic(auto, unfolding(crate::specs::Plan::sequence_planned))]
    pub(crate) fn plan_sequence(
        &self,
        name: Name,
        edition: u64,
        method: Name,
        version: u32,
        standards: &NameList,
        rows: &AskedRowList,
    ) -> Result<Plan, PlanError>
        requires few { length rows.now ≤ MOST_ROWS }
        ensures { Gives WantsMemory (λ p. p)
            (sequence_planned self.now.state name edition method version standards.now rows.now) result }
    {
        self.judge_method(method, version)?;
        let standards = self.judge_standards(name, standards.as_slice())?;
        let rows = self.judge_rows(rows)?;
        if self.is_kept(name, method, version, &standards, &rows) {
            return Ok(Plan::Unchanged);
        }
        self.judge_edition(name, edition)?;
        if let Some(limit) = limit_passed(&self.sequence_counts(name, &rows)) {
            return Err(PlanError::Full(limit));
        }
        Ok(Plan::Change(Change::Sequence {
            name,
            edition,
            method,
            version,
            standards,
            rows,
        }))
    }

    // Whether the sequence of a name is there and has this content.
    #[tactic(auto, unfolding(crate::specs::Plan::is_kept))]
    fn is_kept(
        &self,
        name: Name,
        method: Name,
        version: u32,
        standards: &NameList,
        rows: &RowList,
    ) -> bool
        ensures { result ≡ is_kept self.now.state name method version standards.now rows.now }
    {
        let Some(kept) = self.sequence(name) else {
            return false;
        };
        has_content(kept, method, version, standards, rows)
    }

    // The counts that a sequence raises, with their limits.
    fn sequence_counts(&self, name: Name, rows: &RowList) -> [(u64, u64); 2]
        requires few { length rows.now ≤ MOST_ROWS }
        ensures { (edition version : ℕ) (method : List ℕ) (standards : List (List ℕ))
            → result ≡ counts_of (change.Sequence name edition method version standards rows.now)
            (carried self.now.state (change.Sequence name edition method version standards rows.now)) }
    {
        self.rules();
        let names = self.sequence_count() as u64 + u64::from(!self.has_sequence(name));
        [
            (names, MOST_SEQUENCES),
            (
                self.rows_in_all() + rows.len() as u64 - self.row_count(name),
                MOST_ROWS_IN_ALL,
            ),
        ]
    }

    // Manual events of a row.
    #[tactic(auto, unfolding(crate::specs::Plan::events_planned))]
    pub(crate) fn plan_events(
        &self,
        name: Name,
        edition: u64,
        row: u32,
        events: &EventList,
    ) -> Result<Plan, PlanError>
        ensures { Gives WantsMemory (λ p. p) (events_planned self.now.state name edition row events.now) result }
    {
        let sequence = self.judge_sequence(name)?;
        let kept = row_at(sequence, row)?;
        if same_events(&kept.events, events) {
            return Ok(Plan::Unchanged);
        }
        self.judge_edition(name, edition)?;
        let events = events.copy()?;
        Ok(Plan::Change(Change::Events {
            name,
            edition,
            row,
            events,
        }))
    }

    // Another version of a sequence's method.
    #[tactic(auto, unfolding(crate::specs::Plan::rebind_planned))]
    pub(crate) fn plan_rebind(
        &self,
        name: Name,
        edition: u64,
        version: u32,
    ) -> Result<Plan, PlanError>
        ensures { Gives WantsMemory (λ p. p) (rebind_planned self.now.state name edition version) result }
    {
        let sequence = self.judge_sequence(name)?;
        if !can_bind(self.texts(sequence.method).len(), version) {
            return Err(PlanError::NoVersion(sequence.method));
        }
        if sequence.version == version {
            return Ok(Plan::Unchanged);
        }
        self.judge_edition(name, edition)?;
        Ok(Plan::Change(Change::Rebind {
            name,
            edition,
            version,
        }))
    }

    // A signature.
    #[tactic(auto, unfolding(crate::specs::Plan::signature_planned))]
    pub(crate) fn plan_sign(
        &self,
        sequence: Name,
        number: u32,
        basis: u64,
        moment: u64,
        name: &Text,
        meaning: &Text,
        text: &Bytes,
    ) -> Result<Plan, PlanError>
        requires short { length text.now < TEXT_LIMIT }
        ensures { Gives WantsMemory (λ p. p)
            (signature_planned self.now.state sequence number basis moment name.now meaning.now text.now) result }
    {
        let judged = self.would_sign(
            sequence,
            basis,
            number,
            name.as_str().as_bytes(),
            meaning.as_str().as_bytes(),
        )?;
        match judged {
            SignPlan::Kept(_) => Ok(Plan::Unchanged),
            SignPlan::New => self.plan_new(sequence, number, basis, moment, name, meaning, text),
        }
    }

    // A new signature, judged by the limits.
    fn plan_new(
        &self,
        sequence: Name,
        number: u32,
        basis: u64,
        moment: u64,
        name: &Text,
        meaning: &Text,
        text: &Bytes,
    ) -> Result<Plan, PlanError>
        requires short { length text.now < TEXT_LIMIT }
        requires there { IsSome (sequence_of self.now.state sequence) }
        ensures { Gives WantsMemory (λ p. p)
            (within_limits self.now.state (change.Sign sequence number basis moment name.now meaning.now text.now))
            result }
    {
        if let Some(limit) = limit_passed(&self.sign_counts(sequence, text)) {
            return Err(PlanError::Full(limit));
        }
        let alloc = *self.sequences.entries.allocator();
        let name = copy_text(alloc, name)?;
        let meaning = copy_text(alloc, meaning)?;
        let text = Bytes::from_vec(Vec::from_slice(alloc, text.as_slice())?);
        Ok(Plan::Change(Change::Sign {
            sequence,
            number,
            basis,
            moment,
            name,
            meaning,
            text,
        }))
    }

    // The counts that a signature raises, with their limits.
    fn sign_counts(&self, sequence: Name, text: &Bytes) -> [(u64, u64); 2]
        requires short { length text.now < TEXT_LIMIT }
        requires there { IsSome (sequence_of self.now.state sequence) }
        ensures { (number basis moment : ℕ) (name meaning : List ℕ)
            → result ≡ counts_of (change.Sign sequence number basis moment name meaning text.now)
            (carried self.now.state (change.Sign sequence number basis moment name meaning text.now)) }
    {
        self.rules();
        [
            (
                self.signatures(sequence).len() as u64 + 1,
                MOST_SIGNATURES as u64,
            ),
            (
                self.signed_bytes_in_all() + text.len() as u64,
                MOST_SIGNED_BYTES,
            ),
        ]
    }

    // How many rows the sequence of a name has, 0 where there is none.
    fn row_count(&self, name: Name) -> u64
        ensures { result ≡ option_map_or (λ (s : SequenceSeen). length s.rows) (sequence_of self.now.state name) 0 }
    {
        let Some(sequence) = self.sequence(name) else {
            return 0;
        };
        sequence.rows.len() as u64
    }
}

// Whether a sequence has this content.
fn has_content(
    kept: &Sequence,
    method: Name,
    version: u32,
    standards: &NameList,
    rows: &RowList,
) -> bool
    ensures { result ≡ has_content method version standards.now rows.now kept.now }
{
    kept.method == method
        && kept.version == version
        && same_names(&kept.standards, standards)
        && same_rows(&kept.rows, rows)
}

// Whether two lists of names are equal.
fn same_names(these: &NameList, those: &NameList) -> bool
    ensures { result ≡ pointwise bytes_eq these.now those.now }
{
    these.same(those)
}

// Whether two lists of rows are equal.
fn same_rows(these: &RowList, those: &RowList) -> bool
    ensures { result ≡ same_rows these.now those.now }
{
    these.same(those)
}

// Whether two lists of events are equal.
fn same_events(these: &EventList, those: &EventList) -> bool
    ensures { result ≡ same_events these.now those.now }
{
    these.same(those)
}

// The row of a number, counted from 1.
#[tactic(auto, unfolding(crate::specs::Plan::row_at))]
fn row_at(sequence: &Sequence, row: u32) -> Result<&Row, PlanError>
    ensures { Gives WantsMemory (λ r. r.now) (row_at sequence.now row) result }
{
    let Some(found) = numbered(sequence.rows.as_slice(), row) else {
        return Err(PlanError::NoRow(row));
    };
    Ok(found)
}

// An equal text with memory of its own.
pub(crate) fn copy_text(alloc: Global, text: &Text) -> Result<Text, NoMemory>
    ensures { IfOk result (λ copy. copy ≡ text.now) }
{
    Ok(Text::from_string(String::from_str(alloc, text.as_str())?))
}
