//! How the things that a command names are judged, one after the other.
ghost use Rattle.std.specs.Prelude.{◌≡◌, ◌+◌, ◌≤◌, ◌<◌, not, false, [], length, option_copied, IfOk};
ghost use Rattle.std.specs.List.{list_any};
ghost use Rattle.std.specs.Option.{option_map_or};
ghost use Rattle.std.specs.Str.{bytes_eq};
ghost use Rattle.cds_base.specs.Answers.{Gives};
ghost use Rattle.cds_sign.specs.declared.limits.TheConstants.{MOST_EDITION, MOST_ROWS};
ghost use Rattle.cds_sign.specs.declared.row.Row.{Row as RowSeen};
ghost use Rattle.cds_book.specs.Inputs.{is_standard};
ghost use Rattle.cds_book.specs.Judged.{can_bind, each_judged, method_judged, standard_judged, standards_judged, trace_judged, label_judged, amount_judged, amounts_judged, row_judged, rows_judged, sequence_judged, edition_of, edition_judged, says_same, new_judged, sign_judged};
ghost use Rattle.cds_book.specs.declared.error.PlanError.TheVariants.{NoMemory};

use crate::command::SignPlan;
use crate::error::PlanError;
use crate::tables::Tables;
use cds_base::{MOST_AMOUNT, Name};
use cds_sign::{
    AmountList, AskedAmountList, AskedRow, AskedRowList, NameList, Row, RowKind, RowList, Sequence,
    Signed,
};
use std::alloc::Global;

impl Tables {
    // A method with a draft, and a version of it, 0 for the latest one.
    #[tactic(auto, unfolding(crate::specs::Judged::method_judged))]
    pub(crate) fn judge_method(&self, method: Name, version: u32) -> Result<(), PlanError>
        ensures { Gives NoMemory (λ u. u) (method_judged self.now.state method version) result }
    {
        if !self.has_draft(method) {
            return Err(PlanError::NoMethod(method));
        }
        if !can_bind(self.texts(method).len(), version) {
            return Err(PlanError::NoVersion(method));
        }
        Ok(())
    }

    // The sequences that a sequence lists, each of which is there or is the sequence itself.
    #[tactic(auto, using(crate::proofs::Judging::judging), unfolding(crate::specs::Judged::standards_judged))]
    pub(crate) fn judge_standards(&self, name: Name, listed: &[Name]) -> Result<NameList, PlanError>
        ensures { Gives NoMemory (λ names. names) (standards_judged self.now.state name listed.now) result }
    {
        let mut names = Vec::new(*self.sequences.entries.allocator());
        for place in 0..listed.len() {
            let standard = self.judge_standard(name, listed[place])?;
            names.push(standard)?;
        }
        Ok(NameList::from_vec(names))
    }

    #[tactic(auto, unfolding(crate::specs::Judged::standard_judged))]
    fn judge_standard(&self, name: Name, listed: Name) -> Result<Name, PlanError>
        ensures { Gives NoMemory (λ name. name) (standard_judged self.now.state name listed) result }
    {
        if listed != name && !self.has_sequence(listed) {
            return Err(PlanError::NoSequence(listed));
        }
        Ok(listed)
    }

    // The rows that a sequence is asked to have, each behind those before it.
    #[tactic(auto, using(crate::proofs::Judging::judging), unfolding(crate::specs::Judged::rows_judged))]
    pub(crate) fn judge_rows(&self, asked: &AskedRowList) -> Result<RowList, PlanError>
        requires few { length asked.now ≤ MOST_ROWS }
        ensures value { Gives NoMemory (λ rows. rows) (rows_judged self.now.state asked.now) result }
        ensures many { IfOk result (λ rows. length rows ≡ length asked.now) }
    {
        let asked = asked.as_slice();
        let mut rows = Vec::new(*self.sequences.entries.allocator());
        for place in 0..asked.len() {
            let row = self.judge_row(place as u32 + 1, rows.as_slice(), &asked[place])?;
            rows.push(row)?;
        }
        Ok(RowList::from_vec(rows))
    }

    // The row of a number, behind those before it.
    #[tactic(auto, unfolding(crate::specs::Judged::row_judged))]
    fn judge_row(&self, number: u32, before: &[Row], row: &AskedRow) -> Result<Row, PlanError>
        requires behind { number ≡ length before.now + 1 }
        ensures { Gives NoMemory (λ row. row) (row_judged self.now.state before.now row.now) result }
    {
        self.judge_trace(row.trace, row.version)?;
        judge_label(before, row.label)?;
        let alloc = *self.sequences.entries.allocator();
        let amounts = judge_amounts(alloc, number, row.kind, &row.amounts)?;
        let events = row.events.copy()?;
        Ok(Row {
            label: row.label,
            kind: row.kind,
            trace: row.trace,
            version: row.version,
            used: row.used,
            u: row.u,
            v: row.v,
            amounts,
            events,
        })
    }

    // A trace and a version of it, 0 for the latest one.
    #[tactic(auto, unfolding(crate::specs::Judged::trace_judged))]
    fn judge_trace(&self, trace: Name, version: u32) -> Result<(), PlanError>
        ensures { Gives NoMemory (λ u. u) (trace_judged self.now.state trace version) result }
    {
        let count = self.signals(trace).len();
        if count == 0 {
            return Err(PlanError::NoTrace(trace));
        }
        if !can_bind(count, version) {
            return Err(PlanError::NoVersion(trace));
        }
        Ok(())
    }

    // A sequence that a path names.
    #[tactic(auto, unfolding(crate::specs::Judged::sequence_judged))]
    pub(crate) fn judge_sequence(&self, name: Name) -> Result<&Sequence, PlanError>
        ensures { Gives NoMemory (λ s. s.now) (sequence_judged self.now.state name) result }
    {
        let Some(sequence) = self.sequence(name) else {
            return Err(PlanError::NoSequence(name));
        };
        Ok(sequence)
    }

    // The edition of a sequence, 0 where there is none.
    #[tactic(auto, unfolding(crate::specs::Judged::edition_of))]
    pub(crate) fn edition(&self, name: Name) -> u64
        ensures value { result ≡ edition_of self.now.state name }
        ensures few { result ≤ MOST_EDITION + 1 }
    {
        self.rules();
        let Some(sequence) = self.sequence(name) else {
            return 0;
        };
        sequence.edition
    }

    // The edition that was seen, which must be the kept one.
    #[tactic(auto, unfolding(crate::specs::Judged::edition_judged))]
    pub(crate) fn judge_edition(&self, name: Name, edition: u64) -> Result<(), PlanError>
        ensures { Gives NoMemory (λ u. u) (edition_judged self.now.state name edition) result }
    {
        let kept = self.edition(name);
        if edition != kept {
            return Err(PlanError::Edition(kept));
        }
        Ok(())
    }

    /// What a signature comes to before its text is made: Kept where the signature of this number is over the same
    /// basis, by the same name and with the same meaning; else New. It is refused with NoSequence where there is no
    /// such sequence; with Number where it isn't kept and its number isn't the next one; and then with Basis where the
    /// basis isn't the kept one. Whether it would pass a limit is judged with its text. The tables stay as they are.
    #[tactic(auto, unfolding(crate::specs::Judged::sign_judged))]
    pub fn would_sign(
        &self,
        sequence: Name,
        basis: u64,
        number: u32,
        name: &[u8],
        meaning: &[u8],
    ) -> Result<SignPlan, PlanError>
        ensures { Gives NoMemory (λ p. p)
            (sign_judged self.now.state sequence basis number name.now meaning.now) result }
    {
        let kept = self.judge_sequence(sequence)?.basis;
        if says_same(self.signed(sequence, number), basis, name, meaning) {
            return Ok(SignPlan::Kept(number));
        }
        self.judge_new(sequence, kept, basis, number)
    }

    // A signature that isn't kept.
    #[tactic(auto, unfolding(crate::specs::Judged::new_judged))]
    fn judge_new(
        &self,
        sequence: Name,
        kept: u64,
        basis: u64,
        number: u32,
    ) -> Result<SignPlan, PlanError>
        ensures { Gives NoMemory (λ p. p) (new_judged self.now.state sequence kept basis number) result }
    {
        let next = self.signatures(sequence).len() as u32 + 1;
        if number != next {
            return Err(PlanError::Number(next));
        }
        if basis != kept {
            return Err(PlanError::Basis(kept));
        }
        Ok(SignPlan::New)
    }
}

// Whether a version can be bound where there are so many.
pub(crate) fn can_bind(count: usize, version: u32) -> bool
    ensures { result ≡ can_bind count version }
{
    0 < count && version as usize <= count
}

// A label that none of the rows before has.
#[tactic(auto, unfolding(crate::specs::Judged::label_judged))]
fn judge_label(before: &[Row], label: Name) -> Result<(), PlanError>
    ensures { Gives NoMemory (λ u. u) (label_judged before.now label) result }
{
    if has_label(before, label) {
        return Err(PlanError::TwoLabels(label));
    }
    Ok(())
}

// Whether one of the rows has this label.
fn has_label(rows: &[Row], label: Name) -> bool
    ensures { result ≡ list_any (λ (row : RowSeen). bytes_eq row.label label) rows.now }
{
    rows.iter().any(|row| row.label == label)
}

// The amounts of the row of a number, which only a standard may have.
#[tactic(auto, unfolding(crate::specs::Judged::amounts_judged))]
fn judge_amounts(
    alloc: Global,
    number: u32,
    kind: RowKind,
    asked: &AskedAmountList,
) -> Result<AmountList, PlanError>
    ensures { Gives NoMemory (λ amounts. amounts) (amounts_judged number kind asked.now) result }
{
    if !is_standard(kind) && asked.len() != 0 {
        return Err(PlanError::BadAmount(number));
    }
    let amounts = each_amount(alloc, number, asked.as_slice())?;
    Ok(AmountList::from_vec(amounts))
}

// The amounts of the row of a number, one after the other.
#[tactic(auto, using(crate::proofs::Judging::judging))]
fn each_amount(
    alloc: Global,
    number: u32,
    asked: &[(Name, i64)],
) -> Result<Vec<(Name, u32)>, PlanError>
    ensures { Gives NoMemory (λ v. v.items) (each_judged (λ _. amount_judged number) [] asked.now) result }
{
    let mut amounts = Vec::new(alloc);
    for place in 0..asked.len() {
        let amount = judge_amount(number, &asked[place])?;
        amounts.push(amount)?;
    }
    Ok(amounts)
}

pub(crate) fn is_standard(kind: RowKind) -> bool
    ensures { result ≡ is_standard kind }
{
    match kind {
        RowKind::Blank => false,
        RowKind::Standard => true,
        RowKind::Replicate => false,
        RowKind::Sample => false,
    }
}

// An amount of the row of a number.
#[tactic(auto, unfolding(crate::specs::Judged::amount_judged))]
fn judge_amount(number: u32, asked: &(Name, i64)) -> Result<(Name, u32), PlanError>
    ensures { Gives NoMemory (λ a. a) (amount_judged number asked.now) result }
{
    let (name, amount) = *asked;
    if amount < 1 || i64::from(MOST_AMOUNT) < amount {
        return Err(PlanError::BadAmount(number));
    }
    Ok((name, amount as u32))
}

// Whether there is a signature and it is over this basis, by this name and with this meaning.
fn says_same(signed: Option<&Signed>, basis: u64, name: &[u8], meaning: &[u8]) -> bool
    ensures { result ≡ option_map_or (says_same basis name.now meaning.now) (option_copied signed.entry) false }
{
    let Some(signed) = signed else {
        return false;
    };
    signed.basis == basis
        && signed.name.as_str().as_bytes() == name
        && signed.meaning.as_str().as_bytes() == meaning
}
