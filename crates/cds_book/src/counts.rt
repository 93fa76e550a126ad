//! How much the sequences hold together.
ghost use Rattle.std.specs.Prelude.{◌≡◌, ◌≤◌, length};
ghost use Rattle.std.specs.List.{sum_by};
ghost use Rattle.cds_sign.specs.declared.signed.Signed.{Signed as SignedSeen};
ghost use Rattle.cds_book.specs.Held.{HeldSequence};
ghost use Rattle.cds_book.specs.Kept.{rows_in_all, signed_bytes_in_all};
ghost use Rattle.cds_book.specs.declared.limits.TheConstants.{MOST_ROWS_IN_ALL, MOST_SIGNED_BYTES};

use crate::entry::SignedSequence;
use crate::tables::Tables;
use cds_base::Named;
use cds_sign::Signed;

impl Tables {
    // How many rows all sequences have together.
    pub(crate) fn rows_in_all(&self) -> u64
        ensures value { result ≡ rows_in_all self.now.state.sequences }
        ensures few { result ≤ MOST_ROWS_IN_ALL }
    {
        rows_of(&self.sequences.entries)
    }

    // How many bytes all signed texts have together.
    pub(crate) fn signed_bytes_in_all(&self) -> u64
        ensures value { result ≡ signed_bytes_in_all self.now.state.sequences }
        ensures few { result ≤ MOST_SIGNED_BYTES }
    {
        bytes_of(&self.sequences.entries)
    }
}

// How many rows the sequences have together.
#[tactic(auto, using(std::proofs::lemmas::List::Sums::sum_by_more_le, std::proofs::lemmas::List::Sums::sum_by_more))]
fn rows_of(entries: &[Named<SignedSequence>]) -> u64
    requires few { sum_by (λ (e : HeldSequence). length e.value.sequence.rows) entries.now ≤ MOST_ROWS_IN_ALL }
    ensures { result ≡ sum_by (λ (e : HeldSequence). length e.value.sequence.rows) entries.now }
{
    let mut sum = 0;
    for place in 0..entries.len() {
        sum += entries[place].value.sequence.rows.len() as u64;
    }
    sum
}

// How many bytes the signed texts of the sequences have together.
#[tactic(auto, using(std::proofs::lemmas::List::Sums::sum_by_more_le, std::proofs::lemmas::List::Sums::sum_by_more))]
fn bytes_of(entries: &[Named<SignedSequence>]) -> u64
    requires few { sum_by (λ (e : HeldSequence). sum_by (λ (s : SignedSeen). length s.text) e.value.signed.items)
        entries.now ≤ MOST_SIGNED_BYTES }
    ensures { result
        ≡ sum_by (λ (e : HeldSequence). sum_by (λ (s : SignedSeen). length s.text) e.value.signed.items) entries.now }
{
    let mut sum = 0;
    for place in 0..entries.len() {
        sum += bytes_signed(&entries[place].value.signed);
    }
    sum
}

// How many bytes the signed texts have together.
#[tactic(auto, using(std::proofs::lemmas::List::Sums::sum_by_more_le, std::proofs::lemmas::List::Sums::sum_by_more))]
fn bytes_signed(signed: &[Signed]) -> u64
    requires few { sum_by (λ (s : SignedSeen). length s.text) signed.now ≤ MOST_SIGNED_BYTES }
    ensures { result ≡ sum_by (λ (s : SignedSeen). length s.text) signed.now }
{
    let mut sum = 0;
    for place in 0..signed.len() {
        sum += signed[place].text.len() as u64;
    }
    sum
}
