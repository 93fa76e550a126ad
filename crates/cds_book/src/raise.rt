//! How the list of sequences is changed in place, without taking memory.
ghost use Rattle.std.specs.Prelude.{◌≡◌, ◌+◌, ◌<◌, ◌≤◌, All, [], ◌∷◌, ◌++◌, Some, length, map, option_map, unwrap_or, vec_len, vec_capacity, if◌then◌else◌};
ghost use Rattle.std.specs.List.{HoldsAt};
ghost use Rattle.cds_base.specs.Named.{named, placed, AreRising, StandsAt};
ghost use Rattle.cds_sign.specs.declared.limits.TheConstants.{MOST_BASIS};
ghost use Rattle.cds_sign.specs.declared.sequence.Sequence.{Sequence as SequenceSeen};
ghost use Rattle.cds_book.specs.Held.{HeldSequence, held_name, sequence_shown};
ghost use Rattle.cds_book.specs.Raising.{raised_by};
ghost use Rattle.cds_book.specs.Tables.{NamedSequence};

use crate::entry::SignedSequence;
use cds_base::{Name, NamedList, Place};
use cds_sign::{Sequence, Signed};

/// Raises by one the basis of each sequence for which it is told.
pub(crate) fn raise(list: &mut NamedList<SignedSequence>, rises: &[bool])
    requires many { length rises.now ≡ length list.old.entries.items }
    requires few { All (λ (e : HeldSequence). e.value.sequence.basis ≤ MOST_BASIS) list.old.entries.items }
    ensures shown { map sequence_shown list.new.entries.items
        ≡ raised_by rises.now (map sequence_shown list.old.entries.items) }
    ensures room { vec_len list.old.entries < vec_capacity list.old.entries
        → vec_len list.new.entries < vec_capacity list.new.entries }
{
    for place in 0..rises.len() {
        list.entries[place].value.sequence.basis += one_if(rises[place]);
    }
}

/// One where it is so.
pub(crate) fn one_if(so: bool) -> u64
    ensures value { result ≡ (if so then 1 else 0) }
    ensures few { result ≤ 1 }
{
    if so { 1 } else { 0 }
}

/// Puts a sequence under a name, with the signatures that stand there.
pub(crate) fn put_under(list: &mut NamedList<SignedSequence>, name: Name, made: Sequence)
    requires rising { AreRising (map held_name list.old.entries.items) }
    requires room { vec_len list.old.entries < vec_capacity list.old.entries }
    ensures { map sequence_shown list.new.entries.items
        ≡ placed (λ (e : NamedSequence). e.name) (map sequence_shown list.old.entries.items)
        (record {
          name = name;
          sequence = made;
          signed = unwrap_or (option_map (λ (e : NamedSequence). e.signed)
              (named (λ (e : NamedSequence). e.name) (map sequence_shown list.old.entries.items) name)) [];
        }) }
{
    match list.place(name) {
        Place::At(at) => list.entries[at].value.sequence = made,
        Place::Gap(at) => {
            let signed = Vec::new(*list.entries.allocator());
            let value = SignedSequence {
                sequence: made,
                signed,
            };
            list.put(Place::Gap(at), name, value);
        }
    }
}

/// Puts a signature behind those of the sequence of a name, which stands at this place.
pub(crate) fn sign_at(list: &mut NamedList<SignedSequence>, at: usize, name: Name, signed: Signed)
    requires stands { StandsAt held_name list.old.entries.items name at }
    requires room { HoldsAt (λ (e : HeldSequence). vec_len e.value.signed < vec_capacity e.value.signed)
        list.old.entries.items at }
    ensures { (s : SequenceSeen)
        → option_map (λ (e : NamedSequence). e.sequence)
        (named (λ (e : NamedSequence). e.name) (map sequence_shown list.old.entries.items) name) ≡ Some s
        → map sequence_shown list.new.entries.items
        ≡ placed (λ (e : NamedSequence). e.name) (map sequence_shown list.old.entries.items)
        (record {
          name = name;
          sequence = s;
          signed = unwrap_or (option_map (λ (e : NamedSequence). e.signed)
              (named (λ (e : NamedSequence). e.name) (map sequence_shown list.old.entries.items) name)) []
              ++ signed ∷ [];
        }) }
{
    let Ok(()) = list.entries[at].value.signed.push(signed) else {
        unreachable!()
    };
}
