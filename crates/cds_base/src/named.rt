//! A list under names: entries in byte order of their names, each name at most once.
ghost use Rattle.std.specs.Prelude.{◌≡◌, ◌≤◌, [], length, map, option_copied, option_map, vec_len, vec_capacity, IfOk, IfErr, OnErr};
ghost use Rattle.cds_base.specs.Named.{named, placed, AreRising, StandsAt, IsGapAt, IsPlaceOf, HasRoomFor};

use crate::name::Name;
use std::alloc::{AllocError, Global};

/// What stands under a name.
#[derive(Debug, Drop)]
pub struct Named<V> {
    pub name: Name,
    pub value: V,
}

/// Where the entry of a name stands in a list, or the gap that it would go to; both count from 0.
#[derive(Clone, Copy, Debug, PartialEq, Eq)]
pub enum Place {
    At(usize),
    Gap(usize),
}

/// Entries under their names. Its calls need that the names rise in byte order, and keep it so.
#[derive(Debug, Drop)]
pub struct NamedList<V> {
    pub entries: Vec<Named<V>>,
}

impl<V: Drop> NamedList<V> {
    /// A list without entries. It takes no memory.
    pub fn new(alloc: Global) -> NamedList<V>
        ensures empty { result.entries.items ≡ [] }
        ensures rising { AreRising (map (λ e. e.name) result.entries.items) }
    {
        NamedList {
            entries: Vec::new(alloc),
        }
    }

    /// How many entries there are.
    pub fn len(&self) -> usize
        ensures { result ≡ length self.now.entries.items }
    {
        self.entries.len()
    }

    /// Where the entry of a name stands, or else the gap that it would go to. It takes no memory.
    pub fn place(&self, name: Name) -> Place
        requires { AreRising (map (λ e. e.name) self.now.entries.items) }
        ensures { IsPlaceOf (λ e. e.name) self.now.entries.items name result }
    {
        match place_of(&self.entries, name) {
            Ok(at) => Place::At(at),
            Err(at) => Place::Gap(at),
        }
    }

    /// The value of a name. None exactly where there is no entry of this name. It takes no memory.
    pub fn find(&self, name: Name) -> Option<&V>
        requires { AreRising (map (λ e. e.name) self.now.entries.items) }
        ensures { option_copied result ≡ option_map (λ e. e.value) (named (λ e. e.name) self.now.entries.items name) }
    {
        match self.place(name) {
            Place::At(at) => Some(&self.entries[at].value),
            Place::Gap(_) => None,
        }
    }

    /// Where the entry of a name stands, or else the gap that it would go to, with room for one more entry taken there.
    /// The entries stay as they are, also where memory is wanting.
    pub fn reserve(&mut self, name: Name) -> Result<Place, AllocError>
        requires { AreRising (map (λ e. e.name) self.old.entries.items) }
        ensures stay { self.new.entries.items ≡ self.old.entries.items }
        ensures place { IfOk result (IsPlaceOf (λ e. e.name) self.old.entries.items name) }
        ensures room { IfOk result
            (λ place. HasRoomFor place (vec_len self.new.entries) (vec_capacity self.new.entries)) }
    {
        let place = self.place(name);
        if let Place::Gap(_) = place {
            self.entries.reserve(1)?;
        }
        Ok(place)
    }

    /// Puts a value under a name, instead of one that stands there. It needs the place of that name, with the room that
    /// `reserve` takes, takes no memory and can't fail.
    pub fn put(&mut self, place: Place, name: Name, value: V)
        requires place { IsPlaceOf (λ e. e.name) self.old.entries.items name place }
        requires room { HasRoomFor place (vec_len self.old.entries) (vec_capacity self.old.entries) }
        ensures value { self.new.entries.items
            ≡ placed (λ e. e.name) self.old.entries.items (record { name = name; value = value }) }
        ensures rising { AreRising (map (λ e. e.name) self.old.entries.items)
            → AreRising (map (λ e. e.name) self.new.entries.items) }
    {
        let entry = Named { name, value };
        match place {
            Place::At(at) => self.entries[at] = entry,
            Place::Gap(at) => {
                let Ok(()) = self.entries.insert(at, entry) else {
                    unreachable!()
                };
            }
        }
    }
}

/// Where the entry of a name stands, or else where it would go.
fn place_of<V>(entries: &[Named<V>], name: Name) -> Result<usize, usize>
    requires { AreRising (map (λ e. e.name) entries.now) }
    ensures found { IfOk result (StandsAt (λ e. e.name) entries.now name) }
    ensures absent { IfErr result (IsGapAt (λ e. e.name) entries.now name) }
{
    entries.binary_search_by_key(&name, |entry| entry.name)
}
