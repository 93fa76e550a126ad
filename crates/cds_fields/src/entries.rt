//! A list of a text, and its entries one by one.
ghost use Rattle.std.specs.Prelude.{◌≡◌, ◌<◌, ◌≤◌, IfOk, IfErr, map, length, string_bytes};
ghost use Rattle.cds_base.specs.NameText.{IsName};

use crate::refusal::Refusal;
use crate::section::Section;
use crate::value::{TextValue, name_in, number_in};
use cds_base::{Name, Text};
use std::alloc::Global;
use std::marker::PhantomData;

/// A list of a text, with its path. Its entries are read one by one.
#[derive(Drop)]
pub struct Entries<'a, V, E> {
    pub(crate) alloc: Global,
    pub(crate) path: String,
    pub(crate) values: &'a [V],
    pub(crate) told: PhantomData<E>,
}

/// A value in a list, with its path.
#[derive(Drop)]
pub struct Entry<'a, V, E> {
    alloc: Global,
    path: String,
    value: &'a V,
    told: PhantomData<E>,
}

impl<'a, V: TextValue, E: Refusal> Entries<'a, V, E> {
    ghost use Rattle.cds_fields.specs.Section.{entry_at};
    ghost use Rattle.cds_fields.specs.Seen.{list_seen, entry_seen};

    pub(crate) fn new(alloc: Global, path: String, values: &'a [V]) -> Entries<'a, V, E>
        ensures seen { list_seen V.shown E.told result
            ≡ record { path = string_bytes path; values = map V.shown values.now; told = E.told } }
        ensures values { result.values.now ≡ values.now }
    {
        Entries {
            alloc,
            path,
            values,
            told: PhantomData,
        }
    }

    /// The allocator of the judging.
    pub fn alloc(&self) -> Global {
        self.alloc
    }

    /// How many values there are.
    pub fn len(&self) -> usize
        ensures { result ≡ length (list_seen V.shown E.told self.now).values }
    {
        self.values.len()
    }

    /// The entry at a place, counted from 0. Its only refusal is want of memory.
    pub fn at(&self, place: usize) -> Result<Entry<'a, V, E>, E>
        requires { place < length (list_seen V.shown E.told self.now).values }
        ensures value { IfOk result
            (λ entry. entry_seen V.shown E.told entry ≡ entry_at place (list_seen V.shown E.told self.now)) }
        ensures memory { IfErr result (λ e. e ≡ E.told.wanting) }
    {
        let list = self.path.as_str();
        let number = place + 1;
        let Ok(path) = format!(in self.alloc; "{list}.{number}") else {
            return Err(E::no_memory());
        };
        Ok(Entry {
            alloc: self.alloc,
            path,
            value: &self.values[place],
            told: PhantomData,
        })
    }
}

impl<'a, V: TextValue, E: Refusal> Entry<'a, V, E> {
    ghost use Rattle.cds_fields.specs.Refusals.{Judges, Tells};
    ghost use Rattle.cds_fields.specs.Section.{stated_by, entry_section};
    ghost use Rattle.cds_fields.specs.Seen.{seen, entry_seen};
    ghost use Rattle.cds_fields.specs.Values.{number_in, name_in};

    /// The whole number from `least` to `most` that the entry states.
    pub fn number(&self, least: u64, most: u64) -> Result<u64, E>
        ensures value { Judges E.told (λ n. n)
            (stated_by (number_in least most) (entry_seen V.shown E.told self.now)) result }
        ensures least { IfOk result (λ n. least ≤ n) }
        ensures most { IfOk result (λ n. n ≤ most) }
    {
        match number_in(self.value, least, most) {
            Some(number) => Ok(number),
            None => Err(self.out_of_range()),
        }
    }

    /// The name that the entry states.
    pub fn name(&self) -> Result<Name, E>
        ensures value { Judges E.told (λ x. x) (stated_by name_in (entry_seen V.shown E.told self.now)) result }
        ensures name { IfOk result IsName }
    {
        match name_in(self.value) {
            Some(name) => Ok(name),
            None => Err(self.out_of_range()),
        }
    }

    /// The section that the entry is.
    #[tactic(auto, unfolding(crate::specs::Section::entry_section))]
    pub fn section(&self) -> Result<Section<'a, V, E>, E>
        ensures { Judges E.told (seen V.shown E.told) (entry_section (entry_seen V.shown E.told self.now)) result }
    {
        let Some(fields) = self.value.as_fields() else {
            return Err(self.out_of_range());
        };
        let path = self.path.as_str();
        let Ok(front) = format!(in self.alloc; "{path}.") else {
            return Err(E::no_memory());
        };
        Ok(Section {
            alloc: self.alloc,
            front,
            fields,
            told: PhantomData,
        })
    }

    /// The refusal of a value of a wrong kind or outside its range.
    pub fn out_of_range(&self) -> E
        ensures { Tells E.told (E.told.range (entry_seen V.shown E.told self.now).path) result }
    {
        match self.path.clone() {
            Ok(path) => E::range(Text::from_string(path)),
            Err(_) => E::no_memory(),
        }
    }
}
