//! A table or an object, and the judging of its fields one by one.
ghost use Rattle.std.specs.Prelude.{◌≡◌, ◌≤◌, ◌++◌, ℕ, Some, IfOk, length, map, find, not, codes};
ghost use Rattle.std.specs.Prelude.{option_map, option_copied, string_bytes, string_cmp};
ghost use Rattle.std.specs.BTreeMap.{keys, IsOrdered};
ghost use Rattle.std.specs.List.{list_any};
ghost use Rattle.std.specs.Str.{bytes_eq};
ghost use Rattle.cds_base.specs.NameText.{IsName};

use crate::entries::Entries;
use crate::refusal::Refusal;
use crate::value::{TextValue, name_in, number_in};
use cds_base::{Name, Text};
use std::alloc::{AllocError, Global};
use std::collections::BTreeMap;
use std::marker::PhantomData;

/// A table or an object of a text, with what stands before a field's name in its path. Its fields are judged one by
/// one: each call answers what the field states, or its refusal. `V` is what the text's values are, `E` how its
/// refusals are told.
#[derive(Drop)]
pub struct Section<'a, V, E> {
    pub(crate) alloc: Global,
    pub(crate) front: String,
    pub(crate) fields: &'a BTreeMap<String, V>,
    pub(crate) told: PhantomData<E>,
}

impl<'a, V: TextValue, E: Refusal> Section<'a, V, E> {
    ghost use Rattle.std.specs.Prelude.{[]};
    ghost use Rattle.cds_fields.specs.Datum.{flag_in};
    ghost use Rattle.cds_fields.specs.Refusals.{Judges, Tells};
    ghost use Rattle.cds_fields.specs.Section.{field_at, has, path_of, needed, in_range, required, optional};
    ghost use Rattle.cds_fields.specs.Section.{section, only, entries, optional_entries};
    ghost use Rattle.cds_fields.specs.Seen.{seen, fields_seen, list_seen};
    ghost use Rattle.cds_fields.specs.Values.{number_in, name_in};

    /// The whole text, whose fields have their names as paths. It takes no memory.
    pub fn top(alloc: Global, fields: &'a BTreeMap<String, V>) -> Section<'a, V, E>
        ensures { seen V.shown E.told result
            ≡ record { front = []; fields = fields_seen V.shown fields.now.entries; told = E.told } }
    {
        Section {
            alloc,
            front: String::new(alloc),
            fields,
            told: PhantomData,
        }
    }

    /// The allocator of the judging.
    pub fn alloc(&self) -> Global {
        self.alloc
    }

    /// Whether a field is there.
    pub fn has(&self, name: &str) -> bool
        ensures { result ≡ has name.now (seen V.shown E.told self.now) }
    {
        self.value(name).is_some()
    }

    /// The value of a field that must be there.
    pub fn needed(&self, name: &str) -> Result<&'a V, E>
        ensures { Judges E.told (λ v. V.shown v.now) (needed name.now (seen V.shown E.told self.now)) result }
    {
        match self.value(name) {
            Some(value) => Ok(value),
            None => Err(self.missing(name)),
        }
    }

    /// What was read of a field's value; nothing is out of range.
    pub fn in_range<X: Drop>(&self, name: &str, read: Option<X>) -> Result<X, E>
        ensures value { Judges E.told (λ x. x) (in_range read name.now (seen V.shown E.told self.now)) result }
        ensures read { IfOk result (λ x. read ≡ Some x) }
    {
        match read {
            Some(value) => Ok(value),
            None => Err(self.out_of_range(name)),
        }
    }

    /// The whole number from `least` to `most` that a field states.
    #[tactic(auto, unfolding(crate::specs::Section::required))]
    pub fn number(&self, name: &str, least: u64, most: u64) -> Result<u64, E>
        ensures value { Judges E.told (λ n. n)
            (required (number_in least most) name.now (seen V.shown E.told self.now)) result }
        ensures least { IfOk result (λ n. least ≤ n) }
        ensures most { IfOk result (λ n. n ≤ most) }
    {
        let value = self.needed(name)?;
        match number_in(value, least, most) {
            Some(number) => Ok(number),
            None => Err(self.out_of_range(name)),
        }
    }

    /// The whole number from `least` to `most` that a field states, if it is there.
    #[tactic(auto, unfolding(crate::specs::Section::optional))]
    pub fn optional_number(&self, name: &str, least: u64, most: u64) -> Result<Option<u64>, E>
        ensures value { Judges E.told (λ n. n)
            (optional (number_in least most) name.now (seen V.shown E.told self.now)) result }
        ensures least { IfOk result (λ n. (x : ℕ) → n ≡ Some x → least ≤ x) }
        ensures most { IfOk result (λ n. (x : ℕ) → n ≡ Some x → x ≤ most) }
    {
        if !self.has(name) {
            return Ok(None);
        }
        let number = self.number(name, least, most)?;
        Ok(Some(number))
    }

    /// The name that a field states.
    #[tactic(auto, unfolding(crate::specs::Section::required))]
    pub fn name(&self, name: &str) -> Result<Name, E>
        ensures value { Judges E.told (λ x. x) (required name_in name.now (seen V.shown E.told self.now)) result }
        ensures name { IfOk result IsName }
    {
        let value = self.needed(name)?;
        self.in_range(name, name_in(value))
    }

    /// True or false, as a field states it, if it is there.
    #[tactic(auto, unfolding(crate::specs::Section::optional, crate::specs::Section::required))]
    pub fn optional_flag(&self, name: &str) -> Result<Option<bool>, E>
        ensures { Judges E.told (λ x. x) (optional flag_in name.now (seen V.shown E.told self.now)) result }
    {
        if !self.has(name) {
            return Ok(None);
        }
        let value = self.needed(name)?;
        let flag = self.in_range(name, value.as_flag())?;
        Ok(Some(flag))
    }

    /// The section that a field is.
    #[tactic(auto, unfolding(crate::specs::Section::section, crate::specs::Section::required))]
    pub fn section(&self, name: &str) -> Result<Section<'a, V, E>, E>
        ensures { Judges E.told (seen V.shown E.told) (section name.now (seen V.shown E.told self.now)) result }
    {
        let value = self.needed(name)?;
        let Some(fields) = value.as_fields() else {
            return Err(self.out_of_range(name));
        };
        match self.front_of(name) {
            Ok(front) => Ok(Section {
                alloc: self.alloc,
                front,
                fields,
                told: PhantomData,
            }),
            Err(_) => Err(E::no_memory()),
        }
    }

    /// The list of `least` to `most` values that a field is.
    #[tactic(auto, unfolding(crate::specs::Section::entries, crate::specs::Section::required))]
    pub fn entries(&self, name: &str, least: usize, most: usize) -> Result<Entries<'a, V, E>, E>
        ensures value { Judges E.told (list_seen V.shown E.told)
            (entries least most name.now (seen V.shown E.told self.now)) result }
        ensures least { IfOk result (λ es. least ≤ length es.values.now) }
        ensures most { IfOk result (λ es. length es.values.now ≤ most) }
    {
        let value = self.needed(name)?;
        let Some(values) = value.as_list() else {
            return Err(self.out_of_range(name));
        };
        if most < values.len() {
            return Err(self.too_many(name));
        }
        if values.len() < least {
            return Err(self.out_of_range(name));
        }
        match self.path(name) {
            Ok(path) => Ok(Entries::new(self.alloc, path, values)),
            Err(_) => Err(E::no_memory()),
        }
    }

    /// The list of at most `most` values that a field is, which is empty where it is absent.
    #[tactic(auto, unfolding(crate::specs::Section::optional_entries))]
    pub fn optional_entries(&self, name: &str, most: usize) -> Result<Entries<'a, V, E>, E>
        ensures value { Judges E.told (list_seen V.shown E.told)
            (optional_entries most name.now (seen V.shown E.told self.now)) result }
        ensures most { IfOk result (λ es. length es.values.now ≤ most) }
    {
        if self.has(name) {
            return self.entries(name, 0, most);
        }
        match self.path(name) {
            Ok(path) => Ok(Entries::new(self.alloc, path, &[])),
            Err(_) => Err(E::no_memory()),
        }
    }

    /// Refuses a field whose name is none of these, the least in byte order.
    #[tactic(auto, unfolding(crate::specs::Section::only))]
    pub fn only(&self, known: &[&str]) -> Result<(), E>
        ensures { Judges E.told (λ x. x) (only (map (λ k. k.now) known.now) (seen V.shown E.told self.now)) result }
    {
        match first_unknown(self.fields, known) {
            Some(name) => Err(self.unknown(name.as_str())),
            None => Ok(()),
        }
    }

    /// The value of a field, if it is there.
    fn value(&self, name: &str) -> Option<&'a V>
        ensures { option_map (λ v. V.shown v.now) result ≡ field_at name.now (seen V.shown E.told self.now).fields }
    {
        self.fields.get(name)
    }

    /// The path of a field.
    fn path(&self, name: &str) -> Result<String, AllocError>
        ensures { IfOk result (λ text. string_bytes text ≡ path_of name.now (seen V.shown E.told self.now)) }
    {
        let mut path = self.front.clone()?;
        path.push_str(name)?;
        Ok(path)
    }

    /// What stands before the names of the fields that a field has.
    fn front_of(&self, name: &str) -> Result<String, AllocError>
        ensures { IfOk result
            (λ text. string_bytes text ≡ path_of name.now (seen V.shown E.told self.now) ++ codes ".") }
    {
        let mut front = self.path(name)?;
        front.push_str(".")?;
        Ok(front)
    }

    /// The refusal of a field that isn't there.
    fn missing(&self, name: &str) -> E
        ensures { Tells E.told (E.told.missing (path_of name.now (seen V.shown E.told self.now))) result }
    {
        match self.path(name) {
            Ok(path) => E::missing(Text::from_string(path)),
            Err(_) => E::no_memory(),
        }
    }

    /// The refusal of a value of a wrong kind or outside its range.
    pub(crate) fn out_of_range(&self, name: &str) -> E
        ensures { Tells E.told (E.told.range (path_of name.now (seen V.shown E.told self.now))) result }
    {
        match self.path(name) {
            Ok(path) => E::range(Text::from_string(path)),
            Err(_) => E::no_memory(),
        }
    }

    /// The refusal of a field that the section may not have.
    fn unknown(&self, name: &str) -> E
        ensures { Tells E.told (E.told.unknown (path_of name.now (seen V.shown E.told self.now))) result }
    {
        match self.path(name) {
            Ok(path) => E::unknown(Text::from_string(path)),
            Err(_) => E::no_memory(),
        }
    }

    /// The refusal of a list of too many values.
    pub(crate) fn too_many(&self, name: &str) -> E
        ensures { Tells E.told (E.told.too_many (path_of name.now (seen V.shown E.told self.now))) result }
    {
        match self.path(name) {
            Ok(path) => E::too_many(Text::from_string(path)),
            Err(_) => E::no_memory(),
        }
    }
}

/// The first key that is none of these; the keys of a map stand in byte order.
fn first_unknown<'a, V>(fields: &'a BTreeMap<String, V>, known: &[&str]) -> Option<&'a String>
    ensures ordered { IsOrdered string_cmp fields.now }
    ensures found { option_copied result ≡ find
        (λ name. not (list_any (λ word. bytes_eq (string_bytes name) word.now) known.now)) (keys fields.now) }
{
    fields.keys().find(|name| !is_among(name.as_str(), known))
}

fn is_among(name: &str, words: &[&str]) -> bool
    ensures { result ≡ list_any (λ word. bytes_eq name.now word.now) words.now }
{
    words.iter().any(|word| name == *word)
}
