//! An object whose fields are names, each with a number.
ghost use Rattle.std.specs.Prelude.{◌≡◌, ◌≤◌, IfOk, [], All, length, map};
ghost use Rattle.cds_base.specs.NameText.{IsName};
ghost use Rattle.cds_base.specs.Named.{AreRising};
ghost use Rattle.cds_fields.specs.Refusals.{Judges};
ghost use Rattle.cds_fields.specs.Section.{each_named, named};
ghost use Rattle.cds_fields.specs.Seen.{seen};
ghost use Rattle.cds_fields.specs.Values.{signed_in};

use crate::refusal::Refusal;
use crate::section::Section;
use crate::value::{TextValue, signed_in};
use cds_base::Name;

/// The object under a field that must be there: at most `count` fields whose names are Names, each with its number from
/// `least` to `most`, in byte order of the names.
#[tactic(auto, unfolding(crate::specs::Section::named))]
pub fn named_numbers<V: TextValue, E: Refusal>(
    section: &Section<V, E>,
    name: &str,
    count: usize,
    least: i64,
    most: i64,
) -> Result<Vec<(Name, i64)>, E>
    ensures value { Judges E.told (λ v. v.items)
        (named (signed_in least most) count name.now (seen V.shown E.told section.now)) result }
    ensures count { IfOk result (λ v. length v.items ≤ count) }
    ensures names { IfOk result (λ v. All IsName (map (λ n. n.0) v.items)) }
    ensures rising { IfOk result (λ v. AreRising (map (λ n. n.0) v.items)) }
{
    let object = section.section(name)?;
    if count < object.fields.len() {
        return Err(section.too_many(name));
    }
    each_number(&object, least, most)
}

/// The numbers from `least` to `most` that the fields of a section state, each with its name, in byte order of these.
#[tactic(auto, unfolding(crate::specs::Section::each_named))]
fn each_number<V: TextValue, E: Refusal>(
    section: &Section<V, E>,
    least: i64,
    most: i64,
) -> Result<Vec<(Name, i64)>, E>
    ensures value { Judges E.told (λ v. v.items)
        (each_named (signed_in least most) (seen V.shown E.told section.now).front E.told []
        (seen V.shown E.told section.now).fields) result }
    ensures count { IfOk result (λ v. length v.items ≡ length section.now.fields.now.entries) }
    ensures names { IfOk result (λ v. All IsName (map (λ n. n.0) v.items)) }
    ensures rising { IfOk result (λ v. AreRising (map (λ n. n.0) v.items)) }
{
    let mut numbers = Vec::new(section.alloc);
    for (key, value) in section.fields.iter() {
        let Some(name) = Name::new(key.as_bytes()) else {
            return Err(section.out_of_range(key.as_str()));
        };
        let Some(number) = signed_in(value, least, most) else {
            return Err(section.out_of_range(key.as_str()));
        };
        let Ok(()) = numbers.push((name, number)) else {
            return Err(E::no_memory());
        };
    }
    Ok(numbers)
}
