use super::*;
use cds_base::{MOST_EVENTS, Text};
use std::alloc::Global;
use std::test::Fail;

/// A refusal of these tests: its kind by its first letter, and its path.
#[derive(Debug, Drop)]
struct Told {
    kind: char,
    path: Option<Text>,
}

impl Refusal for Told {
    ghost use Rattle.std.specs.Prelude.{Some, None};

    ghost told = { record { missing = λ p. record { kind = 109; path = Some p }; range = λ p. record { kind = 114; path = Some p }; unknown = λ p. record { kind = 117; path = Some p }; too_many = λ p. record { kind = 116; path = Some p }; wanting = record { kind = 119; path = None } } };

    fn missing(path: Text) -> Told {
        Told {
            kind: 'm',
            path: Some(path),
        }
    }

    fn range(path: Text) -> Told {
        Told {
            kind: 'r',
            path: Some(path),
        }
    }

    fn unknown(path: Text) -> Told {
        Told {
            kind: 'u',
            path: Some(path),
        }
    }

    fn too_many(path: Text) -> Told {
        Told {
            kind: 't',
            path: Some(path),
        }
    }

    fn no_memory() -> Told {
        Told {
            kind: 'w',
            path: None,
        }
    }
}

/// The events of all rows of a text that states each kind of field.
fn judge<V: TextValue>(section: &Section<V, Told>) -> Result<usize, Told> {
    section.number("n", 1, 9)?;
    section.optional_flag("flag")?;
    section.name("name")?;
    let inner = section.section("inner")?;
    inner.optional_number("x", 0, 5)?;
    inner.only(&["x"])?;
    named_numbers(section, "amounts", 2, -3, 9_223_372_036_854_775_807)?;
    let rows = section.entries("rows", 1, 2)?;
    let mut count = 0;
    for place in 0..rows.len() {
        let row = rows.at(place)?.section()?;
        let entries = row.optional_entries("events", MOST_EVENTS)?;
        count = events(&entries)?.len();
        row.only(&["events"])?;
    }
    section.only(&["n", "flag", "name", "inner", "amounts", "rows"])?;
    Ok(count)
}

const JSON: &str =
    "{\"n\":1,\"flag\":true,\"name\":\"a\",\"inner\":{\"x\":5},\"amounts\":{\"b\":-3,\"a.1\":9223372036854775807},\"rows\":[{},{\"events\":[{\"kind\":\"drop\",\"at_ms\":7}]}]}";

const TOML: &str =
    "n = 1\nflag = true\nname = \"a\"\ninner = {x = 5}\namounts = {b = -3, \"a.1\" = 9223372036854775807}\nrows = [{}, {events = [{kind = \"drop\", at_ms = 7}]}]\n";

// What stands in place of a part of either text, and the refusal: its kind and its path.
const REFUSALS: [(&str, &str, &str, &str, char, &str); 20] = [
    ("\"n\":1,", "", "n = 1\n", "", 'm', "n"),
    ("\"n\":1,", "\"n\":0,", "n = 1\n", "n = 0\n", 'r', "n"),
    ("\"n\":1,", "\"n\":10,", "n = 1\n", "n = 10\n", 'r', "n"),
    ("\"n\":1,", "\"n\":1.0,", "n = 1\n", "n = 1.0\n", 'r', "n"),
    ("true", "1", "true", "1", 'r', "flag"),
    ("\"a\"", "\"a b\"", "\"a\"", "\"a b\"", 'r', "name"),
    ("{\"x\":5}", "[5]", "{x = 5}", "[5]", 'r', "inner"),
    (
        "{\"x\":5}",
        "{\"x\":6}",
        "{x = 5}",
        "{x = 6}",
        'r',
        "inner.x",
    ),
    (
        "{\"x\":5}",
        "{\"y\":5}",
        "{x = 5}",
        "{y = 5}",
        'u',
        "inner.y",
    ),
    ("\"b\":-3", "\"b\":-4", "b = -3", "b = -4", 'r', "amounts.b"),
    (
        "\"b\":-3",
        "\"c d\":1",
        "b = -3",
        "\"c d\" = 1",
        'r',
        "amounts.c d",
    ),
    (
        "\"b\":-3",
        "\"b\":1,\"c\":1",
        "b = -3",
        "b = 1, c = 1",
        't',
        "amounts",
    ),
    ("[{},", "[{},{},", "[{},", "[{},{},", 't', "rows"),
    ("[{},", "[1,", "[{},", "[1,", 'r', "rows.1"),
    (
        "\"drop\"",
        "\"lift\"",
        "\"drop\"",
        "\"lift\"",
        'r',
        "rows.2.events.1.kind",
    ),
    (
        "\"at_ms\":7",
        "\"from_ms\":7",
        "at_ms = 7",
        "from_ms = 7",
        'm',
        "rows.2.events.1.at_ms",
    ),
    (
        "\"drop\",\"at_ms\":7",
        "\"skim\",\"from_ms\":7,\"to_ms\":7",
        "\"drop\", at_ms = 7",
        "\"skim\", from_ms = 7, to_ms = 7",
        'r',
        "rows.2.events.1.to_ms",
    ),
    (
        "\"at_ms\":7",
        "\"at_ms\":14400001",
        "at_ms = 7",
        "at_ms = 14400001",
        'r',
        "rows.2.events.1.at_ms",
    ),
    (
        "\"at_ms\":7",
        "\"at_ms\":7,\"on\":1",
        "at_ms = 7",
        "at_ms = 7, on = 1",
        'u',
        "rows.2.events.1.on",
    ),
    (
        "\"n\":1,",
        "\"z\":1,\"B\":1,\"n\":1,",
        "n = 1\n",
        "z = 1\nB = 1\nn = 1\n",
        'u',
        "B",
    ),
];

/// What the JSON states.
fn judge_json(alloc: Global, text: &str) -> Result<Result<usize, Told>, Fail> {
    let value = read_json(alloc, text.as_bytes())?.ok_or("it is JSON")?;
    let fields = value.as_fields().ok_or("it is an object")?;
    Ok(judge(&Section::top(alloc, fields)))
}

/// What the TOML states.
fn judge_toml(alloc: Global, text: &str) -> Result<Result<usize, Told>, Fail> {
    let table = read_toml(alloc, text.as_bytes())?.ok_or("it is TOML")?;
    Ok(judge(&Section::top(alloc, &table)))
}

/// Whether the refusal is of this kind at this path.
fn is_told(answer: &Result<usize, Told>, kind: char, path: &str) -> bool {
    match answer {
        Ok(_) => false,
        Err(told) => match &told.path {
            Some(text) => told.kind == kind && text.as_str() == path,
            None => false,
        },
    }
}

#[test]
fn both_texts_are_judged_alike(rt: HostRuntime) -> Result<(), Fail> {
    assert!(rt; matches!(judge_json(rt.alloc(), JSON)?, Ok(1)));
    assert!(rt; matches!(judge_toml(rt.alloc(), TOML)?, Ok(1)));
    let rows: &[(&str, &str, &str, &str, char, &str)] = &REFUSALS;
    for (json, other_json, toml, other_toml, kind, path) in rows {
        let text = JSON.replacen(rt.alloc(), *json, *other_json, 1)?;
        let answer = judge_json(rt.alloc(), text.as_str())?;
        assert!(rt; is_told(&answer, *kind, path), "at {}", text.as_str());
        let text = TOML.replacen(rt.alloc(), *toml, *other_toml, 1)?;
        let answer = judge_toml(rt.alloc(), text.as_str())?;
        assert!(rt; is_told(&answer, *kind, path), "at {}", text.as_str());
    }
    Ok(())
}
