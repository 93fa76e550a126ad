//! Tests of the words of the command line: which lists of words are a command.

use crate::command::{CommandLine, PeaksOptions, read_words};
use std::alloc::Global;
use std::process::Abort;
use std::test::Fail;

// The words of a line, which `|` keeps apart.
fn words_of(alloc: Global, line: &str) -> Result<Vec<String>, Fail> {
    let mut words = Vec::new(alloc);
    for word in line.split('|') {
        words.push(String::from_str(alloc, word)?)?;
    }
    Ok(words)
}

#[test]
fn words_that_are_no_command(rt: HostRuntime) -> Result<(), Fail> {
    let rows = [
        ("an empty word", ""),
        ("the word that ends options", "--"),
        ("help as an option", "--help"),
        ("help as a command", "help|peaks"),
        ("help behind a command", "peaks|-h"),
        ("another command", "PEAKS"),
        (
            "an option without a value",
            "peaks|--bunch|1|--on|5|--off|5|--plateau",
        ),
        (
            "a word more",
            "peaks|--bunch|1|--on|5|--off|5|--plateau|3|x",
        ),
        (
            "21 digits",
            "peaks|--bunch|000000000000000000001|--on|5|--off|5|--plateau|3",
        ),
        (
            "an option twice",
            "peaks|--bunch|1|--on|5|--off|5|--plateau|3|--bunch=1",
        ),
        ("a sign", "peaks|--bunch|+1|--on|5|--off|5|--plateau|3"),
        ("a value that begins with a hyphen", "session|--store=-x"),
        ("an empty value", "session|--store="),
        ("an empty word as a value", "session|--store|"),
        (
            "two signs of equality before a number",
            "peaks|--bunch==1|--on|5|--off|5|--plateau|3",
        ),
        ("the beginning of an option's name", "session|--stor|x"),
        (
            "an option of another command",
            "serve|--port|8080|--connections|1|--seed|1",
        ),
        ("a port of 0", "serve|--port|0|--connections|1"),
        (
            "a port past the greatest",
            "serve|--port|65536|--connections|1",
        ),
        (
            "a seed of 2^64",
            "demo|--seed|18446744073709551616|--rows|1",
        ),
        ("21 rows", "demo|--seed|1|--rows|21"),
        ("no store to migrate", "migrate"),
        ("two stores to migrate", "migrate|--store|a|--store|b"),
    ];
    for (name, line) in rows {
        let words = words_of(rt.alloc(), line)?;
        assert!(rt; read_words(words.as_slice()).is_none(), "{name}");
    }
    let none: Vec<String> = Vec::new(rt.alloc());
    assert!(rt; read_words(none.as_slice()).is_none(), "no word at all");
    Ok(())
}

#[test]
fn words_that_are_a_command(rt: HostRuntime) -> Result<(), Fail> {
    let peaks = CommandLine::Peaks(PeaksOptions {
        bunch: 64,
        slope_on: 5,
        slope_off: 1_000_000_000,
        plateau: 0,
    });
    let serve = CommandLine::Serve {
        port: 8080,
        connections: 1_000_000,
        store: "",
    };
    let demo = CommandLine::Demo {
        seed: u64::MAX,
        rows: 20,
    };
    let rows = [
        (
            "peaks|--bunch|64|--on|0005|--off|1000000000|--plateau|0",
            peaks,
        ),
        (
            "peaks|--plateau=0|--off|00000000001000000000|--on=5|--bunch=64",
            peaks,
        ),
        ("session", CommandLine::Session("")),
        ("session|--store=a=b", CommandLine::Session("a=b")),
        ("session|--store|ä", CommandLine::Session("ä")),
        ("serve|--port|8080|--connections|1000000", serve),
        ("demo|--rows|20|--seed=18446744073709551615", demo),
        ("migrate|--store|old.db", CommandLine::Migrate("old.db")),
    ];
    for (line, command) in rows {
        let words = words_of(rt.alloc(), line)?;
        assert!(rt; read_words(words.as_slice()) == Some(command), "{line}");
    }
    Ok(())
}
