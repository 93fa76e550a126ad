//! The texts of replies.
use super::*;
use cds_base::Text;
use std::alloc::{AllocError, Global};
use std::test::Fail;

// Refusals that show a number: the error, its number, the number that is shown, and the reply.
const NUMBERED: [(&str, u32, u64, &str); 3] = [
    (
        "conflict",
        9,
        2,
        r#"{"error":"conflict","number":9,"value":2}"#,
    ),
    ("keeper", 0, 0, r#"{"error":"keeper","number":0,"value":0}"#),
    (
        "head",
        4_294_967_295,
        18_446_744_073_709_551_615,
        r#"{"error":"head","number":4294967295,"value":18446744073709551615}"#,
    ),
];

// Refusals that show a word: the error, its number, the word, and the reply.
const WORDED: [(&str, u32, &str, &str); 3] = [
    (
        "rule",
        1,
        "two",
        r#"{"error":"rule","number":1,"value":"two"}"#,
    ),
    ("json", 0, "", r#"{"error":"json","number":0,"value":""}"#),
    (
        "field",
        0,
        "a\"b\\c/\n\u{1}\u{e4}",
        "{\"error\":\"field\",\"number\":0,\"value\":\"a\\\"b\\\\c/\\n\\u0001\u{e4}\"}",
    ),
];

fn text(alloc: Global, text: &str) -> Result<Text, AllocError> {
    Ok(Text::from_string(String::from_str(alloc, text)?))
}

fn says(alloc: Global, answer: &Answer, text: &str) -> Result<bool, AllocError> {
    Ok(reply(alloc, answer)?.as_slice() == text.as_bytes())
}

// Whether a refusal that shows this value is told so.
fn refusal_says(
    alloc: Global,
    error: &str,
    number: u32,
    value: Shown,
    told: &str,
) -> Result<bool, AllocError> {
    let error = text(alloc, error)?;
    let answer = Answer::Refusal {
        error,
        number,
        value,
    };
    says(alloc, &answer, told)
}

#[test]
fn refusals_show_a_number_or_an_escaped_word(rt: HostRuntime) -> Result<(), Fail> {
    for (error, number, value, told) in NUMBERED {
        assert!(rt; refusal_says(rt.alloc(), error, number, Shown::Number(value), told)?);
    }
    for (error, number, word, told) in WORDED {
        let value = Shown::Word(text(rt.alloc(), word)?);
        assert!(rt; refusal_says(rt.alloc(), error, number, value, told)?);
    }
    Ok(())
}

#[test]
fn replies_to_changes_are_compact_with_their_keys_in_order(rt: HostRuntime) -> Result<(), Fail> {
    let rows = [
        (
            Answer::Trace {
                samples: 100_000,
                unchanged: true,
                version: 1_000,
            },
            r#"{"samples":100000,"unchanged":true,"version":1000}"#,
        ),
        (Answer::Draft { unchanged: true }, r#"{"unchanged":true}"#),
        (
            Answer::Freeze {
                unchanged: false,
                version: 7,
            },
            r#"{"unchanged":false,"version":7}"#,
        ),
        (
            Answer::Sequence {
                basis: 9_223_372_036_854_775_807,
                edition: 4_294_967_296,
                unchanged: true,
            },
            r#"{"basis":9223372036854775807,"edition":4294967296,"unchanged":true}"#,
        ),
        (
            Answer::Sign {
                basis: 4,
                number: 1,
                signed: text(rt.alloc(), "Sun, 06 Nov 1994 08:49:37 GMT")?,
                unchanged: false,
            },
            r#"{"basis":4,"number":1,"signed":"Sun, 06 Nov 1994 08:49:37 GMT","unchanged":false}"#,
        ),
    ];
    for (answer, text) in &rows {
        assert!(rt; says(rt.alloc(), answer, text)?, "at {}", text);
    }
    Ok(())
}
