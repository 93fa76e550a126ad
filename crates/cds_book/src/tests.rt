//! What commands come to on tables, and the limits of tables at their edges. Each line asks for something, and says
//! behind `->` what it comes to: `changed`, `unchanged`, or the number of a refusal with what it shows.
use crate::test_lines::{ask, name, put, refusal};
use crate::{PlanError, Tables};
use std::alloc::Global;
use std::process::Abort;
use std::test::Fail;

/// A trace is put under a name: its samples.
const TRACES: &str = r#"put m 7 7 -> changed
put m 7 7 -> unchanged
put m 7 8 -> changed
put m 7 7 -> changed
put a 7 7 -> changed
put z 7 7 -> changed
put m 7 7 -> unchanged
versions a now -> 1
versions m now -> 3
versions z now -> 1
versions b now -> none
"#;

/// A method with a plateau is put as a draft, which is frozen as the version of a number.
const METHODS: &str = r#"freeze m 1 -> 2 m
draft m 3 -> changed
draft m 3 -> unchanged
freeze m 2 -> 9 1
freeze m 1 -> changed
freeze m 7 -> unchanged
draft m 4 -> changed
freeze m 3 -> 9 2
freeze m 2 -> changed
draft k 5 -> changed
freeze k 3 -> 9 1
"#;

/// The tables of the sequence `b1`, which lists itself.
const BEFORE: &str = r#"put one 0 0 0 10 40 60 40 10 0 0 0 -> changed
put fix 0 0 0 10 40 60 40 10 0 0 0 -> changed
draft m 3 -> changed
sequence b1 0 m 0 b1 S1,standard,one,0,16 X1,sample,one,0, R1,replicate,one,0, -> 3 m
freeze m 1 -> changed
sequence b1 0 m 0 b1 S1,standard,one,0,16 X1,sample,one,0, R1,replicate,one,0, -> changed
see b1 now -> edition 1 basis 1
sequence b1 0 m 0 b1 S1,standard,one,0,16 X1,sample,one,0, R1,replicate,one,0, -> unchanged
sequence b1 7 m 0 b1 S1,standard,one,0,16 X1,sample,one,0, R1,replicate,one,0, -> unchanged
"#;

/// A sequence that borrows the standards of `b1`.
const BORROWED: &str =
    "sequence b2 0 m 0 b1 X1,sample,fix,0, -> changed\nsee b2 now -> edition 1 basis 1\n";

/// A sequence that is signed often.
const OTHER: &str = "sequence n0 0 m 0 b1 X1,sample,one,0, -> changed\n";

/// Another version of the trace of a standard raises the bases of its own sequence and of the one that borrows it.
const OTHER_TRACE: &str = r#"put one 0 0 0 10 40 80 40 10 0 0 0 -> changed
see b1 now -> edition 1 basis 2
see b2 now -> edition 1 basis 2
put fix 0 0 0 10 40 80 40 10 0 0 0 -> changed
see b1 now -> edition 1 basis 2
see b2 now -> edition 1 basis 3
"#;

/// So do events of the standard's row, and those of another row raise the basis of its own sequence alone.
const OTHER_EVENTS: &str = r#"events b1 0 1 0 6000 -> 7 1
events b1 1 1 0 6000 -> changed
see b1 now -> edition 2 basis 2
see b2 now -> edition 1 basis 2
events b1 7 1 0 6000 -> unchanged
events b1 2 3 0 6000 -> changed
see b1 now -> edition 3 basis 3
see b2 now -> edition 1 basis 2
"#;

/// So does a standard that is no longer used.
const UNUSED: &str =
    r#"sequence b1 1 m 0 b1 S1,unused,one,0,16 X1,sample,one,0, R1,replicate,one,0, -> changed
see b1 now -> edition 2 basis 2
see b2 now -> edition 1 basis 2
"#;

/// A binding of the latest version that becomes one of the same number leaves the inputs.
const OTHER_BINDING: &str = r#"rebind b1 0 1 -> 7 1
rebind b1 1 1 -> changed
see b1 now -> edition 2 basis 1
rebind b1 1 1 -> unchanged
"#;

/// What the results of `b2` rest on: 0 is resolved to the latest version, also of the listed sequence, which gives its
/// standards alone, the unused one too. Each change foretells what it then comes to.
const INPUTS: &str = r#"put two 7 7 -> changed
put two 7 8 -> changed
sequence b1 1 m 0 b1 S1,standard,one,0,16 S2,unused,two,1,8 X1,sample,one,0, -> changed
sequence b2 0 m 1 b1 X1,sample,fix,0, X2,sample,two,2, -> changed
inputs b2 now -> m1 X1:fix1 X2:two2 | b1 m1 one1 two1-
put one 7 9 -> changed
inputs b2 now -> m1 X1:fix1 X2:two2 | b1 m1 one2 two1-
draft m 4 -> changed
freeze m 2 -> changed
inputs b2 now -> m1 X1:fix1 X2:two2 | b1 m2 one2 two1-
inputs b1 now -> m2 S1:one2 S2:two1 X1:one2 | b1 m2 one2 two1-
rebind b1 2 1 -> changed
inputs b2 now -> m1 X1:fix1 X2:two2 | b1 m1 one2 two1-
"#;

/// A signature is over the basis that is kept, and stays.
const SIGNED: &str = r#"put one 7 7 -> changed
put one 7 8 -> changed
put one 7 9 -> changed
see b1 now -> edition 1 basis 4
sign b1 1 3 who why -> 8 4
sign b1 2 3 who why -> 9 1
sign b1 1 4 who why -> changed
see b1 now -> edition 1 basis 4
draft m 4 -> changed
freeze m 2 -> changed
see b1 now -> edition 1 basis 5
sign b1 1 4 who why -> unchanged
sign b1 1 4 who else -> 9 2
sign b1 2 4 who why -> 8 5
"#;

/// Behind 5,000 rows there is no room for another one, but in place of those that a sequence had there is.
const FULL_OF_ROWS: &str = r#"sequence more 0 m 1 b1 X1,sample,one,0, -> 10 5000
sequence n7 1 m 1 b1 X1,sample,one,0, -> changed
sequence more 0 m 1 b1 X1,sample,one,0, -> changed
"#;

/// The things that a path names are judged first, then those of the body in their order, then the conflict.
const REFUSED: &str = r#"sequence b2 0 none 9 b9 X1,sample,two,0, -> 2 none
sequence b2 0 m 9 b9 X1,sample,two,0, -> 3 m
sequence b2 0 m 0 b9 X1,sample,two,0, -> 4 b9
sequence b2 0 m 0 b1 X1,sample,two,0, X1,sample,one,9, -> 1 two
sequence b2 0 m 0 b1 X1,sample,one,9, X1,sample,two,0, -> 3 one
sequence b2 0 m 0 b1 X1,sample,one,0, X1,sample,two,0, -> 1 two
sequence b2 0 m 0 b1 X1,sample,one,0, X1,sample,one,0,16 -> 11 X1
sequence b2 0 m 0 b1 X1,sample,one,0, X2,sample,one,0,16 -> 12 2
sequence b2 0 m 0 b1 S1,standard,one,0,0 -> 12 1
sequence b2 0 m 0 b1 S1,standard,one,0,1000000001 -> 12 1
sequence b2 0 m 0 b1 S1,standard,one,0,-1 -> 12 1
sequence b2 7 m 0 b1 S1,standard,one,0,1000000000 -> 7 0
sequence b1 0 m 0 b1 S1,standard,one,0,1000000000 -> 7 1
events b9 1 9 0 6000 -> 4 b9
events b1 0 4 0 6000 -> 5 4
rebind b9 1 9 -> 4 b9
rebind b1 0 9 -> 3 m
sign b9 1 1 who why -> 4 b9
"#;

#[test]
fn another_trace_is_the_next_version(rt: HostRuntime) -> Result<(), Fail> {
    tell_from_empty(&rt, rt.alloc(), &[TRACES])
}

#[test]
fn a_draft_is_frozen_edited_and_frozen_again(rt: HostRuntime) -> Result<(), Fail> {
    tell_from_empty(&rt, rt.alloc(), &[METHODS])
}

#[test]
fn a_basis_rises_with_the_inputs(rt: HostRuntime) -> Result<(), Fail> {
    for lines in [OTHER_TRACE, OTHER_EVENTS, UNUSED] {
        tell_from_empty(&rt, rt.alloc(), &[BEFORE, BORROWED, lines])?;
    }
    Ok(())
}

#[test]
fn a_sequence_is_changed_signed_and_refused(rt: HostRuntime) -> Result<(), Fail> {
    for lines in [OTHER_BINDING, INPUTS, SIGNED, REFUSED] {
        tell_from_empty(&rt, rt.alloc(), &[BEFORE, lines])?;
    }
    Ok(())
}

#[test]
fn no_command_is_refused_for_a_record(rt: HostRuntime) -> Result<(), Fail> {
    let told = refusal(rt.alloc(), PlanError::NoRecord(3))?;
    assert_eq!(rt; told.as_str(), "6 3");
    Ok(())
}

#[test]
fn trace_names_are_at_most_5000(rt: HostRuntime) -> Result<(), Fail> {
    let behind = "put more 7 7 -> 10 5000\nput n7 7 8 -> changed\n";
    tell_at_limit(&rt, rt.alloc(), &[], (5000, 1, "put # 7 %"), behind)
}

#[test]
fn methods_are_at_most_500(rt: HostRuntime) -> Result<(), Fail> {
    let behind = "draft more 3 -> 10 500\ndraft n7 4 -> changed\n";
    tell_at_limit(&rt, rt.alloc(), &[], (500, 1, "draft # %"), behind)
}

#[test]
fn trace_versions_are_at_most_1000_and_10000_in_all(rt: HostRuntime) -> Result<(), Fail> {
    let behind = "put n0 7 7 -> 10 1000\nput n0 1000 7 -> unchanged\nput more 7 7 -> 10 10000\n";
    tell_at_limit(&rt, rt.alloc(), &[], (10, 1000, "put # % 7"), behind)
}

#[test]
fn method_versions_are_at_most_1000_and_10000_in_all(rt: HostRuntime) -> Result<(), Fail> {
    let behind = r#"freeze n0 1 -> unchanged
draft n0 7 -> changed
freeze n0 1000 -> 9 1001
freeze n0 1001 -> 10 1000
draft more 7 -> changed
freeze more 1 -> 10 10000
"#;
    tell_at_limit(
        &rt,
        rt.alloc(),
        &[],
        (10, 1000, "draft # %\nfreeze # %"),
        behind,
    )
}

#[test]
fn signatures_are_at_most_100(rt: HostRuntime) -> Result<(), Fail> {
    let behind = "sign n0 101 1 who why -> 10 100\nsign n0 100 1 who why -> unchanged\n";
    tell_at_limit(
        &rt,
        rt.alloc(),
        &[BEFORE, OTHER],
        (1, 100, "sign # % 1 who why"),
        behind,
    )
}

#[test]
fn sequences_are_at_most_500(rt: HostRuntime) -> Result<(), Fail> {
    let each = "sequence # 0 m % b1 X1,sample,one,0,";
    let behind =
        "sequence more 0 m 1 b1 X1,sample,one,0, -> 10 500\nsequence n7 1 m 1 b1 X2,sample,one,0, -> changed\n";
    tell_at_limit(&rt, rt.alloc(), &[BEFORE], (499, 1, each), behind)
}

#[test]
fn rows_are_at_most_5000_in_all(rt: HostRuntime) -> Result<(), Fail> {
    let alloc = rt.alloc();
    let mut tables = Tables::new(alloc);
    tell_all(&rt, alloc, &mut tables, &[BEFORE])?;
    let most = with_rows(alloc, 200)?;
    fill(alloc, &mut tables, (24, 1, most.as_str()))?;
    let last = with_rows(alloc, 197)?;
    change_each(alloc, &mut tables, 24, 1, last.as_str())?;
    tell(&rt, alloc, &mut tables, FULL_OF_ROWS)
}

#[test]
fn samples_are_at_most_20000000_in_all(rt: HostRuntime) -> Result<(), Fail> {
    let mut tables = Tables::new(rt.alloc());
    put_most(&rt, rt.alloc(), &mut tables)
}

/// So many names and so many versions of each, for which each line is asked: `#` stands for the name, and `%` for the
/// version.
type Filling<'a> = (u32, u32, &'a str);

// That lines come to what they say on tables that hold nothing, that all that is then asked changes them, and that the
// last lines come to what they say.
fn tell_at_limit(
    rt: &impl Abort,
    alloc: Global,
    before: &[&str],
    filling: Filling,
    behind: &str,
) -> Result<(), Fail> {
    let mut tables = Tables::new(alloc);
    tell_all(rt, alloc, &mut tables, before)?;
    fill(alloc, &mut tables, filling)?;
    tell(rt, alloc, &mut tables, behind)
}

// That the lines come to what they say, one part after the other, on tables that hold nothing.
fn tell_from_empty(rt: &impl Abort, alloc: Global, parts: &[&str]) -> Result<(), Fail> {
    let mut tables = Tables::new(alloc);
    tell_all(rt, alloc, &mut tables, parts)
}

fn tell_all(
    rt: &impl Abort,
    alloc: Global,
    tables: &mut Tables,
    parts: &[&str],
) -> Result<(), Fail> {
    for lines in parts {
        tell(rt, alloc, tables, lines)?;
    }
    Ok(())
}

// That each line comes to what it says, in turn.
fn tell(rt: &impl Abort, alloc: Global, tables: &mut Tables, lines: &str) -> Result<(), Fail> {
    for line in lines.lines() {
        let (asked, want) = line.split_once(" -> ").ok_or("a line has an arrow")?;
        let told = ask(alloc, tables, asked)?;
        assert_eq!(rt; told.as_str(), want, "at {line}");
    }
    Ok(())
}

fn fill(alloc: Global, tables: &mut Tables, filling: Filling) -> Result<(), Fail> {
    let (names, versions, lines) = filling;
    for name in 0..names {
        for version in 0..versions {
            change_each(alloc, tables, name, version + 1, lines)?;
        }
    }
    Ok(())
}

fn change_each(
    alloc: Global,
    tables: &mut Tables,
    name: u32,
    version: u32,
    lines: &str,
) -> Result<(), Fail> {
    for line in lines.lines() {
        let line = filled(alloc, name, version, line)?;
        let told = ask(alloc, tables, line.as_str())?;
        (told.as_str() == "changed")
            .then_some(())
            .ok_or("nothing changed")?;
    }
    Ok(())
}

fn filled(alloc: Global, name: u32, version: u32, line: &str) -> Result<String, Fail> {
    let (before, rest) = line.split_once('#').ok_or("a line has a name")?;
    let (between, behind) = rest.split_once('%').ok_or("a line has a version")?;
    Ok(format!(in alloc; "{before}n{name}{between}{version}{behind}")?)
}

// A line that puts a sequence of so many rows.
fn with_rows(alloc: Global, count: u32) -> Result<String, Fail> {
    let mut line = String::from_str(alloc, "sequence # 0 m % b1")?;
    for row in 0..count {
        let row = format!(in alloc; " X{row},sample,one,0,")?;
        line.push_str(row.as_str())?;
    }
    Ok(line)
}

// Puts traces of all but 2 of the samples that the tables may hold, and then one of too many.
fn put_most(rt: &impl Abort, alloc: Global, tables: &mut Tables) -> Result<(), Fail> {
    for time in 0..199 {
        put_many(rt, alloc, tables, 100_000, 7 + time % 2, "changed")?;
    }
    put_many(rt, alloc, tables, 99_998, 9, "changed")?;
    put_many(rt, alloc, tables, 3, 9, "10 20000000")?;
    tell(
        rt,
        alloc,
        tables,
        "put k 7 8 -> changed\nput m 7 8 -> 10 20000000\n",
    )
}

// Puts a trace of so many equal samples under the name `m`.
fn put_many(
    rt: &impl Abort,
    alloc: Global,
    tables: &mut Tables,
    count: usize,
    sample: i32,
    want: &str,
) -> Result<(), Fail> {
    let told = put(alloc, tables, name("m")?, &vec![in alloc; sample; count]?)?;
    assert_eq!(rt; told.as_str(), want);
    Ok(())
}
