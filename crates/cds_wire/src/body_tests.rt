//! The bodies of requests: what each states, or where it is refused.
use super::*;
use cds_base::{Event, Name};
use cds_sign::{AskedRow, Command, RowKind};
use std::alloc::Global;
use std::test::Fail;

// A line for each body that is refused: which body it is; the path of the field, or `!` where it is no JSON; the body.
const REFUSALS: &str = r#"freeze|!|
freeze|!|[
freeze|!|{"version":1
freeze|!|{"version":1} 2
freeze|!|{"version":1e400}
freeze|!|{"version":01}
freeze|!|{"version":1,"\ud800":1}
freeze||null
freeze||[1]
freeze||"version"
freeze|version|{}
freeze|version|{"Version":1}
freeze|version|{"a":1}
freeze|version|{"version":null}
freeze|version|{"version":0}
freeze|version|{"version":1002}
freeze|version|{"version":1.0}
freeze|version|{"version":1e0}
freeze|version|{"version":-0}
freeze|version|{"version":-1}
freeze|version|{"version":18446744073709551617}
freeze|version|{"version":"1"}
freeze|version|{"version":true}
freeze|version|{"version":[1]}
freeze|version|{"version":1,"version":0}
freeze|a|{"version":1,"a":null}
freeze|a.c|{"b":1,"version":1,"a.c":1}
freeze|B|{"version":1,"a":1,"B":1}
freeze|z|{"version":1,"ä":1,"z":1}
freeze||{"version":1,"":1}
events|edition|{}
events|events|{"edition":1}
events|edition|{"edition":4294967296,"events":[]}
events|events|{"edition":1,"events":null}
events|events|{"edition":1,"events":{}}
events|events.1|{"edition":1,"events":[[]]}
events|events.1.kind|{"edition":1,"events":[{"kind":"slopes"}]}
events|events.1.at_ms|{"edition":1,"events":[{"kind":"slope","on":1,"off":1}]}
events|events.1.on|{"edition":1,"events":[{"kind":"slope","at_ms":0,"on":0,"off":0}]}
events|events.1.on|{"edition":1,"events":[{"kind":"slope","at_ms":0,"on":1000000001,"off":1}]}
events|events.1.off|{"edition":1,"events":[{"kind":"slope","at_ms":0,"on":1}]}
events|events.1.from_ms|{"edition":1,"events":[{"kind":"inhibit","from_ms":"0","to_ms":1}]}
events|events.2.to_ms|{"edition":1,"events":[{"kind":"drop","at_ms":0},{"kind":"valley","from_ms":5,"to_ms":5}]}
events|events.1.on|{"edition":1,"events":[{"kind":"drop","at_ms":0,"on":1}]}
events|row|{"edition":1,"events":[],"row":1}
events|!|[
events||7
reprocess|edition|{}
reprocess|version|{"edition":1}
reprocess|edition|{"edition":-1,"version":-1}
reprocess|version|{"edition":1,"version":1001}
reprocess|a|{"edition":1,"version":1,"b":1,"a":1}
reprocess|!|
reprocess||[]
sign|basis|{}
sign|basis|{"basis":0}
sign|basis|{"basis":9223372036854775808}
sign|number|{"basis":1}
sign|number|{"basis":1,"number":0}
sign|number|{"basis":1,"number":102}
sign|name|{"basis":1,"number":1}
sign|name|{"basis":1,"number":1,"name":1}
sign|name|{"basis":1,"number":1,"name":""}
sign|name|{"basis":1,"number":1,"name":"aaaaaaaaaaaaaaaaaaaaaaaaaaaaaaaaaaaaaaaaaaaaaaaaaaaaaaaaaaaaaaaaa"}
sign|name|{"basis":1,"number":1,"name":"\u007f"}
sign|name|{"basis":1,"number":1,"name":"a\nb"}
sign|name|{"basis":1,"number":1,"name":"\u00e9"}
sign|meaning|{"basis":1,"number":1,"name":"a"}
sign|meaning|{"basis":1,"number":1,"name":"a","meaning":""}
sign|meaning|{"basis":1,"number":1,"name":"a","meaning":"\u001f"}
sign|moment|{"basis":1,"number":1,"name":"a","meaning":"b","moment":1}
sign|!|{"basis":1,"number":1
sign||"a"
sequence||[1]
sequence||null
"#;

// The body of a sequence with all that a row may say.
const PUT: &str = r#"{"edition":0,"method":{"name":"m","version":0},"standards":["b1","b2"],
"rows":[{"label":"S1","kind":"standard","trace":"one","version":0,"amounts":{"caf":16}},
{"label":"X1","kind":"sample","trace":"two","version":1000,"used":false,"dilution":[2,3],
"events":[{"kind":"drop","at_ms":7},{"kind":"skim","from_ms":1,"to_ms":2}]}]}"#;

// A line for each change of it that is refused: the path of the field, or `!` where it is no JSON; a part of the body;
// and what stands in its place.
const PUT_REFUSALS: &str = r#"!|}]}]}|}]}]
!|16|1e400
edition|"edition":0,|
edition|"edition":0|"edition":"0"
edition|"edition":0|"edition":-1
edition|"edition":0|"edition":4294967296
edition|"edition":0|"edition":0,"edition":null
method|"method":{"name":"m","version":0},|
method|{"name":"m","version":0}|["m",0]
method.name|"name":"m",|
method.name|"name":"m"|"name":"a b"
method.name|"name":"m"|"name":""
method.version|,"version":0},"standards"|},"standards"
method.version|"version":0},"standards"|"version":1001},"standards"
method.Y|"version":0},"standards":["b1","b2"]|"version":0,"z":1,"Y":2},"standards":[]
standards|"standards":["b1","b2"],|
standards|["b1","b2"]|"b1"
standards|["b1","b2"]|[]
standards.2|["b1","b2"]|["b1",5,"b1"]
standards.4|["b1","b2"]|["b1","b2","b3","b2",5]
standards|["b1","b2"]|["1","2","3","4","5","6","7","8","1"]
rows|"rows":[|"row":[
rows|"rows":[|"rows":[],"other":[
rows|"rows":[|"rows":7,"other":[
rows.1|"rows":[|"rows":[[],
rows.1.label|"label":"S1",|
rows.1.label|"S1"|"S 1"
rows.1.label|"label":"S1","kind":"standard"|"label":1,"kind":2
rows.1.kind|"kind":"standard",|
rows.1.kind|"standard"|"Standard"
rows.1.kind|"standard"|2
rows.1.trace|"trace":"one",|
rows.1.trace|"one"|"one/1"
rows.2.version|"version":1000,|
rows.2.version|"version":1000|"version":1001
rows.2.version|"version":1000|"version":-0
rows.1.amounts|{"caf":16}|null
rows.1.amounts|{"caf":16}|[16]
rows.1.amounts|{"caf":16}|{"0":1,"1":1,"2":1,"3":1,"4":1,"5":1,"6":1,"7":1,"8":1,"9":1,"10":1,"11":1,"12":1,"13":1,"14":1,"15":1,"16":1,"17":1,"18":1,"19":1,"20":1,"21":1,"22":1,"23":1,"24":1,"25":1,"26":1,"27":1,"28":1,"29":1,"30":1,"31":1,"32":1}
rows.1.amounts.caf|{"caf":16}|{"caf":16.0}
rows.1.amounts.caf|{"caf":16}|{"caf":9223372036854775808}
rows.1.amounts.caf|{"caf":16}|{"caf":-9223372036854775809}
rows.1.amounts.caf|{"caf":16}|{"z":"1","caf":"16"}
rows.1.amounts.a b|{"caf":16}|{"b":1,"a b":1}
rows.2.used|"used":false|"used":0
rows.2.used|"used":false|"used":null
rows.2.dilution|[2,3]|2
rows.2.dilution|[2,3]|[0]
rows.2.dilution|[2,3]|[0,3,4]
rows.2.dilution.1|[2,3]|[0,0]
rows.2.dilution.1|[2,3]|[1000001,3]
rows.2.dilution.2|[2,3]|[2,0]
rows.2.dilution.2|[2,3]|[2,1000001]
rows.2.dilution.2|[2,3]|[2,"3"]
rows.2.events|"events":[|"events":null,"more":[
rows.2.events.1|"events":[|"events":[5,
rows.2.events.1.kind|"kind":"drop",|
rows.2.events.1.kind|"drop"|"Drop"
rows.2.events.1.at_ms|"at_ms":7|"at_ms":14400001
rows.2.events.1.on|"drop","at_ms":7|"slope","at_ms":7,"off":1
rows.2.events.1.off|"drop","at_ms":7|"slope","at_ms":7,"on":1,"off":1000000001
rows.2.events.1.to_ms|"at_ms":7|"at_ms":7,"to_ms":8
rows.2.events.2.from_ms|"from_ms":1|"from_ms":14400001
rows.2.events.2.to_ms|"to_ms":2|"to_ms":1
rows.2.Y|"label":"X1"|"label":"X1","z":1,"Y":2
Y|"edition":0|"edition":0,"z":1,"Y":2
rows.2.row|"label":"X1"|"label":"X1","z":1,"row":2
A|"edition":0,"method"|"A":1,"edition":0,"method"
edition|"edition":0,"method":{"name":"m","version":0}|"edition":-1,"method":{"name":"","version":0}
rows.2.trace|"trace":"two","version":1000|"trace":"","version":1001
"#;

// A line for each body that has its numbers and its lists at their edges: which body it is, and the body.
const EDGES: &str = r#"freeze|{"version":1}
freeze| { "version" : 1001 }
freeze|{"\u0076ersion":3}
sequence|{"edition":4294967295,"method":{"name":"m","version":1000},"standards":["1","2","3","4","5","6","7","8"],"rows":[{"label":"a","kind":"blank","trace":"t","version":1000,"dilution":[1,1000000],"amounts":{"a":-9223372036854775808,"b":9223372036854775807,"0":1,"1":1,"2":1,"3":1,"4":1,"5":1,"6":1,"7":1,"8":1,"9":1,"10":1,"11":1,"12":1,"13":1,"14":1,"15":1,"16":1,"17":1,"18":1,"19":1,"20":1,"21":1,"22":1,"23":1,"24":1,"25":1,"26":1,"27":1,"28":1,"29":1}},{"label":"b","kind":"replicate","trace":"t","version":0,"dilution":[1000000,1],"amounts":{}}]}
events|{"edition":4294967295,"events":[]}
reprocess|{"edition":0,"version":0}
reprocess| {"version":1,"edition":7,"version":1000}
sign|{"basis":9223372036854775807,"number":101,"name":"nnnnnnnnnnnnnnnnnnnnnnnnnnnnnnnnnnnnnnnnnnnnnnnnnnnnnnnnnnnnnnnn","meaning":" ~"}
"#;

// A name of these tests.
fn name(text: &str) -> Result<Name, Fail> {
    Ok(Name::new(text.as_bytes()).ok_or("it is a name")?)
}

// What comes of a body of this kind.
fn judged(alloc: Global, kind: &str, name: Name, body: &[u8]) -> Result<(), BodyError> {
    match kind {
        "freeze" => {
            read_freeze(alloc, body)?;
        }
        "sequence" => {
            read_sequence(alloc, name, body)?;
        }
        "events" => {
            read_events(alloc, name, 1, body)?;
        }
        "reprocess" => {
            read_reprocess(alloc, name, body)?;
        }
        _ => {
            read_sign(alloc, body)?;
        }
    }
    Ok(())
}

// Whether a body is refused at this path, or as no JSON where the path is `!`.
fn is_refused(alloc: Global, kind: &str, body: &[u8], told: &str) -> Result<bool, Fail> {
    match judged(alloc, kind, name("b1")?, body) {
        Ok(()) => Ok(false),
        Err(BodyError::Json) => Ok(told == "!"),
        Err(BodyError::Field(path)) => Ok(path.as_str() == told),
        Err(BodyError::NoMemory) => Err(Fail::from("no memory")),
    }
}

// Whether the body of a line is refused as the line says.
fn refuses(alloc: Global, line: &str) -> Result<bool, Fail> {
    let (kind, rest) = line.split_once('|').ok_or("a line has a kind")?;
    let (path, body) = rest.split_once('|').ok_or("a line has a path")?;
    is_refused(alloc, kind, body.as_bytes(), path)
}

// Whether the body of a sequence is refused as a line says once it is changed so.
fn refuses_changed(alloc: Global, line: &str) -> Result<bool, Fail> {
    let (path, rest) = line.split_once('|').ok_or("a line has a path")?;
    let (part, other) = rest.split_once('|').ok_or("a line has a part")?;
    let body = PUT.replacen(alloc, part, other, 1)?;
    is_refused(alloc, "sequence", body.as_str().as_bytes(), path)
}

// Whether the body of a line is taken.
fn takes(alloc: Global, line: &str) -> Result<bool, Fail> {
    let (kind, body) = line.split_once('|').ok_or("a line has a kind")?;
    Ok(judged(alloc, kind, name("b1")?, body.as_bytes()).is_ok())
}

#[test]
fn bodies_are_refused_at_their_first_fault(rt: HostRuntime) -> Result<(), Fail> {
    for line in REFUSALS.lines() {
        assert!(rt; refuses(rt.alloc(), line)?, "at {}", line);
    }
    for line in PUT_REFUSALS.lines() {
        assert!(rt; refuses_changed(rt.alloc(), line)?, "at {}", line);
    }
    let no_text = b"{\"version\":1,\"\xff\":1}";
    assert!(rt; is_refused(rt.alloc(), "freeze", no_text, "!")?);
    Ok(())
}

#[test]
fn numbers_and_lists_at_their_edges_are_taken(rt: HostRuntime) -> Result<(), Fail> {
    for line in EDGES.lines() {
        assert!(rt; takes(rt.alloc(), line)?, "at {}", line);
    }
    assert!(rt; read_sequence(rt.alloc(), name("b1")?, &put_of(rt.alloc(), 200)?).is_ok());
    assert!(rt; is_refused(rt.alloc(), "sequence", &put_of(rt.alloc(), 201)?, "rows")?);
    assert!(rt; read_events(rt.alloc(), name("b1")?, 1, &events_of(rt.alloc(), 64)?).is_ok());
    assert!(rt; is_refused(rt.alloc(), "events", &events_of(rt.alloc(), 65)?, "events")?);
    Ok(())
}

// The body of a sequence with so many rows.
fn put_of(alloc: Global, count: usize) -> Result<Vec<u8>, Fail> {
    let front = r#"{"edition":0,"method":{"name":"m","version":0},"standards":["b1"],"rows":["#;
    let row = r#"{"label":"X","kind":"sample","trace":"t","version":1}"#;
    many(alloc, front, row, count)
}

// The body with so many events.
fn events_of(alloc: Global, count: usize) -> Result<Vec<u8>, Fail> {
    many(
        alloc,
        r#"{"edition":0,"events":["#,
        r#"{"kind":"drop","at_ms":0}"#,
        count,
    )
}

// An item so many times in a list that ends an object.
fn many(alloc: Global, front: &str, item: &str, count: usize) -> Result<Vec<u8>, Fail> {
    let mut text = Vec::from_slice(alloc, front.as_bytes())?;
    for place in 0..count {
        if place > 0 {
            text.push(b',')?;
        }
        text.extend_from_slice(item.as_bytes())?;
    }
    text.extend_from_slice(b"]}")?;
    Ok(text)
}

fn is_named(name: &Name, text: &str) -> bool {
    name.as_bytes() == text.as_bytes()
}

#[test]
fn a_sequence_is_what_its_body_states(rt: HostRuntime) -> Result<(), Fail> {
    let command = read_sequence(rt.alloc(), name("b1")?, PUT.as_bytes())?;
    let Command::Sequence {
        name: put,
        edition,
        method,
        version,
        standards,
        rows,
    } = &command
    else {
        return Err(Fail::from("it is another command"));
    };
    assert!(rt; is_named(put, "b1") && is_named(method, "m"));
    assert!(rt; *edition == 0 && *version == 0 && standards.len() == 2 && rows.len() == 2);
    assert!(rt; is_named(standards.get(1).ok_or("there is a listed sequence")?, "b2"));
    assert!(rt; is_the_usual_row(rows.get(0).ok_or("there is a first row")?)?);
    assert!(rt; is_the_other_row(rows.get(1).ok_or("there is a second row")?));
    Ok(())
}

// Whether a row is used, undiluted, without events and with the amount of the body.
fn is_the_usual_row(row: &AskedRow) -> Result<bool, Fail> {
    let amount = row.amounts.get(0).ok_or("there is an amount")?;
    Ok(
        is_named(&row.label, "S1")
            && is_named(&row.trace, "one")
            && row.kind == RowKind::Standard
            && row.version == 0
            && row.used
            && row.u == 1
            && row.v == 1
            && row.events.len() == 0
            && is_named(&amount.0, "caf")
            && amount.1 == 16,
    )
}

// Whether a row says all that isn't usual.
fn is_the_other_row(row: &AskedRow) -> bool {
    row.kind == RowKind::Sample
        && row.version == 1_000
        && !row.used
        && row.u == 2
        && row.v == 3
        && row.amounts.len() == 0
        && row.events.get(1) == Some(&Event::Skim { from: 1, to: 2 })
}

#[test]
fn changes_are_what_their_bodies_state(rt: HostRuntime) -> Result<(), Fail> {
    let body = br#"{"edition":1,"events":[{"kind":"inhibit","from_ms":0,"to_ms":6000}]}"#;
    let command = read_events(rt.alloc(), name("b1")?, 3, body)?;
    let Command::Events {
        name: put,
        edition,
        row,
        events,
    } = &command
    else {
        return Err(Fail::from("it is another command"));
    };
    assert!(rt; is_named(put, "b1") && *edition == 1 && *row == 3 && events.len() == 1);
    let command = read_reprocess(rt.alloc(), name("b1")?, br#"{"edition":1,"version":2}"#)?;
    let Command::Rebind {
        name: put,
        edition,
        version,
    } = &command
    else {
        return Err(Fail::from("it is another command"));
    };
    assert!(rt; is_named(put, "b1") && *edition == 1 && *version == 2);
    let body = br#"{"basis":4,"number":1,"name":"A. Berg","meaning":"approved"}"#;
    let sign = read_sign(rt.alloc(), body)?;
    assert!(rt; sign.basis == 4 && sign.number == 1);
    assert!(rt; sign.name.as_str() == "A. Berg" && sign.meaning.as_str() == "approved");
    assert!(rt; read_freeze(rt.alloc(), br#"{"version":0,"version":2}"#)? == 2);
    Ok(())
}
