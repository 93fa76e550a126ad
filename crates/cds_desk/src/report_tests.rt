//! Tests of the reports of sequences, through the top call: each row is a request and its reply, in one session.

ghost use Rattle.std.specs.Prelude.{All};
ghost use Rattle.cds_base.specs.Clock.{IsMoment};

use crate::test_devices::{at_moments, words_of};
use cds_base::{MemSink, MemSource};
use cds_keep::MapKeeper;
use std::alloc::Global;
use std::test::Fail;

const TRACE: &str = "time_us,signal
0,0
1000000,0
2000000,0
3000000,10
4000000,40
5000000,60
6000000,40
7000000,10
8000000,0
9000000,0
10000000,0
";

const METHOD: &str = r#"bunch = 1
slope_on = 5
slope_off = 5
plateau = 3
fuse = 2
min_area = 1
min_height = 1
weight = "origin"
[[component]]
name = "caf"
time_ms = 5000
window_ms = 500
[[check]]
kind = "tailing"
component = "caf"
limit = 200
"#;

const SEQUENCE: &str = r#"{"edition":0,"method":{"name":"m","version":0},"standards":["b1"],
"rows":[{"label":"S1","kind":"standard","trace":"one","version":0,"amounts":{"caf":16}},
{"label":"X1","kind":"sample","trace":"one","version":0},
{"label":"R1","kind":"replicate","trace":"one","version":0}]}
"#;

const RESULTS: &str = "sequence b1 edition 1 basis 1
method m 1
standards b1 m 1
standard 1 one 1 used
line caf points 1 slope 10000.000000 intercept 0.000000 r2 TooFew
row 1 S1 standard one 1
peak 1 caf 5000000 1 8 160000 60 19.47 1.00
row 2 X1 sample one 1
peak 1 caf 5000000 1 8 160000 60 19.47 1.00
amount caf 16.0000
row 3 R1 replicate one 1
peak 1 caf 5000000 1 8 160000 60 19.47 1.00
";

const ROW: &str = "row 2 X1 sample one 1
peak 1 caf 5000000 1 8 160000 60 19.47 1.00
amount caf 16.0000
";

const SUITABILITY: &str = "suitability b1 basis 1
check 1 tailing caf row 3 1.00 Pass
verdict Pass
";

const INHIBIT: &str = r#"{"edition":1,"events":[{"kind":"inhibit","from_ms":0,"to_ms":6000}]}"#;

const INHIBITED: &str = "sequence b1 edition 2 basis 2
method m 1
standards b1 m 1
standard 1 one 1 used
line caf TooFew
row 1 S1 standard one 1
row 2 X1 sample one 1
peak 1 caf 5000000 1 8 160000 60 19.47 1.00
amount caf TooFew
row 3 R1 replicate one 1
peak 1 caf 5000000 1 8 160000 60 19.47 1.00
";

const SIGN: &str = "POST /sequences/b1/signatures";

const FIRST: &str = r#"{"basis":1,"number":1,"name":"A. Chemist","meaning":"reviewed"}"#;

const OTHER: &str = r#"{"basis":1,"number":1,"name":"A. Chemist","meaning":"approved"}"#;

const SECOND: &str = r#"{"basis":2,"number":2,"name":"A. Chemist","meaning":"reviewed"}"#;

const NO_BASIS: &str = r#"{"basis":0,"number":1,"name":"A. Chemist","meaning":"reviewed"}"#;

const SIGNED: &str = "signed 1 b1 basis 1
by A. Chemist
meaning reviewed
at Sun, 06 Nov 1994 08:49:37 GMT
sequence b1 edition 1 basis 1
method m 1
standards b1 m 1
standard 1 one 1 used
line caf points 1 slope 10000.000000 intercept 0.000000 r2 TooFew
row 1 S1 standard one 1
peak 1 caf 5000000 1 8 160000 60 19.47 1.00
row 2 X1 sample one 1
peak 1 caf 5000000 1 8 160000 60 19.47 1.00
amount caf 16.0000
row 3 R1 replicate one 1
peak 1 caf 5000000 1 8 160000 60 19.47 1.00
suitability b1 basis 1
check 1 tailing caf row 3 1.00 Pass
verdict Pass
";

const JSON: &str = "application/json";

const PLAIN: &str = "text/plain";

// The bytes of a request with this line and this body.
fn request(alloc: Global, line: &str, body: &str) -> Result<String, Fail> {
    let length = body.len();
    Ok(format!(in alloc; "{line} HTTP/1.1\r\nContent-Length: {length}\r\n\r\n{body}")?)
}

// The bytes of a response with this status and this text.
fn response(alloc: Global, status: &str, media: &str, text: &str) -> Result<String, Fail> {
    let length = text.len();
    Ok(format!(in alloc;
        "HTTP/1.1 {status}\r\nContent-Type: {media}\r\nContent-Length: {length}\r\n\r\n{text}"
    )?)
}

// The reports are those of the worked sequence, byte for byte, and follow a change of its events.
#[test]
fn reports_are_written_from_what_is_there(rt: HostRuntime) -> Result<(), Fail> {
    let alloc = rt.alloc();
    let made = "201 Created";
    let rows = [
        (
            "GET /sequences/b1/results",
            "",
            "404 Not Found",
            JSON,
            r#"{"error":"absent","number":4,"value":"b1"}"#,
        ),
        (
            "GET /sequences/b1/results/2",
            "",
            "404 Not Found",
            JSON,
            r#"{"error":"absent","number":4,"value":"b1"}"#,
        ),
        (
            "GET /sequences/b1/suitability",
            "",
            "404 Not Found",
            JSON,
            r#"{"error":"absent","number":4,"value":"b1"}"#,
        ),
        (
            "PUT /traces/one",
            TRACE,
            made,
            JSON,
            r#"{"samples":11,"unchanged":false,"version":1}"#,
        ),
        (
            "PUT /methods/m/draft",
            METHOD,
            made,
            JSON,
            r#"{"unchanged":false}"#,
        ),
        (
            "POST /methods/m/versions",
            r#"{"version":1}"#,
            made,
            JSON,
            r#"{"unchanged":false,"version":1}"#,
        ),
        (
            "PUT /sequences/b1",
            SEQUENCE,
            made,
            JSON,
            r#"{"basis":1,"edition":1,"unchanged":false}"#,
        ),
        ("GET /sequences/b1/results", "", "200 OK", PLAIN, RESULTS),
        ("GET /sequences/b1/results/2", "", "200 OK", PLAIN, ROW),
        (
            "GET /sequences/b1/suitability",
            "",
            "200 OK",
            PLAIN,
            SUITABILITY,
        ),
        (
            "GET /sequences/b1/results/4",
            "",
            "404 Not Found",
            JSON,
            r#"{"error":"absent","number":5,"value":4}"#,
        ),
        (
            "GET /sequences/b1/results/0",
            "",
            "404 Not Found",
            JSON,
            r#"{"error":"route","number":0,"value":""}"#,
        ),
        (
            "PUT /sequences/b1/rows/1/events",
            INHIBIT,
            "200 OK",
            JSON,
            r#"{"basis":2,"edition":2,"unchanged":false}"#,
        ),
        ("GET /sequences/b1/results", "", "200 OK", PLAIN, INHIBITED),
    ];
    let (written, expected) = conversation(alloc, &rows, &[])?;
    assert_eq!(rt; written.as_slice(), expected.as_bytes());
    Ok(())
}

// What is signed is told with the moment of the clock, asked for once; it is kept, and stays as it was.
#[test]
fn what_is_signed_stays(rt: HostRuntime) -> Result<(), Fail> {
    let alloc = rt.alloc();
    let made = "201 Created";
    let signed =
        r#"{"basis":1,"number":1,"signed":"Sun, 06 Nov 1994 08:49:37 GMT","unchanged":false}"#;
    let kept =
        r#"{"basis":1,"number":1,"signed":"Sun, 06 Nov 1994 08:49:37 GMT","unchanged":true}"#;
    let next =
        r#"{"basis":2,"number":2,"signed":"Thu, 01 Jan 1970 00:00:00 GMT","unchanged":false}"#;
    let rows = [
        (
            "PUT /traces/one",
            TRACE,
            made,
            JSON,
            r#"{"samples":11,"unchanged":false,"version":1}"#,
        ),
        (
            "PUT /methods/m/draft",
            METHOD,
            made,
            JSON,
            r#"{"unchanged":false}"#,
        ),
        (
            "POST /methods/m/versions",
            r#"{"version":1}"#,
            made,
            JSON,
            r#"{"unchanged":false,"version":1}"#,
        ),
        (
            SIGN,
            FIRST,
            "404 Not Found",
            JSON,
            r#"{"error":"absent","number":4,"value":"b1"}"#,
        ),
        (
            "PUT /sequences/b1",
            SEQUENCE,
            made,
            JSON,
            r#"{"basis":1,"edition":1,"unchanged":false}"#,
        ),
        (
            SIGN,
            NO_BASIS,
            "400 Bad Request",
            JSON,
            r#"{"error":"field","number":0,"value":"basis"}"#,
        ),
        (SIGN, FIRST, made, JSON, signed),
        (SIGN, FIRST, "200 OK", JSON, kept),
        (
            SIGN,
            OTHER,
            "409 Conflict",
            JSON,
            r#"{"error":"conflict","number":9,"value":2}"#,
        ),
        (
            SIGN,
            SECOND,
            "409 Conflict",
            JSON,
            r#"{"error":"conflict","number":8,"value":1}"#,
        ),
        (
            "PUT /sequences/b1/rows/1/events",
            INHIBIT,
            "200 OK",
            JSON,
            r#"{"basis":2,"edition":2,"unchanged":false}"#,
        ),
        (SIGN, FIRST, "200 OK", JSON, kept),
        (SIGN, SECOND, made, JSON, next),
        (
            "GET /sequences/b1/signatures/1",
            "",
            "200 OK",
            PLAIN,
            SIGNED,
        ),
        (
            "GET /sequences/b1/signatures/3",
            "",
            "404 Not Found",
            JSON,
            r#"{"error":"absent","number":6,"value":3}"#,
        ),
    ];
    let (written, expected) = conversation(alloc, &rows, &[784_111_777])?;
    assert_eq!(rt; written.as_slice(), expected.as_bytes());
    Ok(())
}

// What a session writes to these requests, and what it is to write, each as its line, its body, and the status, the
// media type and the text of the response; its clock answers these moments, and then 0.
fn conversation(
    alloc: Global,
    rows: &[(&str, &str, &str, &str, &str)],
    moments: &[u64],
) -> Result<(Vec<u8>, String), Fail>
    requires { All IsMoment moments.now }
{
    let mut asked = String::new(alloc);
    let mut expected = String::new(alloc);
    for (line, body, status, media, text) in rows {
        asked.push_str(request(alloc, line, body)?.as_str())?;
        expected.push_str(response(alloc, status, media, text)?.as_str())?;
    }
    let words = words_of(alloc, "session")?;
    let mut keeper = MapKeeper::new(alloc, &[])?;
    let mut source = MemSource::new(alloc, asked.as_bytes(), 4096, &[])?;
    let mut sink = MemSink::new(alloc, 4096, &[])?;
    let _ = at_moments(alloc, &words, &mut source, &mut sink, &mut keeper, moments)?;
    Ok((Vec::from_slice(alloc, sink.written())?, expected))
}
