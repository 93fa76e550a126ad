//! Records by their bytes, as they are counted out by hand.
use super::*;
use cds_sign::{Change, Row};
use std::alloc::Global;
use std::test::Fail;

/// Records as they are written today: what each shows, its bytes, and the numbers of the change.
const RECORDS: [(&str, &[u8], &[u64]); 12] = [
    ("a freeze, 8 bytes", b"\x02\x03\x01m\0\0\0\x01", &[3, 1]),
    ("a draft", b"\x02\x02\x03a.B\0\0\0\nbunch = 1\n", &[2, 10]),
    (
        "a trace, 24 bytes",
        b"\x02\x01\x04flat\0\0\0\0\0\x0fB@\0\0\0\x02\0\0\0\x07\0",
        &[1, 1000000, 2],
    ),
    (
        "the greatest sample, the least and this again",
        b"\x02\x01\x01a\0\0\0\0\0\0\0\x01\0\0\0\x03\x05\xf5\xe1\0\xff\x87\xde\xbe\x01\0",
        &[1, 1, 3],
    ),
    (
        "a sequence of a sample",
        b"\x02\x04\x01s\0\0\0\0\0\0\0\0\x01m\0\0\0\x01\x01\x02b1\0\0\0\x01\x01X\x04\x01t\0\0\0\0\0\0\0\0\x01\
          \0\0\0\n\0\0",
        &[4, 0, 1, 1, 0, 0, 1, 10, 0, 0],
    ),
    (
        "a sequence with amounts and events",
        b"\x02\x04\x01s\0\0\0\0\0\0\0\x07\x01m\0\0\0\0\x02\x02b1\x02b2\0\0\0\x03\x02S1\x02\x03std\0\0\x03\
          \xe8\x01\0\x0fB@\0\0\0\x03\x02\x01a\0\0\0\x05\x01b;\x9a\xca\0\x02\x01\0\0\0\0\0\0\x03\xe8\0\0\0\0\
          \x05\0\0\0\0\0\0\0\x01\0\0\0\x02\x01B\x01\x01t\0\0\0\0\0\0\0\0\x01\0\0\0\n\0\0\x01R\x03\x01t\0\0\0\
          \0\0\0\0\0\x01\0\0\0\n\0\0",
        &[4, 7, 0, 2, 1000, 1, 1000000, 3, 2, 2],
    ),
    (
        "events of a row",
        b"\x02\x05\x01s\0\0\0\0\0\0\0\x02\0\0\0\x03\x01\x03\0\0\x03\xe8\0\0\0\0\0\0\0\0",
        &[5, 2, 3, 1],
    ),
    (
        "the other kinds of events",
        b"\x02\x05\x01s\0\0\0\0\0\0\0\x02\0\0\0\xc8\x03\x02\0\0\0\0\0\0\0\x01\0\0\0\0\x04\0\xdb\xb9\xff\0\
          \xdb\xba\0\0\0\0\0\x06\0\0\0\x01\0\0\0\x02\0\0\0\0",
        &[5, 2, 200, 3],
    ),
    (
        "no events",
        b"\x02\x05\x01s\0\0\0\0\0\0\0\x02\0\0\0\x03\0",
        &[5, 2, 3, 0],
    ),
    (
        "a binding",
        b"\x02\x06\x01s\0\0\0\0\xff\xff\xff\xff\0\0\x03\xe8",
        &[6, 4294967295, 1000],
    ),
    (
        "a signature",
        b"\x02\x07\x01s\0\0\0d\x7f\xff\xff\xff\xff\xff\xff\xff\0\0\0:\xff\xf4A\x7f\0\0\0\x04Q. A\0\0\0\x08ap\
          proved\0\0\0\x01\n",
        &[7, 100, 9223372036854775807, 253402300799],
    ),
    (
        "a signature by 64 bytes, of a text without a byte",
        b"\x02\x07\x01s\0\0\0\x01\0\0\0\0\0\0\0\x01\0\0\0\0\0\0\0\0\0\0\0@nnnnnnnnnnnnnnnn\
          nnnnnnnnnnnnnnnnnnnnnnnnnnnnnnnnnnnnnnnnnnnnnnnn\0\0\0\x01 \0\0\0\0",
        &[7, 1, 1, 0],
    ),
];

/// Records of the first format: what each shows, its bytes, and the record of the same change as it is written today.
const FIRST_RECORDS: [(&str, &[u8], &[u8]); 8] = [
    (
        "a freeze of the first format",
        b"\x01\x03\x01m\0\0\x03\xe8",
        b"\x02\x03\x01m\0\0\x03\xe8",
    ),
    (
        "a draft without a byte, of the first format",
        b"\x01\x02\x03a.B\0\0\0\0",
        b"\x02\x02\x03a.B\0\0\0\0",
    ),
    (
        "that trace in the first format",
        b"\x01\x01\x04flat\0\0\0\0\0\x0fB@\0\0\0\x02\0\0\0\x07\0\0\0\x07",
        b"\x02\x01\x04flat\0\0\0\0\0\x0fB@\0\0\0\x02\0\0\0\x07\0",
    ),
    (
        "-1, 99 and -2",
        b"\x01\x01\x04flat\0\0\0\0\0\x0fB@\0\0\0\x03\xff\xff\xff\xff\0\0\0c\xff\xff\xff\xfe",
        b"\x02\x01\x04flat\0\0\0\0\0\x0fB@\0\0\0\x03\xff\xff\xff\xff\xc8\x01\xc9\x01",
    ),
    (
        "a sequence in the first format",
        b"\x01\x04\x01s\0\0\0\0\0\0\0\0\x01m\0\0\0\x01\x01\x02b1\0\0\0\x01\x01X\x04\x01t\0\0\0\0\0\0\0\0\x01\
          \0\0\0\n\0\0",
        b"\x02\x04\x01s\0\0\0\0\0\0\0\0\x01m\0\0\0\x01\x01\x02b1\0\0\0\x01\x01X\x04\x01t\0\0\0\0\0\0\0\0\x01\
          \0\0\0\n\0\0",
    ),
    (
        "events of a row in the first format",
        b"\x01\x05\x01s\0\0\0\0\0\0\0\x02\0\0\0\x03\x01\x03\0\0\x03\xe8\0\0\0\0\0\0\0\0",
        b"\x02\x05\x01s\0\0\0\0\0\0\0\x02\0\0\0\x03\x01\x03\0\0\x03\xe8\0\0\0\0\0\0\0\0",
    ),
    (
        "a binding in the first format",
        b"\x01\x06\x01s\0\0\0\0\xff\xff\xff\xff\0\0\x03\xe8",
        b"\x02\x06\x01s\0\0\0\0\xff\xff\xff\xff\0\0\x03\xe8",
    ),
    (
        "a signature in the first format",
        b"\x01\x07\x01s\0\0\0d\x7f\xff\xff\xff\xff\xff\xff\xff\0\0\0:\xff\xf4A\x7f\0\0\0\x04Q. A\0\0\0\x08ap\
          proved\0\0\0\x01\n",
        b"\x02\x07\x01s\0\0\0d\x7f\xff\xff\xff\xff\xff\xff\xff\0\0\0:\xff\xf4A\x7f\0\0\0\x04Q. A\0\0\0\x08ap\
          proved\0\0\0\x01\n",
    ),
];

/// Bytes that are no record, and why they are none.
const OTHERS: [(&str, &[u8]); 56] = [
    ("nothing", b""),
    ("its last byte is missing", b"\x02\x03\x01m\0\0\0"),
    ("a byte stands behind it", b"\x02\x03\x01m\0\0\0\x01\0"),
    (
        "a byte stands behind a signature",
        b"\x02\x07\x01s\0\0\0d\x7f\xff\xff\xff\xff\xff\xff\xff\0\0\0:\xff\xf4A\x7f\0\0\0\x04Q. A\0\0\0\x08ap\
          proved\0\0\0\x01\n\0",
    ),
    (
        "a byte stands behind a sequence",
        b"\x02\x04\x01s\0\0\0\0\0\0\0\0\x01m\0\0\0\x01\x01\x02b1\0\0\0\x01\x01X\x04\x01t\0\0\0\0\0\0\0\0\x01\
          \0\0\0\n\0\0\0",
    ),
    (
        "a byte stands behind a trace in the first format",
        b"\x01\x01\x04flat\0\0\0\0\0\x0fB@\0\0\0\x02\0\0\0\x07\0\0\0\x07\0",
    ),
    ("a format before the first", b"\0\x03\x01m\0\0\0\x01"),
    ("a format that is none yet", b"\x03\x03\x01m\0\0\0\x01"),
    ("a kind before the first", b"\x02\0\x01m\0\0\0\x01"),
    ("a kind that is none yet", b"\x02\x08\x01m\0\0\0\x01"),
    ("no byte of a name", b"\x02\x03\0\0\0\0\x01"),
    ("a name with a blank", b"\x02\x03\x01 \0\0\0\x01"),
    ("a freeze of version 0", b"\x02\x03\x01m\0\0\0\0"),
    ("a freeze of version 1001", b"\x02\x03\x01m\0\0\x03\xe9"),
    ("a text that is too short", b"\x02\x02\x01m\0\0\0\x03[]"),
    ("a text that is too long", b"\x02\x02\x01m\0\0\0\x01[]"),
    (
        "one sample",
        b"\x02\x01\x01m\0\0\0\0\0\x0fB@\0\0\0\x01\0\0\0\x07",
    ),
    (
        "a period of 0",
        b"\x02\x01\x01m\0\0\0\0\0\0\0\0\0\0\0\x02\0\0\0\x07\0",
    ),
    (
        "a period that is too long",
        b"\x02\x01\x01m\0\0\0\x03ZN\x90\x01\0\0\0\x02\0\0\0\x07\0",
    ),
    (
        "a sample too few",
        b"\x02\x01\x01m\0\0\0\0\0\x0fB@\0\0\0\x03\0\0\0\x07\0",
    ),
    (
        "a sample too many",
        b"\x02\x01\x01m\0\0\0\0\0\x0fB@\0\0\0\x02\0\0\0\x07\0\0",
    ),
    (
        "a needless last byte of a difference",
        b"\x02\x01\x01m\0\0\0\0\0\x0fB@\0\0\0\x02\0\0\0\x07\xc8\x81\0",
    ),
    (
        "a first sample above all",
        b"\x02\x01\x01m\0\0\0\0\0\x0fB@\0\0\0\x02\x05\xf5\xe1\x01\x01",
    ),
    (
        "a second sample above all",
        b"\x02\x01\x01m\0\0\0\0\0\x0fB@\0\0\0\x02\x05\xf5\xe1\0\x02",
    ),
    (
        "a second sample below all",
        b"\x02\x01\x01m\0\0\0\0\0\x0fB@\0\0\0\x02\xfa\n\x1f\0\x01",
    ),
    (
        "samples of the other format",
        b"\x01\x01\x01m\0\0\0\0\0\x0fB@\0\0\0\x02\0\0\0\x07\0",
    ),
    (
        "an edition of 2^32",
        b"\x02\x04\x01s\0\0\0\x01\0\0\0\0\x01m\0\0\0\x01\x01\x02b1\0\0\0\x01\x01X\x04\x01t\0\0\0\0\0\0\0\0\
          \x01\0\0\0\n\0\0",
    ),
    (
        "a sequence bound to version 1001",
        b"\x02\x04\x01s\0\0\0\0\0\0\0\0\x01m\0\0\x03\xe9\x01\x02b1\0\0\0\x01\x01X\x04\x01t\0\0\0\0\0\0\0\0\
          \x01\0\0\0\n\0\0",
    ),
    (
        "no listed sequence",
        b"\x02\x04\x01s\0\0\0\0\0\0\0\0\x01m\0\0\0\x01\0\0\0\0\x01\x01X\x04\x01t\0\0\0\0\0\0\0\0\x01\0\0\0\n\
          \0\0",
    ),
    (
        "a listed sequence twice",
        b"\x02\x04\x01s\0\0\0\0\0\0\0\0\x01m\0\0\0\x01\x03\x02b1\x02b2\x02b1\0\0\0\x01\x01X\x04\x01t\0\0\0\0\
          \0\0\0\0\x01\0\0\0\n\0\0",
    ),
    (
        "no row",
        b"\x02\x04\x01s\0\0\0\0\0\0\0\0\x01m\0\0\0\x01\x01\x02b1\0\0\0\0",
    ),
    (
        "a row too few",
        b"\x02\x04\x01s\0\0\0\0\0\0\0\0\x01m\0\0\0\x01\x01\x02b1\0\0\0\x02\x01X\x04\x01t\0\0\0\0\0\0\0\0\x01\
          \0\0\0\n\0\0",
    ),
    (
        "a row of kind 0",
        b"\x02\x04\x01s\0\0\0\0\0\0\0\0\x01m\0\0\0\x01\x01\x02b1\0\0\0\x01\x01X\0\x01t\0\0\0\0\0\0\0\0\x01\0\
          \0\0\n\0\0",
    ),
    (
        "a row of kind 5",
        b"\x02\x04\x01s\0\0\0\0\0\0\0\0\x01m\0\0\0\x01\x01\x02b1\0\0\0\x01\x01X\x05\x01t\0\0\0\0\0\0\0\0\x01\
          \0\0\0\n\0\0",
    ),
    (
        "used 2",
        b"\x02\x04\x01s\0\0\0\0\0\0\0\0\x01m\0\0\0\x01\x01\x02b1\0\0\0\x01\x01X\x04\x01t\0\0\0\0\x02\0\0\0\
          \x01\0\0\0\n\0\0",
    ),
    (
        "a dilution of 0",
        b"\x02\x04\x01s\0\0\0\0\0\0\0\0\x01m\0\0\0\x01\x01\x02b1\0\0\0\x01\x01X\x04\x01t\0\0\0\0\0\0\0\0\0\0\
          \0\0\n\0\0",
    ),
    (
        "a dilution of 1 in 1000001",
        b"\x02\x04\x01s\0\0\0\0\0\0\0\0\x01m\0\0\0\x01\x01\x02b1\0\0\0\x01\x01X\x04\x01t\0\0\0\0\0\0\0\0\x01\
          \0\x0fBA\0\0",
    ),
    (
        "an amount of 0",
        b"\x02\x04\x01s\0\0\0\0\0\0\0\0\x01m\0\0\0\x01\x01\x02b1\0\0\0\x01\x01X\x04\x01t\0\0\0\0\0\0\0\0\x01\
          \0\0\0\n\x01\x01a\0\0\0\0\0",
    ),
    (
        "names of amounts that fall",
        b"\x02\x04\x01s\0\0\0\0\0\0\0\0\x01m\0\0\0\x01\x01\x02b1\0\0\0\x01\x01X\x04\x01t\0\0\0\0\0\0\0\0\x01\
          \0\0\0\n\x02\x01b\0\0\0\x05\x01a\0\0\0\x05\0",
    ),
    (
        "an amount twice",
        b"\x02\x04\x01s\0\0\0\0\0\0\0\0\x01m\0\0\0\x01\x01\x02b1\0\0\0\x01\x01X\x04\x01t\0\0\0\0\0\0\0\0\x01\
          \0\0\0\n\x02\x01a\0\0\0\x05\x01a\0\0\0\x05\0",
    ),
    (
        "events of row 0",
        b"\x02\x05\x01s\0\0\0\0\0\0\0\x02\0\0\0\0\x01\x03\0\0\x03\xe8\0\0\0\0\0\0\0\0",
    ),
    (
        "events of row 201",
        b"\x02\x05\x01s\0\0\0\0\0\0\0\x02\0\0\0\xc9\x01\x03\0\0\x03\xe8\0\0\0\0\0\0\0\0",
    ),
    (
        "an event of kind 7",
        b"\x02\x05\x01s\0\0\0\0\0\0\0\x02\0\0\0\x03\x01\x07\0\0\x03\xe8\0\0\0\0\0\0\0\0",
    ),
    (
        "a drop line with a second number",
        b"\x02\x05\x01s\0\0\0\0\0\0\0\x02\0\0\0\x03\x01\x03\0\0\x03\xe8\0\0\0\x01\0\0\0\0",
    ),
    (
        "a window with a third number",
        b"\x02\x05\x01s\0\0\0\0\0\0\0\x02\0\0\0\x03\x01\x01\0\0\0\0\0\0\x03\xe8\0\0\0\x01",
    ),
    (
        "a window that ends as it begins",
        b"\x02\x05\x01s\0\0\0\0\0\0\0\x02\0\0\0\x03\x01\x04\0\0\x03\xe8\0\0\x03\xe8\0\0\0\0",
    ),
    (
        "an event past the last time",
        b"\x02\x05\x01s\0\0\0\0\0\0\0\x02\0\0\0\x03\x01\x03\0\xdb\xba\x01\0\0\0\0\0\0\0\0",
    ),
    (
        "a binding to version 1001",
        b"\x02\x06\x01s\0\0\0\0\xff\xff\xff\xff\0\0\x03\xe9",
    ),
    (
        "signature 0",
        b"\x02\x07\x01s\0\0\0\0\x7f\xff\xff\xff\xff\xff\xff\xff\0\0\0:\xff\xf4A\x7f\0\0\0\x04Q. A\0\0\0\x08a\
          pproved\0\0\0\x01\n",
    ),
    (
        "signature 101",
        b"\x02\x07\x01s\0\0\0e\x7f\xff\xff\xff\xff\xff\xff\xff\0\0\0:\xff\xf4A\x7f\0\0\0\x04Q. A\0\0\0\x08ap\
          proved\0\0\0\x01\n",
    ),
    (
        "a basis of 0",
        b"\x02\x07\x01s\0\0\0d\0\0\0\0\0\0\0\0\0\0\0:\xff\xf4A\x7f\0\0\0\x04Q. A\0\0\0\x08approved\0\0\0\x01\
          \n",
    ),
    (
        "a basis of 2^63",
        b"\x02\x07\x01s\0\0\0d\x80\0\0\0\0\0\0\0\0\0\0:\xff\xf4A\x7f\0\0\0\x04Q. A\0\0\0\x08approved\0\0\0\
          \x01\n",
    ),
    (
        "a moment of the year 10000",
        b"\x02\x07\x01s\0\0\0d\x7f\xff\xff\xff\xff\xff\xff\xff\0\0\0:\xff\xf4A\x80\0\0\0\x04Q. A\0\0\0\x08ap\
          proved\0\0\0\x01\n",
    ),
    (
        "nobody who signs",
        b"\x02\x07\x01s\0\0\0d\x7f\xff\xff\xff\xff\xff\xff\xff\0\0\0:\xff\xf4A\x7f\0\0\0\0\0\0\0\x08approved\
          \0\0\0\x01\n",
    ),
    (
        "65 bytes of who signs",
        b"\x02\x07\x01s\0\0\0\x01\0\0\0\0\0\0\0\x01\0\0\0\0\0\0\0\0\0\0\0Annnnnnnnnnnnnnnn\
          nnnnnnnnnnnnnnnnnnnnnnnnnnnnnnnnnnnnnnnnnnnnnnnnn\0\0\0\x01 \0\0\0\0",
    ),
    (
        "a meaning with a control character",
        b"\x02\x07\x01s\0\0\0d\x7f\xff\xff\xff\xff\xff\xff\xff\0\0\0:\xff\xf4A\x7f\0\0\0\x04Q. A\0\0\0\x02a\
          \x7f\0\0\0\x01\n",
    ),
];

#[test]
fn records_are_read_and_written_again(rt: HostRuntime) -> Result<(), Fail> {
    for (shows, bytes, numbers) in RECORDS {
        let change = read(rt.alloc(), bytes)?.ok_or("no record")?;
        assert_eq!(rt;
            numbers_of(rt.alloc(), &change)?.as_slice(),
            numbers,
            "for {shows}"
        );
        let again = write(rt.alloc(), &change)?;
        assert_eq!(rt; again.as_slice(), bytes, "for {shows}");
    }
    for (shows, bytes, again) in FIRST_RECORDS {
        let converted = convert(rt.alloc(), bytes)?.ok_or("no record")?;
        assert_eq!(rt; converted.as_slice(), again, "for {shows}");
    }
    Ok(())
}

/// The numbers of a change: its kind, and then those of its fields, of a sequence also those of its first row.
fn numbers_of(alloc: Global, change: &Change) -> Result<Vec<u64>, Fail> {
    let numbers = match change {
        Change::Trace { trace, .. } => vec![in alloc; 1, trace.period(), u64::from(trace.len())]?,
        Change::Draft { text, .. } => vec![in alloc; 2, text.len() as u64]?,
        Change::Freeze { version, .. } => vec![in alloc; 3, u64::from(*version)]?,
        Change::Sequence {
            edition,
            version,
            standards,
            rows,
            ..
        } => {
            let row = rows.get(0).ok_or("no row")?;
            let mut numbers = vec![in alloc;
                4,
                *edition,
                u64::from(*version),
                standards.len() as u64,
            ]?;
            numbers.extend_from_slice(&numbers_of_row(row))?;
            numbers
        }
        Change::Events {
            edition,
            row,
            events,
            ..
        } => vec![in alloc; 5, *edition, u64::from(*row), events.len() as u64]?,
        Change::Rebind {
            edition,
            version,
            ..
        } => vec![in alloc; 6, *edition, u64::from(*version)]?,
        Change::Sign {
            number,
            basis,
            moment,
            ..
        } => vec![in alloc; 7, u64::from(*number), *basis, *moment]?,
    };
    Ok(numbers)
}

fn numbers_of_row(row: &Row) -> [u64; 6] {
    [
        u64::from(row.version),
        u64::from(row.used),
        u64::from(row.u),
        u64::from(row.v),
        row.amounts.len() as u64,
        row.events.len() as u64,
    ]
}

#[test]
fn other_bytes_are_no_record(rt: HostRuntime) -> Result<(), Fail> {
    for (shows, bytes) in OTHERS {
        let got = read(rt.alloc(), bytes)?;
        assert!(rt; got.is_none(), "for {shows}");
    }
    Ok(())
}

#[test]
fn a_trace_of_the_first_format_has_at_most_100000_samples(rt: HostRuntime) -> Result<(), Fail> {
    for (count, is_record) in [(100_000_u32, true), (100_001, false)] {
        let mut bytes = Vec::from_slice(rt.alloc(), b"\x01\x01\x01m\0\0\0\0\0\0\0\x01")?;
        bytes.extend_from_slice(&count.to_be_bytes())?;
        bytes.extend_from_slice(&vec![in rt.alloc(); 0; 4 * count as usize]?)?;
        let got = read(rt.alloc(), &bytes)?;
        assert_eq!(rt; got.is_some(), is_record);
    }
    Ok(())
}
