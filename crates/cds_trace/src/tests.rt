//! What no clause says: texts and samples that are worked by hand, and the edges of the limits.
ghost use Rattle.std.specs.Prelude.{◌≡◌, ◌<◌, ◌≤◌, length};

use super::*;
use cds_base::Steps;
use std::alloc::Global;
use std::marker::Brand;
use std::sync::ledger::{Blank, Ledger};
use std::test::Fail;

/// A text, and the numbers of its refusal and of the record at fault, each 0 where there is none.
const TEXTS: [(&str, u8, u32); 24] = [
    ("time_us,signal\n0,7\n1000000,7\n", 0, 0),
    ("\u{feff}\"time_us\" , signal\r\n\r\n0,1\r\n5,-0", 0, 0),
    (
        "time_us,signal\n 0 ,\"\t1 \"\n000000000005\t,-100000000\n10,100000000\n",
        0,
        0,
    ),
    ("time_us,signal\n0,1\n14400000000,2\n", 0, 0),
    ("", 2, 0),
    ("\u{feff}\u{feff}time_us,signal\n0,1\n5,1\n", 2, 0),
    ("signal,time_us\n0,1\n5,1\n", 2, 0),
    ("time_us,signal,\n0,1\n5,1\n", 2, 0),
    ("time_us,signal\n", 5, 0),
    ("time_us,signal\n0,1\n", 5, 0),
    ("time_us,signal\n0,1\n1000,x\n", 3, 3),
    ("time_us,signal\n0,1\n1000,2\n2500,3\n", 4, 4),
    ("time_us,signal\n0,100000001\n", 7, 2),
    ("time_us,signal\n0,1,2\n", 1, 2),
    ("time_us,signal\n0\n", 1, 2),
    ("time_us,signal\n1,x\n0,1,2\n", 3, 2),
    ("time_us,signal\n0,+1\n", 3, 2),
    ("time_us,signal\n0,1000000000000\n", 3, 2),
    ("time_us,signal\n-1,1\n", 7, 2),
    ("time_us,signal\n1,100000001\n", 7, 2),
    ("time_us,signal\n1,1\n", 4, 2),
    ("time_us,signal\n0,1\n0,1\n", 4, 3),
    ("time_us,signal\n0,1\n14400000001,1\n", 7, 3),
    ("time_us,signal\n0,1\n7200000001,1\n14400000002,1,1\n", 1, 4),
];

/// The numbers of a refusal and of the record at fault, each 0 where there is none; 9 for want of memory.
fn told(answer: Result<Trace, TraceError>) -> (u8, u32) {
    match answer {
        Ok(_) => (0, 0),
        Err(error) => (error.number().unwrap_or(9), error.record().unwrap_or(0)),
    }
}

#[test]
fn texts_are_read_or_refused_by_the_first_record_at_fault(rt: HostRuntime) {
    for (text, number, record) in TEXTS {
        let got = told(Trace::read_csv(rt.alloc(), text.as_bytes()));
        assert_eq!(rt; got, (number, record), "in {text:?}");
    }
}

/// The sample of index 1, and the sum of those of index 1 and 2.
fn middle<L: Ledger>(blank: Blank, trace: &Trace) -> (i32, i64)
    requires name { blank.name ≡ L.name }
    requires parts { blank.parts ≡ L.parts }
    requires some { 0 < blank.parts }
    requires long { 3 ≤ length trace.now.samples }
{
    let mut steps = Steps::<L>::new(blank);
    (trace.at(1, &mut steps), trace.sum(1, 3, &mut steps))
}

#[test]
fn given_samples_are_kept_or_refused(rt: HostRuntime) -> Result<(), Fail> {
    let alloc = rt.alloc();
    let trace = Trace::from_samples(alloc, 7, &[1, 20, -300, 4])?;
    assert_eq!(rt; trace.len(), 4);
    assert_eq!(rt; trace.period(), 7);
    let (sample, sum) = middle::<Brand>(Blank::new(1), &trace);
    assert_eq!(rt; sample, 20);
    assert_eq!(rt; sum, -280);
    for (period, samples, number, record) in [
        (0, [1, 2].as_slice(), 8, 0),
        (7_200_000_001, [1, 2, 3].as_slice(), 8, 0),
        (0, [100_000_001].as_slice(), 5, 0),
        (1, [1, -100_000_001, 100_000_001].as_slice(), 7, 3),
    ] {
        let got = told(Trace::from_samples(alloc, period, samples));
        assert_eq!(rt; got, (number, record), "for {samples:?}");
    }
    Ok(())
}

#[test]
fn a_trace_is_written_and_copied(rt: HostRuntime) -> Result<(), Fail> {
    let alloc = rt.alloc();
    let trace = Trace::from_samples(alloc, 7, &[1, 20, -300, 4])?;
    let text = trace.write_csv()?;
    let want = b"time_us,signal\n0,1\n7,20\n14,-300\n21,4\n".as_slice();
    assert_eq!(rt; text.as_slice(), want);
    let again = Trace::read_csv(alloc, text.as_slice())?;
    assert!(rt; again.same(&trace));
    assert!(rt; trace.copy()?.same(&trace));
    let other = Trace::from_samples(alloc, 7, &[1, 20, -300, 5])?;
    assert!(rt; !other.same(&trace));
    Ok(())
}

/// Samples, and their bytes in a record of differences.
const DIFFERENCES: [(&[i32], &[u8]); 4] = [
    (&[7, 7], b"\0\0\0\x02\0\0\0\x07\0"),
    (&[0, 100], b"\0\0\0\x02\0\0\0\0\xc8\x01"),
    (
        &[1, 20, -300, 4],
        b"\0\0\0\x04\0\0\0\x01\x26\xff\x04\xe0\x04",
    ),
    (
        &[-100_000_000, 100_000_000, -100_000_000],
        b"\0\0\0\x03\xfa\x0a\x1f\0\x80\x88\xde\xbe\x01\xff\x87\xde\xbe\x01",
    ),
];

#[test]
fn a_trace_is_recorded_by_differences(rt: HostRuntime) -> Result<(), Fail> {
    for (samples, want) in DIFFERENCES {
        let trace = Trace::from_samples(rt.alloc(), 7, samples)?;
        assert_eq!(rt;
            trace.record_differences()?.as_slice(),
            want,
            "for {samples:?}"
        );
    }
    Ok(())
}

/// A list of so many zeros.
fn zeros(alloc: Global, samples: usize) -> Result<Vec<i32>, Fail> {
    let mut zeros = Vec::new(alloc);
    zeros.resize(samples, 0)?;
    Ok(zeros)
}

#[test]
fn more_than_400_000_samples_are_too_long(rt: HostRuntime) -> Result<(), Fail> {
    for (samples, number) in [(400_000, 0), (400_001, 6)] {
        let given = zeros(rt.alloc(), samples)?;
        let got = told(Trace::from_samples(rt.alloc(), 1, given.as_slice()));
        assert_eq!(rt; got, (number, 0), "for {samples}");
    }
    Ok(())
}

#[test]
fn a_text_with_400_001_samples_is_too_long_whatever_the_last_one_is(
    rt: HostRuntime,
) -> Result<(), Fail> {
    let alloc = rt.alloc();
    let trace = Trace::from_samples(alloc, 1, zeros(alloc, 400_000)?.as_slice())?;
    let mut text = Vec::from_slice(alloc, trace.write_csv()?.as_slice())?;
    text.extend_from_slice(b"400000,0,0\n")?;
    assert_eq!(rt; told(Trace::read_csv(alloc, text.as_slice())), (6, 0));
    Ok(())
}
