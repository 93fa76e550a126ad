//! Nodes and tangents that are worked by hand.
ghost use Rattle.std.specs.Prelude.{◌≡◌, ◌<◌};

use super::*;
use cds_base::{Cluster, Cut, NoMemory, Part, Parts, Steps};
use cds_trace::Trace;
use std::alloc::Global;
use std::marker::Brand;
use std::sync::ledger::{Blank, Ledger};
use std::test::Fail;

const TWO: &[i32] = &[0, 0, 0, 10, 40, 60, 40, 20, 40, 60, 40, 10, 0, 0, 0];

const DEEP: &[i32] = &[50, 50, 50, 60, 90, 110, 60, 20, 60, 110, 90, 60, 50, 50, 50];

const LINED: &[i32] = &[10, 30, 5, 30, 0, 30, 10];

const FLAT: &[i32] = &[0, 30, 0, 30, 0, 30, 0];

// Samples; where the three parts of a cluster meet; the left ends of the second and third part and whether they are
// covered; whether the baseline is forced; the nodes.
const CLUSTERS: [(&[i32], [u32; 4], [Cut; 2], [bool; 2], bool, &[u32]); 9] = [
    (
        TWO,
        [1, 7, 9, 12],
        [Cut::Valley, Cut::Drop],
        [false, false],
        false,
        &[1, 12],
    ),
    (
        TWO,
        [1, 7, 9, 12],
        [Cut::Valley, Cut::Drop],
        [true, true],
        false,
        &[1, 7, 12],
    ),
    (
        TWO,
        [1, 7, 9, 12],
        [Cut::Valley, Cut::Drop],
        [true, true],
        true,
        &[1, 12],
    ),
    (
        DEEP,
        [1, 7, 9, 12],
        [Cut::Valley, Cut::Drop],
        [false, false],
        false,
        &[1, 7, 12],
    ),
    (
        DEEP,
        [1, 7, 9, 12],
        [Cut::Drop, Cut::Valley],
        [false, false],
        false,
        &[1, 12],
    ),
    (
        LINED,
        [0, 2, 4, 6],
        [Cut::Valley, Cut::Valley],
        [false, false],
        false,
        &[0, 4, 6],
    ),
    (
        LINED,
        [0, 2, 4, 6],
        [Cut::Valley, Cut::Valley],
        [true, false],
        false,
        &[0, 2, 4, 6],
    ),
    (
        FLAT,
        [0, 2, 4, 6],
        [Cut::Valley, Cut::Valley],
        [false, false],
        false,
        &[0, 6],
    ),
    (
        FLAT,
        [0, 2, 4, 6],
        [Cut::Valley, Cut::Valley],
        [false, true],
        false,
        &[0, 4, 6],
    ),
];

// Samples, a valley, the end of the part behind it, and the tangent sample.
const TANGENTS: [(&[i32], u32, u32, u32); 5] = [
    (TWO, 7, 12, 12),
    (TWO, 7, 10, 10),
    (&[10, 20, 12, 18, 11, 16], 0, 5, 4),
    (&[0, 5, 2, 3, 4, 9], 0, 5, 4),
    (&[7, 9, 20], 0, 2, 1),
];

// The nodes of a cluster of three parts; None where they don't lie one behind the other within the trace.
fn nodes_of<L: Ledger>(
    alloc: Global,
    blank: Blank,
    trace: &Trace,
    cuts: [u32; 4],
    lefts: [Cut; 2],
    covered: [bool; 2],
    forced: bool,
) -> Result<Option<Nodes>, NoMemory>
    requires name { blank.name ≡ L.name }
    requires parts { blank.parts ≡ L.parts }
    requires some { 0 < blank.parts }
{
    let [start, one, two, end] = cuts;
    let [second, third] = lefts;
    let [at_second, at_third] = covered;
    if start >= one || one >= two || two >= end || end >= trace.len() {
        return Ok(None);
    }
    let parts = [
        Part {
            start,
            apex: start,
            end: one,
            left: Cut::Start,
        },
        Part {
            start: one,
            apex: one,
            end: two,
            left: second,
        },
        Part {
            start: two,
            apex: two,
            end,
            left: third,
        },
    ];
    let parts = Parts::from_vec(Vec::from_slice(alloc, parts.as_slice())?);
    let cluster = Cluster {
        start,
        end,
        forced,
        parts,
    };
    let mut steps = Steps::<L>::new(blank);
    Ok(Some(nodes(
        alloc,
        &cluster,
        [false, at_second, at_third].as_slice(),
        trace,
        &mut steps,
    )?))
}

#[test]
fn valleys_on_or_above_a_chord_are_no_nodes(rt: HostRuntime) -> Result<(), Fail> {
    for (samples, cuts, lefts, covered, forced, want) in CLUSTERS {
        let trace = Trace::from_samples(rt.alloc(), 1_000_000, samples)?;
        let got = nodes_of::<Brand>(
            rt.alloc(),
            Blank::new(1),
            &trace,
            cuts,
            lefts,
            covered,
            forced,
        )?;
        let got = got.ok_or("the parts don't lie in a row")?;
        assert_eq!(rt; got.as_slice(), want, "for {cuts:?} of {samples:?}");
    }
    Ok(())
}

// The tangent sample; None where `v` isn't before `end` or `end` isn't within the trace.
fn tangent_of<L: Ledger>(blank: Blank, trace: &Trace, v: u32, end: u32) -> Option<u32>
    requires name { blank.name ≡ L.name }
    requires parts { blank.parts ≡ L.parts }
    requires some { 0 < blank.parts }
{
    let mut steps = Steps::<L>::new(blank);
    if v >= end || end >= trace.len() {
        return None;
    }
    Some(tangent(v, end, trace, &mut steps))
}

#[test]
fn a_tangent_ends_at_the_last_sample_of_the_least_slope(rt: HostRuntime) -> Result<(), Fail> {
    for (samples, v, end, want) in TANGENTS {
        let trace = Trace::from_samples(rt.alloc(), 1_000_000, samples)?;
        let got = tangent_of::<Brand>(Blank::new(1), &trace, v, end);
        assert_eq!(rt; got, Some(want), "from {v} to {end} of {samples:?}");
    }
    Ok(())
}
