//! Worked rows: what turns come to. Each line asks for something, and says behind `->` what it comes to: `changed` with
//! the most steps that the turn may take, `unchanged`, `opened`, or what is looked up.
use crate::turn_lines::{ask, empty_desk};
use std::alloc::Global;
use std::process::Abort;
use std::test::Fail;

/// A sequence that lists itself. Its rows are of one trace, so they share one key.
const BEFORE: &str = r#"put one 1000000 0 0 0 10 40 60 40 10 0 0 0 -> changed 0
put fix 1000000 0 0 0 10 40 60 40 10 0 0 0 -> changed 0
draft m origin 1 caf@5000 tailing=200 -> changed 0
freeze m 1 -> changed 0
sequence b1 0 m 0 b1 S1,standard,one,16 X1,sample,one, R1,replicate,one, -> changed 352
see b1 row 1 -> peaks 5000000:160000
see b1 row 4 -> none
see b1 line 1 -> 1 points 10000/1 0/1 r2 TooFew
see b1 line 2 -> none
see b1 amount 2 -> 16/1
see b1 amount 1 -> none
see b1 check 1 -> lines 3 1/1 Pass
see b1 verdict -> Pass
see b2 verdict -> none
"#;

/// A sequence that borrows the standards of `b1`.
const BORROWED: &str = r#"sequence b2 0 m 0 b1 X1,sample,fix, -> changed 352
see b2 line 1 -> 1 points 10000/1 0/1 r2 TooFew
see b2 amount 1 -> 16/1
see b2 verdict -> Undecided(TooFew)
"#;

/// Another version of the standard's trace reaches the sequence that borrows it, once it is put.
const OTHER_TRACE: &str = r#"try one 1000000 0 0 0 10 40 80 40 10 0 0 0 -> changed 352
see b1 row 1 -> peaks 5000000:160000
see b2 amount 1 -> 16/1
put one 1000000 0 0 0 10 40 80 40 10 0 0 0 -> changed 352
see b1 row 1 -> peaks 5000000:180000
see b2 row 1 -> peaks 5000000:160000
see b2 line 1 -> 1 points 11250/1 0/1 r2 TooFew
see b2 amount 1 -> 128/9
open anew -> opened
see b1 row 3 -> peaks 5000000:180000
see b2 amount 1 -> 128/9
"#;

/// So do events of the standard's row, which are of that row alone.
const OTHER_EVENTS: &str = r#"events b1 1 1 0 6000 -> changed 352
see b1 row 1 -> peaks
see b1 row 2 -> peaks 5000000:160000
see b1 line 1 -> 0 points TooFew r2 TooFew
see b1 amount 2 -> TooFew
see b2 line 1 -> 0 points TooFew r2 TooFew
see b2 amount 1 -> TooFew
"#;

/// So does another version of the method, by which all rows are then integrated, and each line is that of the method of
/// its own sequence.
const OTHER_METHOD: &str = r#"draft m equal 1 caf@5000 tailing=200 -> changed 0
see b2 amount 1 -> 16/1
freeze m 2 -> changed 704
see b2 line 1 -> 1 points TooFew r2 TooFew
see b2 amount 1 -> TooFew
rebind b1 1 1 -> changed 352
see b1 amount 2 -> 16/1
see b2 amount 1 -> TooFew
"#;

/// No step is taken where a standard is no longer used, and where it is used again.
const UNUSED: &str =
    r#"sequence b1 1 m 0 b1 S1,unused,one,16 X1,sample,one, R1,replicate,one, -> changed 0
see b1 line 1 -> 0 points TooFew r2 TooFew
see b2 amount 1 -> TooFew
sequence b1 2 m 0 b1 S1,standard,one,16 X1,sample,one, R1,replicate,one, -> changed 0
see b2 amount 1 -> 16/1
"#;

/// Nor where a change reaches nothing, where nothing changes, and where a binding is of the same version.
const UNREACHED: &str = r#"put more 1000000 0 0 0 20 80 120 80 20 0 0 0 -> changed 0
put one 1000000 0 0 0 10 40 60 40 10 0 0 0 -> unchanged
draft k equal 1 caf@5000 -> changed 0
freeze k 1 -> changed 0
freeze k 1 -> unchanged
rebind b1 1 1 -> changed 0
sequence b2 0 m 0 b1 X1,sample,fix, -> unchanged
see b1 amount 2 -> 16/1
see b2 amount 1 -> 16/1
"#;

/// A row that two sequences have is kept as long as one of them has it.
const SHARED: &str = r#"put two 1000000 0 0 0 20 80 120 80 20 0 0 0 -> changed 0
sequence b3 0 m 0 b1 X1,sample,one, -> changed 0
sequence b1 1 m 0 b1 S1,standard,two,16 -> changed 352
see b3 row 1 -> peaks 5000000:160000
see b3 amount 1 -> 8/1
sequence b1 2 m 0 b1 S1,standard,one,16 -> changed 0
see b3 amount 1 -> 16/1
sequence b1 3 m 0 b1 S1,standard,two,16 -> changed 352
"#;

/// A line is fitted by the weight of its own sequence through the points of the listed one, which knows the component
/// under another number.
const TWO_WEIGHTS: &str = r#"put a 1000 0 0 0 6 26 41 26 6 0 0 0 -> changed 0
put b 1000 0 0 0 12 51 79 51 12 0 0 0 -> changed 0
put c 1000 0 0 0 19 76 115 76 19 0 0 0 -> changed 0
put x 1000 0 0 0 9 38 61 38 9 0 0 0 -> changed 0
draft o origin 1 caf@5 -> changed 0
freeze o 1 -> changed 0
draft e equal 1 zed@9 caf@5 -> changed 0
freeze e 1 -> changed 0
sequence s 0 o 0 s A,standard,a,10 B,standard,b,20 C,standard,c,30 -> changed 1056
sequence q 0 e 0 s X,sample,x, -> changed 352
see s line 1 -> 3 points 143/14 0/1 r2 10000
see q line 1 -> 0 points TooFew r2 TooFew
see q line 2 -> 3 points 10/1 5/1 r2 10000
see q amount 1 1 -> NoPeak
see q amount 1 2 -> 15/1
see s verdict -> Pass
"#;

/// The traces of the causes: with a peak, with one of twice the area, without one, with two that share a line, with too
/// many, and with one of no area in whole milliseconds.
const TRACES: &str = r#"put one 1000000 0 0 0 10 40 60 40 10 0 0 0 -> changed 0
put two 1000000 0 0 0 20 80 120 80 20 0 0 0 -> changed 0
put flat 1000000 7 7 -> changed 0
put pair 1000000 0 0 0 10 40 60 50 40 50 60 40 10 0 0 0 -> changed 0
put many 1000000 501 times 0 0 0 10 40 60 40 10 0 0 0 -> changed 0
put tiny 1 0 0 0 10 40 60 40 10 0 0 0 -> changed 0
"#;

/// Signal to noise: too many peaks and no peak come first, then no blank, then no window, fewer than two samples in it,
/// and equal ones. The first blank gives the noise, also where it has too many peaks.
const NOISE: &str = r#"draft n origin 1 caf@5000 signal_noise=200 -> changed 0
freeze n 1 -> changed 0
sequence n 0 n 0 n R,replicate,one, F,replicate,flat, M,replicate,many, -> changed 176768
see n check 1 -> lines 1 NoBlank Undecided(NoBlank) 2 NoPeak Undecided(NoPeak) 3 TooManyPeaks Undecided(TooManyPeaks)
see n verdict -> Undecided(NoBlank)
sequence n 1 n 0 n B,blank,one, C,blank,two, R,replicate,one, F,replicate,flat, -> changed 352
see n check 1 -> lines 3 NoNoise Undecided(NoNoise) 4 NoPeak Undecided(NoPeak)
draft n origin 1 +noise_from_ms=0 +noise_to_ms=1000 caf@5000 signal_noise=200 -> changed 0
freeze n 2 -> changed 790
see n check 1 -> lines 3 NoNoise Undecided(NoNoise) 4 NoPeak Undecided(NoPeak)
draft n origin 1 +noise_from_ms=0 +noise_to_ms=3000 caf@5000 signal_noise=200 -> changed 0
freeze n 3 -> changed 790
see n check 1 -> lines 3 NoNoise Undecided(NoNoise) 4 NoPeak Undecided(NoPeak)
draft n origin 1 +noise_from_ms=0 +noise_to_ms=6000 caf@5000 signal_noise=200 -> changed 0
freeze n 4 -> changed 790
see n check 1 -> lines 3 2/1 Pass 4 NoPeak Undecided(NoPeak)
see n verdict -> Undecided(NoPeak)
sequence n 2 n 0 n M,blank,many, C,blank,two, R,replicate,one, -> changed 187374
see n row 1 -> 501 raw peaks
see n check 1 -> lines 3 2/1 Pass
see n verdict -> Pass
"#;

/// The retention, the valley and the width of a peak, and the verdict, which is Fail where one check fails.
const FIGURES: &str =
    r#"draft f origin 1 caf@5000 retention=100 peak_valley=1 plates=20 tailing=99 -> changed 0
freeze f 1 -> changed 0
sequence f 0 f 0 f R,replicate,one, F,replicate,flat, P,replicate,pair, -> changed 896
see f check 1 -> lines 1 NoDeadTime Undecided(NoDeadTime) 2 NoPeak Undecided(NoPeak) 3 NoDeadTime Undecided(NoDeadTime)
see f check 2 -> lines 1 NoValley Undecided(NoValley) 2 NoPeak Undecided(NoPeak) 3 NoValley Undecided(NoValley)
see f verdict -> Fail
draft f origin 1 +dead_time_us=1000000 caf@9000 retention=801 peak_valley=150 plates=20 -> changed 0
freeze f 2 -> changed 896
see f check 1 -> lines 1 NoPeak Undecided(NoPeak) 2 NoPeak Undecided(NoPeak) 3 8/1 Fail
see f check 2 -> lines 1 NoPeak Undecided(NoPeak) 2 NoPeak Undecided(NoPeak) 3 3/2 Pass
see f check 3 -> lines 1 NoPeak Undecided(NoPeak) 2 NoPeak Undecided(NoPeak) 3 WidthCut Undecided(WidthCut)
see f check 4 -> lines
see f verdict -> Fail
"#;

/// A deviation: no peak comes before too few values, and these before a sum of zero. And a determination.
const DEVIATIONS: &str = r#"draft d equal 0 caf@0 caw@5000 rsd_area=200 r2=9000 -> changed 0
freeze d 1 -> changed 0
sequence d 0 d 0 d R,replicate,flat, -> changed 64
see d check 1 -> lines all NoPeak Undecided(NoPeak)
see d check 2 -> lines all TooFew Undecided(TooFew)
sequence d 1 d 0 d R,replicate,tiny, -> changed 352
see d check 1 -> lines all TooFew Undecided(TooFew)
sequence d 2 d 0 d R,replicate,tiny, Q,replicate,tiny, -> changed 0
see d check 1 -> lines all ZeroSum Undecided(ZeroSum)
sequence d 3 d 0 d R,sample,tiny, -> changed 0
see d check 1 -> lines all TooFew Undecided(TooFew)
see d verdict -> Undecided(TooFew)
"#;

/// An amount: too many peaks and no peak come before what is missing of the line, of which too few points come before
/// numbers past the limits, and these before a line that falls.
const AMOUNTS: &str = r#"draft a equal 1 caf@5000 -> changed 0
freeze a 1 -> changed 0
sequence a 0 a 0 a M,sample,many, F,sample,flat, X,sample,one, -> changed 176768
see a amount 1 -> TooManyPeaks
see a amount 2 -> NoPeak
see a amount 3 -> TooFew
sequence a 1 a 0 a S,standard,two,10 T,standard,one,20 F,sample,flat, X,sample,one, -> changed 352
see a amount 3 -> NoPeak
see a amount 4 -> NotRising
see a line 1 -> 2 points NotRising r2 NotRising
draft a inverse 1 caf@5000 -> changed 0
freeze a 2 -> changed 768
see a amount 4 -> NotRising
sequence a 2 a 0 a S,standard,two,999999997 T,standard,one,999999999 U,standard,one,999999998 X,sample,one, -> changed 0
see a amount 4 -> Unfit
see a line 1 -> 3 points Unfit r2 NotRising
"#;

/// A line through numbers so great that the amount of a great area passes the limits, and that of a small one doesn't.
const GREAT: &str = r#"put s 1000 0 0 0 10 40 60 40 10 0 0 0 -> changed 0
put t 1000 0 0 0 20 80 120 80 20 0 0 0 -> changed 0
put g 1000 0 0 0 12500000 50000000 75000000 50000000 12500000 0 0 0 -> changed 0
draft g inverse 1 caf@5 -> changed 0
freeze g 1 -> changed 0
sequence g 0 g 0 g S*32,standard,s,1 T*16,standard,t,999999999 U*16,standard,t,1000000000 -> changed 704
sequence h 0 g 0 g X,sample,g, Y,sample,s, -> changed 352
see h row 1 -> peaks 5000:200000000
see h amount 1 -> Unfit
see h amount 2 -> 3999999992000000001/3999999992000000002
"#;

/// The first 64 points are taken, so a standard that is no longer used brings in the 65th.
const POINTS: &str = r#"draft p equal 1 caf@5000 r2=10000 -> changed 0
freeze p 1 -> changed 0
sequence p 0 p 0 p S*64,standard,one,10 T,standard,two,20 X,sample,two, -> changed 704
see p line 1 -> 64 points TooFew r2 TooFew
see p amount 66 -> TooFew
see p verdict -> Undecided(TooFew)
sequence p 1 p 0 p A,unused,one,10 S*63,standard,one,10 T,standard,two,20 X,sample,two, -> changed 0
see p line 1 -> 64 points 16000/1 0/1 r2 10000
see p amount 66 -> 20/1
see p check 1 -> lines all 1/1 Pass
sequence p 2 p 0 p A,unused,one,10 B,unused,one,10 S*63,standard,one,10 T,standard,two,20 X,sample,two, -> changed 0
see p line 1 -> 64 points 16000/1 0/1 r2 10000
sequence p 3 p 0 p S*64,standard,one,10 T,standard,two,20 X,sample,two, -> changed 0
see p line 1 -> 64 points TooFew r2 TooFew
"#;

/// The first 64 replicates are compared, so what is missing in the 65th isn't seen.
const REPLICATES: &str = r#"draft r equal 1 caf@5000 rsd_area=1 rsd_time=1 -> changed 0
freeze r 1 -> changed 0
sequence r 0 r 0 r R*64,replicate,one, F,replicate,flat, -> changed 416
see r check 1 -> lines all 0/1 Pass
see r check 2 -> lines all 0/1 Pass
sequence r 1 r 0 r R*63,replicate,one, F,replicate,flat, Q,replicate,one, -> changed 0
see r check 1 -> lines all NoPeak Undecided(NoPeak)
sequence r 2 r 0 r R*64,replicate,one, T,replicate,two, -> changed 352
see r check 1 -> lines all 0/1 Pass
"#;

#[test]
fn a_change_reaches_what_rests_on_it_and_costs_its_new_rows(rt: HostRuntime) -> Result<(), Fail> {
    for lines in [
        OTHER_TRACE,
        OTHER_EVENTS,
        OTHER_METHOD,
        UNUSED,
        UNREACHED,
        SHARED,
    ] {
        tell_all(&rt, rt.alloc(), &[BEFORE, BORROWED, lines])?;
    }
    Ok(())
}

#[test]
fn each_cause_comes_in_its_order_and_lists_are_cut(rt: HostRuntime) -> Result<(), Fail> {
    for lines in [
        TWO_WEIGHTS,
        NOISE,
        FIGURES,
        DEVIATIONS,
        AMOUNTS,
        GREAT,
        POINTS,
        REPLICATES,
    ] {
        tell_all(&rt, rt.alloc(), &[TRACES, lines])?;
    }
    Ok(())
}

// That the lines come to what they say, one part after the other, on tables that hold nothing.
fn tell_all(rt: &impl Abort, alloc: Global, parts: &[&str]) -> Result<(), Fail> {
    let mut desk = empty_desk(alloc)?;
    for lines in parts {
        for line in lines.lines() {
            let (asked, want) = line.split_once(" -> ").ok_or("a line has an arrow")?;
            desk = ask(alloc, desk, asked)?;
            assert_eq!(rt; desk.told.as_str(), want, "at {line}");
        }
    }
    Ok(())
}
