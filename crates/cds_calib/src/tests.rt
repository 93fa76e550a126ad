use crate::multiple::common_multiple;
use crate::{MOST_POINTS, Points, amount};
use cds_base::{AREA_LIMIT, MOST_AMOUNT, Missing, NoMemory};
use cds_rules::Weight;
use std::alloc::Global;
use std::test::Fail;

/// The greatest area of a point.
const FULL: u64 = (1 << 52) - 1;

/// The points of the table, so many times over.
fn points(alloc: Global, table: &[(u32, u64)], times: usize) -> Result<Points, NoMemory> {
    let mut points = Points::new(alloc)?;
    for _ in 0..times {
        for &(amount, area) in table {
            let within = 1 <= amount && amount <= MOST_AMOUNT && area < AREA_LIMIT;
            if within && points.len() < MOST_POINTS {
                let end = points.len() as u32;
                points.add(end, amount, area);
            }
        }
    }
    Ok(points)
}

/// Slope and intercept, each as numerator and denominator.
fn line(points: &Points, weight: Weight) -> Result<[i128; 4], Missing> {
    let fit = points.fit(weight)?;
    let (b, a) = (fit.slope(), fit.intercept());
    Ok([b.num(), b.den(), a.num(), a.den()])
}

#[test]
fn lines_of_each_weight_and_why_there_is_none(rt: HostRuntime) -> Result<(), Fail> {
    let rising: [(u32, u64); 3] = [(10, 105), (20, 205), (30, 305)];
    let bent: [(u32, u64); 3] = [(1, 2), (2, 5), (4, 8)];
    let limits: [(u32, u64); 2] = [(1, 0), (1_000_000_000, FULL)];
    let five: [(u32, u64); 5] = [(10, 105), (20, 205), (50, 505), (100, 1005), (200, 2005)];
    let eight: [(u32, u64); 8] = [
        (999_999_993, 1),
        (999_999_994, 2),
        (999_999_995, 3),
        (999_999_996, 4),
        (999_999_997, 5),
        (999_999_998, 6),
        (999_999_999, 7),
        (1_000_000_000, 8),
    ];
    // amounts whose least common multiple is 2^60 - 1, and 2^60 + 6
    let below: [(u32, u64); 3] = [(7, 5), (191_889_225, 1_000_000), (858_323_713, 5_000_000)];
    let past: [(u32, u64); 3] = [(49, 5), (45_619_078, 1_000_000), (515_771_281, 5_000_000)];
    // Sx Swy is just below 2^126, and past it where one area is greater by 1
    let edge: [(u32, u64); 3] = [
        (7, 491_612_415_873),
        (191_889_225, FULL),
        (858_323_713, 4_503_599_570_611_400),
    ];
    let over: [(u32, u64); 3] = [
        (7, 491_612_415_873),
        (191_889_225, FULL),
        (858_323_713, 4_503_599_570_611_401),
    ];
    // it falls, and its least common multiple is past 2^60
    let falling: [(u32, u64); 3] = [(49, 5_000_000), (45_619_078, 1_000_000), (515_771_281, 5)];
    let cases: [(Weight, &[(u32, u64)], usize, Result<[i128; 4], Missing>); 22] = [
        (Weight::Inverse, &falling, 1, Err(Missing::Unfit)),
        (Weight::Inverse, &[(10, 105)], 1, Err(Missing::TooFew)),
        (
            Weight::Origin,
            &[(MOST_AMOUNT, FULL)],
            64,
            Ok([900_719_925_474_099, 200_000_000, 0, 1]),
        ),
        (Weight::Equal, &rising, 1, Ok([10, 1, 5, 1])),
        (Weight::Equal, &bent, 1, Ok([27, 14, 1, 2])),
        (
            Weight::Equal,
            &limits,
            32,
            Ok([
                1_501_199_875_790_165,
                333_333_333,
                -1_501_199_875_790_165,
                333_333_333,
            ]),
        ),
        (
            Weight::Equal,
            &[(10, 105), (10, 106)],
            1,
            Err(Missing::TooFew),
        ),
        (
            Weight::Equal,
            &[(10, 305), (10, 205)],
            1,
            Err(Missing::TooFew),
        ),
        (
            Weight::Equal,
            &[(10, 305), (20, 205), (30, 105)],
            1,
            Err(Missing::NotRising),
        ),
        (Weight::Origin, &bent, 1, Ok([44, 21, 0, 1])),
        (Weight::Origin, &[(10, 50)], 1, Ok([5, 1, 0, 1])),
        (Weight::Origin, &[], 1, Err(Missing::TooFew)),
        (Weight::Origin, &[(10, 0)], 1, Err(Missing::NotRising)),
        (Weight::Inverse, &five, 1, Ok([10, 1, 5, 1])),
        (Weight::Inverse, &bent, 1, Ok([27, 13, 2, 13])),
        (
            Weight::Inverse,
            &limits,
            32,
            Ok([
                1_501_199_875_790_165,
                333_333_333,
                -1_501_199_875_790_165,
                333_333_333,
            ]),
        ),
        (
            Weight::Inverse,
            &[(10, 305), (20, 205), (30, 105)],
            1,
            Err(Missing::NotRising),
        ),
        (
            Weight::Inverse,
            &below,
            1,
            Ok([
                49_410_839_571_262_361_926_429,
                8_648_664_786_552_478_148_269_786,
                42_873_860_273_055_199_527_975_175,
                8_648_664_786_552_478_148_269_786,
            ]),
        ),
        (Weight::Inverse, &eight, 1, Err(Missing::Unfit)),
        (Weight::Inverse, &past, 1, Err(Missing::Unfit)),
        (
            Weight::Inverse,
            &edge,
            1,
            Ok([
                741_675_702_774_756_741_091_320_551_953_189,
                86_486_647_865_524_781_482_697_860,
                8_503_943_624_890_814_467_431_866_912_816_036_325,
                17_297_329_573_104_956_296_539_572,
            ]),
        ),
        (Weight::Inverse, &over, 1, Err(Missing::Unfit)),
    ];
    for (weight, table, times, expected) in cases {
        let points = points(rt.alloc(), table, times)?;
        assert_eq!(rt; line(&points, weight), expected);
    }
    Ok(())
}

#[test]
fn weights_are_over_the_least_common_multiple(rt: HostRuntime) -> Result<(), Fail> {
    let five: [(u32, u64); 5] = [(10, 105), (20, 205), (50, 505), (100, 1005), (200, 2005)];
    let points = points(rt.alloc(), &five, 1)?;
    // Sw is 37 and Sx 380, so the divisor is 37 * 380 - 25 * 200
    assert_eq!(rt; common_multiple(points.as_slice()), Some(200));
    let divisor = points.fit(Weight::Inverse).map(|fit| fit.divisor());
    assert_eq!(rt; divisor, Ok(9_060));
    let copy = points.copy(rt.alloc())?;
    assert_eq!(rt; copy.as_slice(), points.as_slice());
    assert_eq!(rt; line(&copy, Weight::Inverse), Ok([10, 1, 5, 1]));
    Ok(())
}

/// The amount of an area, as numerator and denominator.
fn amount_by(
    points: &Points,
    weight: Weight,
    area: u64,
    u: u32,
    v: u32,
) -> Result<[i128; 2], Missing> {
    let fit = points.fit(weight)?;
    if v == 0 || area >= AREA_LIMIT {
        return Err(Missing::NoPeak);
    }
    let amount = amount(&fit, area, u, v)?;
    Ok([amount.num(), amount.den()])
}

#[test]
fn amounts_of_areas_up_to_the_limit(rt: HostRuntime) -> Result<(), Fail> {
    let rising: [(u32, u64); 3] = [(10, 105), (20, 205), (30, 305)];
    let five: [(u32, u64); 5] = [(10, 105), (20, 205), (50, 505), (100, 1005), (200, 2005)];
    let limits: [(u32, u64); 2] = [(1, 0), (1_000_000_000, FULL)];
    let below: [(u32, u64); 3] = [(7, 5), (191_889_225, 1_000_000), (858_323_713, 5_000_000)];
    let steep: [(u32, u64); 3] = [(7, 0), (191_889_225, 0), (858_323_713, FULL)];
    let cases: [(
        Weight,
        &[(u32, u64)],
        u64,
        u32,
        u32,
        Result<[i128; 2], Missing>,
    ); 12] = [
        // y D' less the intercept is just below 2^126, and past it where the area is greater by 1
        (
            Weight::Inverse,
            &steep,
            491_760_115_810,
            1,
            1,
            Ok([
                8_507_059_173_015_577_992_352_416_867_916_352_045,
                74_175_670_903_653_686_890_711_942_250_667,
            ]),
        ),
        (
            Weight::Inverse,
            &steep,
            491_760_115_811,
            1,
            1,
            Err(Missing::Unfit),
        ),
        (Weight::Equal, &rising, 155, 1, 1, Ok([15, 1])),
        (Weight::Equal, &rising, 155, 3, 2, Ok([45, 2])),
        (Weight::Equal, &rising, 0, 1, 1, Ok([-1, 2])),
        (Weight::Equal, &limits, FULL, 1, 1, Ok([1_000_000_000, 1])),
        (Weight::Origin, &[(10, 50)], 155, 1, 1, Ok([31, 1])),
        (Weight::Inverse, &five, 155, 1, 1, Ok([15, 1])),
        // y D' is just below 2^126, and past it where the area is greater by 1
        (
            Weight::Inverse,
            &below,
            491_813_440_743,
            1,
            1,
            Ok([
                4_253_529_586_464_324_094_760_829_565_360_315_823,
                49_410_839_571_262_361_926_429,
            ]),
        ),
        (
            Weight::Inverse,
            &below,
            491_813_440_744,
            1,
            1,
            Err(Missing::Unfit),
        ),
        // a part of the amount is just below 2^126, and past it
        (
            Weight::Inverse,
            &below,
            491_813_440_743,
            20,
            1,
            Ok([
                85_070_591_729_286_481_895_216_591_307_206_316_460,
                49_410_839_571_262_361_926_429,
            ]),
        ),
        (
            Weight::Inverse,
            &below,
            491_813_440_743,
            21,
            1,
            Err(Missing::Unfit),
        ),
    ];
    for (weight, table, area, u, v, expected) in cases {
        let points = points(rt.alloc(), table, 1)?;
        assert_eq!(rt; amount_by(&points, weight, area, u, v), expected);
    }
    Ok(())
}

#[test]
fn determinations_are_rounded_down(rt: HostRuntime) -> Result<(), Fail> {
    let limits: [(u32, u64); 2] = [(1, 0), (1_000_000_000, FULL)];
    let wide: [(u32, u64); 3] = [(1, 0), (1_000_000_000, FULL), (999_999_999, 1 << 51)];
    let cases: [(&[(u32, u64)], usize, Result<u32, Missing>); 7] = [
        (&[(10, 105), (20, 205), (30, 305)], 1, Ok(10_000)),
        (&[(10, 104), (20, 206), (30, 305)], 1, Ok(9_999)),
        (&[(1, 1), (2, 3), (3, 2)], 1, Ok(2_500)),
        (&limits, 32, Ok(10_000)),
        (&wide, 21, Ok(7_500)),
        (&[(10, 105), (10, 106)], 1, Err(Missing::TooFew)),
        (
            &[(10, 305), (20, 205), (30, 105)],
            1,
            Err(Missing::NotRising),
        ),
    ];
    for (table, times, expected) in cases {
        let points = points(rt.alloc(), table, times)?;
        assert_eq!(rt; points.determination(), expected);
        if let Ok(q) = expected {
            assert_eq!(rt; points.determination_at_least(q), Ok(true));
            assert_eq!(rt;
                points.determination_at_least(q.saturating_add(1)),
                Ok(false)
            );
        } else {
            assert_eq!(rt; points.determination_at_least(0).err(), expected.err());
        }
    }
    Ok(())
}

#[test]
fn a_point_that_is_taken_out_leaves_no_trace(rt: HostRuntime) -> Result<(), Fail> {
    let mut points = points(rt.alloc(), &[(10, 105), (20, 205), (30, 305)], 1)?;
    assert_eq!(rt; points.len(), 3);
    points.add(1, 1_000, 7);
    assert_eq!(rt; points.len(), 4);
    assert_eq!(rt;
        points.get(1).map(|point| (point.amount, point.area)),
        Some((1_000, 7))
    );
    assert_eq!(rt; points.get(4), None);
    points.remove(1);
    assert!(rt; !points.is_empty());
    assert_eq!(rt; line(&points, Weight::Equal), Ok([10, 1, 5, 1]));
    assert_eq!(rt; points.determination(), Ok(10_000));
    Ok(())
}
