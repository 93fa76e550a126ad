use crate::{MOST_VALUES, Verdict, check, overall, rsd_at_most, rsd_floor};
use cds_base::{AREA_LIMIT, Missing};
use cds_frac::Frac;
use cds_rules::CheckKind;
use std::process::Abort;
use std::test::Fail;

/// The deviation of a row's values, rounded down, and whether it is at most the row's limit.
fn deviation(
    rt: &impl Abort,
    values: &[u64],
    limit: u32,
) -> (Result<u32, Missing>, Result<bool, Missing>) {
    assert!(rt; values.len() <= MOST_VALUES);
    let below = values.iter().all(|x| *x < AREA_LIMIT);
    assert!(rt; below);
    (rsd_floor(values), rsd_at_most(values, limit))
}

#[test]
fn deviations_are_compared_before_they_are_rounded(rt: HostRuntime) -> Result<(), Fail> {
    // 63 values of 0 and one more, and 64 equal values, both at the limits
    let mut far = [0; 64];
    far[63] = AREA_LIMIT - 1;
    let full = [AREA_LIMIT - 1; 64];
    let too_few = (Err(Missing::TooFew), Err(Missing::TooFew));
    let zero_sum = (Err(Missing::ZeroSum), Err(Missing::ZeroSum));
    let cases: [(&[u64], u32, (Result<u32, Missing>, Result<bool, Missing>)); 15] = [
        (&[100, 102, 98], 200, (Ok(200), Ok(true))),
        (&[100, 102, 98], 199, (Ok(200), Ok(false))),
        (&[100_001, 102_000, 97_999], 200, (Ok(200), Ok(false))),
        (&[100_001, 102_000, 97_999], 201, (Ok(200), Ok(true))),
        (&[0, 7], 14_142, (Ok(14_142), Ok(false))),
        (&[0, 7], 14_143, (Ok(14_142), Ok(true))),
        (&[5, 5], 0, (Ok(0), Ok(true))),
        (&far, 79_999, (Ok(80_000), Ok(false))),
        (&far, 80_000, (Ok(80_000), Ok(true))),
        (&far, u32::MAX, (Ok(80_000), Ok(true))),
        (&full, 0, (Ok(0), Ok(true))),
        (&[], 200, too_few),
        (&[7], 200, too_few),
        (&[0], 200, too_few),
        (&[0, 0], 200, zero_sum),
    ];
    for (values, limit, wanted) in cases {
        assert_eq!(rt; deviation(&rt, values, limit), wanted);
    }
    Ok(())
}

/// The verdict of a check on the fraction `num / den`.
fn verdict(rt: &impl Abort, kind: CheckKind, num: i64, den: u32, limit: u32) -> Verdict {
    assert!(rt; den >= 1);
    let value = Ok(Frac::new(i128::from(num), i128::from(den)));
    match kind {
        CheckKind::RsdArea | CheckKind::RsdTime | CheckKind::R2 => Verdict::Fail,
        _ => check(kind, value, limit),
    }
}

#[test]
fn values_pass_at_their_limits(rt: HostRuntime) -> Result<(), Fail> {
    let cases = [
        (CheckKind::Resolution, 3, 2, 150, Verdict::Pass),
        (CheckKind::Resolution, 3, 2, 151, Verdict::Fail),
        // 1.4999..., which shows as 1.49 and is no 1.50
        (
            CheckKind::Resolution,
            1_499_999,
            1_000_000,
            150,
            Verdict::Fail,
        ),
        (CheckKind::Tailing, 3, 2, 150, Verdict::Pass),
        (CheckKind::Tailing, 3, 2, 149, Verdict::Fail),
        // 1.5000..., which shows as 1.50 and is above it
        (CheckKind::Tailing, 1_500_001, 1_000_000, 150, Verdict::Fail),
        (CheckKind::Plates, 2_000, 1, 2_000, Verdict::Pass),
        (CheckKind::Plates, 5_999, 3, 2_000, Verdict::Fail),
        (CheckKind::SignalNoise, 10, 1, 1_000, Verdict::Pass),
        (CheckKind::SignalNoise, 10, 1, 1_001, Verdict::Fail),
        (CheckKind::Retention, -1, 2, 1, Verdict::Fail),
        (CheckKind::Retention, 2, 1, 200, Verdict::Pass),
        (CheckKind::PeakValley, 1, 3, 33, Verdict::Pass),
        (CheckKind::PeakValley, 1, 3, 34, Verdict::Fail),
    ];
    for (kind, num, den, limit, wanted) in cases {
        assert_eq!(rt; verdict(&rt, kind, num, den, limit), wanted);
    }
    // a peak whose widths are cut has neither resolution nor tailing
    let undecided = Verdict::Undecided(Missing::WidthCut);
    let resolution = check(CheckKind::Resolution, Err(Missing::WidthCut), 100);
    assert_eq!(rt; resolution, undecided);
    let tailing = check(CheckKind::Tailing, Err(Missing::WidthCut), 150);
    assert_eq!(rt; tailing, undecided);
    Ok(())
}

#[test]
fn verdicts_of_several(rt: HostRuntime) -> Result<(), Fail> {
    let no_peak = Verdict::Undecided(Missing::NoPeak);
    let too_few = Verdict::from_test(Err(Missing::TooFew));
    let (pass, fail) = (Verdict::from_test(Ok(true)), Verdict::from_test(Ok(false)));
    let cases: [(&[Verdict], Verdict); 6] = [
        (&[], Verdict::Pass),
        (&[pass, pass], Verdict::Pass),
        (&[pass, too_few, no_peak], too_few),
        (&[no_peak, pass, too_few], no_peak),
        (&[no_peak, pass, fail], Verdict::Fail),
        (&[fail, no_peak], Verdict::Fail),
    ];
    for (verdicts, wanted) in cases {
        assert_eq!(rt; overall(verdicts), wanted);
    }
    Ok(())
}
