use crate::{Frac, LCM_LIMIT, gcd, lcm};
use cds_base::Text;
use std::process::Abort;
use std::test::Fail;

/// The fraction of a row of a test's table.
fn row_fraction(rt: &impl Abort, num: i64, den: u32) -> Frac {
    assert!(rt; den >= 1);
    Frac::new(i128::from(num), i128::from(den))
}

#[test]
fn fractions_are_shown_cut_towards_zero_with_their_sign(rt: HostRuntime) -> Result<(), Fail> {
    let rows = [
        (-1, 3, 4, "-0.3333"),
        (7, 2, 2, "3.50"),
        (-1, 100_000, 4, "-0.0000"),
        (-7, 2, 0, "-3"),
        (4_720_000, 5_666_667, 2, "0.83"),
        (199_999, 100_000, 4, "1.9999"),
        (6, 3, 1, "2.0"),
        (0, 5, 3, "0.000"),
        (1, 1_000_000, 6, "0.000001"),
    ];
    for (num, den, places, wanted) in rows {
        assert!(rt; places <= 6);
        let text: Text = row_fraction(&rt, num, den).digits(rt.alloc(), places)?;
        assert_eq!(rt; text.as_str(), wanted);
    }
    Ok(())
}

#[test]
fn products_are_none_exactly_past_the_limit(rt: HostRuntime) -> Result<(), Fail> {
    let large = Frac::new(1 << 125, 1);
    let largest = Frac::new((1 << 126) - 1, (1 << 126) - 2);
    let rows = [
        (large, 4, 1, None),
        (large, 2, 1, None),
        (large, 3, 2, Some(Frac::new(3 << 124, 1))),
        (Frac::new(1 << 125, 3), 3, 4, Some(Frac::new(1 << 123, 1))),
        (largest, 7, 7, Some(largest)),
        (
            largest,
            2,
            1,
            Some(Frac::new((1 << 126) - 1, (1 << 125) - 1)),
        ),
        (largest, 1, 2, None),
        (Frac::new(-9, 10), 0, 4_294_967_295, Some(Frac::new(0, 7))),
    ];
    for (number, u, v, wanted) in rows {
        assert!(rt; v >= 1);
        assert_eq!(rt; number.times(u, v), wanted);
    }
    Ok(())
}

#[test]
fn fractions_sort_as_numbers(rt: HostRuntime) -> Result<(), Fail> {
    let top: i128 = 1 << 126;
    let below = Frac::new(top - 3, top - 2);
    let above = Frac::new(top - 2, top - 1);
    let mut numbers = vec![in rt.alloc();
        above,
        below,
        Frac::new(-1, 2),
        Frac::new(1 - top, 1),
        Frac::new(2, 3),
        Frac::new(-4, 8),
    ]?;
    numbers.sort()?;
    let wanted = [
        Frac::new(1 - top, 1),
        Frac::new(-1, 2),
        Frac::new(-2, 4),
        Frac::new(4, 6),
        below,
        above,
    ];
    assert_eq!(rt; numbers.as_slice(), wanted.as_slice());
    assert!(rt; below < above && below != above);
    Ok(())
}

#[test]
fn floors_divisors_and_multiples(rt: HostRuntime) -> Result<(), Fail> {
    assert_eq!(rt; Frac::new(-7, 2).floor(), -4);
    assert_eq!(rt; Frac::new(7, 2).floor(), 3);
    assert_eq!(rt; (Frac::new(6, 4).num(), Frac::new(6, 4).den()), (3, 2));
    assert_eq!(rt; (gcd(0, 0), gcd(12, 0), gcd(84, 36)), (0, 12, 12));
    assert_eq!(rt; lcm(4, 6), Some(12));
    assert_eq!(rt; lcm(1 << 30, (1 << 30) - 1), Some((1 << 60) - (1 << 30)));
    assert_eq!(rt; lcm(LCM_LIMIT - 1, 1), Some(LCM_LIMIT - 1));
    assert_eq!(rt;
        (lcm(LCM_LIMIT, 1), lcm(1 << 30, (1 << 30) + 1)),
        (None, None)
    );
    Ok(())
}
