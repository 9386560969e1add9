//! Tests of fractions.
use ice_frac::{Frac, Wide};
use std::cmp::Ordering;

/// 2^126
const BIG: i128 = 1 << 126;

fn parts(outcome: Result<Frac, Wide>) -> Option<(i128, u128)> {
    match outcome {
        Ok(fraction) => Some((fraction.num(), fraction.den())),
        Err(Wide) => None,
    }
}

#[test]
fn makes_lowest_terms(rt: HostRuntime) {
    let cases = [
        (6, 4, Some((3, 2))),
        (-6, 4, Some((-3, 2))),
        (0, 5, Some((0, 1))),
        (i128::MAX, 1, Some((i128::MAX, 1))),
        (i128::MIN, 1, None),
        (1, 0, None),
        (1, -2, None),
    ];
    for (num, den, wanted) in cases {
        let made = parts(Frac::new(num, den).ok_or(Wide));
        assert!(rt; made == wanted, "{num} over {den}");
    }
}

#[test]
fn adds_and_takes_away(rt: HostRuntime) {
    let half = Frac::new(1, 2).expect(&rt, "1/2");
    let third = Frac::new(-1, 3).expect(&rt, "-1/3");
    let tiny = Frac::new(1, BIG).expect(&rt, "1/2^126");
    assert!(rt;
        [
            parts(half.add(&third)),
            parts(half.sub(&third)),
            parts(half.add(&half))
        ] == [Some((1, 6)), Some((5, 6)), Some((1, 1))]
    );
    assert!(rt; [parts(tiny.add(&third)), parts(tiny.sub(&third))] == [None, None]);
}

#[test]
fn multiplies_and_divides(rt: HostRuntime) {
    let half = Frac::new(1, 2).expect(&rt, "1/2");
    let third = Frac::new(-1, 3).expect(&rt, "-1/3");
    let big = Frac::new(BIG, 1).expect(&rt, "2^126");
    assert!(rt;
        [
            parts(half.mul(&third)),
            parts(big.mul(&half)),
            parts(big.mul(&big))
        ] == [Some((-1, 6)), Some((BIG / 2, 1)), None]
    );
    assert!(rt; third.num() != 0);
    assert!(rt; parts(half.div(&third)) == Some((-3, 2)));
    assert!(rt; third.reciprocal().num() == -3);
}

#[test]
fn compares(rt: HostRuntime) {
    let half = Frac::new(1, 2).expect(&rt, "1/2");
    let third = Frac::new(-1, 3).expect(&rt, "-1/3");
    let tiny = Frac::new(1, BIG).expect(&rt, "1/2^126");
    let big = Frac::new(BIG, 1).expect(&rt, "2^126");
    assert!(rt;
        [tiny.cmp(&third.negated()), third.cmp(&tiny), big.cmp(&half)]
            == [Ordering::Less, Ordering::Less, Ordering::Greater]
    );
}
