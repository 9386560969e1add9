//! Tests of Threshold payments.
use ice_frac::Frac;
use ice_threshold::threshold;

fn are(fractions: &[Frac], wanted: &[(i128, u128)]) -> bool {
    fractions.len() == wanted.len()
        && fractions.iter().zip(wanted).all(|(fraction, parts)| fraction.num() == parts.0
            && fraction.den() == parts.1)
}

#[test]
fn one_cut_for_three(rt: HostRuntime) {
    let Ok(paid) = threshold(rt.alloc(), &[4, 3, 2], &[10, 6, 2], 9) else {
        panic!(rt; "want of memory");
    };
    let cut = are(&[paid.cut, paid.surplus], &[(7, 2), (0, 1)]);
    let discounts = are(paid.discounts.as_slice(), &[(13, 2), (5, 2), (0, 1)]);
    let payments = are(paid.payments.as_slice(), &[(-5, 2), (1, 2), (2, 1)]);
    assert!(rt; cut && discounts && payments);
}
