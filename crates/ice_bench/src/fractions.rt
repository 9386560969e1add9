//! Operations of fractions, on operands that a generator draws.
use ice_frac::Frac;
use std::cmp::Ordering;

fn next(x: u64) -> u64 {
    x.wrapping_mul(6364136223846793005)
        .wrapping_add(1442695040888963407)
}

/// A fraction of two numbers of up to 62 and 31 bits.
fn drawn(x: u64) -> Option<Frac> {
    let num = i128::from(x >> 2) - (1 << 61);
    let den = i128::from(next(x) >> 33) + 1;
    Frac::new(num, den)
}

fn folded(sum: u64, f: &Frac) -> u64 {
    sum.wrapping_mul(31)
        .wrapping_add((f.num() & 0xffff_ffff) as u64)
        .wrapping_add((f.den() & 0xffff_ffff) as u64)
}

/// So many sums of two drawn fractions.
pub fn additions(calls: u32) -> u64 {
    let mut x = 1u64;
    let mut sum = 0u64;
    for _call in 0..calls {
        x = next(x);
        let (Some(a), Some(b)) = (drawn(x), drawn(next(x))) else {
            return 0;
        };
        sum = match a.add(&b) {
            Ok(c) => folded(sum, &c),
            Err(_) => sum.wrapping_add(1),
        };
    }
    sum
}

/// So many products of two drawn fractions.
pub fn multiplications(calls: u32) -> u64 {
    let mut x = 1u64;
    let mut sum = 0u64;
    for _call in 0..calls {
        x = next(x);
        let (Some(a), Some(b)) = (drawn(x), drawn(next(x))) else {
            return 0;
        };
        sum = match a.mul(&b) {
            Ok(c) => folded(sum, &c),
            Err(_) => sum.wrapping_add(1),
        };
    }
    sum
}

/// So many comparisons of two drawn fractions.
pub fn comparisons(calls: u32) -> u64 {
    let mut x = 1u64;
    let mut sum = 0u64;
    for _call in 0..calls {
        x = next(x);
        let (Some(a), Some(b)) = (drawn(x), drawn(next(x))) else {
            return 0;
        };
        if a.cmp(&b) == Ordering::Less {
            sum = sum.wrapping_add(x & 0xffff);
        }
    }
    sum
}
