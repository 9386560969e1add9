//! The greatest common divisor.
ghost use Rattle.std.specs.Prelude.{◌≡◌, ◌<◌, ◌≤◌};
ghost use Rattle.ice_defs.specs.Frac.{gcd};

/// The greatest common divisor of two numbers below 2^64.
fn short_divisor(a: u64, b: u64) -> u64
    ensures { result ≡ gcd a b }
{
    let mut x = a;
    let mut y = b;
    while y != 0 {
        let rest = x % y;
        x = y;
        y = rest;
    }
    x
}

/// The greatest common divisor of two numbers of any size.
fn long_divisor(a: u128, b: u128) -> u128
    ensures { result ≡ gcd a b }
{
    let mut x = a;
    let mut y = b;
    while y != 0 {
        let rest = x % y;
        x = y;
        y = rest;
    }
    x
}

/// The greatest common divisor of two numbers, by Euclid's algorithm. It takes no division where
/// the second is 1, and short ones where both are below 2^64.
pub fn common_divisor(a: u128, b: u128) -> u128
    ensures value { result ≡ gcd a b }
    ensures positive { 0 < b → 0 < result }
    ensures below { 0 < b → result ≤ b }
{
    if b == 1 {
        return 1;
    }
    if a <= u128::from(u64::MAX) && b <= u128::from(u64::MAX) {
        return u128::from(short_divisor(a as u64, b as u64));
    }
    long_divisor(a, b)
}
