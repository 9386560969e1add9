//! Whole numbers of 128 bits.
ghost use Rattle.std.specs.Prelude.{pos, ◌<ℤ◌};

use crate::work::GivenUp;
use ice_frac::common_divisor;

/// The product, where it fits.
pub(crate) fn product(one: i128, other: i128) -> Result<i128, GivenUp> {
    one.checked_mul(other).ok_or(GivenUp::Wide)
}

/// The sum, where it fits.
pub(crate) fn sum(one: i128, other: i128) -> Result<i128, GivenUp> {
    one.checked_add(other).ok_or(GivenUp::Wide)
}

/// The least size of a number that isn't short: 2^62.
const LEAST_LONG: i128 = 4_611_686_018_427_387_904;

/// Whether a number is below 2^62 in size.
fn is_short(number: i128) -> bool {
    number > -LEAST_LONG && number < LEAST_LONG
}

/// The sum of two products, where they fit. Those of short numbers always do.
pub(crate) fn mixed(one: i128, times: i128, other: i128, factor: i128) -> Result<i128, GivenUp> {
    if is_short(one) && is_short(times) && is_short(other) && is_short(factor) {
        return Ok(
            one.wrapping_mul(times)
                .wrapping_add(other.wrapping_mul(factor)),
        );
    }
    sum(product(one, times)?, product(other, factor)?)
}

/// The greatest common divisor of two numbers; 1 where it is 0 or doesn't fit.
pub(crate) fn divisor(one: i128, other: i128) -> i128
    ensures { pos 0 <ℤ result }
{
    let found = common_divisor(one.unsigned_abs(), other.unsigned_abs());
    if found == 0 || found > i128::MAX as u128 {
        return 1;
    }
    found as i128
}

/// The greatest common divisor of a number and all others.
pub(crate) fn divisor_of(first: i128, others: &[i128]) -> i128
    ensures { pos 0 <ℤ result }
{
    let mut shared = divisor(first, 0);
    for other in others {
        if shared == 1 {
            return 1;
        }
        shared = divisor(*other, shared);
    }
    shared
}

/// A number over a divisor of it. It takes no division where that is 1.
pub(crate) fn quotient(number: i128, by: i128) -> i128
    requires { pos 0 <ℤ by }
{
    if by == 1 {
        return number;
    }
    number / by
}

/// Each number over a divisor of them all.
pub(crate) fn divide_all(numbers: &mut [i128], by: i128)
    requires { pos 0 <ℤ by }
{
    for place in 0..numbers.len() {
        numbers[place] = quotient(numbers[place], by);
    }
}
