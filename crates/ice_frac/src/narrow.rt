//! Whole arithmetic that stays within 2^127 - 1 in size.
ghost use Rattle.std.specs.Prelude.{◌≡◌, ◌<◌, ◌^◌, ◌*◌, ◌/◌, pos, ◌*ℤ◌, ◌+ℤ◌, neg_ℤ, int_lt, if◌then◌else◌, int_div, is_ok, IfOk};
ghost use Rattle.ice_defs.specs.Frac.{num_fits, den_fits};

/// The exact result doesn't fit 128 bits.
#[derive(Clone, Copy, Debug, PartialEq, Eq)]
pub struct Wide;

/// The quotient, rounded toward 0. It takes no division where the divisor is 1.
pub(crate) fn quotient(n: i128, divisor: u128) -> i128
    requires positive { 0 < divisor }
    requires below { divisor < 2 ^ 127 }
    ensures { result ≡ int_div n (pos divisor) }
{
    if divisor == 1 {
        return n;
    }
    n / divisor as i128
}

/// The quotient of two sizes, rounded down. It takes no division where the divisor is 1.
pub(crate) fn size_quotient(size: u128, divisor: u128) -> u128
    requires { 0 < divisor }
    ensures { result ≡ size / divisor }
{
    if divisor == 1 {
        return size;
    }
    size / divisor
}

/// The size with the sign of a number: negative where the number is.
pub(crate) fn with_sign_of(number: i128, size: u128) -> i128
    requires { size < 2 ^ 127 }
    ensures { result ≡ (if int_lt number (pos 0) then neg_ℤ (pos size) else pos size) }
{
    if number < 0 {
        -(size as i128)
    } else {
        size as i128
    }
}

/// The product, where it is within 2^127 - 1 in size.
pub(crate) fn product(a: i128, b: i128) -> Result<i128, Wide>
    ensures variant { is_ok result ≡ num_fits (a *ℤ b) }
    ensures value { IfOk result (λ r. r ≡ a *ℤ b) }
{
    match a.checked_mul(b) {
        Some(exact) if exact > i128::MIN => Ok(exact),
        _ => Err(Wide),
    }
}

/// The sum, where it is within 2^127 - 1 in size.
pub(crate) fn sum(a: i128, b: i128) -> Result<i128, Wide>
    ensures variant { is_ok result ≡ num_fits (a +ℤ b) }
    ensures value { IfOk result (λ r. r ≡ a +ℤ b) }
{
    match a.checked_add(b) {
        Some(exact) if exact > i128::MIN => Ok(exact),
        _ => Err(Wide),
    }
}

/// The product of two denominators, where it is at most 2^127 - 1.
pub(crate) fn den_product(a: u128, b: u128) -> Result<u128, Wide>
    requires left { 0 < a }
    requires right { 0 < b }
    ensures variant { is_ok result ≡ den_fits (a * b) }
    ensures value { IfOk result (λ r. r ≡ a * b) }
{
    match a.checked_mul(b) {
        Some(exact) if exact <= i128::MAX as u128 => Ok(exact),
        _ => Err(Wide),
    }
}
