//! Numbers, by their one decimal spelling.
ghost use Rattle.std.specs.Prelude.{◌≡◌, ℕ, ◌+◌, ◌^◌, ◌<◌, ◌≤◌, List, [], ◌∷◌, ◌++◌, decimal, ◌≤ℤ◌, unsigned_abs, FitsSigned, MatchOption};
ghost use Rattle.std.specs.Int.{IsInRange, w128};
ghost use Rattle.std.specs.Fmt.{signed_decimal};
ghost use Rattle.ice_line.specs.Reading.{Reads};

/// The first byte, and those after it.
fn split_byte(field: &[u8]) -> Option<(u8, &[u8])>
    ensures { MatchOption result (field.now ≡ []) (λ parts. field.now ≡ parts.0 ∷ parts.1.now) }
{
    match field {
        [first, rest @ ..] => Some((*first, rest)),
        [] => None,
    }
}

/// The number of a digit.
fn digit(byte: u8) -> Option<u8>
    ensures { MatchOption result (¬ IsInRange 48 57 byte)
        (λ number. (byte ≡ 48 + number) × (number < 10)) }
{
    if byte >= b'0' && byte <= b'9' {
        Some(byte - b'0')
    } else {
        None
    }
}

/// The number of 64 bits that the digits of `first` spell with these after them.
fn more_digits(first: u64, rest: &[u8]) -> Option<u64>
    requires { 0 < first }
    ensures { Reads result (λ n. n < 2 ^ 64) decimal (decimal first ++ rest.now) }
{
    let mut value = first;
    for byte in rest {
        let number = digit(*byte)?;
        value = value.checked_mul(10)?.checked_add(u64::from(number))?;
    }
    Some(value)
}

/// The number of 64 bits that a field spells.
fn digits(field: &[u8]) -> Option<u64>
    ensures { Reads result (λ n. n < 2 ^ 64) decimal field.now }
{
    let (first, rest) = split_byte(field)?;
    let value = digit(first)?;
    if value > 0 {
        more_digits(u64::from(value), rest)
    } else if rest.is_empty() {
        Some(0)
    } else {
        None
    }
}

/// The same at 128 bits.
fn more_wide_digits(first: u128, rest: &[u8]) -> Option<u128>
    requires { 0 < first }
    ensures { Reads result (λ n. n < 2 ^ 128) decimal (decimal first ++ rest.now) }
{
    let mut value = first;
    for byte in rest {
        let number = digit(*byte)?;
        value = value.checked_mul(10)?.checked_add(u128::from(number))?;
    }
    Some(value)
}

fn wide_digits(field: &[u8]) -> Option<u128>
    ensures { Reads result (λ n. n < 2 ^ 128) decimal field.now }
{
    let (first, rest) = split_byte(field)?;
    let value = digit(first)?;
    if value > 0 {
        more_wide_digits(u128::from(value), rest)
    } else if rest.is_empty() {
        Some(0)
    } else {
        None
    }
}

/// The number from `least` to `most` whose one decimal spelling this field is.
pub fn natural(field: &[u8], least: u64, most: u64) -> Option<u64>
    ensures { Reads result (λ n. (least ≤ n) × (n ≤ most)) decimal field.now }
{
    let number = digits(field)?;
    if number >= least && number <= most {
        Some(number)
    } else {
        None
    }
}

/// The number from `least` to `most` whose one decimal spelling this field is: negative ones have a
/// `-`.
pub fn integer(field: &[u8], least: i64, most: i64) -> Option<i64>
    ensures { Reads result (λ z. (least ≤ℤ z) × (z ≤ℤ most)) signed_decimal field.now }
{
    let value = number_of_64_bits(field)?;
    if value >= i128::from(least) && value <= i128::from(most) {
        Some(value as i64)
    } else {
        None
    }
}

/// The number of 64 bits and a sign that a field spells.
fn number_of_64_bits(field: &[u8]) -> Option<i128>
    ensures { Reads result (λ z. unsigned_abs z < 2 ^ 64) signed_decimal field.now }
{
    if let Some(rest) = after_minus(field) {
        let size = digits(rest)?;
        if size == 0 {
            None
        } else {
            Some(-i128::from(size))
        }
    } else {
        Some(i128::from(digits(field)?))
    }
}

/// What comes after a minus.
fn after_minus(field: &[u8]) -> Option<&[u8]>
    ensures { MatchOption result ((rest : List ℕ) → field.now ≡ 45 ∷ rest → ⊥)
        (λ rest. field.now ≡ 45 ∷ rest.now) }
{
    match field {
        [b'-', rest @ ..] => Some(rest),
        _ => None,
    }
}

/// The number whose one decimal spelling this field is, and None exactly where it is the spelling
/// of no number of 128 bits with a sign.
pub fn number(field: &[u8]) -> Option<i128>
    ensures { Reads result (FitsSigned w128) signed_decimal field.now }
{
    if let Some(rest) = after_minus(field) {
        let size = wide_digits(rest)?;
        if size == 0 {
            None
        } else if size == 1 << 127 {
            Some(i128::MIN)
        } else if size < 1 << 127 {
            Some(-(size as i128))
        } else {
            None
        }
    } else {
        let size = wide_digits(field)?;
        if size < 1 << 127 {
            Some(size as i128)
        } else {
            None
        }
    }
}
