//! Fractions in lowest terms, read.
ghost use Rattle.std.specs.Prelude.{◌≡◌, ◌++◌, ◌∷◌, IsTrue, ◌↔◌, MatchOption, Contains, option_map};
ghost use Rattle.std.specs.Int.{IsGcd};
ghost use Rattle.ice_journal.specs.Reading.{Finds};
ghost use Rattle.ice_journal.specs.Ranges.{IsFractionField};
ghost use Rattle.ice_journal.specs.Spelling.{fraction_text};
ghost use Rattle.ice_journal.specs.Lines.{fraction_of};

use crate::line::LowestFraction;
use ice_line::{integer, natural};

/// What stands before the first slash, and what comes after it.
fn split_at_slash(field: &[u8]) -> Option<(&[u8], &[u8])>
    ensures { MatchOption result (¬ Contains field.now 47) (λ parts. (field.now ≡ parts.0.now ++ 47 ∷ parts.1.now) × ¬ Contains parts.0.now 47) }
{
    for (i, byte) in field.iter().enumerate() {
        if *byte == b'/' {
            return Some((&field[..i], &field[i + 1..]));
        }
    }
    None
}

/// No number above 1 divides both.
fn are_coprime(a: u64, b: u64) -> bool
    ensures { IsTrue result ↔ IsGcd a b 1 }
{
    let mut high = a;
    let mut low = b;
    while low > 0 {
        let rest = high % low;
        high = low;
        low = rest;
    }
    high == 1
}

/// A fraction in lowest terms.
pub fn lowest_fraction(field: &[u8]) -> Option<LowestFraction>
    ensures { Finds (option_map fraction_of result) IsFractionField fraction_text field.now }
{
    let (left, right) = split_at_slash(field)?;
    let num = integer(left, -1_000_000_000_000_000_000, 1_000_000_000_000_000_000)?;
    let den = natural(right, 1, 1000)?;
    if are_coprime(num.unsigned_abs(), den) {
        Some(LowestFraction {
            num,
            den: den as u16,
        })
    } else {
        None
    }
}
