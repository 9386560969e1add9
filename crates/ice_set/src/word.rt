//! Words of 64 bits, and the bits of one word.
ghost use Rattle.std.specs.Prelude.{◌≡◌, ◌≢◌, ℕ, ◌<◌, nat_eq};
ghost use Rattle.std.specs.Int.{bit_at};

/// Whether the bit of this number is set, counted from the lowest.
pub fn bit(word: u64, number: u16) -> bool
    requires { number < 64 }
    ensures { result ≡ nat_eq (bit_at word number) 1 }
{
    (word >> number) & 1 == 1
}

/// The word with its bit of this number put.
pub fn with_bit(word: u64, number: u16, on: bool) -> u64
    requires { number < 64 }
    ensures same { nat_eq (bit_at result number) 1 ≡ on }
    ensures other { (i : ℕ) → i < 64 → i ≢ number → bit_at result i ≡ bit_at word i }
{
    let mask = 1u64 << number;
    if on { word | mask } else { word & !mask }
}
