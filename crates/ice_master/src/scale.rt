//! Whole numbers that stand for fractions: how fine they are, and how they are multiplied.

/// One, in the parts of 2^-40 in which shares of sets and the inverse of a basis are kept.
pub const ONE: i64 = 1 << 40;

/// The least pivot in size: one part in 2^26.
pub const LEAST_PIVOT: i64 = 1 << 14;

/// Greatest weights have so many bits in an amount.
const BITS: u32 = 38;

/// A gain of an amount up to this counts as none: 2^-26 of the greatest weight.
pub const NO_GAIN: i64 = 1 << 12;

/// The amount that a unit costs which is lacking: eight times the greatest weight or more.
pub const LACK: i64 = 1 << 41;

/// The amount that a set costs which breaks the marks of its tree.
pub(crate) const BREACH: i64 = 1 << 48;

/// How fine amounts are: in parts of 2^-shift, so that the greatest weight has 38 bits.
#[derive(Clone, Copy)]
pub struct Scale {
    shift: u32,
}

/// The number itself, or the limit that it passes.
pub fn clamped(number: i128) -> i64 {
    let most = 1 << 62;
    number.clamp(-most, most) as i64
}

/// The product of two numbers.
pub fn product(one: i64, other: i64) -> i128 {
    i128::from(one).wrapping_mul(i128::from(other))
}

/// What is left of a product where one factor was in parts of 2^-40.
pub fn rounded(product: i128) -> i64 {
    clamped(product.wrapping_add(1 << 39) >> 40)
}

impl Scale {
    /// That for weights of at most this size.
    pub(crate) fn of(greatest: u128) -> Scale {
        let length = 128_u32.saturating_sub(greatest.leading_zeros());
        Scale {
            shift: BITS.saturating_sub(length),
        }
    }

    /// The amount of a weight.
    pub(crate) fn amount(self, weight: i128) -> i64 {
        clamped(weight.wrapping_shl(self.shift))
    }

    /// The least amount of so many 64ths.
    pub fn of_64ths(self, number: i64) -> i64 {
        clamped(i128::from(number).wrapping_shl(self.shift) >> 6)
    }

    /// The number of 64ths that is nearest to an amount.
    pub(crate) fn nearest_64ths(self, amount: i64) -> i64 {
        let half = 1_i128.wrapping_shl(self.shift) >> 1;
        self.whole_64ths(amount, half)
    }

    /// The greatest number of 64ths that doesn't pass an amount.
    pub(crate) fn floor_64ths(self, amount: i64) -> i64 {
        self.whole_64ths(amount, 0)
    }

    /// The least number of 64ths that an amount doesn't pass.
    pub(crate) fn covering_64ths(self, amount: i64) -> i64 {
        let rest = 1_i128.wrapping_shl(self.shift).wrapping_sub(1);
        self.whole_64ths(amount, rest)
    }

    /// The least amount of so many 4096ths.
    pub fn of_4096ths(self, number: i64) -> i64 {
        self.of_64ths(number) >> 6
    }

    /// The number of 4096ths that is nearest to an amount, which is less than 2^56.
    pub fn nearest_4096ths(self, amount: i64) -> i64 {
        self.nearest_64ths(amount.wrapping_mul(64))
    }

    /// The least number of 4096ths that such an amount doesn't pass.
    pub fn covering_4096ths(self, amount: i64) -> i64 {
        self.covering_64ths(amount.wrapping_mul(64))
    }

    /// So many whole 64ths are in an amount and this part of one.
    fn whole_64ths(self, amount: i64, part: i128) -> i64 {
        let parts = product(amount, 64).wrapping_add(part);
        clamped(parts.wrapping_shr(self.shift))
    }
}
