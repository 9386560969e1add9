//! The level that the steps aim at.

/// So many looks without a real fall are waited for before the level is raised.
const PATIENCE: u8 = 8;

/// A fall is a real one where it is more than this part of the way to the level.
const REAL_FALL: i128 = 16;

/// The level is aimed at so far below the sum that closes the side: aimed at that sum itself, sides
/// stay one 64th above it.
const AIM: i128 = 64;

/// Where the level is nearer than this to the least sum, in 64ths, the steps end: less would hardly
/// lower a bound.
const NEAREST: i128 = 16;

/// No step is reckoned from a gap above this.
const WIDEST: i128 = 1 << 56;

/// How far the steps aim below the least sum.
#[derive(Drop)]
pub(crate) struct Level {
    depth: i128,
    waited: u8,
}

impl Level {
    /// No level yet: it is deeper than any, and the first aim raises it.
    pub(crate) fn new() -> Level {
        Level {
            depth: WIDEST,
            waited: 0,
        }
    }

    /// Aims at most a little below the sum that closes the side. False where the least sum closes
    /// it, or is too near.
    pub(crate) fn aim(&mut self, least: i128, value: i128) -> bool {
        let closing = value.saturating_mul(64).saturating_add(63);
        self.depth = self
            .depth
            .min(least.saturating_sub(closing).saturating_add(AIM));
        closing < least && NEAREST <= self.depth
    }

    /// The rate of a step from a sum toward the level, for a direction of this square, in 2^30ths
    /// of a part. No direction has the rate 0.
    pub(crate) fn rate(&self, total: i128, least: i128, square: i128) -> i128 {
        let gap = total.saturating_sub(least).saturating_add(self.depth);
        let reach = gap.clamp(0, WIDEST) * (1 << 40);
        reach.checked_div(square).unwrap_or(0)
    }

    /// Takes notice of a sum that is so far below the least one before. False where the level has
    /// to be raised.
    pub(crate) fn watch(&mut self, fall: i128) -> bool {
        if fall > self.depth / REAL_FALL {
            self.waited = 0;
        } else {
            self.waited = self.waited.saturating_add(1);
        }
        self.waited < PATIENCE
    }

    /// Raises the level half the way.
    pub(crate) fn raise(&mut self) {
        self.waited = 0;
        self.depth /= 2;
    }
}
