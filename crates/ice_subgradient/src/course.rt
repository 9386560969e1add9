//! The course of the steps: where the multipliers are, and in which direction they move.
ghost use Rattle.std.specs.Prelude.{◌<◌};

/// Steps are counted in so many parts of a 64th, so that small ones aren't lost in rounding.
const PARTS: i64 = 64;

/// The greatest size of a multiplier after a step, in 64ths. No price of a unit comes near it, and
/// all that is worked out from it stays far from the limits of its type.
pub(crate) const FARTHEST: i64 = 1 << 44;

/// A step follows the excess with this weight ..
const EXCESS_WEIGHT: i64 = 16;

/// .. and goes on along the last direction with this one, in 16ths: most of the way, since the
/// excess jumps to and fro.
const MOMENTUM: i64 = 12;

/// No direction goes farther than this in a good, so that its square can be added up.
const STEEPEST: i64 = 1 << 28;

/// Which goods are exact.
#[derive(Clone, Copy)]
pub(crate) struct Goods {
    pub(crate) count: u8,
    pub(crate) exact: [bool; 32],
}

impl Goods {
    /// How many there are: no more than 32.
    pub(crate) fn len(&self) -> usize
        ensures { result < 33 }
    {
        usize::from(self.count).min(32)
    }
}

/// Where the multipliers are, and in which direction they move.
#[derive(Clone, Copy)]
pub(crate) struct Course {
    /// The multipliers, each the nearest to its finer one.
    pub(crate) m: [i64; 32],
    /// The multipliers, counted in parts of a 64th.
    fine: [i64; 32],
    /// How far a unit of length goes in each good.
    direction: [i64; 32],
}

/// What a turn gives.
#[derive(Clone, Copy)]
pub(crate) struct Turn {
    /// No good has an excess that its multiplier could move against: no multipliers make the sum
    /// less.
    pub(crate) is_least: bool,
    /// The square of the length of the direction.
    pub(crate) square: i128,
}

/// A push on a multiplier, which no push takes below 0 unless its good is exact.
fn held(push: i64, at: i64, exact: bool) -> i64 {
    if at <= 0 && !exact { push.max(0) } else { push }
}

/// The direction after one more excess: mostly the last one.
fn turned(excess: i64, last: i64) -> i64 {
    let push = excess.wrapping_mul(EXCESS_WEIGHT);
    let kept = last.wrapping_mul(MOMENTUM) / 16;
    push.wrapping_add(kept).clamp(-STEEPEST, STEEPEST)
}

/// A finer multiplier after a step. That of a good that isn't exact stops at 0.
fn moved(fine: i64, step: i128, exact: bool) -> i64 {
    let most = i128::from(FARTHEST * PARTS);
    let least = if exact { -most } else { 0 };
    i128::from(fine).wrapping_add(step).clamp(least, most) as i64
}

/// The multiplier nearest to a finer one.
fn rounded(fine: i64) -> i64 {
    fine.wrapping_add(PARTS / 2) >> 6
}

/// How far a direction goes at this rate, which is counted in 2^30ths of a part.
fn stride(rate: i128, direction: i64) -> i128 {
    rate.wrapping_mul(i128::from(direction)) >> 30
}

impl Course {
    /// At these multipliers, with no direction yet.
    pub(crate) fn at(m: &[i64; 32]) -> Course {
        let mut fine = [0; 32];
        for good in 0..32 {
            fine[good] = m[good].wrapping_mul(PARTS);
        }
        Course {
            m: *m,
            fine,
            direction: [0; 32],
        }
    }

    /// Turns the direction toward the excess of each good. A multiplier that can't fall isn't
    /// pushed down.
    pub(crate) fn turn(&mut self, goods: &Goods, excess: &[i64; 32]) -> Turn {
        let mut turn = Turn {
            is_least: true,
            square: 0,
        };
        for good in 0..goods.len() {
            let exact = goods.exact[good];
            let push = held(excess[good], self.m[good], exact);
            let next = turned(push, self.direction[good]);
            let next = held(next, self.fine[good], exact);
            self.direction[good] = next;
            turn.is_least = turn.is_least && push == 0;
            turn.square = turn
                .square
                .wrapping_add(i128::from(next.wrapping_mul(next)));
        }
        turn
    }

    /// Moves the multipliers along the direction, at this rate.
    pub(crate) fn step(&mut self, goods: &Goods, rate: i128) {
        for good in 0..goods.len() {
            let step = stride(rate, self.direction[good]);
            let next = moved(self.fine[good], step, goods.exact[good]);
            self.fine[good] = next;
            self.m[good] = rounded(next);
        }
    }
}
