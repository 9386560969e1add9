//! The least cut that the total pays for.
ghost use Rattle.std.specs.Prelude.{◌≡◌, ◌<◌, ◌≤◌, ◌+◌, ◌*◌, ◌^◌, ◌+ℤ◌, pos, ◌≤ℤ◌, length, All};
ghost use Rattle.ice_defs.specs.Fraction.{IsFraction};
ghost use Rattle.ice_defs.specs.Cut.{IsCut};
ghost use Rattle.ice_threshold.specs.Level.{level_part, level_one, level_sum, level_count, asked_cut};
ghost use Rattle.ice_threshold.specs.Limits.{IsVickreyLimit};

use crate::ratio::{Ratio, greater};

/// The Vickrey discounts at or above a level: their sum, and how many there are.
#[derive(Clone, Copy)]
struct Level {
    sum: i128,
    count: u64,
}

impl Level {
    /// The level with one more discount, which counts where it is at least `least`.
    fn with(self, discount: i128, least: i128) -> Level
        requires limited { IsVickreyLimit discount }
        requires sum_low { pos 0 ≤ℤ self.sum }
        requires sum_high { self.sum ≤ℤ pos (10 ^ 15 * 40) }
        requires count_high { self.count ≤ 40 }
        ensures sum { result.sum ≡ self.sum +ℤ level_part least discount }
        ensures count { result.count ≡ self.count + level_one least discount }
    {
        if discount < least {
            return self;
        }
        Level {
            sum: self.sum + discount,
            count: self.count + 1,
        }
    }
}

fn at_or_above(vickrey: &[i128], least: i128) -> Level
    requires few { length vickrey.now ≤ 40 }
    requires limited { All IsVickreyLimit vickrey.now }
    ensures sum { result.sum ≡ level_sum least vickrey.now }
    ensures count { result.count ≡ level_count least vickrey.now }
    ensures sum_low { pos 0 ≤ℤ result.sum }
    ensures sum_high { result.sum ≤ℤ pos (10 ^ 15 * 40) }
    ensures count_high { result.count ≤ 40 }
{
    let mut level = Level { sum: 0, count: 0 };
    for discount in vickrey {
        level = level.with(*discount, least);
    }
    level
}

/// The cut at which the total just pays for what is left of the discounts at or above the one at
/// `at`.
fn asked(vickrey: &[i128], at: usize, total: i128) -> Ratio
    requires few { length vickrey.now ≤ 40 }
    requires limited { All IsVickreyLimit vickrey.now }
    requires within { at < length vickrey.now }
    requires total_low { pos 0 ≤ℤ total }
    requires total_high { total ≤ℤ pos (10 ^ 15 * 40) }
    ensures value { result ≡ asked_cut vickrey.now total at }
    ensures proper { IsFraction result }
{
    let level = at_or_above(vickrey, vickrey[at]);
    Ratio {
        num: level.sum - total,
        den: level.count,
    }
}

/// The least cut, no less than 0, at which the total pays for what is left of the Vickrey
/// discounts.
pub(crate) fn least_cut(vickrey: &[i128], total: i128) -> Ratio
    requires few { length vickrey.now ≤ 40 }
    requires limited { All IsVickreyLimit vickrey.now }
    requires total_low { pos 0 ≤ℤ total }
    requires total_high { total ≤ℤ pos (10 ^ 15 * 40) }
    ensures { IsCut vickrey.now total result }
{
    let mut cut = Ratio { num: 0, den: 1 };
    for at in 0..vickrey.len() {
        cut = greater(cut, asked(vickrey, at, total));
    }
    cut
}
