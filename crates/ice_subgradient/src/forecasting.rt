//! What a sweep will make of zeros, as far as the relaxation shows.
ghost use Rattle.std.specs.Prelude.{◌≡◌};
ghost use Rattle.ice_defs.specs.Conditions.{AreMultipliersOf};

use crate::course::FARTHEST;
use crate::polishing::{goods_of, multipliers_of, numbers_of};
use ice_bound::{Kept, Multipliers};
use ice_relaxation::{Profile, Relaxation};

/// No fall is followed in fewer steps than this at first.
const FIRST_REACH: i64 = 64;

/// So many steps, each twice as far as the last, lead past the farthest multiplier.
const MOST_STRIDES: u8 = 50;

/// So many crossings of two tangents are followed at most.
const MOST_CROSSINGS: u8 = 100;

/// The sum at a multiplier, and how much more it is at the next one.
#[derive(Clone, Copy)]
struct Slope {
    at: i64,
    sum: i128,
    rise: i128,
}

/// Where two tangents of a convex line cross, between two places with another one between them.
fn crossing(low: Slope, high: Slope) -> i64 {
    let bend = high.rise.wrapping_sub(low.rise);
    let low_part = low
        .sum
        .wrapping_sub(low.rise.wrapping_mul(i128::from(low.at)));
    let high_part = high
        .sum
        .wrapping_sub(high.rise.wrapping_mul(i128::from(high.at)));
    let gap = low_part.wrapping_sub(high_part).wrapping_add(bend);
    let whole = gap.wrapping_sub(1).checked_div(bend).unwrap_or(0);
    let least = i128::from(low.at).wrapping_add(1);
    let most = i128::from(high.at).wrapping_sub(1);
    whole.max(least).min(most).clamp(0, i128::from(FARTHEST)) as i64
}

/// The sum at so many steps from 0 in a direction, and its rise.
fn slope_at(relaxation: &mut Relaxation, profile: &mut Profile, direction: i64, at: i64) -> Slope
    ensures { relaxation.new ≡ relaxation.old }
{
    let next = direction.wrapping_mul(at.wrapping_add(1));
    let after = relaxation.sum_at(profile, next);
    let sum = relaxation.sum_at(profile, direction.wrapping_mul(at));
    Slope {
        at,
        sum,
        rise: after.wrapping_sub(sum),
    }
}

/// Whether the sum falls to this multiplier, which isn't 0, and no farther.
fn is_least(relaxation: &mut Relaxation, profile: &mut Profile, number: i64) -> bool
    ensures { relaxation.new ≡ relaxation.old }
{
    let step = number.signum();
    if step == 0 {
        return false;
    }
    let before = relaxation.sum_at(profile, number.wrapping_sub(step));
    let after = relaxation.sum_at(profile, number.wrapping_add(step));
    let here = relaxation.sum_at(profile, number);
    before > here && after >= here
}

/// The steps from 0 in a direction after which the sum falls no more. They are few where the guess
/// is near.
fn foot(relaxation: &mut Relaxation, profile: &mut Profile, direction: i64, guess: i64) -> i64
    ensures { relaxation.new ≡ relaxation.old }
{
    let mut low = slope_at(relaxation, profile, direction, 0);
    if low.rise >= 0 {
        return 0;
    }
    let mut high = slope_at(relaxation, profile, direction, guess.max(FIRST_REACH));
    for _stride in 0..MOST_STRIDES {
        if high.rise >= 0 || high.at >= FARTHEST {
            break;
        }
        low = high;
        let at = high.at.wrapping_mul(2).min(FARTHEST);
        high = slope_at(relaxation, profile, direction, at);
    }
    for _crossing in 0..MOST_CROSSINGS {
        if high.at.wrapping_sub(low.at) <= 1 {
            break;
        }
        let here = slope_at(relaxation, profile, direction, crossing(low, high));
        if here.rise < 0 {
            low = here;
        } else {
            high = here;
        }
    }
    high.at
}

/// The multiplier of the good that makes the sum least, and of several the one nearest to 0.
fn lowest(relaxation: &mut Relaxation, profile: &mut Profile, exact: bool, guess: i64) -> i64
    ensures { relaxation.new ≡ relaxation.old }
{
    if is_least(relaxation, profile, guess) {
        return guess;
    }
    let up = foot(relaxation, profile, 1, guess);
    if up > 0 || !exact {
        return up;
    }
    foot(relaxation, profile, -1, guess.wrapping_neg()).wrapping_neg()
}

/// What a sweep will make of zeros, as far as the relaxation shows, in short time where it is near
/// to the guess. Takes no memory. Time: some times working out the relaxation of those trees that
/// have the good, for each good.
pub fn forecast(relaxation: &mut Relaxation, kept: &Kept<'_>, guess: &Multipliers) -> Multipliers
    ensures multipliers { AreMultipliersOf kept.now.exact result }
    ensures relaxation { relaxation.new ≡ relaxation.old }
{
    let goods = goods_of(kept);
    let guess = numbers_of(guess);
    let mut profile = Profile::new();
    relaxation.stand_at(&profile);
    for good in 0..goods.count {
        let place = usize::from(good % 32);
        let near = guess[place].clamp(-FARTHEST, FARTHEST);
        relaxation.fill_profile(&mut profile, good);
        let number = lowest(relaxation, &mut profile, goods.exact[place], near);
        relaxation.leave_at(&mut profile, number);
    }
    multipliers_of(kept, profile.multipliers())
}
