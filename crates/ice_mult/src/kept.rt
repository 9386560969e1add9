//! Sweeps over bounds that are kept. Where the guess of a multiplier is right, few trees are looked
//! at.
ghost use Rattle.std.specs.Prelude.{◌≡◌, ◌<◌, ◌≤◌, ◌^◌, ℤ, pos, ◌+ℤ◌, length, false, IsTrue, IfSome};
ghost use Rattle.ice_defs.specs.Bound.{IsNetSum};
ghost use Rattle.ice_defs.specs.Sweep.{IsLive, SweepsBelow, Sweeps};
ghost use Rattle.ice_defs.specs.Trade.{is_exact};
ghost use Rattle.ice_bound.specs.Multipliers.{multiplier_of};
ghost use Rattle.ice_bound.specs.Direction.{toward};
ghost use Rattle.ice_mult.specs.Foot.{IsAllowed, Falls, Rests, IsFoot};
ghost use Rattle.ice_mult.specs.Moved.{AreAlike, IsMoved, MayMove, IsSumWith, IsSettled};

use crate::lowest::GREATEST;
use crate::moving::MovingGood;
use ice_bound::{Desk, Direction, Kept, Multipliers, NetSum, Room};

/// The sum of the greatest nets. Each bidder has a set.
fn total(kept: &Kept) -> i128
    requires { IsLive kept.now.trees kept.now.marks }
    ensures { IsNetSum kept.now.trees kept.now.weights kept.now.multipliers kept.now.marks result }
{
    match kept.net_sum() {
        NetSum::Sum(total) => total,
        NetSum::Dead(_) => unreachable!(),
    }
}

/// The next number, where there is one.
fn one_more(number: i128) -> Option<i128>
    ensures { IfSome result (λ v. v ≡ number +ℤ pos 1) }
{
    number.checked_add(1)
}

/// Whether the last step to where the good is makes the sum smaller. No step leads to 0.
fn falls(kept: &mut Kept, good: u8, direction: Direction, steps: u64) -> bool
    requires may { MayMove kept.old good }
    requires steps { steps ≤ 2 ^ 56 }
    requires there { multiplier_of kept.old.multipliers good ≡ toward direction steps }
    ensures falls { IsTrue result → Falls (IsSumWith kept.old good) direction steps }
    ensures same { kept.new ≡ kept.old }
{
    if steps == 0 {
        return true;
    }
    match one_more(total(kept)) {
        Some(more) => kept.reaches_beside(good, direction.opposite(), more),
        None => false,
    }
}

/// Whether no step on from where the good is makes the sum smaller.
fn rests(kept: &mut Kept, good: u8, direction: Direction, steps: u64) -> bool
    requires may { MayMove kept.old good }
    requires steps { steps < 2 ^ 56 }
    requires there { multiplier_of kept.old.multipliers good ≡ toward direction steps }
    ensures rests { IsTrue result → Rests (IsSumWith kept.old good) direction steps }
    ensures same { kept.new ≡ kept.old }
{
    let here = total(kept);
    kept.reaches_beside(good, direction, here)
}

/// Moves the good to so many steps from 0, and tells whether the sum is known to stop falling
/// there.
fn has_foot(kept: &mut Kept, good: u8, direction: Direction, steps: u64) -> bool
    requires may { MayMove kept.old good }
    requires allowed { IsAllowed (is_exact kept.old.exact good) direction }
    requires steps { steps < 2 ^ 56 }
    ensures foot { IsTrue result → IsFoot (IsSumWith kept.old good) direction steps }
    ensures moved { IsMoved kept.old good (toward direction steps) kept.new }
{
    kept.put_multiplier(good, direction.at(steps));
    rests(kept, good, direction, steps) && falls(kept, good, direction, steps)
}

/// Whether the good may have numbers in this direction, and so many steps are its lowest multiplier
/// where the sum stops falling there.
fn tells(exact: bool, direction: Direction, steps: u64) -> bool
    ensures allowed { IsTrue result → IsAllowed exact direction }
    ensures steps { IsTrue result → steps < 2 ^ 56 }
    ensures zero { IsTrue result → steps ≡ 0 → exact ≡ false }
{
    match direction {
        Direction::Up => steps < GREATEST && (steps > 0 || !exact),
        Direction::Down => steps < GREATEST && steps > 0 && exact,
    }
}

/// Whether the guess is known to be the good's lowest multiplier. Then the good is moved there.
fn is_settled(kept: &mut Kept, good: u8, guess: i64) -> bool
    requires may { MayMove kept.old good }
    ensures yes { IsTrue result → IsSettled kept.old good kept.new }
    ensures moved { (z : ℤ) × IsMoved kept.old good z kept.new }
{
    let direction = Direction::of(guess);
    let steps = guess.unsigned_abs();
    tells(kept.is_exact(good), direction, steps) && has_foot(kept, good, direction, steps)
}

/// Gives the good its lowest multiplier. A good guess of it saves time.
fn settle(kept: &mut Kept, good: u8, guess: i64, room: &mut Room)
    requires may { MayMove kept.old good }
    requires exact { kept.old.exact ≡ room.old }
    ensures settled { IsSettled kept.old good kept.new }
    ensures room { room.new ≡ room.old }
{
    if is_settled(kept, good, guess) {
        return;
    }
    let moving = MovingGood {
        trees: kept.trees(),
        weights: kept.weights(),
        fixings: kept.marks(),
        m: kept.multipliers(),
        good,
    };
    let number = moving.lowest(guess, room);
    kept.put_multiplier(good, number);
}

/// Gives each good in order its lowest multiplier. A good guess of the outcome saves time.
fn sweep_kept(kept: &mut Kept, guess: &Multipliers, room: &mut Room)
    requires live { IsLive kept.old.trees kept.old.marks }
    requires goods { length kept.old.multipliers ≡ length kept.old.exact }
    requires exact { kept.old.exact ≡ room.old }
    requires guess { length guess.now ≡ length kept.old.exact }
    ensures sweeps { SweepsBelow kept.old.trees kept.old.exact kept.old.weights kept.old.marks
        (length kept.old.exact) kept.old.multipliers kept.new.multipliers }
    ensures alike { AreAlike kept.old kept.new }
    ensures room { room.new ≡ room.old }
{
    for good in 0..room.goods() {
        settle(kept, good, guess.get(good), room);
    }
}

/// Moves the multipliers of kept bounds to what one
/// sweep makes of them: see `improve`. The guess of
/// the outcome changes the time alone. The desk is one of the same goods.
///
/// Time: each good's multiplier that changes moves the tables of all trees with a leaf of the good.
/// Beside that, two looks at those trees where the guess of a good is right, or fewer; where it is
/// wrong, a look for each halving of what is left of the good's range.
pub fn improve_kept(kept: &mut Kept, guess: &Multipliers, desk: &mut Desk)
    requires exact { kept.old.exact ≡ desk.old.room }
    requires guess { length guess.now ≡ length kept.old.exact }
    ensures sweeps { Sweeps kept.old.trees kept.old.exact kept.old.weights kept.old.marks
        kept.old.multipliers kept.new.multipliers }
    ensures alike { AreAlike kept.old kept.new }
    ensures marks { desk.new.marks ≡ desk.old.marks }
    ensures sides { desk.new.sides ≡ desk.old.sides }
    ensures exact { desk.new.room ≡ desk.old.room }
{
    // There is one for each good.
    let _multipliers = kept.multipliers();
    match kept.net_sum() {
        NetSum::Sum(_) => sweep_kept(kept, guess, &mut desk.room),
        NetSum::Dead(_) => {}
    }
}
