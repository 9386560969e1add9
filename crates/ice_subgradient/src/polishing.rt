//! Multipliers at which the sum of the greatest nets is small.
ghost use Rattle.std.specs.Prelude.{◌≡◌, ◌^◌, length, false, pos, neg_ℤ, ◌≤ℤ◌, ◌<ℤ◌};
ghost use Rattle.ice_defs.specs.Bound.{IsNetSum};
ghost use Rattle.ice_defs.specs.Sweep.{IsLive};
ghost use Rattle.ice_defs.specs.Trade.{total_value};
ghost use Rattle.ice_defs.specs.Conditions.{AreMultipliersOf};
ghost use Rattle.ice_bound.specs.Kept.{Standing};
ghost use Rattle.ice_subgradient.specs.Offers.{AreCovered, IsOffered};
ghost use Rattle.ice_subgradient.specs.Polished.{IsSameSide, IsPolished};

use crate::course::{FARTHEST, Goods};
use crate::descent::Descent;
use crate::incumbent::Incumbent;
use crate::trace::Trace;
use ice_bound::{Kept, Multipliers, NetSum};
use ice_relaxation::Relaxation;

/// Multipliers, and the sum of the bidders' greatest nets at them, in 64ths.
#[derive(Drop)]
pub struct Evaluated {
    /// The multipliers, one for each good.
    pub m: Multipliers,
    /// The sum, in 64ths.
    pub total: i128,
}

impl Evaluated {
    /// Takes over multipliers at which the sum is less.
    fn lower(&mut self, m: &Multipliers, total: i128)
        ensures less { total <ℤ self.old.total → self.new ≡ record { m = m.now; total = total } }
        ensures else_same { self.old.total ≤ℤ total → self.new ≡ self.old }
    {
        if total < self.total {
            self.m = m.copy();
            self.total = total;
        }
    }
}

/// A number that the multiplier of a good may have: near to this one, and 0 or more unless the good
/// is exact.
fn allowed(number: i64, exact: bool) -> i64
    ensures low { neg_ℤ (pos (2 ^ 44)) ≤ℤ result }
    ensures high { result ≤ℤ pos (2 ^ 44) }
    ensures sign { exact ≡ false → pos 0 ≤ℤ result }
{
    let least = if exact { -FARTHEST } else { 0 };
    number.clamp(least, FARTHEST)
}

/// The multipliers of these numbers.
pub(crate) fn multipliers_of(kept: &Kept<'_>, numbers: &[i64; 32]) -> Multipliers
    ensures { AreMultipliersOf kept.now.exact result }
{
    let mut m = kept.multipliers().copy();
    for good in 0..m.len() {
        let number = allowed(numbers[good as usize], kept.is_exact(good));
        m.put(good, number);
    }
    m
}

/// The numbers of the multipliers.
pub(crate) fn numbers_of(m: &Multipliers) -> [i64; 32] {
    let mut numbers = [0; 32];
    for good in 0..m.len() {
        numbers[good as usize] = m.get(good);
    }
    numbers
}

/// Which goods are exact.
pub(crate) fn goods_of(kept: &Kept<'_>) -> Goods {
    let count = kept.multipliers().len();
    let mut exact = [false; 32];
    for good in 0..count {
        exact[good as usize] = kept.is_exact(good);
    }
    Goods { count, exact }
}

/// Looks at what is kept: the relaxed sets are offered to the incumbent. The answer is the sum of
/// the greatest nets.
fn look(kept: &Kept<'_>, incumbent: &mut Incumbent) -> i128
    requires live { IsLive kept.now.trees kept.now.marks }
    requires sets { length incumbent.old.sets ≡ length kept.now.trees }
    ensures sum { IsNetSum kept.now.trees kept.now.weights kept.now.multipliers kept.now.marks
        result }
    ensures offered { IsOffered kept.now.trees kept.now.exact kept.now.weights kept.now.marks
        incumbent.old incumbent.new }
    ensures first { AreCovered kept.now → total_value kept.now.sets kept.now.weights ≤ℤ
        incumbent.new.value }
    ensures sets { length incumbent.new.sets ≡ length kept.now.trees }
{
    incumbent.offer(kept);
    match kept.net_sum() {
        NetSum::Sum(total) => total,
        NetSum::Dead(_) => unreachable!(),
    }
}

/// The least sum so far, which is that of the multipliers that are kept.
fn begin(kept: &Kept<'_>, incumbent: &mut Incumbent) -> Evaluated
    requires live { IsLive kept.now.trees kept.now.marks }
    requires sets { length incumbent.old.sets ≡ length kept.now.trees }
    ensures { IsPolished kept.now incumbent.old incumbent.new result }
{
    let total = look(kept, incumbent);
    Evaluated {
        m: kept.multipliers().copy(),
        total,
    }
}

/// Looks at the multipliers of these numbers too.
fn go_on(kept: &mut Kept<'_>, incumbent: &mut Incumbent, least: &mut Evaluated, numbers: &[i64; 32])
    requires live { IsLive kept.old.trees kept.old.marks }
    requires sets { length incumbent.old.sets ≡ length kept.old.trees }
    ensures side { IsSameSide kept.old kept.new }
    ensures polished { (start : Standing) (before : Incumbent) → IsSameSide start kept.old
        → IsPolished start before incumbent.old least.old
        → IsPolished start before incumbent.new least.new }
    ensures sets { length incumbent.new.sets ≡ length kept.new.trees }
{
    let m = multipliers_of(kept, numbers);
    kept.put_multipliers(&m);
    let total = look(kept, incumbent);
    least.lower(&m, total);
}

/// Looks for multipliers at which the sum of the greatest nets is small, from these on and in at
/// most so many steps. Where the relaxation shows a feasible assignment that is worth more than the
/// incumbent, it is offered, and so are the relaxed sets at the multipliers that are kept. The
/// answer is the least sum that was looked at, with its multipliers, and no more than the sum at
/// those that were kept; what multipliers are kept afterwards does not matter.
///
/// Every bidder has a satisfied set that meets its fixing, and the relaxation should be that of the
/// same side: how small the sum gets rests on it, and nothing else does. Takes no memory. Time:
/// each step works out the relaxation once; the beginning, the end and each assignment that comes
/// up take one pass over each tree.
pub fn polish(
    kept: &mut Kept<'_>,
    incumbent: &mut Incumbent,
    relaxation: &mut Relaxation,
    from: &Multipliers,
    steps: u16,
) -> Evaluated
    requires live { IsLive kept.old.trees kept.old.marks }
    requires sets { length incumbent.old.sets ≡ length kept.old.trees }
    requires relaxation { relaxation.old ≡ length kept.old.trees }
    ensures side { IsSameSide kept.old kept.new }
    ensures polished { IsPolished kept.old incumbent.old incumbent.new result }
    ensures relaxation { relaxation.new ≡ relaxation.old }
{
    relaxation.clear();
    let mut least = begin(kept, incumbent);
    let mut descent = Descent::from(goods_of(kept), &numbers_of(from), relaxation, steps);
    for _look in 0..steps {
        if descent.is_over() {
            break;
        }
        descent.go(relaxation, incumbent.value);
        go_on(kept, incumbent, &mut least, descent.sought());
    }
    least
}

/// What `polish` does, where a trial has taken the steps: looks where it looked. What multipliers
/// are kept afterwards does not matter. Takes no memory. Time: one pass over each tree at the
/// beginning and for each look.
pub fn repeat(kept: &mut Kept<'_>, incumbent: &mut Incumbent, trace: &Trace) -> Evaluated
    requires live { IsLive kept.old.trees kept.old.marks }
    requires sets { length incumbent.old.sets ≡ length kept.old.trees }
    ensures side { IsSameSide kept.old kept.new }
    ensures polished { IsPolished kept.old incumbent.old incumbent.new result }
{
    let mut least = begin(kept, incumbent);
    for numbers in trace.looks() {
        go_on(kept, incumbent, &mut least, numbers);
    }
    least
}
