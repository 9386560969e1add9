//! Multipliers near the duals of sides that a search looks at.
ghost use Rattle.std.specs.Prelude.{◌≤◌, length};
ghost use Rattle.ice_defs.specs.Conditions.{AreFixingsOf};

use crate::planner::closing;
use arrayvec::ArrayVec;
use ice_best::Fixings;
use ice_bound::Multipliers;
use ice_master::{Aim, Master};
use ice_relaxation::Candidates;
use ice_tree::Tree;

/// So many steps may be worth it where they nearly close a side ..
const STEPS: u16 = 12;

/// .. with a bound by less than so many 64ths too great.
const NEARLY: i64 = 64;

/// All ways to round multipliers are tried for so many goods at most.
const FEW_GOODS: u8 = 8;

/// The greatest multiplier that is taken over, in 64ths.
const FARTHEST: i64 = 1 << 44;

/// What finds multipliers near the duals of sides.
#[derive(Drop)]
pub struct Guide {
    pub(crate) master: Box<Master>,
}

/// Multipliers near the dual of a side.
#[derive(Drop)]
pub struct Near {
    /// The multipliers, one for each good.
    pub m: Multipliers,
    /// So many steps from there may be worth it.
    pub steps: u16,
    /// Nodes to split the side at, the best first.
    pub candidates: Candidates,
}

/// The multipliers of these numbers.
fn multipliers_of(goods: u8, numbers: &[i64; 32]) -> Multipliers
    requires { goods ≤ 32 }
{
    let mut m = Multipliers::zero(goods);
    for good in 0..goods {
        let number = numbers[usize::from(good)].clamp(-FARTHEST, FARTHEST);
        if good < m.len() {
            m.put(good, number);
        }
    }
    m
}

/// The multipliers of all goods rounded down, and those of some rounded up instead: of the goods
/// whose bits the number has.
fn rounded(floors: &[i64; 32], goods: u8, ups: u16) -> [i64; 32] {
    let mut numbers = *floors;
    for good in 0..goods {
        if let Some(number) = numbers.get_mut(usize::from(good)) {
            *number = number.wrapping_add(i64::from((ups >> (good % 16)) & 1));
        }
    }
    numbers
}

/// Free nodes that the mix of the last solve has in part: the first of them, as many as a search
/// tries.
fn candidates_of(master: &Master) -> Candidates {
    let mut candidates = ArrayVec::new();
    for candidate in master.candidates().as_slice() {
        let _is_room = candidates.try_push(candidate.node);
    }
    candidates
}

impl Guide {
    /// Of all ways to round the multipliers of the dual to 64ths the one with the least bound, or
    /// the first whose bound is below this.
    fn least_rounded(&mut self, goods: u8, numbers: &[i64; 32], close: i64) -> [i64; 32] {
        let _dual = self.master.solve(Aim::DUAL);
        let floors = self.master.floors();
        let mut least = *numbers;
        let mut bound = self.master.bound_at(numbers);
        for ups in 0..1_u16 << (goods % 16) {
            let tried = rounded(&floors, goods, ups);
            let there = self.master.bound_at(&tried);
            if there < bound {
                least = tried;
                bound = there;
            }
            if bound < close {
                break;
            }
        }
        least
    }

    /// Looks at the side of these marks, and finds multipliers near its dual, or such that nothing
    /// above the value is left.
    pub fn near(&mut self, trees: &[Tree], marks: &Fixings, goods: u8, value: i128) -> Near
        requires few { length trees.now ≤ 40 }
        requires marks { AreFixingsOf trees.now marks.now }
        requires goods { goods ≤ 32 }
    {
        let _is_open = self.master.look_at(trees, marks);
        let close = closing(value);
        let dual = self.master.solve(Aim {
            close,
            keep: i64::MAX,
        });
        let candidates = candidates_of(&self.master);
        let bound = self.master.bound_at(&dual.multipliers);
        let is_near = bound >= close && bound.wrapping_sub(close) < NEARLY;
        let mut numbers = dual.multipliers;
        if is_near && goods <= FEW_GOODS {
            numbers = self.least_rounded(goods, &numbers, close);
        }
        Near {
            m: multipliers_of(goods, &numbers),
            steps: if is_near { STEPS } else { 1 },
            candidates,
        }
    }
}
