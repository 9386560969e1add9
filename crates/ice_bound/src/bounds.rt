//! The bound of a side.
ghost use Rattle.std.specs.Prelude.{◌≡◌, ◌≤◌, length, IfOk, IfErr, pos, ◌+ℤ◌, ◌*ℤ◌, ◌≤ℤ◌, ◌<ℤ◌};
ghost use Rattle.ice_defs.specs.Bound.{IsNetSum};
ghost use Rattle.ice_bound.specs.Answer.{IsFirstDead, IsAnswer, IsAboveAll};
ghost use Rattle.ice_defs.specs.Conditions.{AreWeightsOf, AreFixingsOf, AreMultipliersOf};

use crate::answer::Bound;
use crate::desk::Desk;
use crate::multipliers::Multipliers;
use crate::room::Room;
use ice_best::Fixings;
use ice_tree::{AllWeights, Tree};

/// The floor of a 64th.
pub fn floor_64th(total: i128) -> i128
    ensures low { (pos 64 *ℤ result) ≤ℤ total }
    ensures high { total <ℤ (pos 64 *ℤ result +ℤ pos 64) }
{
    total.div_euclid(64)
}

impl Room {
    /// T, the sum over the bidders of the greatest net of a satisfied set that meets the fixing, in
    /// 64ths. Where a bidder has no such set, the first such bidder is the error.
    pub fn total(
        &mut self,
        trees: &[Tree],
        weights: &AllWeights,
        m: &Multipliers,
        fixings: &Fixings,
    ) -> Result<i128, u8>
        requires few { length trees.now ≤ 40 }
        requires weights { AreWeightsOf trees.now weights.now }
        requires fixings { AreFixingsOf trees.now fixings.now }
        ensures sum { IfOk result (IsNetSum trees.now weights.now m.now fixings.now) }
        ensures dead { IfErr result (IsFirstDead trees.now fixings.now) }
        ensures exact { self.new ≡ self.old }
    {
        let mut total: i128 = 0;
        for bidder in 0..trees.len() as u8 {
            let tree = &trees[bidder as usize];
            match self.greatest_net(tree, weights.of(bidder), m, fixings.of(bidder)) {
                Some(net) => total += net,
                None => return Err(bidder),
            }
        }
        Ok(total)
    }

    /// The bound at the fixings. See `bound`.
    pub fn bound(
        &mut self,
        trees: &[Tree],
        weights: &AllWeights,
        m: &Multipliers,
        fixings: &Fixings,
    ) -> Bound
        requires few { length trees.now ≤ 40 }
        requires weights { AreWeightsOf trees.now weights.now }
        requires multipliers { AreMultipliersOf self.old m.now }
        requires fixings { AreFixingsOf trees.now fixings.now }
        ensures answer { IsAnswer trees.now weights.now m.now fixings.now result }
        ensures above { IsAboveAll trees.now self.old weights.now fixings.now result }
        ensures exact { self.new ≡ self.old }
    {
        match self.total(trees, weights, m, fixings) {
            Ok(total) => Bound::AtMost(floor_64th(total)),
            Err(bidder) => Bound::Dead(bidder),
        }
    }
}

/// The bound at the fixings: `Dead` with the first bidder that has no satisfied set that meets its
/// fixing, and where there is no such bidder `AtMost` the floor of T / 64. Here T is the sum over
/// the bidders of the greatest net, which is 64 times the value of a set less the multipliers times
/// its units, over the satisfied sets that meet the fixing.
///
/// No feasible assignment that meets the fixings is worth more than an `AtMost`, and after `Dead`
/// there is none.
///
/// There are at most 40 trees. Each weight is at most 100,000,000,000 in size, and no multiplier of
/// a good that isn't exact is negative. Takes no memory. Time: one pass over each tree.
pub fn bound(
    trees: &[Tree],
    weights: &AllWeights,
    m: &Multipliers,
    fixings: &Fixings,
    desk: &mut Desk,
) -> Bound
    requires few { length trees.now ≤ 40 }
    requires weights { AreWeightsOf trees.now weights.now }
    requires multipliers { AreMultipliersOf desk.old.room m.now }
    requires fixings { AreFixingsOf trees.now fixings.now }
    // What the bound says.
    ensures answer { IsAnswer trees.now weights.now m.now fixings.now result }
    ensures above { IsAboveAll trees.now desk.old.room weights.now fixings.now result }
    // The desk is seen as before.
    ensures marks { desk.new.marks ≡ desk.old.marks }
    ensures sides { desk.new.sides ≡ desk.old.sides }
    ensures exact { desk.new.room ≡ desk.old.room }
{
    desk.room.bound(trees, weights, m, fixings)
}

/// `bound` at the fixings `desk.marks`. Changes neither public list of the desk, and takes no
/// memory.
pub fn bound_here(trees: &[Tree], weights: &AllWeights, m: &Multipliers, desk: &mut Desk) -> Bound
    requires few { length trees.now ≤ 40 }
    requires weights { AreWeightsOf trees.now weights.now }
    requires multipliers { AreMultipliersOf desk.old.room m.now }
    requires fixings { AreFixingsOf trees.now desk.old.marks }
    // What the bound says.
    ensures answer { IsAnswer trees.now weights.now m.now desk.old.marks result }
    ensures above { IsAboveAll trees.now desk.old.room weights.now desk.old.marks result }
    // The desk is seen as before.
    ensures marks { desk.new.marks ≡ desk.old.marks }
    ensures sides { desk.new.sides ≡ desk.old.sides }
    ensures exact { desk.new.room ≡ desk.old.room }
{
    desk.room.bound(trees, weights, m, &desk.marks)
}
