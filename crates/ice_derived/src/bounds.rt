//! The bound of a side with derived goods.
ghost use Rattle.std.specs.Prelude.{◌≡◌, ◌≤◌, ◌<◌, ◌*◌, ◌^◌, length, IfOk, IfErr, IfSome, IfNone, pos, neg_ℤ, ◌+ℤ◌, ◌*ℤ◌, ◌≤ℤ◌, ◌<ℤ◌};
ghost use Rattle.ice_defs.specs.Set.{NodeSet as Nodes};
ghost use Rattle.ice_defs.specs.Trade.{weights_of};
ghost use Rattle.ice_defs.specs.Bound.{IsOpen};
ghost use Rattle.ice_defs.specs.Greatest.{IsGreatest};
ghost use Rattle.ice_defs.specs.Conditions.{AreModest, AreWeightsOf, AreFixingsOf};
ghost use Rattle.ice_bound.specs.Answer.{IsFirstDead};
ghost use Rattle.ice_defs.specs.Derived.{IsNetSumWith};
ghost use Rattle.ice_refute.specs.Waiting.{nodes_of};
ghost use Rattle.ice_derived.specs.Charges.{AreCharges};
ghost use Rattle.ice_derived.specs.Nets.{net_less};
ghost use Rattle.ice_derived.specs.Weighing.{weights_in};
ghost use Rattle.ice_derived.specs.Answer.{IsAnswerWith};

use crate::amounts::Amounts;
use crate::goods::DerivedGoods;
use crate::nets::nets_with;
use crate::rates::Rates;
use ice_best::{Fixing, Fixings, Scratch, Table};
use ice_bound::Bound;
use ice_tree::{AllWeights, Tree, Weights};

/// What sets are weighed by: the weights of a group, or the amounts of a derivation.
#[derive(Clone, Copy)]
pub enum Weighing<'a> {
    Group(&'a AllWeights),
    Derivation(&'a Amounts),
}

impl Weighing<'_> {
    /// The weights of the bidder's tree.
    fn of(&self, bidder: u8) -> &Weights
        requires { bidder < length (weights_in self.now) }
        ensures { result.now ≡ weights_of (weights_in self.now) bidder }
    {
        match self {
            Weighing::Group(weights) => weights.of(bidder),
            Weighing::Derivation(amounts) => amounts.of(bidder),
        }
    }
}

/// The floor of a 4096th.
fn floor_4096th(total: i128) -> i128
    ensures low { (pos 4096 *ℤ result) ≤ℤ total }
    ensures high { total <ℤ (pos 4096 *ℤ result +ℤ pos 4096) }
{
    total.div_euclid(4096)
}

/// The room that bounds with derived goods are worked out in. It takes no memory, and what it holds
/// between two calls does not matter.
#[derive(Drop)]
pub struct TollRoom {
    table: Table,
    scratch: Scratch,
}

impl TollRoom {
    /// Room for any tree.
    pub fn new() -> TollRoom {
        TollRoom {
            table: Table::new(),
            scratch: Scratch::new(),
        }
    }

    /// The greatest net, less its charges, of a satisfied set that meets the fixing, in 4096ths,
    /// and None where there is no such set.
    fn greatest_net(
        &mut self,
        tree: &Tree,
        weights: &Weights,
        m: &Rates,
        charges: &Weights,
        fixing: &Fixing,
    ) -> Option<i128>
        requires nodes { length weights.now ≡ length tree.now }
        requires fixing { length fixing.now ≡ length tree.now }
        requires modest { AreModest weights.now }
        requires charges { length charges.now ≡ length tree.now }
        requires range { AreCharges charges.now }
        ensures greatest { IfSome result (IsGreatest (IsOpen tree.now fixing.now)
            (net_less tree.now weights.now m.now charges.now)) }
        ensures low { IfSome result (λ v. neg_ℤ (pos (200 * 2 ^ 94)) ≤ℤ v) }
        ensures high { IfSome result (λ v. v ≤ℤ pos (200 * 2 ^ 94)) }
        ensures none { IfNone result ((s : Nodes) → IsOpen tree.now fixing.now s → ⊥) }
    {
        let nets = nets_with(tree, weights, m, charges);
        self.table.fill(tree, &nets, fixing, &mut self.scratch);
        self.table.greatest()
    }

    /// T, the sum over the bidders of the greatest net, less its tolls, of a satisfied set that
    /// meets the fixing, in 4096ths. Where a bidder has no such set, the first such bidder is the
    /// error.
    fn total(
        &mut self,
        trees: &[Tree],
        weights: &Weighing,
        m: &Rates,
        derived: &DerivedGoods,
        fixings: &Fixings,
    ) -> Result<i128, u8>
        requires few { length trees.now ≤ 40 }
        requires weights { AreWeightsOf trees.now (weights_in weights.now) }
        requires derived { derived.now.nodes ≡ nodes_of trees.now }
        requires fixings { AreFixingsOf trees.now fixings.now }
        ensures sum { IfOk result (IsNetSumWith derived.now.goods derived.now.tolls trees.now
            (weights_in weights.now) m.now fixings.now) }
        ensures low { IfOk result (λ v. neg_ℤ (pos (40 * (200 * 2 ^ 94))) ≤ℤ v) }
        ensures high { IfOk result (λ v. v ≤ℤ pos (40 * (200 * 2 ^ 94))) }
        ensures dead { IfErr result (IsFirstDead trees.now fixings.now) }
    {
        let mut total: i128 = 0;
        for bidder in 0..trees.len() as u8 {
            let tree = &trees[bidder as usize];
            let weight = weights.of(bidder);
            let charges = derived.charges(bidder);
            let fixing = fixings.of(bidder);
            match self.greatest_net(tree, weight, m, charges, fixing) {
                Some(net) => total += net,
                None => return Err(bidder),
            }
        }
        Ok(total)
    }
}

/// The bound with derived goods at the fixings, at the tolls that are on them: `Dead` with the
/// first bidder that has no satisfied set that meets its fixing, and where there is no such bidder
/// `AtMost` the floor of a 4096th of T and the tolls on the limits. Here T is the sum over the
/// bidders of the greatest net, which is 4096 times the value of a set less the multipliers times
/// its units and less the tolls on what it takes of derived goods, over the satisfied sets that
/// meet the fixing.
///
/// There are at most 40 trees. Each weight is at most 100,000,000,000 in size. Takes no memory.
/// Time: one pass over each tree, and one over the charges.
pub fn bound_with(
    trees: &[Tree],
    weights: &Weighing,
    derived: &DerivedGoods,
    m: &Rates,
    fixings: &Fixings,
    room: &mut TollRoom,
) -> Bound
    requires few { length trees.now ≤ 40 }
    requires weights { AreWeightsOf trees.now (weights_in weights.now) }
    requires derived { derived.now.nodes ≡ nodes_of trees.now }
    requires fixings { AreFixingsOf trees.now fixings.now }
    ensures { IsAnswerWith derived.now.goods derived.now.tolls trees.now (weights_in weights.now)
        m.now fixings.now result }
{
    match room.total(trees, weights, m, derived, fixings) {
        Ok(total) => Bound::AtMost(floor_4096th(total + derived.on_limits())),
        Err(bidder) => Bound::Dead(bidder),
    }
}
