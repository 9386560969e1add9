//! Leaves with tolls in a walk, and derived goods that such a leaf shows.
ghost use Rattle.std.specs.Prelude.{◌≡◌, ◌<◌, ◌≤◌, ◌++◌, ◌∷◌, [], length, OnOk, IfErr, OnErr};
ghost use Rattle.ice_defs.specs.Derived.{with_derived};
ghost use Rattle.ice_defs.specs.Follows.{Follows};
ghost use Rattle.ice_defs.specs.Group.{free_side};
ghost use Rattle.ice_defs.specs.Steps.{leaf, sides_after};
ghost use Rattle.ice_defs.specs.Conditions.{AreWeightsOf};
ghost use Rattle.ice_refute.specs.Passing.{PassesAtBy, HasFaultBy};
ghost use Rattle.ice_refute.specs.Waiting.{nodes_of, first_side};
ghost use Rattle.ice_derived.specs.Ranges.{IsLimit};
ghost use Rattle.ice_derived.specs.Weighing.{weights_in};

use crate::amounts::Amounts;
use crate::bounds::{TollRoom, Weighing};
use crate::goods::DerivedGoods;
use crate::leaf::judge_leaf;
use crate::rates::Rates;
use ice_best::Fixings;
use ice_bound::Room;
use ice_refute::{StepFault, Walk};
use ice_tree::Tree;

/// Takes a leaf with the tolls that are on derived goods, at the first open side of a walk: the
/// numbers of the leaf are its multipliers and, behind them, these tolls. Where it passes that side
/// is taken away; at fault nothing changes.
///
/// A side is open, there is one multiplier for each good, the derived goods are of these trees, and
/// weights are at most 100,000,000,000 in size. Takes no memory.
pub fn take_leaf(
    walk: &mut Walk,
    trees: &[Tree],
    weights: &Weighing,
    derived: &DerivedGoods,
    target: i128,
    m: &Rates,
    room: &Room,
    toll_room: &mut TollRoom,
) -> Result<(), StepFault>
    requires few { length trees.now ≤ 40 }
    requires weights { AreWeightsOf trees.now (weights_in weights.now) }
    requires derived { derived.now.nodes ≡ nodes_of trees.now }
    requires nodes { walk.old.nodes ≡ nodes_of trees.now }
    requires opened { 0 < length walk.old.sides }
    requires goods { length m.now ≡ length room.now }
    // What comes of it
    ensures ok { OnOk result (PassesAtBy (with_derived derived.now.goods) trees.now room.now
        (weights_in weights.now) target (first_side walk.old.sides) (leaf (m.now ++ derived.now.tolls))) }
    ensures sides { OnOk result (walk.new.sides
        ≡ sides_after walk.old.sides (leaf (m.now ++ derived.now.tolls))) }
    ensures fault { IfErr result (HasFaultBy (with_derived derived.now.goods) trees.now room.now
        (weights_in weights.now) target (first_side walk.old.sides) (leaf (m.now ++ derived.now.tolls))) }
    ensures few { OnOk result (length walk.new.sides ≤ 2001) }
    ensures unchanged { OnErr result (walk.new ≡ walk.old) }
    // Either way
    ensures nodes { walk.new.nodes ≡ walk.old.nodes }
{
    let marks = walk.side();
    judge_leaf(trees, weights, derived, target, m, marks, room, toll_room)?;
    walk.leave();
    Ok(())
}

impl DerivedGoods {
    /// Adds the derived good with these amounts and this limit, where one leaf shows that it
    /// follows from those before it: that with these multipliers and the tolls that are on them, at
    /// the amounts as weights and with the limit as target, where all nodes are free. Else the
    /// leaf's fault comes, and nothing changes.
    ///
    /// There is room for it, there is one multiplier for each good, and the list and the amounts
    /// are of these trees, of which there are at most 40. Takes no memory.
    pub fn add(
        &mut self,
        trees: &[Tree],
        amounts: &Amounts,
        limit: i64,
        m: &Rates,
        free: &Fixings,
        room: &Room,
        toll_room: &mut TollRoom,
    ) -> Result<(), StepFault>
        requires few { length trees.now ≤ 40 }
        requires derived { self.old.nodes ≡ nodes_of trees.now }
        requires amounts { nodes_of amounts.now ≡ nodes_of trees.now }
        requires has_room { length self.old.goods < self.old.most }
        requires limit { IsLimit limit }
        requires goods { length m.now ≡ length room.now }
        requires free { free.now ≡ free_side trees.now }
        // It follows, and is added.
        ensures ok { OnOk result (Follows trees.now room.now self.old.goods
            (record { amounts = amounts.now; limit = limit })) }
        ensures added { OnOk result (self.new.goods
            ≡ self.old.goods ++ record { amounts = amounts.now; limit = limit } ∷ []) }
        // Or it is refused.
        ensures fault { IfErr result (HasFaultBy (with_derived self.old.goods) trees.now room.now
            amounts.now limit free.now (leaf (m.now ++ self.old.tolls))) }
        ensures unchanged { OnErr result (self.new ≡ self.old) }
        // Either way
        ensures nodes { self.new.nodes ≡ self.old.nodes }
        ensures most { self.new.most ≡ self.old.most }
    {
        // each amount is in range
        let _bidders = amounts.bidders();
        let weights = Weighing::Derivation(amounts);
        let target = i128::from(limit);
        judge_leaf(trees, &weights, self, target, m, free, room, toll_room)?;
        self.push(amounts, limit);
        Ok(())
    }
}
