//! Trees with their weights, their fixings and their leaves, which go together.
ghost use Rattle.std.specs.Prelude.{◌≡◌, ◌<◌, ◌≤◌, length};
ghost use Rattle.ice_defs.specs.Trade.{tree_of, weights_of, fixing_of};
ghost use Rattle.ice_defs.specs.Conditions.{AreModest, AreWeightsOf, AreFixingsOf};
ghost use Rattle.ice_bound.specs.Leaves.{AreLeavesOf, AreLeaves};

use crate::leaves::Leaves;
use ice_best::{Fixing, Fixings};
use ice_tree::{AllWeights, Tree, Weights};

/// One bidder's tree, with its weights, its fixing and its leaves good by good.
#[derive(Drop)]
pub(crate) struct MarkedTree<'a> {
    pub(crate) tree: &'a Tree,
    pub(crate) weights: &'a Weights,
    pub(crate) fixing: &'a Fixing,
    pub(crate) leaves: &'a Leaves,
    ghost nodes: { length weights.now ≡ length tree.now },
    ghost fixing_nodes: { length fixing.now ≡ length tree.now },
    ghost modest: { AreModest weights.now },
    ghost leaved: { AreLeavesOf tree.now leaves.now },
}

/// The same of all bidders, at most 40.
#[derive(Drop)]
pub(crate) struct MarkedTrees<'a> {
    pub(crate) trees: &'a [Tree],
    pub(crate) weights: &'a AllWeights,
    pub(crate) marks: &'a Fixings,
    pub(crate) leaves: &'a [Leaves],
    ghost few: { length trees.now ≤ 40 },
    ghost weighted: { AreWeightsOf trees.now weights.now },
    ghost marked: { AreFixingsOf trees.now marks.now },
    ghost leaved: { AreLeaves trees.now leaves.now (length trees.now) },
}

impl<'a> MarkedTrees<'a> {
    /// The number of bidders.
    pub(crate) fn bidders(&self) -> u8
        ensures { result ≡ length self.now.trees.now }
    {
        self.trees.len() as u8
    }

    /// That of one bidder.
    pub(crate) fn of(&self, bidder: u8) -> MarkedTree<'a>
        requires { bidder < length self.now.trees.now }
        ensures tree { result.tree.now ≡ tree_of self.now.trees.now bidder }
        ensures weights { result.weights.now ≡ weights_of self.now.weights.now bidder }
        ensures fixing { result.fixing.now ≡ fixing_of self.now.marks.now bidder }
    {
        let place = bidder as usize;
        MarkedTree {
            tree: &self.trees[place],
            weights: self.weights.of(bidder),
            fixing: self.marks.of(bidder),
            leaves: &self.leaves[place],
        }
    }
}
