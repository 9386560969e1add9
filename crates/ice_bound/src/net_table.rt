//! The table of a tree at its net weights.
ghost use Rattle.std.specs.Prelude.{◌≡◌, ◌<◌, length, slice_set};
ghost use Rattle.ice_defs.specs.Set.{Weights as NodeWeights};
ghost use Rattle.ice_defs.specs.Tree.{Tree as Nodes};
ghost use Rattle.ice_defs.specs.Fixing.{Fixing as Marks};
ghost use Rattle.ice_defs.specs.Bound.{Multipliers as Numbers};
ghost use Rattle.ice_best.specs.Nets.{node_net, IsNet};
ghost use Rattle.ice_best.specs.Entries.{IsTableOf, DifferOnlyAtMark};
ghost use Rattle.ice_defs.specs.Conditions.{AreModest};
ghost use Rattle.ice_bound.specs.Kept.{IsFound, IsNetOf, IsSmallNet};
ghost use Rattle.ice_bound.specs.Tables.{IsNetTable, DifferOnlyIn};

use crate::marked::MarkedTree;
use crate::multipliers::Multipliers;
use crate::net::NetWeights;
use ice_best::{Fixing, Scratch, Table};
use ice_tree::{NodeSet, Tree, Weights};

/// What the nodes of one tree net at multipliers, and its table at these nets and a fixing. They
/// are kept while one thing after another changes: the multiplier of a good, or the mark of a node.
#[derive(Drop)]
pub(crate) struct NetTable {
    nets: NetWeights,
    table: Table,
}

impl NetTable {
    /// Room for any tree.
    pub(crate) fn new() -> NetTable {
        NetTable {
            nets: NetWeights::new(),
            table: Table::new(),
        }
    }

    /// Makes it that of a tree with these weights, at the multipliers and the fixing.
    pub(crate) fn fill(
        &mut self,
        tree: &Tree,
        weights: &Weights,
        m: &Multipliers,
        fixing: &Fixing,
        scratch: &mut Scratch,
    )
        requires nodes { length weights.now ≡ length tree.now }
        requires fixing { length fixing.now ≡ length tree.now }
        requires modest { AreModest weights.now }
        ensures { IsNetTable tree.now weights.now m.now fixing.now self.new }
    {
        self.nets.fill(tree, weights, m);
        self.table.fill(tree, &self.nets.weights, fixing, scratch);
    }

    /// Brings the net of one node to the multipliers, and the table to the nets.
    fn put(
        &mut self,
        tree: &Tree,
        weights: &Weights,
        m: &Multipliers,
        fixing: &Fixing,
        node: u16,
        scratch: &mut Scratch,
    )
        requires there { length self.old.nets.weights ≡ length tree.now }
        requires node { node < length tree.now }
        requires nodes { length weights.now ≡ length tree.now }
        requires fixing { length fixing.now ≡ length tree.now }
        requires modest { AreModest weights.now }
        requires entries { IsTableOf tree.now self.old.nets.weights fixing.now self.old.table }
        // The net of the node, and the table at all nets.
        ensures net { self.new.nets.weights
            ≡ slice_set self.old.nets.weights node (node_net tree.now
            weights.now 64 m.now 1 node) }
        ensures small { IsNet (node_net tree.now weights.now 64 m.now 1 node) }
        ensures entries { IsTableOf tree.now self.new.nets.weights fixing.now self.new.table }
    {
        let before = self.nets.weights.get(node);
        self.nets.put(tree, weights, m, node);
        self.table
            .renew(tree, &self.nets.weights, fixing, node, before, scratch);
    }

    /// Brings it to multipliers that differ in those that it was made at in this good alone.
    pub(crate) fn renew_good(
        &mut self,
        marked: &MarkedTree,
        m: &Multipliers,
        good: u8,
        scratch: &mut Scratch,
    )
        requires good { good < 32 }
        requires before { (before : Numbers)
            × IsNetTable marked.now.tree.now marked.now.weights.now before marked.now.fixing.now
            self.old
            × DifferOnlyIn good before m.now }
        ensures { IsNetTable marked.now.tree.now marked.now.weights.now m.now
            marked.now.fixing.now self.new }
    {
        let tree = marked.tree;
        let nodes = tree.nodes();
        let mut leaf = marked.leaves.first(good);
        while leaf < nodes {
            self.put(tree, marked.weights, m, marked.fixing, leaf, scratch);
            leaf = marked.leaves.next(leaf);
        }
    }

    /// Brings it to a fixing that differs in the one that it was made at in the mark of this node
    /// alone.
    pub(crate) fn renew_mark(
        &mut self,
        tree: &Tree,
        fixing: &Fixing,
        node: u16,
        scratch: &mut Scratch,
    )
        requires nets { length self.old.nets.weights ≡ length tree.now }
        requires fixing { length fixing.now ≡ length tree.now }
        requires node { node < length tree.now }
        requires before { (before : Marks)
            × IsTableOf tree.now self.old.nets.weights before self.old.table
            × DifferOnlyAtMark node before fixing.now }
        ensures nets { self.new.nets.weights ≡ self.old.nets.weights }
        ensures entries { IsTableOf tree.now self.new.nets.weights fixing.now self.new.table }
    {
        self.table
            .renew_mark(tree, &self.nets.weights, fixing, node, scratch);
    }

    /// The greatest net of a set that is satisfied and meets the fixing; None where there is no
    /// such set.
    pub(crate) fn greatest(&self) -> Option<i128>
        ensures net { (t : Nodes) (w : NodeWeights) (m : Numbers) (x : Marks)
            → IsNetTable t w m x self.now
            → IsNetOf t w m x result }
        ensures small { (t : Nodes) (w : NodeWeights) (m : Numbers) (x : Marks)
            → IsNetTable t w m x self.now
            → IsSmallNet result }
    {
        self.table.greatest()
    }

    /// The same, and `out` becomes a set of that net, or the empty set where there is none.
    pub(crate) fn find(&self, tree: &Tree, out: &mut NodeSet) -> Option<i128>
        ensures found { (w : NodeWeights) (m : Numbers) (x : Marks)
            → IsNetTable tree.now w m x self.now
            → IsFound tree.now w m x result out.new }
        ensures small { (w : NodeWeights) (m : Numbers) (x : Marks)
            → IsNetTable tree.now w m x self.now
            → IsSmallNet result }
        ensures nodes { (w : NodeWeights) (m : Numbers) (x : Marks)
            → IsNetTable tree.now w m x self.now
            → length out.new ≡ length tree.now }
    {
        self.table.best_set(tree, out);
        self.table.greatest()
    }
}
