//! Trees in the making whose nodes have true values.
ghost use Rattle.std.specs.Prelude.{◌≡◌, ◌<◌, length, IsTrue, None, false, true};
ghost use Rattle.ice_defs.specs.Making.{is_lawful_kind, is_complete};
ghost use Rattle.ice_defs.specs.Lawful.{IsLimitedTree, AreBounds};
ghost use Rattle.ice_tree.specs.Making.{IsLeaf, draft_close_refusal, all_but_first};
ghost use Rattle.ice_gen.specs.Generated.{bounds_of_values, truth_of_values};
ghost use Rattle.ice_gen.specs.Growing.{IsModest, draft_of, no_nodes, with_valued, with_choose};

use crate::valued::{Valued, lower, upper};
use arrayvec::ArrayVec;
use ice_tree::{Bounds, NodeKind, Tree, TreeMaker};
use std::marker::Model;

/// A tree over 12 goods that is being made, node by node in preorder, with a true value and bounds
/// for each of its at most 13 nodes. It takes no memory.
#[derive(Drop)]
pub(crate) struct ValuedTreeMaker {
    maker: TreeMaker,
    values: ArrayVec<Valued, 13>,
}

impl Model for ValuedTreeMaker {
    ghost use Rattle.ice_gen.specs.Growing.{ValuedDraft, IsKept, kept};

    ghost Value = { ValuedDraft };

    ghost view = { λ m. kept m.maker m.values.items };

    ghost invariant = { λ m. IsKept m.maker m.values.items };
}

/// What is made of a bidder: its tree over 12 goods, its opening bounds, and its true values as
/// bounds.
#[derive(Drop)]
pub(crate) struct Valuation {
    pub(crate) tree: Tree,
    pub(crate) bounds: Bounds,
    pub(crate) truth: Bounds,
}

/// The true values alone.
fn truth_of(values: &[Valued]) -> ArrayVec<i64, 13>
    requires { length values.now < 14 }
    ensures { result.items ≡ (truth_of_values values.now).lo }
{
    let mut truth = ArrayVec::new();
    for value in values {
        truth.push(value.truth);
    }
    truth
}

impl ValuedTreeMaker {
    /// A maker with no node yet.
    pub(crate) fn new() -> ValuedTreeMaker
        ensures { result ≡ no_nodes }
    {
        ValuedTreeMaker {
            maker: TreeMaker::new(12),
            values: ArrayVec::new(),
        }
    }

    /// Opens a choose node: the nodes until its close are its descendants.
    pub(crate) fn choose(&mut self, least: u16, most: u16, value: Valued)
        requires unfinished { is_complete (draft_of self.old) ≡ false }
        requires few { length self.old.tree < 13 }
        requires shallow { length self.old.opened < 16 }
        requires modest { IsModest value }
        ensures { self.new ≡ with_choose self.old (NodeKind.Choose least most) value }
    {
        self.maker
            .open_choose(least, most, lower(value), upper(value))
            .unwrap();
        self.values.push(value);
    }

    /// Adds a leaf.
    pub(crate) fn leaf(&mut self, kind: NodeKind, value: Valued)
        requires leaf { IsLeaf kind }
        requires lawful { is_lawful_kind 12 kind ≡ true }
        requires unfinished { is_complete (draft_of self.old) ≡ false }
        requires few { length self.old.tree < 13 }
        requires shallow { length self.old.opened < 16 }
        requires modest { IsModest value }
        ensures { self.new ≡ with_valued self.old kind value }
    {
        self.maker.leaf(kind, lower(value), upper(value)).unwrap();
        self.values.push(value);
    }

    /// Closes the innermost open node, whose interval fits its children.
    pub(crate) fn close(&mut self)
        requires { draft_close_refusal (draft_of self.old) ≡ None }
        ensures { self.new ≡ record self.old { opened = all_but_first self.old.opened } }
    {
        self.maker.close().unwrap();
    }

    /// The tree with its bounds and its true values.
    pub(crate) fn finish(self) -> Valuation
        requires { IsTrue (is_complete (draft_of self)) }
        ensures tree { result.tree ≡ self.tree }
        ensures bounds { result.bounds ≡ bounds_of_values self.values }
        ensures truth { result.truth ≡ truth_of_values self.values }
        ensures limited { IsLimitedTree 12 result.tree }
        ensures ordered { AreBounds (length result.tree) result.bounds }
    {
        let ValuedTreeMaker { maker, values } = self;
        let (tree, bounds) = maker.finish().unwrap();
        let values = truth_of(&values);
        let truth = tree.set_bounds(&values, &values).unwrap();
        Valuation {
            tree,
            bounds,
            truth,
        }
    }
}
