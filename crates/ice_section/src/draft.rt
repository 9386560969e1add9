//! A bidder whose tree is not complete.
ghost use Rattle.std.specs.Prelude.{◌≡◌, ◌==◌, ◌<◌, ◌≤◌, [], length, reverse, OnOk, IfErr, Ok as Found, Err as Refused};
ghost use Rattle.ice_defs.specs.Bounds.{no_bounds};
ghost use Rattle.ice_defs.specs.Lawful.{IsLimitedTree, AreBounds};
ghost use Rattle.ice_tree.specs.Fault.{tree_fault_number};
ghost use Rattle.ice_tree.specs.Making.{IsLeaf};
ghost use Rattle.ice_section.specs.Section.{complete, maker as of_maker};
ghost use Rattle.ice_section.specs.Kept.{open_nodes, AreKept, IsDrafting, draft_after};

use arrayvec::ArrayVec;
use ice_defs::NodeKind;
use ice_terms::Name;
use ice_tree::{Bounds, Tree, TreeFault, TreeMaker};
use std::marker::Model;

/// A bidder with the nodes of its tree so far, and for each open node, from the root down, the
/// number of children that are still to come.
#[derive(Drop)]
pub(crate) struct Draft {
    name: Name,
    own: ArrayVec<u32, 32>,
    maker: TreeMaker,
    to_come: ArrayVec<u16, 16>,
}

impl Model for Draft {
    ghost use Rattle.std.specs.Prelude.{◌≡◌, length};
    ghost use Rattle.ice_section.specs.Kept.{Drafting, drafting_of};

    ghost Value = { Drafting };

    ghost view = { λ d. drafting_of d.name d.own.items d.maker d.to_come.items };

    ghost invariant = { λ d. length d.to_come.items ≡ length d.maker.draft.opened };
}

/// A node is complete: an open node whose last child it is gets closed, and is complete in turn.
fn complete(maker: &mut TreeMaker, to_come: &mut ArrayVec<u16, 16>) -> Result<(), TreeFault>
    requires { AreKept maker.old.draft.tree maker.old.draft.opened (reverse to_come.old.items) }
    ensures same { maker.new
        ≡ record maker.old { draft = record maker.old.draft { opened = maker.new.draft.opened } } }
    ensures counted { length to_come.new.items ≡ length maker.new.draft.opened }
    ensures done { OnOk result
        (complete (open_nodes maker.old.draft.tree 1 maker.old.draft.opened
        (reverse to_come.old.items))
        ≡ Found (open_nodes maker.old.draft.tree 0 maker.new.draft.opened
        (reverse to_come.new.items))) }
    ensures refused { IfErr result
        (λ fault.
        complete (open_nodes maker.old.draft.tree 1 maker.old.draft.opened
        (reverse to_come.old.items)) ≡ Refused (of_maker (tree_fault_number fault))) }
{
    while !to_come.is_empty() {
        let innermost = to_come.len() - 1;
        let left = to_come[innermost];
        if left > 1 {
            to_come[innermost] = left - 1;
            return Ok(());
        }
        maker.close()?;
        to_come.truncate(innermost);
    }
    Ok(())
}

impl Draft {
    /// A bidder with no node yet, for so many goods, 1 to 32. It owns `own` of each good.
    pub(crate) fn new(goods: u8, name: Name, own: ArrayVec<u32, 32>) -> Draft
        requires some { 0 < goods }
        requires few { goods ≤ 32 }
        ensures { result
            ≡ record {
              goods = goods;
              draft = record {
                bidder = record { name = name; own = own.items; tree = []; bounds = no_bounds };
                opened = [];
              };
            } }
    {
        Draft {
            name,
            own,
            maker: TreeMaker::new(goods),
            to_come: ArrayVec::new(),
        }
    }

    /// Adds a leaf. Refuses what the maker of the tree refuses: the leaf, or the close of a node
    /// that it completes.
    pub(crate) fn leaf(&mut self, kind: NodeKind, lo: i64, hi: i64) -> Result<(), TreeFault>
        requires going { IsDrafting self.old }
        requires leaf { IsLeaf kind }
        ensures taken { OnOk result ((self.old.goods ≡ self.new.goods)
            × (draft_after self.old kind 0 lo hi ≡ Found self.new.draft)) }
        ensures refused { IfErr result (λ fault. draft_after self.old kind 0 lo hi
            ≡ Refused (of_maker (tree_fault_number fault))) }
    {
        self.maker.leaf(kind, lo, hi)?;
        complete(&mut self.maker, &mut self.to_come)
    }

    /// Adds a choose node, whose record states so many children. Refuses what the maker of the tree
    /// refuses: the node, or its close where it states no child.
    pub(crate) fn choose(
        &mut self,
        least: u16,
        most: u16,
        children: u16,
        lo: i64,
        hi: i64,
    ) -> Result<(), TreeFault>
        requires { IsDrafting self.old }
        ensures taken { OnOk result ((self.old.goods ≡ self.new.goods)
            × (draft_after self.old (NodeKind.Choose least most) children lo hi
            ≡ Found self.new.draft)) }
        ensures refused { IfErr result
            (λ fault. draft_after self.old (NodeKind.Choose least most) children lo hi
            ≡ Refused (of_maker (tree_fault_number fault))) }
    {
        self.maker.open_choose(least, most, lo, hi)?;
        self.to_come.push(children);
        if children == 0 {
            self.maker.close()?;
        }
        Ok(())
    }

    /// Adds a node of this kind, whose record states so many children where it is a choose node.
    pub(crate) fn node(
        &mut self,
        kind: NodeKind,
        children: u16,
        lo: i64,
        hi: i64,
    ) -> Result<(), TreeFault>
        requires { IsDrafting self.old }
        ensures taken { OnOk result ((self.old.goods ≡ self.new.goods)
            × (draft_after self.old kind children lo hi ≡ Found self.new.draft)) }
        ensures refused { IfErr result (λ fault. draft_after self.old kind children lo hi
            ≡ Refused (of_maker (tree_fault_number fault))) }
    {
        match kind {
            NodeKind::Choose { least, most } => self.choose(least, most, children, lo, hi),
            NodeKind::Buy { .. } | NodeKind::Sell { .. } => self.leaf(kind, lo, hi),
        }
    }

    /// Whether no node is open.
    pub(crate) fn is_closed(&self) -> bool
        ensures { result ≡ (length self.now.draft.opened == 0) }
    {
        self.to_come.is_empty()
    }

    /// The bidder: its name, its owned amounts, its tree and the bounds of its nodes. It takes no
    /// memory.
    pub(crate) fn finish(self) -> (Name, ArrayVec<u32, 32>, Tree, Bounds)
        requires closed { self.draft.opened ≡ [] }
        requires some { 0 < length self.draft.bidder.tree }
        ensures bidder { self.draft.bidder
            ≡ record { name = result.0; own = result.1.items; tree = result.2; bounds = result.3 } }
        ensures tree { IsLimitedTree self.goods result.2 }
        ensures bounds { AreBounds (length result.2) result.3 }
    {
        let Draft {
            name,
            own,
            maker,
            to_come: _,
        } = self;
        let Ok((tree, bounds)) = maker.finish() else {
            unreachable!()
        };
        (name, own, tree, bounds)
    }
}
