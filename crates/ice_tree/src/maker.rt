//! The maker of a tree.
ghost use Rattle.std.specs.Prelude.{◌≡◌, ◌<◌, ◌≤◌, ◌&&◌, ◌↔◌, length, option_map, OnOk, OnErr, IsTrue, IsOk, IfOk, IfErr};
ghost use Rattle.ice_defs.specs.Making.{innermost, is_value, is_lawful_kind, node_refusal, draft_refusal, no_tree, with_node, with_open, is_complete};
ghost use Rattle.ice_defs.specs.Lawful.{IsLimitedTree, AreBounds};
ghost use Rattle.ice_tree.specs.Fault.{tree_fault_number, RefusedBy};
ghost use Rattle.ice_tree.specs.Making.{IsLeaf, kind_close_refusal, draft_close_refusal, with_closed};

use crate::bounds::{Bounds, is_value};
use crate::faults::TreeFault;
use crate::rows::Rows;
use crate::tree::Tree;
use arrayvec::ArrayVec;
use ice_defs::{MOST_NODES, NodeKind};
use std::marker::Model;

/// A tree that is being made, node by node in preorder. It takes no memory.
#[derive(Drop)]
pub struct TreeMaker {
    rows: Rows,
    path: ArrayVec<u16, 16>,
    goods: u8,
}

impl Model for TreeMaker {
    ghost use Rattle.ice_tree.specs.Making.{Making, IsMaking, draft_of};

    ghost Value = { Making };

    ghost view = { λ m. record { goods = m.goods; draft = draft_of m.rows.nodes.items m.rows.lo.items m.rows.hi.items m.path.items } };

    ghost invariant = { λ m. IsMaking m.goods m.rows.nodes.items m.rows.lo.items m.rows.hi.items m.rows.children.items m.path.items };
}

fn is_lawful_kind(goods: u8, kind: NodeKind) -> bool
    ensures { result ≡ is_lawful_kind goods kind }
{
    match kind {
        NodeKind::Choose { .. } => true,
        NodeKind::Buy { good, units } | NodeKind::Sell { good, units } => good < goods
            && 1 <= units
            && units <= 1000,
    }
}

fn is_in_range(goods: u8, kind: NodeKind, lo: i64, hi: i64) -> bool
    ensures { result ≡ (is_lawful_kind goods kind && is_value lo && is_value hi) }
{
    is_lawful_kind(goods, kind) && is_value(lo) && is_value(hi)
}

fn node_refusal(
    goods: u8,
    nodes: u16,
    depth: u16,
    kind: NodeKind,
    lo: i64,
    hi: i64,
) -> Option<TreeFault>
    ensures { option_map tree_fault_number result ≡ node_refusal goods nodes depth kind lo hi }
{
    if MOST_NODES <= nodes {
        return Some(TreeFault::TooManyNodes);
    }
    if 16 < depth {
        return Some(TreeFault::TooDeep);
    }
    if !is_in_range(goods, kind, lo, hi) {
        return Some(TreeFault::OutOfRange);
    }
    if hi < lo {
        return Some(TreeFault::Crossed);
    }
    None
}

fn close_refusal(kind: NodeKind, children: u16) -> Option<TreeFault>
    ensures { option_map tree_fault_number result ≡ kind_close_refusal kind children }
{
    let fits = match kind {
        NodeKind::Choose { least, most } => 0 < children && least <= most && most <= children,
        _ => children == 0,
    };
    if fits {
        None
    } else {
        Some(TreeFault::BadInterval)
    }
}

impl TreeMaker {
    /// A maker with no node yet, for a tree over so many goods, 1 to 32.
    pub fn new(goods: u8) -> TreeMaker
        requires some { 0 < goods }
        requires few { goods ≤ 32 }
        ensures { result ≡ record { goods = goods; draft = no_tree } }
    {
        TreeMaker {
            rows: Rows::new(),
            path: ArrayVec::new(),
            goods,
        }
    }

    /// The number of nodes so far.
    pub fn nodes(&self) -> u16
        ensures value { result ≡ length self.now.draft.tree }
        ensures fits { result ≤ 200 }
    {
        self.rows.nodes.len() as u16
    }

    /// The number of open nodes.
    pub fn open_nodes(&self) -> u16
        ensures value { result ≡ length self.now.draft.opened }
        ensures fits { result ≤ 16 }
    {
        self.path.len() as u16
    }

    /// Whether there is a root, and every node is closed.
    pub fn is_complete(&self) -> bool
        ensures { result ≡ is_complete self.now.draft }
    {
        !self.rows.nodes.is_empty() && self.path.is_empty()
    }

    fn refusal(&self, kind: NodeKind, lo: i64, hi: i64) -> Option<TreeFault>
        ensures { option_map tree_fault_number result
            ≡ draft_refusal self.now.goods self.now.draft kind lo hi }
    {
        if self.is_complete() {
            return Some(TreeFault::Unclosed);
        }
        node_refusal(
            self.goods,
            self.nodes(),
            self.open_nodes() + 1,
            kind,
            lo,
            hi,
        )
    }

    fn innermost(&self) -> u16
        ensures { result ≡ innermost self.now.draft.opened }
    {
        if self.path.is_empty() {
            0
        } else {
            self.path[self.path.len() - 1]
        }
    }

    /// Opens a choose node: the nodes until its close are its descendants.
    ///
    /// Refuses, in this order, where the tree is complete (`Unclosed`), where 200 nodes stand
    /// (`TooManyNodes`), where the node's depth would be 17 (`TooDeep`), where a value is outside
    /// its limits (`OutOfRange`), and where the lower value is above the upper one (`Crossed`). A
    /// refusal leaves the maker as it was.
    pub fn open_choose(&mut self, least: u16, most: u16, lo: i64, hi: i64) -> Result<(), TreeFault>
        ensures made { OnOk result (self.new ≡ record self.old { draft = with_open self.old.draft (NodeKind.Choose least most) lo hi }) }
        ensures refused { RefusedBy result
            (draft_refusal self.old.goods self.old.draft (NodeKind.Choose least most) lo hi) }
        ensures unchanged { OnErr result (self.new ≡ self.old) }
    {
        let kind = NodeKind::Choose { least, most };
        if let Some(fault) = self.refusal(kind, lo, hi) {
            return Err(fault);
        }
        let parent = self.innermost();
        let node = self.nodes();
        self.rows.push(kind, parent, lo, hi);
        self.path.push(node);
        Ok(())
    }

    /// Adds a leaf. It refuses as `open_choose` does, and also where the good or the units are
    /// outside their limits (`OutOfRange`).
    pub fn leaf(&mut self, kind: NodeKind, lo: i64, hi: i64) -> Result<(), TreeFault>
        requires { IsLeaf kind }
        ensures made { OnOk result
            (self.new ≡ record self.old { draft = with_node self.old.draft kind lo hi }) }
        ensures refused { RefusedBy result
            (draft_refusal self.old.goods self.old.draft kind lo hi) }
        ensures unchanged { OnErr result (self.new ≡ self.old) }
    {
        if let Some(fault) = self.refusal(kind, lo, hi) {
            return Err(fault);
        }
        let parent = self.innermost();
        self.rows.push(kind, parent, lo, hi);
        Ok(())
    }

    /// Closes the innermost open node.
    ///
    /// Refuses where none is open (`Unclosed`), and where the node has no child or its interval
    /// doesn't fit its children (`BadInterval`). A refusal leaves the maker as it was.
    pub fn close(&mut self) -> Result<(), TreeFault>
        ensures made { OnOk result
            (self.new ≡ record self.old { draft = with_closed self.old.draft }) }
        ensures refused { RefusedBy result (draft_close_refusal self.old.draft) }
        ensures unchanged { OnErr result (self.new ≡ self.old) }
    {
        if self.path.is_empty() {
            return Err(TreeFault::Unclosed);
        }
        let node = self.innermost() as usize;
        if let Some(fault) = close_refusal(self.rows.nodes[node].kind, self.rows.children[node]) {
            return Err(fault);
        }
        self.path.truncate(self.path.len() - 1);
        Ok(())
    }

    /// The tree and its bounds. Refuses where there is no node or a node is open (`Unclosed`).
    pub fn finish(self) -> Result<(Tree, Bounds), TreeFault>
        ensures made { IfOk result (λ r. (r.0 ≡ self.draft.tree) × (r.1 ≡ self.draft.bounds)) }
        ensures tree { IfOk result (λ r. IsLimitedTree self.goods r.0) }
        ensures bounds { IfOk result (λ r. AreBounds (length r.0) r.1) }
        ensures complete { IsOk result ↔ IsTrue (is_complete self.draft) }
        ensures refused { IfErr result (λ fault. fault ≡ TreeFault.Unclosed) }
    {
        if !self.is_complete() {
            return Err(TreeFault::Unclosed);
        }
        let Rows {
            nodes,
            lo,
            hi,
            children: _,
        } = self.rows;
        Ok((Tree::of(nodes), Bounds::of(lo, hi)))
    }
}
