//! A tree of choose nodes and leaves.
ghost use Rattle.std.specs.Prelude.{◌≡◌, ◌<◌, ◌≤◌, ◌*◌, ◌^◌, ◌↔◌, length, pos, neg_ℤ, ◌≤ℤ◌, IsOk, IfOk, IfErr};
ghost use Rattle.std.specs.List.{All};
ghost use Rattle.ice_defs.specs.Tree.{kind_of, parent_of, children_of};
ghost use Rattle.ice_defs.specs.Set.{children_inside, IsSatisfied, value};
ghost use Rattle.ice_defs.specs.SetFault.{count_fault, fault_at, IsSetFault};
ghost use Rattle.ice_defs.specs.Lawful.{IsLimitedTree};
ghost use Rattle.ice_tree.specs.Bounds.{bounds_refusal, BoundsRefusedBy};
ghost use Rattle.ice_tree.specs.Units.{AreUnits};

use crate::bounds::Bounds;
use crate::faults::{BoundsFault, SatFault};
use crate::units::{Units, add_units, no_units};
use crate::weights::Weights;
use arrayvec::ArrayVec;
use ice_defs::{Node, NodeKind, SatRule};
use ice_set::NodeSet;
use std::marker::Model;

/// A tree, seen as the list of its nodes in preorder. It has 1 to 200 nodes and at most 16 levels,
/// its goods are among 32, and its leaves have 1 to 1,000 units.
#[derive(Drop)]
pub struct Tree {
    nodes: ArrayVec<Node, 200>,
    children: ArrayVec<u16, 200>,
    starts: ArrayVec<u16, 200>,
    ends: ArrayVec<u16, 200>,
}

impl Model for Tree {
    ghost use Rattle.std.specs.Prelude.{List};
    ghost use Rattle.ice_defs.specs.declared.Node.{Node as TreeNode};
    ghost use Rattle.ice_tree.specs.Stored.{IsStored};

    ghost Value = { List TreeNode };

    ghost view = { λ t. t.nodes.items };

    ghost invariant = { λ t. IsStored t.nodes.items t.children.items t.starts.items t.ends.items };
}

/// Whether a node has too few or too many of its children inside.
fn count_fault(kind: NodeKind, inside: usize) -> Option<SatRule>
    ensures { result ≡ count_fault kind inside }
{
    let NodeKind::Choose { least, most } = kind else {
        return None;
    };
    if inside < usize::from(least) {
        return Some(SatRule::Few);
    }
    if usize::from(most) < inside {
        return Some(SatRule::Many);
    }
    None
}

impl Tree {
    /// The tree with these nodes.
    pub(crate) fn of(nodes: ArrayVec<Node, 200>) -> Tree
        requires { IsLimitedTree 32 nodes.items }
        ensures { result ≡ nodes.items }
    {
        let count = nodes.len();
        let mut children = ArrayVec::new();
        let mut starts = ArrayVec::new();
        let mut ends = ArrayVec::new();
        for p in 0..count {
            starts.push(children.len() as u16);
            for c in 1..count {
                if nodes[c].parent as usize == p {
                    children.push(c as u16);
                }
            }
            ends.push(children.len() as u16);
        }
        Tree {
            nodes,
            children,
            starts,
            ends,
        }
    }

    /// The number of nodes.
    pub fn nodes(&self) -> u16
        ensures value { result ≡ length self.now }
        ensures fits { result ≤ 200 }
        ensures tree { IsLimitedTree 32 self.now }
    {
        self.nodes.len() as u16
    }

    /// What the node is.
    pub fn kind(&self, node: u16) -> NodeKind
        requires { node < length self.now }
        ensures { result ≡ kind_of self.now node }
    {
        self.nodes[node as usize].kind
    }

    /// The number of the node's parent, and 0 for the root.
    pub fn parent(&self, node: u16) -> u16
        requires { node < length self.now }
        ensures value { result ≡ parent_of self.now node }
        ensures inside { result < length self.now }
    {
        self.nodes[node as usize].parent
    }

    /// The numbers of the node's children, in order; a leaf has none.
    pub fn children(&self, node: u16) -> &[u16]
        requires { node < length self.now }
        ensures value { result.now ≡ children_of self.now node }
        ensures inside { All (λ child. child < length self.now) result.now }
    {
        let start = self.starts[node as usize] as usize;
        let end = self.ends[node as usize] as usize;
        &self.children[start..end]
    }

    /// How many of the node's children are inside the set.
    fn children_inside(&self, set: &NodeSet, node: u16) -> usize
        requires node { node < length self.now }
        requires nodes { length set.now ≡ length self.now }
        ensures { result ≡ children_inside self.now set.now node }
    {
        let mut count = 0;
        for child in self.children(node) {
            if set.has(*child) {
                count += 1;
            }
        }
        count
    }

    /// The first rule that the set breaks at the node.
    fn fault_at(&self, set: &NodeSet, node: u16) -> Option<SatRule>
        requires node { node < length self.now }
        requires nodes { length set.now ≡ length self.now }
        ensures { result ≡ fault_at self.now set.now node }
    {
        if !set.has(node) {
            return None;
        }
        if 0 < node && !set.has(self.parent(node)) {
            return Some(SatRule::Parent);
        }
        count_fault(self.kind(node), self.children_inside(set, node))
    }

    /// Whether the set is satisfied: each node inside has its parent inside, and each choose node
    /// inside has between its least and its most children inside.
    ///
    /// If not, the fault names the least node at fault, and the first of `Parent`, `Few` and `Many`
    /// that it breaks.
    pub fn is_satisfied(&self, set: &NodeSet) -> Result<(), SatFault>
        requires { length set.now ≡ length self.now }
        ensures ok { IsOk result ↔ IsSatisfied self.now set.now }
        ensures fault { IfErr result (λ f. IsSetFault self.now set.now f.node f.rule) }
    {
        for node in 0..self.nodes() {
            if let Some(rule) = self.fault_at(set, node) {
                return Err(SatFault { node, rule });
            }
        }
        Ok(())
    }

    /// The sum of the weights over the set, at most 200 * 2^94 in size.
    pub fn value(&self, set: &NodeSet, weights: &Weights) -> i128
        requires set { length set.now ≡ length self.now }
        requires weights { length weights.now ≡ length self.now }
        ensures value { result ≡ value set.now weights.now }
        ensures low { neg_ℤ (pos (200 * 2 ^ 94)) ≤ℤ result }
        ensures high { result ≤ℤ pos (200 * 2 ^ 94) }
    {
        let mut sum = 0;
        for node in 0..self.nodes() {
            if set.has(node) {
                sum += weights.get(node);
            }
        }
        sum
    }

    /// The signed units of the set, one sum for each good.
    pub fn units(&self, set: &NodeSet) -> Units
        requires { length set.now ≡ length self.now }
        ensures { AreUnits self.now set.now result }
    {
        let mut sums = no_units();
        for node in 0..self.nodes() {
            if set.has(node) {
                add_units(&mut sums, self.kind(node));
            }
        }
        Units::of(sums)
    }

    /// New bounds of the tree.
    ///
    /// Refuses, in this order, where a list has not one value for each node (`WrongCount`), where a
    /// value is outside its limits (`OutOfRange`), and where a lower value is above the upper one
    /// (`Crossed`).
    pub fn set_bounds(&self, lo: &[i64], hi: &[i64]) -> Result<Bounds, BoundsFault>
        ensures made { IfOk result (λ b. b ≡ record { lo = lo.now; hi = hi.now }) }
        ensures refused { BoundsRefusedBy result (bounds_refusal (length self.now) lo.now hi.now) }
    {
        Bounds::new(usize::from(self.nodes()), lo, hi)
    }
}
