//! The table of a tree: what each node adds where it is inside. It is filled once, and renewed
//! where a weight or a mark changes.
ghost use Rattle.std.specs.Prelude.{◌≡◌, ◌<◌, ◌≤◌, length, replicate, false, ℤ, IsTrue, IfSome, IfNone, if◌then◌else◌, pos, ◌≤ℤ◌};
ghost use Rattle.ice_defs.specs.Tree.{Tree as Nodes};
ghost use Rattle.ice_defs.specs.Set.{NodeSet as Set, Weights as NodeWeights, has, value, IsSmall};
ghost use Rattle.ice_defs.specs.Fixing.{Fixing as Marks};
ghost use Rattle.ice_defs.specs.Bound.{IsOpen};
ghost use Rattle.ice_defs.specs.Greatest.{IsGreatest};
ghost use Rattle.ice_best.specs.Table.{IsTaken};
ghost use Rattle.ice_best.specs.Entries.{IsTableOf, DifferOnlyAtMark};
ghost use Rattle.ice_best.specs.Rise.{WasTableOf};

use crate::choice::Offer;
use crate::fill::{fill_all, refill};
use crate::fixing::Fixing;
use crate::rise::{follow, weigh};
use ice_tree::{NodeSet, Tree, Weights};

/// The room that `best`, `greatest_sale` and the tables work in. It takes no memory, and what it
/// holds between two calls does not matter: make one and use it for all calls, since making it
/// costs time.
#[derive(Drop)]
pub struct Scratch {
    /// The table of `best`.
    pub(crate) table: Table,
    /// The children that the choice at one node may still take.
    pub(crate) offers: [Offer; 200],
}

impl Scratch {
    /// Room for any tree.
    pub fn new() -> Scratch {
        Scratch {
            table: Table::new(),
            offers: [Offer { gain: 0, child: 0 }; 200],
        }
    }
}

/// What the nodes of one tree are worth at weights and a fixing, kept while the weights and the
/// marks change one by one. It takes no memory.
#[derive(Drop)]
pub struct Table {
    /// What each node adds where it is inside, with the best choice below it.
    pub(crate) gain: [i128; 200],
    /// Which nodes must be inside: those marked so, and those with such a child.
    pub(crate) needed: [bool; 200],
    /// Which nodes may be inside.
    pub(crate) possible: [bool; 200],
    /// Which nodes the best choice of their parent takes.
    pub(crate) taken: [bool; 200],
}

/// Whether the root must be inside and may not be.
fn is_blocked(needed: bool, possible: bool) -> bool
    ensures yes { IsTrue result → IsTrue needed × (possible ≡ false) }
    ensures no { result ≡ false → IsTrue needed → IsTrue possible }
{
    needed && !possible
}

/// Whether the root is best inside.
fn takes_root(needed: bool, possible: bool, gain: i128) -> bool
    requires { IsTrue needed → IsTrue possible }
    ensures may { IsTrue result → IsTrue possible }
    ensures must { IsTrue needed → IsTrue result }
    ensures gains { IsTrue result → needed ≡ false → pos 0 ≤ℤ gain }
    ensures left { result ≡ false → IsTrue possible → gain ≤ℤ pos 0 }
{
    possible && (needed || gain > 0)
}

/// The value of the best set, by whether it has the root.
fn root_value(root: bool, gain: i128) -> i128
    ensures { result ≡ (if root then gain else pos 0) }
{
    if root { gain } else { 0 }
}

/// What the choices take from the root down.
fn take_set(tree: &Tree, taken: &[bool], root: bool) -> NodeSet
    requires { length tree.now ≤ length taken.now }
    ensures { IsTaken tree.now (has taken.now) root result }
{
    let nodes = tree.nodes();
    let mut out = NodeSet::empty(nodes);
    out.put(0, root);
    for node in 1..nodes {
        if taken[node as usize] && out.has(tree.parent(node)) {
            out.put(node, true);
        }
    }
    out
}

impl Table {
    /// Room for any tree; it is the table of none.
    pub fn new() -> Table {
        Table {
            gain: [0; 200],
            needed: [false; 200],
            possible: [false; 200],
            taken: [false; 200],
        }
    }

    /// Makes it the table of the tree at these weights and this fixing.
    ///
    /// Takes no memory. Time: one pass over the nodes, and a sort of the children of each.
    pub fn fill(&mut self, tree: &Tree, weights: &Weights, fixing: &Fixing, scratch: &mut Scratch)
        requires weights { length weights.now ≡ length tree.now }
        requires fixing { length fixing.now ≡ length tree.now }
        ensures { IsTableOf tree.now weights.now fixing.now self.new }
    {
        fill_all(tree, weights, fixing, self, &mut scratch.offers);
    }

    /// Makes it the table at these weights, where it was the table at weights that may differ at
    /// this node alone, whose weight was `before`.
    ///
    /// Takes no memory. Time: a few steps for each node above it, up to one that adds as much as
    /// before, and a pass over the children, and a sort of them, of those whose best choice may
    /// become another.
    pub fn renew(
        &mut self,
        tree: &Tree,
        weights: &Weights,
        fixing: &Fixing,
        node: u16,
        before: i128,
        scratch: &mut Scratch,
    )
        requires node { node < length tree.now }
        requires weights { length weights.now ≡ length tree.now }
        requires fixing { length fixing.now ≡ length tree.now }
        requires small { IsSmall before }
        requires before { WasTableOf tree.now weights.now fixing.now self.old node before }
        ensures { IsTableOf tree.now weights.now fixing.now self.new }
    {
        // a tree has at most 200 of them
        let _nodes = tree.nodes();
        let mut at = node;
        let mut more = weigh(tree, weights, fixing, self, node, before);
        while 0 < at && more != 0 {
            more = follow(tree, weights, fixing, self, &mut scratch.offers, at, more);
            at = tree.parent(at);
        }
    }

    /// Makes it the table at this fixing, where it was the table at a fixing that may differ at
    /// this node alone.
    ///
    /// Takes no memory. Time: a pass over the children, and a sort of them, of this node and of
    /// each above it, up to one that adds as much as before, and must and may be inside as before.
    /// No other node is looked at.
    pub fn renew_mark(
        &mut self,
        tree: &Tree,
        weights: &Weights,
        fixing: &Fixing,
        node: u16,
        scratch: &mut Scratch,
    )
        requires node { node < length tree.now }
        requires weights { length weights.now ≡ length tree.now }
        requires fixing { length fixing.now ≡ length tree.now }
        requires before { (before : Marks) × IsTableOf tree.now weights.now before self.old
            × DifferOnlyAtMark node before fixing.now }
        ensures { IsTableOf tree.now weights.now fixing.now self.new }
    {
        // a tree has at most 200 of them
        let _nodes = tree.nodes();
        let mut at = node;
        while refill(tree, weights, fixing, self, &mut scratch.offers, at) && 0 < at {
            at = tree.parent(at);
        }
    }

    /// The greatest value of an open set: a satisfied set of the tree that meets the fixing. None
    /// comes exactly where no set is open.
    pub fn greatest(&self) -> Option<i128>
        ensures some { (t : Nodes) (w : NodeWeights) (x : Marks) → IsTableOf t w x self.now
            → IfSome result (IsGreatest (IsOpen t x) (λ s. value s w)) }
        ensures none { (t : Nodes) (w : NodeWeights) (x : Marks) → IsTableOf t w x self.now
            → IfNone result ((s : Set) → IsOpen t x s → ⊥) }
    {
        let needed = self.needed[0];
        let possible = self.possible[0];
        let gain = self.gain[0];
        if is_blocked(needed, possible) {
            return None;
        }
        let root = takes_root(needed, possible, gain);
        Some(root_value(root, gain))
    }

    /// Makes `out` an open set of the greatest value; of several it may be any. Where no set is
    /// open, `out` becomes the empty set.
    pub fn best_set(&self, tree: &Tree, out: &mut NodeSet)
        ensures set { (w : NodeWeights) (x : Marks) → IsTableOf tree.now w x self.now → (v : ℤ)
            → IsGreatest (IsOpen tree.now x) (λ s. value s w) v → IsOpen tree.now x out.new
            × (value out.new w ≡ v) }
        ensures empty { (w : NodeWeights) (x : Marks) → IsTableOf tree.now w x self.now
            → ((s : Set) → IsOpen tree.now x s → ⊥) → out.new ≡ replicate (length tree.now) false }
    {
        let nodes = tree.nodes();
        let needed = self.needed[0];
        let possible = self.possible[0];
        let gain = self.gain[0];
        if is_blocked(needed, possible) {
            *out = NodeSet::empty(nodes);
            return;
        }
        let root = takes_root(needed, possible, gain);
        *out = take_set(tree, &self.taken, root);
    }
}
