//! Assignments that come up while a plan is made.
ghost use Rattle.std.specs.Prelude.{◌≡◌, ◌≤◌, length};
ghost use Rattle.ice_defs.specs.Conditions.{AreWeightsOf};

use crate::marking::Marking;
use ice_best::{Fixing, Mark};
use ice_master::{Master, Nodes};
use ice_tree::{AllWeights, Assignment, NodeKind, NodeSet, Tree, Weights, is_covered};

/// What whole sets of the bidders use and are worth.
#[derive(Drop)]
pub(crate) struct Tally {
    units: [i64; 32],
    pub(crate) value: i128,
    meets: bool,
}

/// The signed units of a node, and of which good.
fn units_of(kind: NodeKind) -> (u8, i64) {
    match kind {
        NodeKind::Buy { good, units } => (good, i64::from(units)),
        NodeKind::Sell { good, units } => (good, -i64::from(units)),
        NodeKind::Choose { .. } => (0, 0),
    }
}

/// Whether a node may be inside or not, by its mark.
fn agrees(mark: Mark, inside: bool) -> bool {
    match mark {
        Mark::Free => true,
        Mark::Must => inside,
        Mark::Never => !inside,
    }
}

impl Tally {
    /// That of no set.
    fn new() -> Tally {
        Tally {
            units: [0; 32],
            value: 0,
            meets: true,
        }
    }

    /// Adds a node of a set.
    fn add(&mut self, kind: NodeKind, weight: i128) {
        let (good, units) = units_of(kind);
        let sum = &mut self.units[usize::from(good % 32)];
        *sum = sum.saturating_add(units);
        self.value = self.value.saturating_add(weight);
    }

    /// Adds the set of a bidder.
    fn add_set(&mut self, tree: &Tree, weights: &Weights, fixing: &Fixing, nodes: &Nodes)
        requires weights { length weights.now ≡ length tree.now }
        requires marks { length fixing.now ≡ length tree.now }
    {
        for node in 0..tree.nodes() {
            let inside = nodes.has(node as u8);
            if inside {
                self.add(tree.kind(node), weights.get(node));
            }
            self.meets = self.meets && agrees(fixing.get(node), inside);
        }
    }

    /// That of the whole sets that a master came to.
    pub(crate) fn of(master: &Master, marking: &Marking, weights: &AllWeights) -> Tally
        requires { AreWeightsOf marking.now.trees.now weights.now }
    {
        let mut tally = Tally::new();
        for bidder in 0..marking.trees.len() as u8 {
            let nodes = master.set_of(bidder);
            let tree = &marking.trees[usize::from(bidder)];
            tally.add_set(tree, weights.of(bidder), marking.marks.of(bidder), &nodes);
        }
        tally
    }

    /// Whether the sets meet the marks, and their units are covered.
    pub(crate) fn is_feasible(&self, exact: &[bool]) -> bool {
        for (good, is_exact) in exact.iter().enumerate() {
            let units = self.units.get(good).copied().unwrap_or(0);
            if !is_covered(*is_exact, units) {
                return false;
            }
        }
        self.meets
    }
}

/// The set with these nodes of a tree.
fn set_with(tree: &Tree, nodes: &Nodes) -> NodeSet {
    let mut set = NodeSet::empty(tree.nodes());
    for node in 0..set.len() {
        if node < set.len() {
            set.put(node, nodes.has(node as u8));
        }
    }
    set
}

/// Makes an assignment that of the whole sets that a master came to.
pub(crate) fn put_sets(sets: &mut Assignment, master: &Master, trees: &[Tree])
    requires { length trees.now ≤ 40 }
{
    for bidder in 0..trees.len() as u8 {
        let place = usize::from(bidder);
        let set = set_with(&trees[place], &master.set_of(bidder));
        if place < sets.len() && sets.of(bidder).len() == set.len() {
            sets.put(bidder, &set);
        }
    }
}
