//! Looks at a side: its dual, an assignment that comes up, and a node to split it at.
ghost use Rattle.std.specs.Prelude.{◌≤◌, length, IfOk};
ghost use Rattle.ice_tree.specs.Alike.{HasSetPerTree};
ghost use Rattle.ice_defs.specs.Conditions.{AreFixingsOf};

use crate::guide::{Guide, closing};
use arrayvec::ArrayVec;
use ice_best::{Fixings, Mark};
use ice_master::{Aim, NEARLY, ONE};
use ice_relaxation::Candidate;
use ice_rows::Basis;
use ice_set::NodeSet;
use ice_tree::{Assignment, Tree};
use std::alloc::{AllocError, Global};

/// So many nodes are tried.
const TRIES: usize = 6;

/// A node that the mix has in part.
#[derive(Clone, Copy, Default)]
pub(crate) struct Shared {
    pub(crate) node: Candidate,
    pub(crate) share: i64,
    pub(crate) score: i64,
}

/// The best first.
pub(crate) type Nodes = ArrayVec<Shared, 6>;

/// Puts a node in its place.
fn put(nodes: &mut Nodes, one: Shared) {
    let behind = nodes.iter().position(|other| other.score < one.score);
    let place = behind.unwrap_or(nodes.len());
    if place >= TRIES {
        return;
    }
    if nodes.is_full() {
        nodes.pop();
    }
    nodes.insert(place, one);
}

impl Guide {
    /// Solves the dual of the side of these marks. Its bound, in 4096ths.
    pub(crate) fn look(&mut self, trees: &[Tree], marks: &Fixings, value: i128) -> i64
        requires few { length trees.now ≤ 40 }
        requires marks { AreFixingsOf trees.now marks.now }
    {
        self.master.look_at(trees, marks);
        let close = closing(value);
        self.rows.solve(
            &mut self.master,
            Aim {
                close,
                keep: i64::MAX,
            },
        )
    }

    /// The free nodes of which the mix has about a half, and the rounding of the mix.
    fn nodes(&self, trees: &[Tree], marks: &Fixings) -> Nodes
        requires few { length trees.now ≤ 40 }
        requires marks { AreFixingsOf trees.now marks.now }
    {
        let mut nodes = ArrayVec::new();
        for bidder in 0..trees.len() as u8 {
            let shares = self.rows.shares_of(&self.master, bidder);
            for node in 0..trees[usize::from(bidder)].nodes() {
                let share = shares[usize::from(node)];
                let part = share.min(ONE.saturating_sub(share));
                if part > NEARLY && marks.of(bidder).get(node) == Mark::Free {
                    put(
                        &mut nodes,
                        Shared {
                            node: Candidate { bidder, node },
                            share,
                            score: part,
                        },
                    );
                }
            }
        }
        nodes
    }

    /// The nodes of which the mix has at least a half.
    pub(crate) fn rounded(&self, alloc: Global, trees: &[Tree]) -> Result<Assignment, AllocError>
        requires few { length trees.now ≤ 40 }
        ensures { IfOk result (HasSetPerTree trees.now) }
    {
        let mut sets = Assignment::empty(alloc, trees)?;
        for bidder in 0..trees.len() as u8 {
            let shares = self.rows.shares_of(&self.master, bidder);
            let nodes = trees[usize::from(bidder)].nodes();
            let mut set = NodeSet::empty(nodes);
            for node in 0..nodes {
                set.put(node, shares[usize::from(node)] > ONE / 2);
            }
            sets.put(bidder, &set);
        }
        Ok(sets)
    }

    /// The bound of the side where the node has this mark, from this basis.
    fn bound_below(
        &mut self,
        trees: &[Tree],
        marks: &mut Fixings,
        node: Candidate,
        mark: Mark,
        value: i128,
        basis: &Basis,
    ) -> i64
        requires few { length trees.now ≤ 40 }
        requires marks { AreFixingsOf trees.now marks.old }
        ensures marks { AreFixingsOf trees.now marks.new }
    {
        let Candidate { bidder, node } = node;
        if usize::from(bidder) >= trees.len() || node >= trees[usize::from(bidder)].nodes() {
            return i64::MAX;
        }
        marks.mark(bidder, node, mark);
        let is_open = self.master.look_at_tree(trees, marks, bidder);
        let mut bound = i64::MIN;
        if is_open {
            self.rows.start_from(basis);
            let close = closing(value);
            let keep = i64::MAX;
            bound = self.rows.solve(&mut self.master, Aim { close, keep });
        }
        marks.mark(bidder, node, Mark::Free);
        self.master.look_at_tree(trees, marks, bidder);
        bound
    }

    /// The node whose sides promise the lowest bounds, where the side has this bound, in 4096ths.
    pub(crate) fn choose(
        &mut self,
        trees: &[Tree],
        marks: &mut Fixings,
        value: i128,
        bound: i64,
    ) -> Option<Candidate>
        requires few { length trees.now ≤ 40 }
        requires marks { AreFixingsOf trees.now marks.old }
        ensures marks { AreFixingsOf trees.now marks.new }
    {
        let nodes = self.nodes(trees, marks);
        let basis = self.rows.basis();
        let close = closing(value).saturating_mul(64);
        let gap = i128::from(bound.saturating_sub(close)).max(1);
        let mut best = None;
        let mut most: i128 = -1;
        for one in nodes.as_slice() {
            let must = self.bound_below(trees, marks, one.node, Mark::Must, value, &basis);
            let never = self.bound_below(trees, marks, one.node, Mark::Never, value, &basis);
            let fall = i128::from(bound.saturating_sub(must)).clamp(1, gap);
            let other_fall = i128::from(bound.saturating_sub(never)).clamp(1, gap);
            let score = fall.saturating_mul(other_fall);
            if score > most {
                most = score;
                best = Some(one.node);
            }
        }
        self.rows.start_from(&basis);
        best
    }
}
