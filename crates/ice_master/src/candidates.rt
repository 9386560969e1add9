//! Nodes to split a side at: those that the mix of the last solve has in part.

use crate::form::Form;
use crate::master::Master;
use crate::mix::{NEARLY, Shares};
use crate::scale::{ONE, product};
use arrayvec::ArrayVec;
use ice_relaxation::{Candidate, Work};

/// A node that the mix has in part.
#[derive(Clone, Copy, Default)]
pub struct Shared {
    /// The node.
    pub node: Candidate,
    /// The share of it in the mix, in parts of 2^-40.
    pub share: i64,
    /// How much a branch at it promises.
    score: i128,
}

/// At most eight such nodes, the best first.
pub type Candidates = ArrayVec<Shared, 8>;

/// Puts a candidate in its place, behind those of the same score.
fn put(candidates: &mut Candidates, candidate: Shared) {
    let behind = candidates
        .iter()
        .position(|other| other.score < candidate.score);
    let place = behind.unwrap_or(candidates.len());
    if place >= 8 {
        return;
    }
    if candidates.is_full() {
        candidates.pop();
    }
    candidates.insert(place, candidate);
}

impl Master {
    /// The free nodes that a choice above leaves open and that the mix of the last solve has in
    /// part, at most eight: those first of which it has about a half and that are worth much.
    pub fn candidates(&self) -> Candidates {
        let mut candidates = ArrayVec::new();
        let mut seen: u64 = 0;
        for place in 0..self.market.goods {
            if let Some(bidder) = self.tableau.basis.basic(place).bidder() {
                if (seen >> (bidder % 64)) & 1 == 0 {
                    seen |= 1 << (bidder % 64);
                    self.add_candidates(bidder, &mut candidates);
                }
            }
        }
        candidates
    }

    /// Adds the candidates of one tree.
    fn add_candidates(&self, bidder: u8, candidates: &mut Candidates) {
        let Some(form) = self.forms.get(usize::from(bidder)) else {
            return;
        };
        let shares = self.shares_of(bidder);
        for number in 0..form.len() {
            if let Work::Choice(choice) = form.operation(number).work {
                for place in choice.offered..choice.end {
                    self.add_candidate(form, bidder, form.operand(place), &shares, candidates);
                }
            }
        }
        if let Some(root) = form.optional_root() {
            self.add_candidate(form, bidder, root, &shares, candidates);
        }
    }

    /// Adds the node of an operation, where the mix has it in part.
    fn add_candidate(
        &self,
        form: &Form,
        bidder: u8,
        number: u8,
        shares: &Shares,
        candidates: &mut Candidates,
    ) {
        let operation = form.operation(number);
        let share = shares[usize::from(operation.node)];
        let part = share.min(ONE.saturating_sub(share));
        if part > NEARLY && self.pool.is_free(bidder, operation.node) {
            let worth = operation.worth.saturating_abs().saturating_add(1);
            put(
                candidates,
                Shared {
                    node: Candidate {
                        bidder,
                        node: u16::from(operation.node),
                    },
                    share,
                    score: product(part, worth),
                },
            );
        }
    }
}
