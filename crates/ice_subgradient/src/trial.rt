//! Trials: the candidates for a branch are compared by what the bounds of both children fall to.
ghost use Rattle.std.specs.Prelude.{◌≡◌, ◌<◌, ◌≤◌, length};
ghost use Rattle.ice_defs.specs.Conditions.{AreWeightsOf, AreFixingsOf};

use crate::course::Goods;
use crate::descent::Descent;
use crate::polishing::{goods_of, numbers_of};
use crate::trace::Trace;
use ice_best::{Fixings, Mark};
use ice_bound::{Kept, NetSum};
use ice_relaxation::{Candidate, Candidates, Relaxation, pick};
use ice_tree::{AllWeights, Tree};

/// A child whose sum doesn't fall counts as if it fell by so many 64ths, so that the other child's
/// fall still counts.
const LEAST_FALL: i128 = 8;

/// A candidate, with what a descent at each of its children came to.
#[derive(Drop)]
pub struct Trial {
    candidate: Option<Candidate>,
    must: Trace,
    never: Trace,
}

impl Trial {
    /// That of no candidate.
    pub fn none() -> Trial {
        Trial {
            candidate: None,
            must: Trace::none(),
            never: Trace::none(),
        }
    }

    /// Forgets the candidate.
    pub fn forget(&mut self) {
        self.candidate = None;
    }

    /// Whether it is the candidate's.
    pub fn is_of(&self, candidate: Candidate) -> bool {
        self.candidate == Some(candidate)
    }

    /// What the descent at a child came to: at the Must child, or at the Never child.
    pub fn trace(&self, mark: Mark) -> &Trace {
        match mark {
            Mark::Must => &self.must,
            _ => &self.never,
        }
    }

    /// How much a branch promises: the product of the falls at both children, so that both count.
    fn promise(&self, stand: &Stand) -> i128 {
        fall(stand, self.must.total).saturating_mul(fall(stand, self.never.total))
    }

    /// Whether both children are closed, so that no other candidate promises more.
    fn closes(&self, stand: &Stand) -> bool {
        is_closed(stand, self.must.total) && is_closed(stand, self.never.total)
    }
}

/// Where the candidates are tried.
#[derive(Clone, Copy)]
struct Stand {
    goods: Goods,
    m: [i64; 32],
    /// The sum of the greatest nets of the side itself.
    total: i128,
    value: i128,
    steps: u16,
}

/// How far the sum falls to a child's, down to where the child is closed.
fn fall(stand: &Stand, total: i128) -> i128 {
    let closing = stand.value.saturating_mul(64);
    stand
        .total
        .saturating_sub(total.max(closing))
        .max(0)
        .saturating_add(LEAST_FALL)
}

/// Whether a child with this sum is closed.
fn is_closed(stand: &Stand, total: i128) -> bool {
    total >> 6 <= stand.value
}

/// What a descent on the relaxation comes to at a child.
fn try_child(
    trees: &[Tree],
    weights: &AllWeights,
    marks: &Fixings,
    relaxation: &mut Relaxation,
    stand: &Stand,
    candidate: Candidate,
    mark: Mark,
) -> Trace
    requires few { length trees.now ≤ 40 }
    requires weights { AreWeightsOf trees.now weights.now }
    requires marks { AreFixingsOf trees.now marks.now }
    requires same { relaxation.old ≡ length trees.now }
    requires bidder { candidate.bidder < length trees.now }
    ensures { relaxation.new ≡ relaxation.old }
{
    relaxation.look_at_child(
        trees,
        weights,
        marks,
        candidate.bidder,
        candidate.node,
        mark,
    );
    relaxation.clear();
    let mut descent = Descent::from(stand.goods, &stand.m, relaxation, stand.steps);
    let mut trace = Trace::follow(&mut descent, relaxation, stand.value);
    trace.keep_candidates(pick(trees, marks, relaxation));
    trace
}

/// The trial of a candidate; None where its bidder isn't there.
fn try_candidate(
    trees: &[Tree],
    weights: &AllWeights,
    marks: &Fixings,
    relaxation: &mut Relaxation,
    stand: &Stand,
    candidate: Candidate,
) -> Option<Trial>
    requires few { length trees.now ≤ 40 }
    requires weights { AreWeightsOf trees.now weights.now }
    requires marks { AreFixingsOf trees.now marks.now }
    requires same { relaxation.old ≡ length trees.now }
    ensures { relaxation.new ≡ relaxation.old }
{
    if usize::from(candidate.bidder) >= trees.len() {
        return None;
    }
    let must = try_child(
        trees,
        weights,
        marks,
        relaxation,
        stand,
        candidate,
        Mark::Must,
    );
    let never = try_child(
        trees,
        weights,
        marks,
        relaxation,
        stand,
        candidate,
        Mark::Never,
    );
    relaxation.look_at_tree(trees, weights, marks, candidate.bidder);
    Some(Trial {
        candidate: Some(candidate),
        must,
        never,
    })
}

/// The candidate that promises most where both of its children are looked at in so many steps: of
/// several the first. None where there is no candidate. Where several were tried, its trial is
/// kept. The side is the one that bounds are kept of. Takes no memory.
pub fn most_promising(
    candidates: &Candidates,
    relaxation: &mut Relaxation,
    kept: &Kept<'_>,
    value: i128,
    steps: u16,
    kept_trial: &mut Trial,
) -> Option<Candidate>
    requires { relaxation.old ≡ length kept.now.trees }
    ensures { relaxation.new ≡ relaxation.old }
{
    kept_trial.forget();
    if candidates.len() <= 1 {
        return candidates.first().copied();
    }
    let total = match kept.net_sum() {
        NetSum::Sum(total) => total,
        NetSum::Dead(_) => 0,
    };
    let trees = kept.trees();
    let weights = kept.weights();
    let marks = kept.marks();
    let stand = Stand {
        goods: goods_of(kept),
        m: numbers_of(kept.multipliers()),
        total,
        value,
        steps,
    };
    let mut most: i128 = -1;
    for &candidate in candidates.as_slice() {
        let Some(trial) = try_candidate(trees, weights, marks, relaxation, &stand, candidate) else {
            continue;
        };
        let closes = trial.closes(&stand);
        let promise = trial.promise(&stand);
        if promise > most {
            most = promise;
            *kept_trial = trial;
        }
        if closes {
            break;
        }
    }
    kept_trial.candidate
}
