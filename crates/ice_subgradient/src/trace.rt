//! What a descent at a child came to, kept so that its steps need not be taken again.
ghost use Rattle.std.specs.Prelude.{◌≡◌};

use crate::descent::Descent;
use arrayvec::ArrayVec;
use ice_relaxation::{Candidates, Relaxation};

/// After so many assignments that came up, a descent is taken as it is.
const MOST_FINDS: usize = 4;

/// What a descent came to: the numbers of the multipliers where assignments came up, in order, and
/// of those of the least sum at the end; that sum; and nodes to split the side at.
#[derive(Drop)]
pub struct Trace {
    looks: [[i64; 32]; MOST_FINDS + 1],
    count: usize,
    pub(crate) total: i128,
    candidates: Candidates,
}

impl Trace {
    /// That of no descent.
    pub(crate) fn none() -> Trace {
        Trace {
            looks: [[0; 32]; MOST_FINDS + 1],
            count: 0,
            total: 0,
            candidates: ArrayVec::new(),
        }
    }

    /// Goes down to the end, from a value that is known.
    pub(crate) fn follow(descent: &mut Descent, relaxation: &mut Relaxation, value: i128) -> Trace
        ensures { relaxation.new ≡ relaxation.old }
    {
        let mut trace = Trace::none();
        for _find in 0..MOST_FINDS {
            descent.go(relaxation, value);
            if descent.is_over() {
                break;
            }
            trace.push(descent.sought());
        }
        trace.push(descent.least_multipliers());
        trace.total = descent.least_total();
        trace
    }

    /// Keeps one place more to look at, where there is room.
    fn push(&mut self, numbers: &[i64; 32]) {
        if let Some(place) = self.looks.get_mut(self.count) {
            *place = *numbers;
            self.count += 1;
        }
    }

    /// The places to look at.
    pub(crate) fn looks(&self) -> &[[i64; 32]] {
        &self.looks[..self.count.min(MOST_FINDS + 1)]
    }

    /// Keeps the nodes to split the side at.
    pub(crate) fn keep_candidates(&mut self, candidates: Candidates) {
        self.candidates = candidates;
    }

    /// Nodes to split the side at, the best first.
    pub fn candidates(&self) -> Candidates {
        let mut candidates = ArrayVec::new();
        let _whole = candidates.try_extend_from_slice(self.candidates.as_slice());
        candidates
    }
}
