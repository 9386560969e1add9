//! What a search gives.
ghost use Rattle.std.specs.Prelude.{◌≡◌};

use ice_refute::Log;
use ice_tree::Assignment;
use std::alloc::AllocError;

/// The best feasible assignment that meets the start.
#[derive(Drop)]
pub struct Found {
    /// One set for each bidder.
    pub best: Assignment,
    /// What they are worth.
    pub value: i128,
    /// It refutes every feasible assignment that meets the start and is worth more.
    pub log: Log,
}

/// What is known where the branches were spent.
pub struct Spent {
    /// A feasible assignment that meets the start: one set for each bidder.
    pub found: Assignment,
    /// What they are worth.
    pub value: i128,
    /// No feasible assignment that meets the start is worth more than this, which is above the
    /// value.
    pub bound: i128,
    /// It refutes every feasible assignment that meets the start and is worth more than the bound.
    pub log: Log,
}

// By hand, so that each exit that drops one has one call to prove, and not all its parts.
impl Drop for Spent {
    fn drop(self) {
        let Spent {
            found: _,
            value: _,
            bound: _,
            log: _,
        } = self;
    }
}

impl Spent {
    /// The assignment alone.
    pub(crate) fn into_found(self) -> Assignment
        ensures { result ≡ self.found }
    {
        let Spent {
            found,
            value: _,
            bound: _,
            log: _,
        } = self;
        found
    }
}

/// Why a search doesn't find the best assignment.
#[derive(Drop)]
pub enum SearchEnd {
    /// All branches were used, and something better may be left.
    Spent(Spent),
    /// No memory was left. It says nothing of the assignments.
    NoMemory,
}

impl From<AllocError> for SearchEnd {
    ghost use Rattle.std.specs.Prelude.{◌≡◌};
    ghost use Rattle.ice_search.specs.declared.results.SearchEnd.{SearchEnd};

    ghost from_gives = { λ _ e. e ≡ SearchEnd.NoMemory };

    fn from(_: AllocError) -> SearchEnd {
        SearchEnd::NoMemory
    }
}
