//! What the making of a plan asks of a relaxation.

use arrayvec::ArrayVec;
use ice_defs::Mark;
use ice_relaxation::Candidate;
use std::alloc::AllocError;

/// The marks of a side.
pub trait Marks {
    /// The mark of a node: `Never` for one that isn't there. A node of which one side is dead may
    /// be said to have the mark of the other.
    fn mark_of(&self, node: Candidate) -> Mark;
}

/// A relaxation of a market that looks at one side at a time, with a target. Nothing is promised of
/// what it answers. Where it lacks memory, the marks are any.
pub trait Sides: Marks {
    /// Gives a node of the side another mark.
    fn mark(&mut self, node: Candidate, mark: Mark);

    /// Where the bound of the side is below the target, the number by which the relaxation keeps
    /// what closes the side.
    fn close(&mut self) -> Result<Option<usize>, AllocError>;

    /// Whether the bound of the side is below the target. What is kept by this number, since it
    /// closed a side nearby, is tried first, and what closes this side is kept in its place.
    fn closes_near(&mut self, number: usize) -> Result<bool, AllocError>;
}

/// Nodes at which a side may be split, the best first.
pub type Tries = ArrayVec<Candidate, 8>;

/// What a relaxation sees of a side.
#[derive(Drop)]
pub struct Seen<B> {
    /// The bound of the side, in 64ths. Where it is below the target it may be any number below it.
    pub bound: i64,
    /// The number by which the relaxation keeps what gives the bound.
    pub number: usize,
    /// Nodes at which the side may be split.
    pub tries: Tries,
    /// What the sides below it are solved from.
    pub basis: B,
}

/// A relaxation that gives the bounds of sides, from what was found at sides above them.
pub trait Bounds: Sides {
    /// What is kept of a side.
    type Basis: Drop;

    /// The target, in 64ths: a side is closed where its bound is below. It may rise behind each
    /// look, where an assignment came up that is worth more.
    fn target(&self) -> i64;

    /// What the first side is solved from.
    fn start(&self) -> Result<Self::Basis, AllocError>;

    /// Looks at the side, from what was kept of a side above it.
    fn look(&mut self, from: &Self::Basis) -> Result<Seen<Self::Basis>, AllocError>;
}
