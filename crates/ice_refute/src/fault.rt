//! Why a step or a log doesn't pass.
use thiserror::Error;

/// Why a step doesn't pass at its side.
#[derive(Clone, Copy, Debug, Error, PartialEq, Eq)]
pub enum StepFault {
    /// The branch names no node, or a node that isn't free in its side.
    #[error("the branch is not at a free node")]
    Fixed,
    /// The leaf has a negative multiplier of a good that isn't exact.
    #[error("the leaf has a negative multiplier of a good that is not exact")]
    Sign,
    /// The bound of the leaf's side is above the target.
    #[error("the bound is {bound}, above the target")]
    Above { bound: i128 },
    /// The dead step names no bidder, or one that a satisfied set serves.
    #[error("the bidder is not dead")]
    NotDead,
}

/// The first fault of a log, with the number of its step, counted from 0.
#[derive(Clone, Copy, Debug, Error, PartialEq, Eq)]
pub enum LogFault {
    /// A step doesn't pass.
    #[error("step {step}: {fault}")]
    At { step: u64, fault: StepFault },
    /// The steps end with a side open.
    #[error("the steps end with a side open")]
    Short,
    /// A step stands after all sides are closed.
    #[error("step {step} stands after all sides are closed")]
    Long { step: u64 },
}
