//! How a call ends without what it was asked for.
use ice_frac::Wide;
use std::alloc::AllocError;
use thiserror::Error;

/// Why a program has no answer.
#[derive(Clone, Copy, Debug, Error, PartialEq, Eq)]
pub enum LpEnd {
    /// An operation of the trace has a result that doesn't fit a `Frac`.
    #[error("an operation is too wide")]
    Wide,
    /// The trace takes more than 2,000 pivots.
    #[error("the trace takes more than 2,000 pivots")]
    Pivots,
    /// No memory was left. It says nothing of the program.
    #[error("no memory is left")]
    NoMemory,
}

impl From<Wide> for LpEnd {
    ghost use Rattle.std.specs.Prelude.{◌≡◌};
    ghost use Rattle.ice_lp.specs.declared.ends.LpEnd.{LpEnd};

    ghost from_gives = { λ _ e. e ≡ LpEnd.Wide };

    fn from(_: Wide) -> LpEnd {
        LpEnd::Wide
    }
}

impl From<AllocError> for LpEnd {
    ghost use Rattle.std.specs.Prelude.{◌≡◌};
    ghost use Rattle.ice_lp.specs.declared.ends.LpEnd.{LpEnd};

    ghost from_gives = { λ _ e. e ≡ LpEnd.NoMemory };

    fn from(_: AllocError) -> LpEnd {
        LpEnd::NoMemory
    }
}
