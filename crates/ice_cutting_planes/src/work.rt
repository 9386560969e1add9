//! How much work prices took, and why they were given up.
ghost use Rattle.std.specs.Prelude.{◌≡◌};
ghost use Rattle.ice_cutting_planes.specs.Works.{no_work};

use std::alloc::{AllocError, AllocFailed};

/// The most pivots that prices may take.
pub(crate) const MOST_PIVOTS: u32 = 5_000;

/// The most columns that a dictionary may have.
pub(crate) const MOST_COLUMNS: usize = 400;

/// What was done to find prices.
#[derive(Clone, Copy, Debug, PartialEq, Eq)]
pub struct Work {
    /// How often a program was solved.
    pub turns: u32,
    /// The pivots of all of them.
    pub pivots: u32,
    /// The most columns that a dictionary had.
    pub columns: usize,
    /// Whether prices over a long denominator were rounded.
    pub is_rounded: bool,
}

impl Work {
    /// No work.
    pub fn none() -> Work
        ensures { result ≡ no_work }
    {
        Work {
            turns: 0,
            pivots: 0,
            columns: 0,
            is_rounded: false,
        }
    }
}

/// Why no prices were found.
#[derive(Clone, Copy, Debug, PartialEq, Eq)]
pub enum GivenUp {
    /// A number of a dictionary doesn't fit 128 bits.
    Wide,
    /// All pivots were taken, or all turns or columns of a stage, or nothing bounds the entering
    /// variable.
    Spent,
    /// A denominator or a weight is above 2^32.
    Long,
    /// No memory was left.
    NoMemory,
}

impl From<AllocError> for GivenUp {
    ghost use Rattle.std.specs.Prelude.{◌≡◌};
    ghost use Rattle.ice_cutting_planes.specs.declared.work.GivenUp.{GivenUp};

    ghost from_gives = { λ _ e. e ≡ GivenUp.NoMemory };

    fn from(_: AllocError) -> GivenUp {
        GivenUp::NoMemory
    }
}

impl<T: Drop> From<AllocFailed<T>> for GivenUp {
    ghost use Rattle.std.specs.Prelude.{◌≡◌};
    ghost use Rattle.ice_cutting_planes.specs.declared.work.GivenUp.{GivenUp};

    ghost from_gives = { λ _ e. e ≡ GivenUp.NoMemory };

    fn from(_failed: AllocFailed<T>) -> GivenUp {
        GivenUp::NoMemory
    }
}
