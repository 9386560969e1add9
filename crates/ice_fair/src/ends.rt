//! Why there are no fair prices.
use ice_fair_stage::FairLimit;
use ice_price::PriceLimit;
use std::alloc::AllocError;
use thiserror::Error;

/// Why there are no fair prices.
#[derive(Debug, Drop, Error)]
pub enum FairEnd {
    /// Pricing at the low bounds ended at a limit.
    #[error("the pricing run ends at a limit")]
    Price(PriceLimit),
    /// The fairness stage ended at a limit.
    #[error("the fairness stage ends at a limit")]
    Limit(FairLimit),
    /// No memory was left. It says nothing of the prices.
    #[error("no memory is left")]
    NoMemory,
}

impl From<AllocError> for FairEnd {
    ghost use Rattle.std.specs.Prelude.{◌≡◌};
    ghost use Rattle.ice_fair.specs.declared.ends.FairEnd.{FairEnd};

    ghost from_gives = { λ _ e. e ≡ FairEnd.NoMemory };

    fn from(_: AllocError) -> FairEnd {
        FairEnd::NoMemory
    }
}
