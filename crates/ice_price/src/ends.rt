//! How a pricing run ends without prices.
use ice_defs::{LimitKind, PricingStage};
use ice_turns::PoolMember;
use std::alloc::AllocError;
use thiserror::Error;

/// Where a pricing run stood when it ended at a limit.
#[derive(Debug, Drop)]
pub struct PriceLimit {
    /// The stage.
    pub stage: PricingStage,
    /// The limit.
    pub kind: LimitKind,
    /// In the balance stage the violation of the accuracy stage, times `den`; else 0.
    pub delta: i128,
    /// In the balance stage the denominator of the accuracy stage; else 1.
    pub den: u64,
    /// The sets whose rows the program had.
    pub pool: Vec<PoolMember>,
}

/// Why there are no prices.
#[derive(Debug, Drop, Error)]
pub enum PriceEnd {
    /// The pricing run ended at a limit.
    #[error("the pricing run ends at a limit")]
    Limit(PriceLimit),
    /// No memory was left. It says nothing of the prices.
    #[error("no memory is left")]
    NoMemory,
}

impl From<AllocError> for PriceEnd {
    ghost use Rattle.std.specs.Prelude.{◌≡◌};
    ghost use Rattle.ice_price.specs.declared.ends.PriceEnd.{PriceEnd};

    ghost from_gives = { λ _ e. e ≡ PriceEnd.NoMemory };

    fn from(_: AllocError) -> PriceEnd {
        PriceEnd::NoMemory
    }
}
