//! How the fairness stage ends.
use crate::certificate::FairCertificate;
use ice_defs::LimitKind;
use ice_frac::Frac;
use ice_terms::Prices;
use ice_turns::PoolMember;
use std::alloc::AllocError;
use thiserror::Error;

/// Fair prices as the stage ends with them, with what shows them to be fair.
#[derive(Drop)]
pub struct FairStageEnd {
    /// The sets whose rows the last program had.
    pub pool: Vec<PoolMember>,
    /// The prices.
    pub prices: Prices,
    /// Their violation, in hundredths and times their denominator.
    pub violation: i128,
    /// The greatest size of a bidder's payment less what its set costs.
    pub distance: Frac,
    /// What shows that no prices of this violation have a smaller distance.
    pub certificate: FairCertificate,
}

/// Where the fairness stage stood when it ended at a limit.
#[derive(Debug, Drop)]
pub struct FairLimit {
    /// The limit.
    pub kind: LimitKind,
    /// The violation that accurate prices have, in hundredths and times `den`.
    pub delta: i128,
    /// The denominator of those prices.
    pub den: u64,
    /// The sets whose rows the program had.
    pub pool: Vec<PoolMember>,
}

/// Why the fairness stage has no prices.
#[derive(Debug, Drop, Error)]
pub enum FairStop {
    /// It ended at a limit.
    #[error("the fairness stage ends at a limit")]
    Limit(FairLimit),
    /// No memory was left. It says nothing of the prices.
    #[error("no memory is left")]
    NoMemory,
}

impl From<AllocError> for FairStop {
    ghost use Rattle.std.specs.Prelude.{◌≡◌};
    ghost use Rattle.ice_fair_stage.specs.declared.ends.FairStop.{FairStop};

    ghost from_gives = { λ _ e. e ≡ FairStop.NoMemory };

    fn from(_: AllocError) -> FairStop {
        FairStop::NoMemory
    }
}
