//! Why a maker refuses, and why an assignment is not feasible.
ghost use Rattle.std.specs.Prelude.{◌≡◌};
ghost use Rattle.ice_trade.specs.Fault.{make_fault_number};

use thiserror::Error;

/// Why an exchange's maker refuses a call.
#[derive(Clone, Copy, Debug, Error, PartialEq, Eq)]
pub enum MakeFault {
    /// A good of this name is there.
    #[error("a good of this name is there already")]
    DuplicateGood,
    /// A bidder of this name is there.
    #[error("a bidder of this name is there already")]
    DuplicateBidder,
    /// There would be more than 32 goods, 40 bidders or 2,000 nodes of all trees together.
    #[error("there are too many goods, bidders or nodes")]
    TooMany,
    /// A name isn't 1 to 32 letters, digits, `_`, `-` and dots.
    #[error("this is not a name")]
    BadName,
    /// The tree may sell more of a good than the bidder owns: the good's number, and the units that
    /// may be sold at most.
    #[error("the bidder may sell {amount} units of good {good}, which it does not own")]
    OverSale { good: u8, amount: i64 },
    /// There is no good or no bidder.
    #[error("there is no good or no bidder")]
    Empty,
    /// A good comes after a bidder.
    #[error("a good may not follow a bidder")]
    Late,
    /// There is no memory left.
    #[error("no memory is left")]
    NoMemory,
}

impl MakeFault {
    /// The number of this refusal in reports, and None for want of memory.
    pub fn number(&self) -> Option<u8>
        ensures { result ≡ make_fault_number self.now }
    {
        match self {
            MakeFault::DuplicateGood => Some(10),
            MakeFault::DuplicateBidder => Some(11),
            MakeFault::TooMany => Some(12),
            MakeFault::BadName => Some(13),
            MakeFault::OverSale { .. } => Some(14),
            MakeFault::Empty => Some(16),
            MakeFault::Late => Some(17),
            MakeFault::NoMemory => None,
        }
    }
}

/// The least good whose units don't balance in an assignment, and their sum: units bought less
/// units sold.
#[derive(Clone, Copy, Debug, PartialEq, Eq)]
pub struct TradeFault {
    /// The good's number.
    pub good: u8,
    /// What is bought less what is sold.
    pub excess: i64,
}
