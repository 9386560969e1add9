//! Why flat bids are not translated.
ghost use Rattle.std.specs.Prelude.{◌≡◌};
ghost use Rattle.ice_xor.specs.Faults.{maker_fault_number};

use ice_trade::MakeFault;
use ice_tree::TreeFault;
use thiserror::Error;

/// Why a maker refuses what a bidder's packages say.
#[derive(Clone, Copy, Debug, Error, PartialEq, Eq)]
pub enum MakerFault {
    /// The tree's maker refuses a node.
    #[error("{0}")]
    Tree(TreeFault),
    /// The exchange's maker refuses the bidder.
    #[error("{0}")]
    Make(MakeFault),
}

impl MakerFault {
    /// The number of this refusal in reports, and None for want of memory, which no maker of flat
    /// bids tells.
    pub fn number(&self) -> Option<u8>
        ensures { result ≡ maker_fault_number self.now }
    {
        match self {
            MakerFault::Tree(fault) => Some(fault.number()),
            MakerFault::Make(fault) => fault.number(),
        }
    }
}

/// Why flat bids are not translated.
#[derive(Clone, Copy, Debug, Error, PartialEq, Eq)]
pub enum TranslateFault {
    /// A maker refuses what the bidder with this number says.
    #[error("bidder {bidder}: {cause}")]
    Refused { bidder: u8, cause: MakerFault },
    /// There is no memory left.
    #[error("no memory is left")]
    NoMemory,
}
