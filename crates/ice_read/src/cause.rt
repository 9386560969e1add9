//! Why a file in JSON is refused.
ghost use Rattle.std.specs.Prelude.{◌≡◌};
ghost use Rattle.ice_read.specs.Cause.{cause_number};

use ice_trade::MakeFault;
use ice_tree::TreeFault;
use thiserror::Error;

/// Why a file in JSON is refused.
#[derive(Clone, Copy, Debug, Error, PartialEq, Eq)]
pub enum ReadCause {
    /// The bytes are not JSON.
    #[error("this is not JSON")]
    NotJson,
    /// A value is not of the type that its place asks for, or an object has other members.
    #[error("this value is not of the form that belongs here")]
    Shape,
    /// A number is not a whole number.
    #[error("this number is not whole")]
    NotWhole,
    /// A whole number is outside its limits, or a list is too long.
    #[error("this is out of range")]
    Range,
    /// There is no good of this name.
    #[error("there is no good of this name")]
    UnknownGood,
    /// A package has no good.
    #[error("a package has no good")]
    NoUnits,
    /// A bidder has no package.
    #[error("a bidder has no package")]
    NoPackages,
    /// A tree's maker refuses a node.
    #[error("{0}")]
    Tree(TreeFault),
    /// The exchange's maker refuses a good, a bidder or the whole.
    #[error("{0}")]
    Make(MakeFault),
    /// There is no memory left.
    #[error("no memory is left")]
    NoMemory,
}

impl ReadCause {
    /// The number of this refusal in reports, and None for want of memory.
    pub fn number(&self) -> Option<u8>
        ensures { result ≡ cause_number self.now }
    {
        match self {
            ReadCause::NotJson => Some(1),
            ReadCause::Shape => Some(2),
            ReadCause::NotWhole => Some(3),
            ReadCause::Range => Some(4),
            ReadCause::UnknownGood => Some(5),
            ReadCause::NoUnits => Some(90),
            ReadCause::NoPackages => Some(91),
            ReadCause::Tree(fault) => Some(fault.number()),
            ReadCause::Make(fault) => fault.number(),
            ReadCause::NoMemory => None,
        }
    }
}
