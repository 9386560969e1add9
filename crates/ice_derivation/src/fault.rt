//! Why a record of a derivation, or a leaf with tolls, fails.
use ice_refute::StepFault;
use thiserror::Error;

/// The first test that a record of a derivation fails, or a step of a log with tolls, in the order
/// in which the tests are taken.
#[derive(Clone, Copy, Debug, Error, PartialEq, Eq)]
pub enum Fault {
    /// Another record stands here than may stand here, or the bidders of amounts don't ascend.
    #[error("the record may not stand here")]
    Order,
    /// There is one derived good more than is allowed, or amounts name no bidder or no node.
    #[error("no such derived good, bidder or node")]
    Derived,
    /// A change names neither a good nor a derived good that stands, or the number that is there.
    #[error("a change is none")]
    Near,
    /// The step doesn't pass at its side.
    #[error("{0}")]
    Step(StepFault),
}

impl From<StepFault> for Fault {
    ghost use Rattle.std.specs.Prelude.{◌≡◌};
    ghost use Rattle.ice_derivation.specs.declared.fault.Fault.{Fault};

    ghost from_gives = { λ why fault. fault ≡ Fault.Step why };

    fn from(fault: StepFault) -> Fault {
        Fault::Step(fault)
    }
}
