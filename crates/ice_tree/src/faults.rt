//! Why a tree, bounds or a set is refused.
ghost use Rattle.std.specs.Prelude.{◌≡◌};
ghost use Rattle.ice_tree.specs.Fault.{tree_fault_number, bounds_fault_number};

use ice_defs::SatRule;
use thiserror::Error;

/// Why a tree's maker refuses a call.
#[derive(Clone, Copy, Debug, Error, PartialEq, Eq)]
pub enum TreeFault {
    /// A choose node has no child, or its interval doesn't fit its children.
    #[error("a choose node's interval does not fit its children")]
    BadInterval,
    /// The lower value is above the upper one.
    #[error("the lower value is above the upper one")]
    Crossed,
    /// A value, the units or the good is outside its limits.
    #[error("a value, the units or the good is out of range")]
    OutOfRange,
    /// The tree has 200 nodes already.
    #[error("the tree has too many nodes")]
    TooManyNodes,
    /// The node would have a depth of 17.
    #[error("the tree is too deep")]
    TooDeep,
    /// A node is open, or none is, or the tree is complete.
    #[error("a node is open that may not be, or none is open")]
    Unclosed,
}

impl TreeFault {
    /// The number of this refusal in reports.
    pub fn number(&self) -> u8
        ensures { result ≡ tree_fault_number self.now }
    {
        match self {
            TreeFault::BadInterval => 20,
            TreeFault::Crossed => 21,
            TreeFault::OutOfRange => 22,
            TreeFault::TooManyNodes => 23,
            TreeFault::TooDeep => 24,
            TreeFault::Unclosed => 25,
        }
    }
}

/// Why new bounds are refused.
#[derive(Clone, Copy, Debug, Error, PartialEq, Eq)]
pub enum BoundsFault {
    /// A list has not one value per node.
    #[error("a list has not one value for each node")]
    WrongCount,
    /// A value is outside its limits.
    #[error("a value is out of range")]
    OutOfRange,
    /// A lower value is above the upper one.
    #[error("a lower value is above the upper one")]
    Crossed,
}

impl BoundsFault {
    /// The number of this refusal in reports.
    pub fn number(&self) -> u8
        ensures { result ≡ bounds_fault_number self.now }
    {
        match self {
            BoundsFault::WrongCount => 26,
            BoundsFault::OutOfRange => 22,
            BoundsFault::Crossed => 21,
        }
    }
}

/// The least node at fault in a set that isn't satisfied, and the first rule that it breaks.
#[derive(Clone, Copy, Debug, PartialEq, Eq)]
pub struct SatFault {
    /// The node's number.
    pub node: u16,
    /// The rule.
    pub rule: SatRule,
}
