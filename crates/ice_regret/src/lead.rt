//! The regret of an assignment, and what shows it.
ghost use Rattle.std.specs.Prelude.{◌≡◌};

use ice_refute::Log;
use ice_tree::Assignment;

/// The regret of an assignment, with the rival that attains it.
pub struct Regret {
    /// The greatest lead over the assignment of any feasible assignment, under any true values
    /// inside the bounds.
    pub amount: i128,
    /// What the rival is worth at perturbed values: the lower ones on the nodes of the assignment,
    /// the upper ones elsewhere.
    pub value: i128,
    /// The rival: one set for each bidder. It leads by the amount at perturbed values.
    pub rival: Assignment,
    /// It refutes every feasible assignment that is worth more than the rival at perturbed values.
    pub log: Log,
}

// By hand, so that each exit that drops one has one call to prove, and not all its parts.
impl Drop for Regret {
    fn drop(self) {
        let Regret {
            amount: _,
            value: _,
            rival: _,
            log: _,
        } = self;
    }
}

impl Regret {
    /// The rival alone.
    pub(crate) fn into_rival(self) -> Assignment
        ensures { result ≡ self.rival }
    {
        let Regret {
            amount: _,
            value: _,
            rival,
            log: _,
        } = self;
        rival
    }
}
