//! Why new bounds are refused.
ghost use Rattle.std.specs.Prelude.{◌≡◌, Err, false};
ghost use Rattle.ice_defs.specs.Round.{is_acceptance};
ghost use Rattle.ice_rules.specs.Verdicts.{verdict_of};

use ice_defs::Verdict;

/// Why new bounds are refused.
#[derive(Clone, Copy)]
pub enum Refusal {
    /// A lower value is above the upper one, first at this node.
    Crossed { node: u16 },
    /// A value reaches beyond the old bounds, first at this node.
    Loosened { node: u16 },
    /// The first rule fails at the new bounds.
    Mrpar,
    /// The second rule fails at them.
    Improve,
}

impl Refusal {
    /// The verdict that says so.
    pub fn verdict(self) -> Verdict
        ensures verdict { result ≡ verdict_of (Err self) }
        ensures refuses { is_acceptance result ≡ false }
    {
        match self {
            Refusal::Crossed { node } => Verdict::Crossed { node },
            Refusal::Loosened { node } => Verdict::Loosened { node },
            Refusal::Mrpar => Verdict::Mrpar,
            Refusal::Improve => Verdict::Improve,
        }
    }
}
