//! Steps and logs.
ghost use Rattle.std.specs.Prelude.{◌≡◌, ◌++◌, ◌∷◌, [], OnOk, OnErr};
ghost use Rattle.ice_refute.specs.Code.{step_of, steps_of};

use ice_bound::Multipliers;
use std::alloc::{AllocError, Global};
use std::marker::Model;

/// A step of a log.
#[derive(Drop)]
pub enum Step {
    /// Splits its side in two: first the side in which the node is Must, then the one in which it
    /// is Never.
    Branch { bidder: u8, node: u16 },
    /// Closes its side by the bound at these multipliers.
    Leaf { m: Multipliers },
    /// Closes its side since no satisfied set of the bidder meets it.
    Dead { bidder: u8 },
}

/// A list of steps in preorder.
#[derive(Drop)]
pub struct Log {
    steps: Vec<Step>,
}

impl Model for Log {
    ghost use Rattle.std.specs.Prelude.{List};
    ghost use Rattle.ice_defs.specs.Steps.{Step as PlainStep};

    ghost Value = { List PlainStep };

    ghost use Rattle.ice_refute.specs.Code.{steps_of};

    ghost view = { λ l. steps_of l.steps.items };
}

impl Log {
    /// A log without steps. It takes no memory yet.
    pub fn new(alloc: Global) -> Log
        ensures { result ≡ [] }
    {
        Log {
            steps: Vec::new(alloc),
        }
    }

    /// Appends a step.
    pub fn push(&mut self, step: Step) -> Result<(), AllocError>
        ensures ok { OnOk result (self.new ≡ self.old ++ step_of step ∷ []) }
        ensures err { OnErr result (self.new ≡ self.old) }
    {
        self.steps.push(step)?;
        Ok(())
    }

    /// The steps in order.
    pub fn steps(&self) -> &[Step]
        ensures { steps_of result.now ≡ self.now }
    {
        &self.steps
    }
}
