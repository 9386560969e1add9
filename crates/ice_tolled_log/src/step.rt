//! Logs whose leaves have tolls.
ghost use Rattle.std.specs.Prelude.{◌≡◌, ◌++◌, ◌∷◌, [], OnOk, OnErr};
ghost use Rattle.ice_tolled_log.specs.Code.{step_of, steps_of};

use crate::numbers::LeafNumbers;
use std::alloc::{AllocError, Global};
use std::marker::Model;

/// A step of a log whose leaves have tolls.
#[derive(Drop)]
pub enum TolledStep {
    /// Splits its side in two: first the side in which the node is Must, then the one in which it
    /// is Never.
    Branch { bidder: u8, node: u16 },
    /// Closes its side by the bound at these multipliers and tolls.
    Leaf { m: LeafNumbers },
}

/// A list of such steps in preorder.
#[derive(Drop)]
pub struct TolledLog {
    steps: Vec<TolledStep>,
}

impl Model for TolledLog {
    ghost use Rattle.std.specs.Prelude.{List};
    ghost use Rattle.ice_defs.specs.Steps.{Step};
    ghost use Rattle.ice_tolled_log.specs.Code.{steps_of};

    ghost Value = { List Step };

    ghost view = { λ l. steps_of l.steps.items };
}

impl TolledLog {
    /// A log without steps. It takes no memory yet.
    pub fn new(alloc: Global) -> TolledLog
        ensures { result ≡ [] }
    {
        TolledLog {
            steps: Vec::new(alloc),
        }
    }

    /// Appends a step.
    pub fn push(&mut self, step: TolledStep) -> Result<(), AllocError>
        ensures ok { OnOk result (self.new ≡ self.old ++ step_of step ∷ []) }
        ensures err { OnErr result (self.new ≡ self.old) }
    {
        self.steps.push(step)?;
        Ok(())
    }

    /// The steps in order.
    pub fn steps(&self) -> &[TolledStep]
        ensures { steps_of result.now ≡ self.now }
    {
        &self.steps
    }
}
