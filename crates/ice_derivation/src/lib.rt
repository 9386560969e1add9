//! The derivations of a journal, taken record by record: derived goods, each with the log by which
//! it follows from those before it, and logs of groups whose leaves have tolls on them.
#![tactic(auto)]

ghost use Rattle.ice_derivation.specs.Laws.{WalkedPasses};

mod derivations;
mod fault;
mod walk;

pub use derivations::Derivations;
pub use fault::Fault;
pub use ice_journal::Numbered;
pub use walk::TollWalk;

/// A log that is walked until no side is open passes.
#[tactic(auto, using(crate::proofs::Walked::walked_passes))]
pub fn walked_logs_pass()
    ensures { WalkedPasses }
{}
