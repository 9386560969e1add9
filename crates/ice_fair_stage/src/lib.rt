//! The fairness stage by its stated run: of the prices that are accurate for final sets, those that
//! come nearest to the payments, by turns of a program over a pool of sets.
#![tactic(auto)]

mod certificate;
mod certified;
mod ends;
mod program;
mod run;
mod solution;
mod stage;
mod turn;

pub use certificate::FairCertificate;
pub use certified::GREATEST_FAIR_NUMBER;
pub use ends::{FairLimit, FairStageEnd, FairStop};
pub use run::run_fair_stage;
