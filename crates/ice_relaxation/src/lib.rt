//! The relaxation of a side: what its trees net together at many multipliers, worked out quickly,
//! and the nodes that it shows as worth a branch. It guides the steps of a search and decides
//! nothing: what it says is measured and not proved.
#![tactic(auto)]

mod candidates;
mod number;
mod openness;
mod operation;
mod operations;
mod outcome;
mod plan;
mod profile;
mod relaxation;
mod taking;

pub use candidates::{Candidate, Candidates, pick};
pub use openness::{Open, Openness};
pub use operation::{Choice, Leaf, Operation, Row, Rule, Work};
pub use profile::Profile;
pub use relaxation::{Relaxation, Sight};
