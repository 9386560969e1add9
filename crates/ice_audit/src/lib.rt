//! The audit of a private statement: a bidder tests what it was shown, with no journal.
#![tactic(auto)]

mod answer;
mod auditing;
mod auditor;
mod closing;
mod line;
mod next;
mod rounds;
mod settlements;
mod standing;

pub use answer::AuditAnswer;
pub use auditing::audit;
pub use ice_journal_laws::{CheckEnd, Rule};
