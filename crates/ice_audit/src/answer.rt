//! What the audit answers.
use ice_frac::Frac;
use ice_journal_laws::Rule;

/// What the audit answers of bytes that are lines of a statement.
#[derive(Clone, Copy, PartialEq, Eq)]
pub enum AuditAnswer {
    /// Every test passes: the bidder's payment, in lowest terms.
    Yes { payment: Frac },
    /// The first failed test: its line, from 1, and its rule.
    No { line: u64, rule: Rule },
}
