//! What the checker answers.
use crate::rule::Rule;
use ice_frac::Frac;
use std::fmt::{self, Debug, Formatter, Write};

/// What the checker answers of a journal of a kind that it checks.
#[derive(Clone, Copy, PartialEq, Eq)]
pub enum Answer {
    /// A journal of kind assign passes every test: the value of its sets at lower bounds.
    Assign { value: i128 },
    /// A journal of kind regret passes every test: the regret of its final sets.
    Regret { amount: i128 },
    /// A session passes every test: the regret of its last settlement, at which it closes, and the
    /// surplus that its payments leave.
    Closed { regret: i128, surplus: Frac },
    /// The first failed test: its line, from 1, and its rule.
    No { line: u64, rule: Rule },
}

impl Debug for Answer {
    fn fmt<W: Write>(&self, f: &mut Formatter<W>) -> fmt::Result {
        match self {
            Answer::Assign { value } => write!(f, "Assign {{ value: {value} }}"),
            Answer::Regret { amount } => write!(f, "Regret {{ amount: {amount} }}"),
            Answer::Closed { regret, surplus } => {
                let num = surplus.num();
                let den = surplus.den();
                write!(f, "Closed {{ regret: {regret}, surplus: {num}/{den} }}")
            }
            Answer::No { line, rule } => write!(f, "No {{ line: {line}, rule: {rule:?} }}"),
        }
    }
}

/// Why bytes have no answer.
#[derive(Clone, Copy, PartialEq, Eq, Debug)]
pub enum CheckEnd {
    /// This line is no record, and none before it is at fault.
    Grammar { line: u64 },
    /// The last line has no newline, and none before it is at fault.
    Unended { line: u64 },
    /// Every line is a record, and the first is no head of a kind that is checked, or there is no
    /// line.
    OtherKind,
    /// Memory ran out.
    NoMemory,
}
