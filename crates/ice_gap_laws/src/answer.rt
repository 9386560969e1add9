//! What a journal shows that stops at a spent search.
use ice_defs::Group;
use ice_journal_laws::Rule;

/// What is answered of a journal of a kind that is checked.
#[derive(Clone, Copy, PartialEq, Eq, Debug)]
pub enum GapAnswer {
    /// The journal stops at the search of this group, whose sets are worth the value, and nothing
    /// is worth more than the bound.
    Gap {
        group: Group,
        value: i64,
        bound: i128,
    },
    /// The first failed test: its line, from 1, and its rule.
    No {
        line: u64,
        rule: Rule,
    },
    /// Every test passes up to here, and no gap is stated here: the journal stops otherwise, or the
    /// value isn't below the bound, or the journal is whole.
    NoGap {
        line: u64,
    },
}
