//! What the record behind a complete exchange begins.
ghost use Rattle.std.specs.Prelude.{◌≡◌};

use crate::next::Next;
use ice_defs::Group;

/// What the record behind a complete exchange begins.
#[derive(Clone, Copy)]
pub(crate) enum Opening {
    /// The sets of this group, which has this value; the sets of an assignment have none, which
    /// counts as 0.
    Sets { group: Group, value: i64 },
    /// The first settlement.
    Settlement,
}

impl Opening {
    ghost use Rattle.ice_check_records.specs.Openings.{opened_next, opened_value};

    /// What comes next.
    pub(crate) fn next(self) -> Next
        ensures { result ≡ opened_next self }
    {
        match self {
            Opening::Sets { group, .. } => Next::Set(group),
            Opening::Settlement => Next::Head(Group::Final),
        }
    }

    /// The value of the group that begins, and 0 where none does.
    pub(crate) fn value(self) -> i64
        ensures { result ≡ opened_value self }
    {
        match self {
            Opening::Sets { value, .. } => value,
            Opening::Settlement => 0,
        }
    }
}
