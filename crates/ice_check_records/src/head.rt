//! The heads of journals that are checked, and what comes first behind the exchange of each.
ghost use Rattle.std.specs.Prelude.{◌≡◌};
ghost use Rattle.ice_journal.specs.Lines.{record_of, version_of};
ghost use Rattle.ice_journal.specs.declared.line.Version.{Version};
ghost use Rattle.ice_journal_laws.specs.Fields.{is_end};
ghost use Rattle.ice_check_records.specs.Openings.{IsOpening};

use crate::lines::{
    begins_first, ends_assign, ends_regret, ends_session, final_in, is_assign, is_spent,
};
use crate::opening::Opening;
use ice_defs::Group;
use ice_journal::{Line, Version};

/// The head of a journal of a kind that is checked.
#[derive(Clone, Copy)]
pub(crate) enum Head {
    Assign,
    Regret(Version),
    Session(Version),
}

/// The sets of an assignment begin where the record says so.
fn assign_opening(line: &Line) -> Option<Opening>
    ensures { IsOpening Head.Assign (record_of line.now) result }
{
    if !is_assign(line) {
        return None;
    }
    Some(Opening::Sets {
        group: Group::Assign,
        value: 0,
    })
}

/// The first settlement begins where the record says so.
fn session_opening(line: &Line) -> Option<Opening>
    ensures { (v : Version) → IsOpening (Head.Session v) (record_of line.now) result }
{
    if begins_first(line) {
        Some(Opening::Settlement)
    } else {
        None
    }
}

impl Head {
    ghost use Rattle.ice_check_records.specs.Heads.{version_of_head, end_of};
    ghost use Rattle.ice_check_records.specs.Openings.{stops_first};

    /// What the record begins behind the complete exchange, where it begins anything.
    pub(crate) fn opening(self, line: &Line) -> Option<Opening>
        ensures { IsOpening self (record_of line.now) result }
    {
        match self {
            Head::Assign => assign_opening(line),
            Head::Regret(_) => match final_in(line) {
                Some(value) => Some(Opening::Sets {
                    group: Group::Final,
                    value,
                }),
                None => None,
            },
            Head::Session(_) => session_opening(line),
        }
    }

    /// Whether the record begins a stop in the place of what comes first.
    pub(crate) fn stops_first(self, line: &Line) -> bool
        ensures { result ≡ stops_first self (record_of line.now) }
    {
        match self {
            Head::Assign | Head::Session(_) => false,
            Head::Regret(_) => is_spent(line),
        }
    }

    /// Whether the record ends the journal.
    pub(crate) fn ends(self, line: &Line) -> bool
        ensures { result ≡ is_end (end_of self) (record_of line.now) }
    {
        match self {
            Head::Assign => ends_assign(line),
            Head::Regret(_) => ends_regret(line),
            Head::Session(_) => ends_session(line),
        }
    }

    /// The version of the journal.
    pub(crate) fn version(self) -> Version
        ensures { version_of result ≡ version_of_head self }
    {
        match self {
            Head::Assign => Version::One,
            Head::Regret(version) => version,
            Head::Session(version) => version,
        }
    }
}
