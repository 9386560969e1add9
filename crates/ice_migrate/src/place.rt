//! Where the records behind a stop's first one stand.
ghost use Rattle.std.specs.Prelude.{◌≡◌, ◌==◌, ◌-◌, ◌<◌, ◌≤◌, ◌^◌, suc, if◌then◌else◌, IfSome, Some, option_map};
ghost use Rattle.ice_journal.specs.Records.{spent_end};
ghost use Rattle.ice_journal.specs.Lines.{record_of};
ghost use Rattle.ice_journal_laws.specs.State.{State, at_spent_sets, at_spent_log, at_end};
ghost use Rattle.ice_journal_laws.specs.Next.{next, next_at, go_to};
ghost use Rattle.ice_journal_laws.specs.Tests.{IsStop};
ghost use Rattle.ice_migrate.specs.Stopped.{place_of, count_at, HasCounts};

use crate::counts::Counts;
use ice_journal::{EndWord, Line};

/// What may stand next behind a stop's first record.
#[derive(Clone, Copy)]
pub(crate) enum Place {
    /// A set of a spent search, behind so many.
    Sets { taken: u64 },
    /// A step of its log, with so many sides open.
    Log { sides: u64 },
    /// A set of a pricing run's pool, or its end.
    Pool,
    /// The end of a spent search.
    End,
    /// Nothing.
    Done,
}

/// Behind so many sets of a spent search.
fn behind_sets(taken: u64, bidders: u64) -> Place
    requires some { 0 < taken }
    ensures place { place_of result
        ≡ (if taken == bidders then at_spent_log 1 else at_spent_sets taken) }
    ensures few { count_at result ≤ taken }
{
    if taken == bidders {
        Place::Log { sides: 1 }
    } else {
        Place::Sets { taken }
    }
}

/// Behind a step that leaves so many sides open.
fn behind_step(sides: u64) -> Place
    ensures place { place_of result
        ≡ (if sides == 0 then at_end spent_end else at_spent_log sides) }
    ensures few { count_at result ≤ sides }
{
    if sides == 0 {
        Place::End
    } else {
        Place::Log { sides }
    }
}

impl Place {
    /// Behind the first record of a stop.
    pub(crate) fn behind(first: &Line) -> Place
        ensures place { (s after : State) → IsStop s (record_of first.now)
            → next s (record_of first.now) ≡ Some after → after.place ≡ place_of result }
        ensures none { count_at result ≡ 0 }
    {
        match first {
            Line::Spent { .. } => Place::Sets { taken: 0 },
            Line::Limit { .. } => Place::Pool,
            _ => Place::Done,
        }
    }

    /// Behind one record more, in a journal of version 1 with so many goods and bidders; None where
    /// the record may not stand here.
    pub(crate) fn after(self, line: &Line, counts: Counts) -> Option<Place>
        requires few { count_at self < 2 ^ 64 - 1 }
        ensures place { (s : State) → HasCounts s counts → s.place ≡ place_of self
            → next_at s (place_of self) (record_of line.now)
            ≡ option_map (λ place. go_to (place_of place) s) result }
        ensures more { IfSome result (λ place. count_at place ≤ suc (count_at self)) }
    {
        match (self, line) {
            (Place::Sets { taken }, Line::Set(_)) => Some(behind_sets(taken + 1, counts.bidders)),
            (Place::Log { sides }, Line::Branch { .. }) => Some(behind_step(sides + 1)),
            (Place::Log { sides }, Line::Leaf(multipliers)) => {
                if multipliers.len() as u64 == counts.goods {
                    Some(behind_step(sides.saturating_sub(1)))
                } else {
                    None
                }
            }
            (Place::Log { sides }, Line::Dead { .. }) => Some(behind_step(sides.saturating_sub(1))),
            (Place::Pool, Line::Pool { .. }) => Some(Place::Pool),
            (Place::Pool, Line::End(EndWord::Limit)) => Some(Place::Done),
            (Place::End, Line::End(EndWord::Spent)) => Some(Place::Done),
            _ => None,
        }
    }
}
