//! The session of a generated exchange.
ghost use Rattle.ice_session_commands.specs.GenServed.{GenAnswers, Says};

use crate::summary::put_summary;
use crate::trial_journal::{put_limited_trial, put_spent_trial};
use ice_command_parts::ended;
use ice_edge::{Sink, Status};
use ice_trial::{TrialEnd, try_generated};
use std::alloc::Global;

/// Runs the session of the exchange that is generated from this number, in which the bidders state
/// their generated true values, and writes its summary. Where a search or the pricing ends the
/// session, it writes the session's journal instead.
#[tactic(none)]
pub fn generated<K: Sink>(alloc: Global, number: u32, out: &mut K) -> Status
    ensures { Says (λ text. GenAnswers text number) (K.taken out.old) (K.taken out.new) result }
{
    match try_generated(alloc, number) {
        TrialEnd::Closed(summary) => ended(put_summary(number, &summary, out), Status::Done),
        TrialEnd::Spent(first, halt, spent) => ended(
            put_spent_trial(&first, &halt, &spent, out),
            Status::Spent,
        ),
        TrialEnd::Limit(halt, limit) => {
            ended(put_limited_trial(&halt, &limit, out), Status::Limit)
        }
        TrialEnd::NoMemory => Status::NoMemory,
    }
}
