//! What is answered where the records end.
ghost use Rattle.ice_replay.specs.Ending.{IsJudged, IsReplayAllowed, IsAbsence, Concludes};

use crate::settlement::{Replay, ReplayEnd};
use crate::watch::Watch;
use ice_check_records::Answer;
use ice_reading::{CheckEnd, JournalEnd, Rule};

/// Whether the answer to a session allows a replay: no test fails but that of a stop.
fn judged(found: Result<Answer, CheckEnd>) -> Result<(), JournalEnd>
    ensures { IsJudged found result }
{
    match found {
        Ok(
            Answer::No {
                rule: Rule::Closed,
                ..
            },
        ) => Ok(()),
        Ok(Answer::No { line, rule }) => Err(JournalEnd::FailsTest { line, rule }),
        Ok(_) => Ok(()),
        Err(end) => Err(JournalEnd::Unjudged(end)),
    }
}

/// The replay, where the answer allows one.
fn allowed(found: Result<Answer, CheckEnd>, replay: Replay) -> Result<Replay, ReplayEnd>
    ensures { IsReplayAllowed found replay result }
{
    match judged(found) {
        Ok(()) => Ok(replay),
        Err(end) => Err(ReplayEnd::Journal(end)),
    }
}

/// That no settlement is there, where the answer allows a replay.
fn none_there(found: Result<Answer, CheckEnd>) -> ReplayEnd
    ensures { IsAbsence found result }
{
    match judged(found) {
        Ok(()) => ReplayEnd::NoSettlement,
        Err(end) => ReplayEnd::Journal(end),
    }
}

/// What is answered, where this is known of the settlement and the checker finds this.
pub(crate) fn conclude(watch: Watch, found: Result<Answer, CheckEnd>) -> Result<Replay, ReplayEnd>
    ensures { Concludes watch found result }
{
    match watch {
        Watch::Start | Watch::Other => Err(ReplayEnd::Journal(JournalEnd::Unjudged(
            CheckEnd::OtherKind,
        ))),
        Watch::Before => Err(none_there(found)),
        Watch::Begun(replay) => allowed(found, replay),
        Watch::Whole(replay) => allowed(found, replay),
    }
}
