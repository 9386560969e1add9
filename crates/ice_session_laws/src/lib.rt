//! Laws of sessions that are run: settlements and rounds, one after another, are what their
//! journals say, and the journals pass the checker's tests, or stop where the session does. It has
//! no code.
#![tactic(auto)]

mod branches;
mod groups;

ghost use Rattle.ice_session_laws.specs.Laws.{RunBegins, RoundBegins, RoundGoesOn, RoundEnds, RunIsUnended, RoundIsUnended, RunCloses, RoundStops, RoundStaysOpen, RunSpends, RunIsLimited, VerdictMayBeWritten, OpeningMayBeWritten, ClosingMayBeWritten, SpentMayBeWritten, LimitMayBeWritten};

pub use branches::{group_log_is_short, spent_regret_has_few, spent_session_has_few};
pub use groups::{
    offer_is_unended, offer_may_be_written, settling_is_unended, settling_may_be_written,
};

/// At its start a session of an exchange runs, with no settlement behind it.
pub fn run_begins()
    ensures { RunBegins }
{}

/// A settlement that goes on begins a round.
pub fn round_begins()
    ensures { RoundBegins }
{}

/// One more submission with the next verdict leaves a round of the same settlement.
pub fn round_goes_on()
    ensures { RoundGoesOn }
{}

/// Where a round ends the session runs on, with one more settlement behind it.
pub fn round_ends()
    ensures { RoundEnds }
{}

/// The journal of a session that runs passes every test so far, and no stop stands in it.
pub fn run_is_unended()
    ensures { RunIsUnended }
{}

/// So does the journal of a session in a round.
pub fn round_is_unended()
    ensures { RoundIsUnended }
{}

/// The journal of a session that closes passes every test, and says a right session, which has the
/// headline.
pub fn run_closes()
    ensures { RunCloses }
{}

/// The journal of a round without a submission may stop: the round has no file, its file is
/// refused, or it can't be read.
pub fn round_stops()
    ensures { RoundStops }
{}

/// Where the round has no file, the journal says a right session that is open.
pub fn round_stays_open()
    ensures { RoundStaysOpen }
{}

/// The journal of a session whose search is spent says how far it came, and that all branches are
/// used.
pub fn run_spends()
    ensures { RunSpends }
{}

/// The journal of a session whose pricing ends at a limit says how far it came, and at which limit.
pub fn run_is_limited()
    ensures { RunIsLimited }
{}

/// A verdict has a number that its record may have.
pub fn verdict_may_be_written()
    ensures { VerdictMayBeWritten }
{}

/// A settlement that goes on has numbers that its records may have.
pub fn opening_may_be_written()
    ensures { OpeningMayBeWritten }
{}

/// So has a settlement that closes.
pub fn closing_may_be_written()
    ensures { ClosingMayBeWritten }
{}

/// So has a settlement that stops at a spent search.
pub fn spent_may_be_written()
    ensures { SpentMayBeWritten }
{}

/// So has one that stops at a limit of the pricing.
pub fn limit_may_be_written()
    ensures { LimitMayBeWritten }
{}
