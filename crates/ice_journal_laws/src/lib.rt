//! What journals say and the tests that they pass, and laws of these, which hold of every journal.
//! It has no code but plain enums, and the rule that a set breaks which its tree refuses.
#![tactic(auto)]

ghost use Rattle.ice_journal_laws.specs.Progress.{RecordsLeadOn, ProgressFindsTheFirstFailure};
ghost use Rattle.ice_journal_laws.specs.Theorems.{DoneIsAssigned, ChecksGiveAssigned, DoneIsRegretted, ChecksGiveRegret, DoneIsRight, ChecksGiveRight, SessionIsYes};
ghost use Rattle.ice_journal_laws.specs.Reordering.{OrderOfRoundsIsFree, ReorderedIsMutual};
ghost use Rattle.ice_journal_laws.specs.WrittenLaws.{CarriedAreJoined, FrontIsSoFar, RegretIsWritten, SessionIsWritten};
ghost use Rattle.ice_journal_laws.specs.Answers.{EndIsAnswer, OneAnswer};

mod answer;
mod rule;

pub use answer::{Answer, CheckEnd};
pub use rule::Rule;

/// One more record leads on from where the records before it led.
#[tactic(auto, using(crate::proofs::Leading::leads_more))]
pub fn records_lead_on()
    ensures { RecordsLeadOn }
{}

/// Where the records of a whole journal lead is its first failed test, or that there is none.
#[tactic(auto, using(crate::proofs::Leading::finds))]
pub fn progress_finds_the_first_failure()
    ensures { ProgressFindsTheFirstFailure }
{}

/// An assign journal whose records lead to its end states a lawful exchange and a feasible
/// assignment: those of the state.
#[tactic(auto, using(crate::proofs::Assigned::done_is_right))]
pub fn done_is_assigned()
    ensures { DoneIsAssigned }
{}

/// An assign journal that passes every test states a lawful exchange and a feasible assignment.
#[tactic(auto, using(crate::proofs::Assigned::checked_is_right))]
pub fn checks_give_assigned()
    ensures { ChecksGiveAssigned }
{}

/// A regret journal whose records lead to its end states a lawful exchange, the best assignment at
/// lower values, and its exact regret: those of the state.
#[tactic(auto, using(crate::proofs::Regretted::done_is_right))]
pub fn done_is_regretted()
    ensures { DoneIsRegretted }
{}

/// A regret journal that passes every test states a lawful exchange, the best assignment at lower
/// values, and its exact regret.
#[tactic(auto, using(crate::proofs::Regretted::checked_is_right))]
pub fn checks_give_regret()
    ensures { ChecksGiveRegret }
{}

/// A session whose records lead to its end states a lawful exchange and a right session of it, with
/// the regret and the surplus of the state.
#[tactic(auto, using(crate::proofs::SessionRight::done_is_session))]
pub fn done_is_right()
    ensures { DoneIsRight }
{}

/// A session that passes every test is a right one.
#[tactic(auto, using(crate::proofs::SessionRight::checked_is_right))]
pub fn checks_give_right()
    ensures { ChecksGiveRight }
{}

/// To a session whose records lead to its end the checker may say yes: it has the headline, with
/// the regret and the surplus of the state.
#[tactic(auto, using(crate::proofs::SessionRight::session_is_yes))]
pub fn session_is_yes()
    ensures { SessionIsYes }
{}

/// What is answered where the records end is the answer to their bytes.
#[tactic(auto, using(crate::proofs::Answered::end_answers))]
pub fn end_is_answer()
    ensures { EndIsAnswer }
{}

/// But for want of memory, bytes have one answer.
#[tactic(auto, using(crate::proofs::Answered::one_answer_of_bytes))]
pub fn bytes_have_one_answer()
    ensures { OneAnswer }
{}

/// Whether a session journal passes every test doesn't depend on the order of the submissions of
/// different bidders in a round.
#[tactic(auto, using(crate::proofs::Swapping::order_of_rounds_is_free))]
pub fn order_of_rounds_is_free()
    ensures { OrderOfRoundsIsFree }
{}

/// Either of two journals is reordered from the other.
#[tactic(auto, using(crate::proofs::Swapping::reordered_is_mutual))]
pub fn reordered_is_mutual()
    ensures { ReorderedIsMutual }
{}

/// Records that lead on are joined.
#[tactic(auto, using(crate::proofs::CarriedLaws::carried_are_joined))]
pub fn carried_are_joined()
    ensures { CarriedAreJoined }
{}

/// A regret journal of shown groups passes every test.
pub fn regret_is_written()
    ensures { RegretIsWritten }
{}

/// A session of shown settlements passes every test.
pub fn session_is_written()
    ensures { SessionIsWritten }
{}

/// Each front of records that lead on is a journal so far. It isn't whole, and no stop stands in
/// it, where there are more records, or they don't lead to the end.
pub fn front_is_so_far()
    ensures { FrontIsSoFar }
{}
