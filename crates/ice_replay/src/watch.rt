//! What is known of a settlement while the records of a journal are read.
ghost use Rattle.std.specs.Prelude.{◌≡◌, ℕ, length, IfOk};
ghost use Rattle.ice_journal.specs.Lines.{record_of};
ghost use Rattle.ice_journal.specs.Records as records;
ghost use Rattle.ice_check_records.specs.Checking as checker;
ghost use Rattle.ice_replay.specs.Watching.{IsComeTo, IsStated, WatchesOn};

use crate::bidders::all_bidders;
use crate::records::{is_session_head, prices_in};
use crate::settlement::Replay;
use ice_check_records::{Checker, DueRegret, amount_in};
use ice_journal::Line;
use std::alloc::{AllocError, Global};

/// What is known of a settlement while the records of a journal are read.
#[derive(Drop)]
pub(crate) enum Watch {
    /// No record is read.
    Start,
    /// The first record is no head of a session.
    Other,
    /// Its regret has not come.
    Before,
    /// Its regret has come, and its prices have not.
    Begun(Replay),
    /// Its prices have come, or a stop in their place.
    Whole(Replay),
}

/// Behind the first record.
fn after_first(line: &Line) -> Watch
    ensures { (number : ℕ) (c : checker.Checking)
        → WatchesOn number Watch.Start c (record_of line.now) result }
{
    if is_session_head(line) {
        Watch::Before
    } else {
        Watch::Other
    }
}

/// What a session says of a settlement whose regret is this amount, before its prices.
fn without_prices(alloc: Global, due: &DueRegret<'_>, amount: i64) -> Result<Replay, AllocError>
    requires { length due.now.bounds.now ≡ length due.now.exchange.now.bidders }
    ensures { IfOk result (IsStated due.now amount) }
{
    let bidders = all_bidders(alloc, due.exchange, due.bounds)?;
    Ok(Replay {
        number: due.number,
        bidders,
        final_value: due.final_value,
        regret: amount,
        prices: None,
    })
}

/// The regret of a settlement is stated, which is the one with this number or another.
fn after_regret(
    alloc: Global,
    number: u8,
    due: &DueRegret<'_>,
    amount: i64,
) -> Result<Watch, AllocError>
    requires { length due.now.bounds.now ≡ length due.now.exchange.now.bidders }
    ensures { IfOk result (λ next. (c : checker.Checking) → IsComeTo due.now c
        → WatchesOn number Watch.Before c (records.regret amount) next) }
{
    if due.number != number {
        return Ok(Watch::Before);
    }
    let replay = without_prices(alloc, due, amount)?;
    Ok(Watch::Begun(replay))
}

/// The regret of the settlement with this number may come.
fn after_other(
    alloc: Global,
    number: u8,
    checker: &Checker,
    line: &Line,
) -> Result<Watch, AllocError>
    ensures { IfOk result (WatchesOn number Watch.Before checker.now (record_of line.now)) }
{
    let Some(amount) = amount_in(line) else {
        return Ok(Watch::Before);
    };
    match checker.due_regret() {
        Some(due) => after_regret(alloc, number, &due, amount),
        None => Ok(Watch::Before),
    }
}

/// The prices of the settlement may come.
fn after_begun(mut replay: Replay, checker: &Checker, line: &Line) -> Watch
    ensures { (number : ℕ) → WatchesOn number (Watch.Begun replay) checker.now (record_of line.now)
        result }
{
    if !checker.awaits_prices() {
        return Watch::Begun(replay);
    }
    replay.prices = prices_in(line);
    Watch::Whole(replay)
}

impl Watch {
    /// What is known behind one record more, which the checker is yet to take, of the settlement
    /// with this number.
    pub(crate) fn after(
        self,
        alloc: Global,
        number: u8,
        checker: &Checker,
        line: &Line,
    ) -> Result<Watch, AllocError>
        ensures { IfOk result (WatchesOn number self checker.now (record_of line.now)) }
    {
        match self {
            Watch::Start => Ok(after_first(line)),
            Watch::Other => Ok(Watch::Other),
            Watch::Before => after_other(alloc, number, checker, line),
            Watch::Begun(replay) => Ok(after_begun(replay, checker, line)),
            Watch::Whole(replay) => Ok(Watch::Whole(replay)),
        }
    }
}
