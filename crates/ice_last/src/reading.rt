//! The last settlement from the bytes of a journal.
ghost use Rattle.std.specs.Prelude.{◌≡◌, IfOk};
ghost use Rattle.ice_last.specs.Lasts.{LastsBytes};
ghost use Rattle.ice_last.specs.Reading.{end_found, IsPayable, trade_in};

use crate::closing::Closing;
use crate::watch::Watch;
use ice_check_records::{Answer, CheckEnd, Checker, ClosedSession};
use ice_fair::Last;
use ice_frac::Frac;
use ice_reading::{JournalEnd, read_journal};
use std::alloc::{AllocError, Global};

/// Why there is none where the tests find this, and no session that has closed.
fn end_found(found: Result<Answer, CheckEnd>) -> JournalEnd
    ensures { result ≡ end_found found }
{
    match found {
        Ok(Answer::No { line, rule }) => JournalEnd::FailsTest { line, rule },
        Ok(_) => JournalEnd::Unjudged(CheckEnd::OtherKind),
        Err(end) => JournalEnd::Unjudged(end),
    }
}

/// The last settlement of a session that has closed, with these payments.
fn settled(alloc: Global, session: ClosedSession, payments: Vec<Frac>) -> Result<Last, AllocError>
    requires { IsPayable session payments.items }
    ensures { IfOk result (λ last. last ≡ trade_in session payments.items) }
{
    let ClosedSession {
        exchange,
        bounds,
        final_sets,
        cut,
    } = session;
    Last::new(alloc, exchange, &bounds, final_sets, cut.den, payments)
}

/// The last settlement of a closed session from the bytes of its journal: the exchange, the final
/// sets at the low bounds of that settlement, and what each bidder pays.
///
/// `Grammar` or `Unended` is answered exactly where a line is no record or the last one has no
/// newline, and names the least such line. Else `OtherKind` is answered exactly where there is no
/// line, or the first is no head of a session. Else `FailsTest` is answered exactly where a test of
/// the checker fails, and names the first one: a session that isn't closed fails one. `NoMemory` is
/// answered where memory runs out.
pub fn last(alloc: Global, bytes: &[u8]) -> Result<Last, JournalEnd>
    ensures { LastsBytes bytes.now result }
{
    let mut closing = Closing {
        alloc,
        checker: Checker::new(alloc),
        watch: Watch::Start,
    };
    match read_journal(bytes, &mut closing) {
        Ok(()) => {}
        Err(end) => return Err(JournalEnd::Unjudged(end)),
    }
    let Closing {
        alloc: _,
        checker,
        watch,
    } = closing;
    let Watch::Session(payments) = watch else {
        return Err(JournalEnd::Unjudged(CheckEnd::OtherKind));
    };
    let found = checker.answer();
    match checker.into_session()? {
        Some(session) => Ok(settled(alloc, session, payments)?),
        None => Err(end_found(found)),
    }
}
