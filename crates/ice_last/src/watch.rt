//! What is kept of the records of a journal beside their tests.
ghost use Rattle.std.specs.Prelude.{◌↔◌, IsTrue, IfOk};
ghost use Rattle.ice_journal.specs.Lines.{record_of};
ghost use Rattle.ice_journal.specs.Ranges.{IsRecord};
ghost use Rattle.ice_last.specs.Watching.{IsSessionHead, WatchesOn};

use crate::payments::take_payment;
use ice_frac::Frac;
use ice_journal::{Kind, Line};
use std::alloc::{AllocError, Global};

/// What is kept of the records of a journal.
#[derive(Drop)]
pub(crate) enum Watch {
    /// No record is read.
    Start,
    /// The first record is no head of a session.
    Other,
    /// The first record is one: the payments behind the last cut.
    Session(Vec<Frac>),
}

/// Whether a record is the head of a session.
fn is_session_head(line: &Line) -> bool
    ensures { IsTrue result ↔ IsSessionHead (record_of line.now) }
{
    matches!(
        line,
        Line::Head {
            kind: Kind::Session,
            ..
        }
    )
}

/// Behind the first record.
fn after_first(alloc: Global, line: &Line) -> Watch
    ensures { WatchesOn Watch.Start (record_of line.now) result }
{
    if is_session_head(line) {
        Watch::Session(Vec::new(alloc))
    } else {
        Watch::Other
    }
}

/// Behind one record more of a session.
fn after_more(mut payments: Vec<Frac>, line: &Line) -> Result<Watch, AllocError>
    requires { IsRecord (record_of line.now) }
    ensures { IfOk result (WatchesOn (Watch.Session payments) (record_of line.now)) }
{
    take_payment(&mut payments, line)?;
    Ok(Watch::Session(payments))
}

impl Watch {
    /// What is kept behind one record more.
    pub(crate) fn after(self, alloc: Global, line: &Line) -> Result<Watch, AllocError>
        requires { IsRecord (record_of line.now) }
        ensures { IfOk result (WatchesOn self (record_of line.now)) }
    {
        match self {
            Watch::Start => Ok(after_first(alloc, line)),
            Watch::Other => Ok(Watch::Other),
            Watch::Session(payments) => after_more(payments, line),
        }
    }
}
