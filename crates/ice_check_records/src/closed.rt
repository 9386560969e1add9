//! What a closed session leaves: its exchange, and what is known of its last settlement.
ghost use Rattle.std.specs.Prelude.{◌≡◌, IfOk};
ghost use Rattle.ice_check_records.specs.Groups.{AreKept};
ghost use Rattle.ice_check_records.specs.Closed.{LeavesSession, TellsSession};

use crate::groups::Groups;
use crate::head::Head;
use crate::next::Next;
use ice_journal::LowestFraction;
use ice_trade::Exchange;
use ice_tree::{Assignment, Bounds};
use std::alloc::{AllocError, Global};

/// A session that has closed and passes every test: its exchange, and its last settlement.
#[derive(Drop)]
pub struct ClosedSession {
    /// The exchange.
    pub exchange: Exchange,
    /// The bounds of each bidder in the last settlement.
    pub bounds: Vec<Bounds>,
    /// The final sets.
    pub final_sets: Assignment,
    /// The cut off each Vickrey discount, over a denominator from 1 to 1,000.
    pub cut: LowestFraction,
}

/// The same bounds once more.
fn copies(alloc: Global, bounds: &[Bounds]) -> Result<Vec<Bounds>, AllocError>
    ensures { IfOk result (λ copies. copies.items ≡ bounds.now) }
{
    bounds.iter().map(|bounds| bounds.copy()).collect(alloc)
}

impl Groups {
    /// The session that has closed here.
    fn leave_session(self, alloc: Global) -> Result<ClosedSession, AllocError>
        requires { AreKept self }
        ensures { IfOk result (LeavesSession self) }
    {
        let bounds = copies(alloc, self.offer.bounds())?;
        let cut = self.charge.cut();
        let (exchange, final_sets) = self.into_exchange_and_sets();
        Ok(ClosedSession {
            exchange,
            bounds,
            final_sets,
            cut,
        })
    }

    /// The session of a journal that has ended, where it is one.
    fn leave_ended(self, alloc: Global) -> Result<Option<ClosedSession>, AllocError>
        requires kept { AreKept self }
        requires ended { self.next ≡ Next.Nothing }
        ensures { IfOk result (TellsSession self) }
    {
        match self.head {
            Head::Session(_) => Ok(Some(self.leave_session(alloc)?)),
            Head::Assign | Head::Regret(_) => Ok(None),
        }
    }

    /// The session, where the journal is one and has ended.
    pub(crate) fn into_session(self, alloc: Global) -> Result<Option<ClosedSession>, AllocError>
        requires { AreKept self }
        ensures { IfOk result (TellsSession self) }
    {
        match self.next {
            Next::Nothing => self.leave_ended(alloc),
            _ => Ok(None),
        }
    }
}
