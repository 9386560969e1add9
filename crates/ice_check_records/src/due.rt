//! What comes next in a settlement: its regret, or its prices.
ghost use Rattle.std.specs.Prelude.{◌≡◌, length, IfSome};
ghost use Rattle.ice_journal_laws.specs.State.{State};
ghost use Rattle.ice_journal_laws.specs.Progress.{passing};
ghost use Rattle.ice_check_records.specs.Groups.{AreKept, StandsFor};
ghost use Rattle.ice_check_records.specs.Due.{is_prices_place, TellsDue};

use crate::groups::Groups;
use crate::next::Next;
use ice_trade::Exchange;
use ice_tree::Bounds;

/// A settlement whose regret the next record is to state.
#[derive(Drop)]
pub struct DueRegret<'a> {
    /// Its number, from 0.
    pub number: u8,
    /// The exchange of the session.
    pub exchange: &'a Exchange,
    /// The bounds of each bidder in it.
    pub bounds: &'a [Bounds],
    /// The value of its final sets, at lower values.
    pub final_value: i64,
}

impl Groups {
    /// The settlement whose regret comes next, where one does.
    pub(crate) fn due(&self) -> Option<DueRegret<'_>>
        requires { AreKept self.now }
        ensures tells { (s : State) → StandsFor self.now s → TellsDue result (passing s) }
        ensures count { IfSome result (λ due. length due.bounds.now
            ≡ length due.exchange.now.bidders) }
    {
        match self.next {
            Next::Amount => Some(DueRegret {
                number: self.number,
                exchange: self.stated.exchange(),
                bounds: self.offer.bounds(),
                final_value: self.final_value,
            }),
            _ => None,
        }
    }

    /// Whether the prices come next, or a stop in their place.
    pub(crate) fn awaits_prices(&self) -> bool
        ensures { (s : State) → StandsFor self.now s → result ≡ is_prices_place s.place }
    {
        match self.next {
            Next::Offer => self.offer.awaits_prices(),
            _ => false,
        }
    }
}
