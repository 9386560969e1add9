//! What stands behind the regret of a session: the offer, or the cut and the payments.
ghost use Rattle.std.specs.Prelude.{◌≡◌, ◌<◌, length};
ghost use Rattle.ice_defs.specs.Set.{value};
ghost use Rattle.ice_defs.specs.Trade.{set_of, weights_of};
ghost use Rattle.ice_defs.specs.Exchange.{trees_of};
ghost use Rattle.ice_journal.specs.Lines.{record_of};
ghost use Rattle.ice_journal.specs.Ranges.{IsRecord};
ghost use Rattle.ice_check_charge.specs.Tests.{IsWorth};
ghost use Rattle.ice_check_records.specs.Groups.{weights_for, AreKept, IsReady};
ghost use Rattle.ice_check_records.specs.Taking.{Takes, moved_on, behind_payment, Pays};

use crate::groups::Groups;
use crate::next::Next;
use ice_check_charge::{Due, take_payment, take_threshold};
use ice_check_offer::{Fault, Went};
use ice_defs::Group;
use ice_journal::Line;
use ice_journal_laws::Rule;

impl Groups {
    /// The next settlement begins.
    fn move_on(&mut self)
        requires { self.old.number < 255 }
        ensures { self.new ≡ moved_on self.old }
    {
        self.number += 1;
        self.next = Next::Head(Group::Final);
    }

    /// A record of the offer.
    pub(crate) fn take_offer(&mut self, line: &Line) -> Result<(), Fault>
        requires lawful { IsRecord (record_of line.now) }
        requires next { self.old.next ≡ Next.Offer }
        requires kept { AreKept self.old }
        requires ready { IsReady self.old Next.Offer }
        ensures { Takes Next.Offer self.old (record_of line.now) result self.new }
    {
        let exchange = self.stated.exchange();
        match self
            .offer
            .take(exchange, &self.log.weights, self.number, line)?
        {
            Went::On => {}
            Went::ToSettlement => self.move_on(),
        }
        Ok(())
    }

    /// A record in the place of the cut and the surplus.
    pub(crate) fn take_threshold(&mut self, line: &Line) -> Result<(), Fault>
        requires lawful { IsRecord (record_of line.now) }
        requires kept { AreKept self.old }
        requires ready { IsReady self.old Next.Threshold }
        ensures { Takes Next.Threshold self.old (record_of line.now) result self.new }
    {
        self.charge = take_threshold(self.withouts.as_slice(), self.final_value, line)?;
        self.next = Next::Payment(0);
        Ok(())
    }

    /// The lower value of the bidder's final set.
    fn final_worth(&self, bidder: u8) -> i128
        requires kept { AreKept self.now }
        requires ready { IsReady self.now (Next.Payment bidder) }
        ensures value { result ≡ value (set_of self.now.final_sets bidder)
            (weights_of (weights_for self.now Group.Final) bidder) }
        ensures range { IsWorth result }
    {
        self.stated.trees()[usize::from(bidder)].value(
            self.final_sets.of(bidder),
            self.log.weights.of(bidder),
        )
    }

    /// A record in the place of this bidder's payment.
    fn pay(&self, bidder: u8, line: &Line) -> Result<(), Rule>
        requires lawful { IsRecord (record_of line.now) }
        requires kept { AreKept self.now }
        requires ready { IsReady self.now (Next.Payment bidder) }
        ensures { Pays bidder self.now (record_of line.now) result }
    {
        let due = Due {
            name: self.stated.exchange().bidder_name(bidder),
            total: self.final_value,
            without: self.withouts[usize::from(bidder)],
            worth: self.final_worth(bidder),
        };
        take_payment(&self.charge, &due, line)
    }

    /// What follows this bidder's payment.
    fn behind_payment(&self, bidder: u8) -> Next
        requires kept { AreKept self.now }
        requires there { bidder < length (trees_of self.now.stated.exchange) }
        ensures { result ≡ behind_payment (length (trees_of self.now.stated.exchange)) bidder }
    {
        let later = bidder + 1;
        if later == self.stated.exchange().bidders() {
            Next::End
        } else {
            Next::Payment(later)
        }
    }

    /// A record in the place of this bidder's payment, or of what comes behind it.
    pub(crate) fn take_payment(&mut self, bidder: u8, line: &Line) -> Result<(), Fault>
        requires lawful { IsRecord (record_of line.now) }
        requires kept { AreKept self.old }
        requires ready { IsReady self.old (Next.Payment bidder) }
        ensures { Takes (Next.Payment bidder) self.old (record_of line.now) result self.new }
    {
        self.pay(bidder, line)?;
        self.next = self.behind_payment(bidder);
        Ok(())
    }
}
