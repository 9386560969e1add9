//! What stands behind the exchange of a journal: its groups, and what comes after them.
ghost use Rattle.std.specs.Prelude.{◌≡◌, IfOk};
ghost use Rattle.ice_journal.specs.Lines.{record_of};
ghost use Rattle.ice_journal.specs.Ranges.{IsRecord};
ghost use Rattle.ice_check_records.specs.Groups.{AreKept, IsReady};
ghost use Rattle.ice_check_records.specs.Openings.{CanOpen};
ghost use Rattle.ice_check_records.specs.Taking.{Begins, Takes};

use crate::head::Head;
use crate::log::LogWalk;
use crate::next::Next;
use crate::opening::Opening;
use crate::stated::Stated;
use arrayvec::ArrayVec;
use ice_check_charge::Charge;
use ice_check_offer::{Fault, Offer};
use ice_defs::Group;
use ice_journal::Line;
use ice_journal_laws::Rule;
use ice_trade::Exchange;
use ice_tree::Assignment;
use std::alloc::{AllocError, Global};

/// A journal whose exchange is complete: what comes next in it, and what the tests look back at.
pub(crate) struct Groups {
    pub(crate) head: Head,
    pub(crate) next: Next,
    /// The exchange, with the sets of the group at hand.
    pub(crate) stated: Stated,
    /// The value that this group states; the sets of an assignment have none, which counts as 0.
    pub(crate) value: i64,
    /// The number of the settlement.
    pub(crate) number: u8,
    /// The final sets and their value, once their group is complete.
    pub(crate) final_sets: Assignment,
    pub(crate) final_value: i64,
    /// The value of the rival, once its group is complete.
    pub(crate) rival: i64,
    /// The regret, once it is stated.
    pub(crate) regret: i64,
    /// The offer, with the bounds of the settlement.
    pub(crate) offer: Offer,
    /// The values without each of the first bidders, as far as their groups are complete.
    pub(crate) withouts: ArrayVec<i64, 40>,
    /// The cut and the surplus, once they are stated.
    pub(crate) charge: Charge,
    pub(crate) log: LogWalk,
}

// By hand, so that each exit that drops one has one call to prove, and not all its parts.
impl Drop for Groups {
    fn drop(self) {
        let Groups {
            head: _,
            next: _,
            stated: _,
            value: _,
            number: _,
            final_sets: _,
            final_value: _,
            rival: _,
            regret: _,
            offer: _,
            withouts: _,
            charge: _,
            log: _,
        } = self;
    }
}

impl Groups {
    /// What stands behind the exchange begins, with the memory for all of it.
    pub(crate) fn new(
        alloc: Global,
        head: Head,
        exchange: Exchange,
        opening: Opening,
    ) -> Result<Groups, AllocError>
        requires { CanOpen head opening }
        ensures { IfOk result (Begins head exchange opening) }
    {
        let offer = Offer::new(alloc, &exchange)?;
        let final_sets = Assignment::empty(alloc, exchange.trees())?;
        let mut log = LogWalk::new(alloc, &exchange)?;
        log.weigh(&exchange, offer.bounds(), Group::Final, &final_sets);
        let stated = Stated::new(alloc, exchange)?;
        Ok(Groups {
            head,
            next: opening.next(),
            stated,
            value: opening.value(),
            number: 0,
            final_sets,
            final_value: 0,
            rival: 0,
            regret: 0,
            offer,
            withouts: ArrayVec::new(),
            charge: Charge::none(),
            log,
        })
    }

    /// The exchange, and the final sets.
    pub(crate) fn into_exchange_and_sets(self) -> (Exchange, Assignment)
        ensures exchange { result.0 ≡ self.stated.exchange }
        ensures sets { result.1 ≡ self.final_sets }
    {
        let Groups {
            head: _,
            next: _,
            stated,
            value: _,
            number: _,
            final_sets,
            final_value: _,
            rival: _,
            regret: _,
            offer: _,
            withouts: _,
            charge: _,
            log: _,
        } = self;
        (stated.into_exchange(), final_sets)
    }

    /// Takes the next record, or tells the first test that fails; then it is of no more use. Takes
    /// no memory.
    pub(crate) fn take(&mut self, line: &Line) -> Result<(), Fault>
        requires lawful { IsRecord (record_of line.now) }
        requires kept { AreKept self.old }
        requires ready { IsReady self.old self.old.next }
        ensures { Takes self.old.next self.old (record_of line.now) result self.new }
    {
        match self.next {
            Next::Head(group) => self.take_head(group, line),
            Next::Set(group) => self.take_set(group, line),
            Next::Step(group) => self.take_step(group, line),
            Next::Amount => self.take_amount(line),
            Next::Offer => self.take_offer(line),
            Next::Threshold => self.take_threshold(line),
            Next::Payment(bidder) => self.take_payment(bidder, line),
            Next::End => self.take_end(line),
            Next::Nothing => Err(Fault::Here(Rule::Order)),
        }
    }
}
