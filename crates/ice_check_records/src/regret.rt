//! The regret of a settlement.
ghost use Rattle.std.specs.Prelude.{◌≡◌, ◌-ℤ◌};
ghost use Rattle.ice_defs.specs.Session.{closes as closing};
ghost use Rattle.ice_journal.specs.Lines.{record_of};
ghost use Rattle.ice_journal.specs.Records as records;
ghost use Rattle.ice_check_records.specs.Groups.{AreKept, IsReady};
ghost use Rattle.ice_check_records.specs.Taking.{behind_regret, Takes};

use crate::group::is_same;
use crate::groups::Groups;
use crate::head::Head;
use crate::lines::amount_in;
use crate::next::Next;
use ice_check_offer::Fault;
use ice_defs::Group;
use ice_journal::Line;
use ice_journal_laws::Rule;

/// What one value is above another.
fn difference(one: i64, other: i64) -> i128
    ensures { result ≡ one -ℤ other }
{
    i128::from(one) - i128::from(other)
}

impl Groups {
    /// What follows the regret.
    fn behind_regret(&self) -> Next
        ensures { result ≡ behind_regret self.now.head
            (closing self.now.stated.exchange.settings self.now.number self.now.regret) }
    {
        match self.head {
            Head::Assign | Head::Regret(_) => Next::End,
            Head::Session(_) => {
                let regret = i128::from(self.regret);
                if self
                    .stated
                    .exchange()
                    .settings()
                    .closes(self.number, regret)
                {
                    Next::Head(Group::Without { bidder: 0 })
                } else {
                    Next::Head(Group::Provisional)
                }
            }
        }
    }

    /// An amount.
    fn state_amount(&mut self, amount: i64) -> Result<(), Fault>
        requires kept { AreKept self.old }
        requires ready { IsReady self.old Next.Amount }
        ensures { Takes Next.Amount self.old (records.regret amount) result self.new }
    {
        if !is_same(difference(self.rival, self.final_value), amount) {
            return Err(Fault::Here(Rule::Regret));
        }
        self.regret = amount;
        self.next = self.behind_regret();
        Ok(())
    }

    /// A record in the place of the amount.
    pub(crate) fn take_amount(&mut self, line: &Line) -> Result<(), Fault>
        requires kept { AreKept self.old }
        requires ready { IsReady self.old Next.Amount }
        ensures { Takes Next.Amount self.old (record_of line.now) result self.new }
    {
        match amount_in(line) {
            Some(amount) => self.state_amount(amount),
            None => Err(Fault::Here(Rule::Order)),
        }
    }
}
