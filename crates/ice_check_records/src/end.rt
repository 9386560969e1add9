//! The end of a journal, and what is answered there.
ghost use Rattle.ice_journal.specs.Lines.{record_of};
ghost use Rattle.ice_check_records.specs.Groups.{AreKept};
ghost use Rattle.ice_check_records.specs.Taking.{Takes, AnswersHere, IsAnswer};

use crate::groups::Groups;
use crate::head::Head;
use crate::next::Next;
use ice_check_offer::Fault;
use ice_journal::Line;
use ice_journal_laws::{Answer, Rule};

impl Groups {
    /// A record in the place of the end.
    pub(crate) fn take_end(&mut self, line: &Line) -> Result<(), Fault>
        requires { AreKept self.old }
        ensures { Takes Next.End self.old (record_of line.now) result self.new }
    {
        if !self.head.ends(line) {
            return Err(Fault::Here(Rule::Order));
        }
        self.next = Next::Nothing;
        Ok(())
    }

    /// What the tests find, where the journal has ended.
    pub(crate) fn answer(&self) -> Option<Answer>
        requires { AreKept self.now }
        ensures { IsAnswer self.now result }
    {
        match self.next {
            Next::Nothing => Some(self.found()),
            _ => None,
        }
    }

    /// What the tests find of the journal, which has ended.
    fn found(&self) -> Answer
        requires { AreKept self.now }
        ensures { AnswersHere self.now result }
    {
        match self.head {
            Head::Assign => Answer::Assign {
                value: self.final_sets.lower_value(self.offer.bounds()),
            },
            Head::Regret(_) => Answer::Regret {
                amount: i128::from(self.regret),
            },
            Head::Session(_) => Answer::Closed {
                regret: i128::from(self.regret),
                surplus: self.charge.surplus(),
            },
        }
    }
}
