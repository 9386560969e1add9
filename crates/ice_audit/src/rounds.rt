//! The rounds of a statement: submissions of its bidder, their verdicts, and the next settlement.
ghost use Rattle.std.specs.Prelude.{◌≡◌, ◌≢◌, ◌==◌, suc, IsTrue, false, length, replicate};
ghost use Rattle.std.specs.Str.{bytes_eq};
ghost use Rattle.ice_journal.specs.Records as records;
ghost use Rattle.ice_journal.specs.Ranges.{IsRecord};
ghost use Rattle.ice_verdicts.specs.Judges.{IsRoundOf};
ghost use Rattle.ice_statement_laws.specs.Statement.{shown};
ghost use Rattle.ice_audit.specs.Standing.{own_name, IsKept};
ghost use Rattle.ice_audit.specs.Taking.{submit_line, GoesOn, Takes};

use crate::next::Next;
use crate::settlements::Settlements;
use ice_check_offer::bid_of;
use ice_defs::Verdict;
use ice_journal_laws::Rule;
use ice_terms::Name;

/// Whether the verdict is the one that is due.
fn is_due(due: Verdict, verdict: Verdict) -> bool
    ensures yes { IsTrue result → verdict ≡ due }
    ensures no { result ≡ false → verdict ≢ due }
{
    verdict == due
}

/// Whether the second number follows the first.
fn follows(number: u8, other: u8) -> bool
    ensures { result ≡ (other == suc number) }
{
    u16::from(other) == u16::from(number) + 1
}

impl Settlements {
    /// Whether the name is the bidder's.
    pub(crate) fn has_name(&self, name: &Name) -> bool
        requires kept { IsKept self.now }
        ensures { result ≡ bytes_eq (own_name self.now.exchange) name.now }
    {
        self.exchange.bidder_name(0) == name
    }

    /// A submission of the bidder in the round: its verdict is due.
    fn submit(&mut self, name: &Name, lo: &[i32], hi: &[i32])
        requires next { self.old.next ≡ Next.Round }
        requires kept { IsKept self.old }
        requires named { IsTrue (bytes_eq (own_name self.old.exchange) name.now) }
        requires lawful { IsRecord (submit_line name.now lo.now hi.now) }
        ensures { GoesOn self.old (shown (submit_line name.now lo.now hi.now)) self.new }
    {
        let due = self.judge.submit(&self.exchange, &bid_of(name, lo, hi));
        self.next = Next::Verdict(due);
    }

    /// A submission in the round.
    fn state_submission(&mut self, name: &Name, lo: &[i32], hi: &[i32]) -> Result<(), Rule>
        requires next { self.old.next ≡ Next.Round }
        requires kept { IsKept self.old }
        requires lawful { IsRecord (submit_line name.now lo.now hi.now) }
        ensures { Takes self.old (shown (submit_line name.now lo.now hi.now)) result self.new }
    {
        if !self.has_name(name) {
            return Err(Rule::Order);
        }
        self.submit(name, lo, hi);
        Ok(())
    }

    /// A submission.
    pub(crate) fn take_submission(
        &mut self,
        name: &Name,
        lo: &[i32],
        hi: &[i32],
    ) -> Result<(), Rule>
        requires kept { IsKept self.old }
        requires lawful { IsRecord (submit_line name.now lo.now hi.now) }
        ensures { Takes self.old (shown (submit_line name.now lo.now hi.now)) result self.new }
    {
        match self.next {
            Next::Round => self.state_submission(name, lo, hi),
            _ => Err(Rule::Order),
        }
    }

    /// The bounds that the round leaves are those at which the next one begins.
    fn keep_bounds(&mut self)
        requires { IsKept self.old }
        ensures judge { self.new ≡ record self.old {
          judge = record self.old.judge {
            bounds = self.old.judge.next;
            marks = replicate (length self.old.judge.marks) false;
          };
        } }
        ensures round { IsRoundOf self.old.exchange self.new.judge }
    {
        self.judge.begin_next();
    }

    /// The settlement that follows the round, at the bounds that it leaves.
    fn begin_next(&mut self, number: u8)
        requires next { self.old.next ≡ Next.Round }
        requires kept { IsKept self.old }
        requires follows { IsTrue (number == suc self.old.number) }
        ensures { GoesOn self.old (shown (records.settle number)) self.new }
    {
        self.keep_bounds();
        self.number = number;
        self.next = Next::Regret;
    }

    /// The number of a settlement, in the round.
    fn state_settlement(&mut self, number: u8) -> Result<(), Rule>
        requires next { self.old.next ≡ Next.Round }
        requires kept { IsKept self.old }
        ensures { Takes self.old (shown (records.settle number)) result self.new }
    {
        if !follows(self.number, number) {
            return Err(Rule::Order);
        }
        self.begin_next(number);
        Ok(())
    }

    /// The number of a settlement.
    pub(crate) fn take_settlement(&mut self, number: u8) -> Result<(), Rule>
        requires kept { IsKept self.old }
        ensures { Takes self.old (shown (records.settle number)) result self.new }
    {
        match self.next {
            Next::Round => self.state_settlement(number),
            _ => Err(Rule::Order),
        }
    }

    /// A verdict where this one is due.
    fn state_verdict(&mut self, due: Verdict, verdict: Verdict) -> Result<(), Rule>
        requires next { self.old.next ≡ Next.Verdict due }
        requires kept { IsKept self.old }
        ensures { Takes self.old (shown (records.verdict verdict)) result self.new }
    {
        if is_due(due, verdict) {
            self.next = Next::Round;
            Ok(())
        } else {
            Err(Rule::Verdict)
        }
    }

    /// A verdict.
    pub(crate) fn take_verdict(&mut self, verdict: Verdict) -> Result<(), Rule>
        requires kept { IsKept self.old }
        ensures { Takes self.old (shown (records.verdict verdict)) result self.new }
    {
        match self.next {
            Next::Verdict(due) => self.state_verdict(due, verdict),
            _ => Err(Rule::Order),
        }
    }
}
