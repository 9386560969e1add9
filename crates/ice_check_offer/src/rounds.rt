//! The round.
ghost use Rattle.std.specs.Prelude.{◌≡◌, ◌≢◌, ℕ, IsTrue, false, None};
ghost use Rattle.ice_journal.specs.Lines.{record_of};
ghost use Rattle.ice_journal.specs.Ranges.{IsRecord};
ghost use Rattle.ice_journal.specs.Records as records;
ghost use Rattle.ice_journal_laws.specs.Fields.{submission_in};
ghost use Rattle.ice_check_offer.specs.Offers.{IsKept};
ghost use Rattle.ice_check_offer.specs.Rounds.{CanOpen};
ghost use Rattle.ice_check_offer.specs.Taking.{Takes};

use crate::fault::Fault;
use crate::lines::{bid_in, settlement_in, verdict_in};
use crate::offer::Offer;
use crate::place::{Place, Went};
use crate::settlement::Settlement;
use ice_defs::Verdict;
use ice_journal::Line;
use ice_journal_laws::Rule;
use ice_terms::Bid;
use ice_trade::Exchange;

/// Whether the verdict is the one that is due.
fn is_due(due: Verdict, verdict: Verdict) -> bool
    ensures yes { IsTrue result → verdict ≡ due }
    ensures no { result ≡ false → verdict ≢ due }
{
    verdict == due
}

impl Offer {
    /// A submission of this bid.
    fn submit(&mut self, exchange: &Exchange, bid: &Bid) -> Result<Went, Fault>
        requires kept { IsKept exchange.now self.old }
        ensures { (number : ℕ) → CanOpen exchange.now number self.old (records.submit bid.now)
            → Takes exchange.now number self.old (records.submit bid.now) result self.new }
    {
        let due = self.judge.submit(exchange, bid);
        self.place = Place::Verdict(due);
        Ok(Went::On)
    }

    /// The settlement with this number begins, where it is the next one.
    fn state_settlement(&mut self, at: &Settlement<'_>, other: u8) -> Result<Went, Fault>
        requires kept { IsKept at.now.exchange.now self.old }
        requires opens { CanOpen at.now.exchange.now at.now.number self.old (records.settle other) }
        ensures { Takes at.now.exchange.now at.now.number self.old (records.settle other) result
            self.new }
    {
        if other != at.number + 1 {
            return Err(Fault::Here(Rule::Order));
        }
        self.judge.begin_next();
        self.place = Place::Prices;
        Ok(Went::ToSettlement)
    }

    /// A record in the place of a submission.
    pub(crate) fn take_submission(
        &mut self,
        at: &Settlement<'_>,
        line: &Line,
    ) -> Result<Went, Fault>
        requires lawful { IsRecord (record_of line.now) }
        requires kept { IsKept at.now.exchange.now self.old }
        requires opens { CanOpen at.now.exchange.now at.now.number self.old (record_of line.now) }
        ensures { Takes at.now.exchange.now at.now.number self.old (record_of line.now) result
            self.new }
    {
        match bid_in(line) {
            Some(bid) => self.submit(at.exchange, &bid),
            None => self.take_settlement(at, line),
        }
    }

    /// A record that is no submission.
    fn take_settlement(&mut self, at: &Settlement<'_>, line: &Line) -> Result<Went, Fault>
        requires kept { IsKept at.now.exchange.now self.old }
        requires no_submission { submission_in (record_of line.now) ≡ None }
        requires opens { CanOpen at.now.exchange.now at.now.number self.old (record_of line.now) }
        ensures { Takes at.now.exchange.now at.now.number self.old (record_of line.now) result
            self.new }
    {
        match settlement_in(line) {
            Some(other) => self.state_settlement(at, other),
            None => Err(Fault::Here(Rule::Order)),
        }
    }

    /// The verdict on the submission that came.
    fn state_verdict(
        &mut self,
        exchange: &Exchange,
        due: Verdict,
        verdict: Verdict,
    ) -> Result<Went, Fault>
        requires place { self.old.place ≡ Place.Verdict due }
        requires kept { IsKept exchange.now self.old }
        ensures { (number : ℕ) → Takes exchange.now number self.old (records.verdict verdict) result
            self.new }
    {
        if is_due(due, verdict) {
            self.place = Place::Round;
            Ok(Went::On)
        } else {
            Err(Fault::Here(Rule::Verdict))
        }
    }

    /// A record in the place of this verdict.
    pub(crate) fn take_verdict(
        &mut self,
        exchange: &Exchange,
        due: Verdict,
        line: &Line,
    ) -> Result<Went, Fault>
        requires place { self.old.place ≡ Place.Verdict due }
        requires kept { IsKept exchange.now self.old }
        ensures { (number : ℕ) → Takes exchange.now number self.old (record_of line.now) result
            self.new }
    {
        match verdict_in(line) {
            Some(verdict) => self.state_verdict(exchange, due, verdict),
            None => Err(Fault::Here(Rule::Order)),
        }
    }
}
