//! The rows of the certificates.
ghost use Rattle.std.specs.Prelude.{◌≡◌, suc, [], ◌∷◌, ◌++◌, IsTrue, true, false, nat_lt, length, List, None};
ghost use Rattle.ice_defs.specs.Exchange.{trees_of};
ghost use Rattle.ice_defs.specs.Rows.{Row};
ghost use Rattle.ice_journal.specs.Lines.{record_of};
ghost use Rattle.ice_journal.specs.Ranges.{IsRecord};
ghost use Rattle.ice_journal.specs.Records as records;
ghost use Rattle.ice_check_offer.specs.Offers.{StandsAt, trade_of};
ghost use Rattle.ice_check_offer.specs.Rows.{IsBrokenRow, Passes, HasPassed, rule_of_list};
ghost use Rattle.ice_check_offer.specs.Taking.{Takes};
ghost use Rattle.ice_journal_laws.specs.Fields.{row_in};
ghost use Rattle.ice_pricing.specs.Tallies.{IsTallyOf};

use crate::broken::broken_rule;
use crate::fault::Fault;
use crate::lines::{balance_in, row_in, stops_round};
use crate::offer::Offer;
use crate::place::{CertificateList, Place, Went};
use crate::pricing::trade_at;
use crate::settlement::Settlement;
use ice_journal::Line;
use ice_journal_laws::Rule;
use ice_pricing::CertificateRow;
use ice_trade::Exchange;
use ice_tree::NodeSet;

/// The test of a list as a whole.
fn rule_of_list(list: CertificateList) -> Rule
    ensures { result ≡ rule_of_list list }
{
    match list {
        CertificateList::Accuracy => Rule::Accuracy,
        CertificateList::Balance => Rule::Balance,
    }
}

/// How many bidders there are.
fn bidders_of(exchange: &Exchange) -> u8
    ensures { result ≡ length (trees_of exchange.now) }
{
    let bidders = exchange.bidders();
    bidders
}

/// The rule that a row's set breaks by itself.
fn broken_row(exchange: &Exchange, bidder: u8, set: &NodeSet) -> Option<Rule>
    ensures { IsBrokenRow (trees_of exchange.now) bidder set.now result }
{
    let bidders = bidders_of(exchange);
    if bidders <= bidder {
        return Some(Rule::Count);
    }
    broken_rule(exchange.tree(bidder), set)
}

impl Offer {
    /// Whether the rows of the list that came pass its test.
    fn passes(&self, at: &Settlement<'_>, list: CertificateList) -> bool
        requires stands { StandsAt at.now (Place.Rows list) self.now }
        ensures yes { (rows : List Row)
            → IsTallyOf (trade_of at.now.exchange.now self.now) rows self.now.tally
            → IsTrue result → Passes at.now.exchange.now self.now list rows }
        ensures no { (rows : List Row)
            → IsTallyOf (trade_of at.now.exchange.now self.now) rows self.now.tally
            → Passes at.now.exchange.now self.now list rows → IsTrue result }
    {
        let trade = trade_at(at.exchange, at.weights, &self.judge);
        let prices = self.judge.prices();
        match list {
            CertificateList::Accuracy => {
                self.tally
                    .passes_accuracy(&trade, prices, self.violation, self.den)
            }
            CertificateList::Balance => {
                self.tally
                    .passes_balance(&trade, prices, self.violation, self.den)
            }
        }
    }
}

impl Offer {
    /// Whether fewer than 200 rows of the list came, and they fail its test.
    fn has_failed(&self, at: &Settlement<'_>, list: CertificateList) -> bool
        requires stands { StandsAt at.now (Place.Rows list) self.now }
        ensures room { IsTrue result → nat_lt self.now.tally.count 200 ≡ true }
        ensures fails { IsTrue result → (rows : List Row)
            → IsTallyOf (trade_of at.now.exchange.now self.now) rows self.now.tally
            → ¬ Passes at.now.exchange.now self.now list rows }
        ensures passed { result ≡ false → HasPassed at.now.exchange.now self.now list }
    {
        if self.tally.has_room() {
            !self.passes(at, list)
        } else {
            false
        }
    }

    /// Adds a row that is lawful.
    fn add_row(&mut self, at: &Settlement<'_>, list: CertificateList, row: &CertificateRow)
        requires room { nat_lt self.old.tally.count 200 ≡ true }
        requires lawful { IsRecord (records.row row.now.bidder row.now.weight row.now.set) }
        requires there { IsBrokenRow (trees_of at.now.exchange.now) row.now.bidder row.now.set
            None }
        requires stands { StandsAt at.now (Place.Rows list) self.old }
        // What it leaves
        ensures same { self.new ≡ record self.old { tally = self.new.tally } }
        ensures count { self.new.tally.count ≡ suc self.old.tally.count }
        ensures taken { (rows : List Row)
            → IsTallyOf (trade_of at.now.exchange.now self.old) rows self.old.tally
            → IsTallyOf (trade_of at.now.exchange.now self.old) (rows ++ row.now ∷ [])
            self.new.tally }
        ensures stands { StandsAt at.now (Place.Rows list) self.new }
    {
        let trade = trade_at(at.exchange, at.weights, &self.judge);
        self.tally.take(&trade, row);
    }

    /// A row. Where it is the last one of a full list, the list is tested.
    fn take_row(
        &mut self,
        at: &Settlement<'_>,
        list: CertificateList,
        row: &CertificateRow,
    ) -> Result<Went, Fault>
        requires lawful { IsRecord (records.row row.now.bidder row.now.weight row.now.set) }
        requires stands { StandsAt at.now (Place.Rows list) self.old }
        ensures { Takes at.now.exchange.now at.now.number self.old
            (records.row row.now.bidder row.now.weight row.now.set) result self.new }
    {
        if !self.tally.has_room() {
            return Err(Fault::Here(Rule::Order));
        }
        if let Some(rule) = broken_row(at.exchange, row.bidder, &row.set) {
            return Err(Fault::Here(rule));
        }
        self.add_row(at, list, row);
        if self.tally.has_room() {
            return Ok(Went::On);
        }
        if self.passes(at, list) {
            Ok(Went::On)
        } else {
            Err(Fault::Here(rule_of_list(list)))
        }
    }

    /// A record in the place of the balance.
    fn take_balance(&mut self, at: &Settlement<'_>, line: &Line) -> Result<Went, Fault>
        requires lawful { IsRecord (record_of line.now) }
        requires no_row { row_in (record_of line.now) ≡ None }
        requires stands { StandsAt at.now (Place.Rows CertificateList.Accuracy) self.old }
        requires passed { HasPassed at.now.exchange.now self.old CertificateList.Accuracy }
        ensures { Takes at.now.exchange.now at.now.number self.old (record_of line.now) result
            self.new }
    {
        let Some(den) = balance_in(line) else {
            return Err(Fault::Here(Rule::Order));
        };
        // The call says that the exchange is lawful.
        let _goods = at.exchange.goods();
        self.begin_list(CertificateList::Balance, den);
        Ok(Went::On)
    }

    /// A record in the place of the first submission.
    fn take_first(&mut self, at: &Settlement<'_>, line: &Line) -> Result<Went, Fault>
        requires lawful { IsRecord (record_of line.now) }
        requires no_row { row_in (record_of line.now) ≡ None }
        requires stands { StandsAt at.now (Place.Rows CertificateList.Balance) self.old }
        requires passed { HasPassed at.now.exchange.now self.old CertificateList.Balance }
        ensures { Takes at.now.exchange.now at.now.number self.old (record_of line.now) result
            self.new }
    {
        if stops_round(at.number + 2, line) {
            return Err(Fault::Here(Rule::Closed));
        }
        self.take_submission(at, line)
    }

    /// A record that is no row: where more rows might come, the list is tested first.
    fn end_rows(
        &mut self,
        at: &Settlement<'_>,
        list: CertificateList,
        line: &Line,
    ) -> Result<Went, Fault>
        requires lawful { IsRecord (record_of line.now) }
        requires no_row { row_in (record_of line.now) ≡ None }
        requires stands { StandsAt at.now (Place.Rows list) self.old }
        ensures { Takes at.now.exchange.now at.now.number self.old (record_of line.now) result
            self.new }
    {
        if self.has_failed(at, list) {
            return Err(Fault::List(rule_of_list(list)));
        }
        match list {
            CertificateList::Accuracy => self.take_balance(at, line),
            CertificateList::Balance => self.take_first(at, line),
        }
    }

    /// A record in the place of a row.
    pub(crate) fn take_rows(
        &mut self,
        at: &Settlement<'_>,
        list: CertificateList,
        line: &Line,
    ) -> Result<Went, Fault>
        requires lawful { IsRecord (record_of line.now) }
        requires stands { StandsAt at.now (Place.Rows list) self.old }
        ensures { Takes at.now.exchange.now at.now.number self.old (record_of line.now) result
            self.new }
    {
        match row_in(line) {
            Some(row) => self.take_row(at, list, &row),
            None => self.end_rows(at, list, line),
        }
    }
}
