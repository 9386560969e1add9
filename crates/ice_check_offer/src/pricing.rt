//! The prices and their violation.
ghost use Rattle.std.specs.Prelude.{◌≡◌, ◌≤◌, [], ℕ, IsTrue, ◌==◌, ◌≢◌, true, false, length, pos, ◌≤ℤ◌};
ghost use Rattle.ice_pricing.specs.Provisional.{ProvisionalTrade, provisional_of};
ghost use Rattle.ice_pricing.specs.Lawful.{AreUnlawful};
ghost use Rattle.ice_verdicts.specs.Judges.{IsRoundOf};
ghost use Rattle.ice_pricing.specs.Tallies.{IsTallyOf};
ghost use Rattle.ice_defs.specs.Weighing.{weighted_weights};
ghost use Rattle.ice_journal.specs.Lines.{record_of};
ghost use Rattle.ice_journal.specs.Ranges.{IsRecord};
ghost use Rattle.ice_journal.specs.Records as records;
ghost use Rattle.ice_check_offer.specs.Offers.{IsKept, StandsAt, trade_of};
ghost use Rattle.ice_check_offer.specs.Taking.{Takes};
ghost use Rattle.ice_pricing.specs.Priced.{HasViolation};

use crate::fault::Fault;
use crate::lines::{StatedViolation, accuracy_in, is_limit, prices_in};
use crate::offer::Offer;
use crate::place::{CertificateList, Place, Went};
use crate::settlement::Settlement;
use ice_journal::Line;
use ice_journal_laws::Rule;
use ice_pricing::{Provisional, Scratch, Tally, are_lawful};
use ice_terms::Prices;
use ice_trade::Exchange;
use ice_tree::AllWeights;
use ice_verdicts::Judge;

/// The provisional trade of a round.
pub(crate) fn trade_at<'a>(
    exchange: &'a Exchange,
    weights: &'a AllWeights,
    judge: &'a Judge,
) -> Provisional<'a>
    requires round { IsRoundOf exchange.now judge.now }
    requires weights { weights.now
        ≡ weighted_weights exchange.now.settings.weight judge.now.bounds }
    ensures { result ≡ provisional_of exchange.now
        (weighted_weights exchange.now.settings.weight judge.now.bounds) judge.now.sets }
{
    // The call says that the exchange is lawful.
    let _bidders = exchange.bidders();
    Provisional::of(exchange, weights, judge.sets())
}

/// The greatest price of a good.
fn cap_of(exchange: &Exchange) -> i64
    ensures value { result ≡ exchange.now.settings.cap }
    ensures low { pos 0 ≤ℤ result }
    ensures high { result ≤ℤ pos 1000000000 }
{
    exchange.settings().cap
}

/// Whether there is one price for each good.
pub fn count_goods(exchange: &Exchange, prices: &Prices) -> bool
    ensures { result ≡ (length prices.now.nums == length exchange.now.goods) }
{
    prices.goods() == exchange.goods()
}

/// Whether prices are within the exchange's cap and in lowest terms.
pub fn are_lawful_in(exchange: &Exchange, prices: &Prices) -> bool
    ensures yes { IsTrue result → ¬ AreUnlawful exchange.now.settings.cap prices.now }
    ensures no { result ≡ false → AreUnlawful exchange.now.settings.cap prices.now }
{
    let cap = cap_of(exchange);
    are_lawful(prices, cap)
}

/// Whether two numbers are one.
fn is_same(a: i128, b: i128) -> bool
    ensures yes { IsTrue result → a ≡ b }
    ensures no { result ≡ false → a ≢ b }
{
    a == b
}

impl Offer {
    /// Prices, of which there is one for each good.
    fn put_prices(&mut self, exchange: &Exchange, prices: &Prices) -> Result<Went, Fault>
        requires place { self.old.place ≡ Place.Prices }
        requires kept { IsKept exchange.now self.old }
        requires counts { (length prices.now.nums == length exchange.now.goods) ≡ true }
        ensures { (number : ℕ) → Takes exchange.now number self.old (records.prices prices.now)
            result
            self.new }
    {
        if are_lawful_in(exchange, prices) {
            self.judge.price(prices);
            self.place = Place::Accuracy;
            Ok(Went::On)
        } else {
            Err(Fault::Here(Rule::Prices))
        }
    }

    /// Prices.
    fn state_prices(&mut self, exchange: &Exchange, prices: &Prices) -> Result<Went, Fault>
        requires place { self.old.place ≡ Place.Prices }
        requires kept { IsKept exchange.now self.old }
        ensures { (number : ℕ) → Takes exchange.now number self.old (records.prices prices.now)
            result
            self.new }
    {
        if count_goods(exchange, prices) {
            self.put_prices(exchange, prices)
        } else {
            Err(Fault::Here(Rule::Order))
        }
    }

    /// A record in the place of the prices.
    pub(crate) fn take_prices(&mut self, exchange: &Exchange, line: &Line) -> Result<Went, Fault>
        requires place { self.old.place ≡ Place.Prices }
        requires lawful { IsRecord (record_of line.now) }
        requires kept { IsKept exchange.now self.old }
        ensures { (number : ℕ) → Takes exchange.now number self.old (record_of line.now) result
            self.new }
    {
        if is_limit(line) {
            return Err(Fault::Here(Rule::Closed));
        }
        match prices_in(line) {
            Some(prices) => self.state_prices(exchange, prices),
            None => Err(Fault::Here(Rule::Order)),
        }
    }

    /// A list of rows begins, of a certificate with this denominator.
    pub(crate) fn begin_list(&mut self, list: CertificateList, den: u64)
        ensures same { self.new
            ≡ record self.old { den = den; tally = self.new.tally; place = Place.Rows list } }
        ensures none { (t : ProvisionalTrade) → t.goods ≤ 32 → IsTallyOf t [] self.new.tally }
    {
        self.den = den;
        self.tally = Tally::new();
        self.place = Place::Rows(list);
    }

    /// The violation of the prices.
    fn violation(&self, at: &Settlement<'_>) -> i128
        requires stands { StandsAt at.now Place.Accuracy self.now }
        ensures { HasViolation (trade_of at.now.exchange.now self.now) self.now.judge.prices
            result }
    {
        let trade = trade_at(at.exchange, at.weights, &self.judge);
        trade.violation(self.judge.prices(), &mut Scratch::new())
    }

    /// The violation of the prices, with the denominator of the first certificate.
    fn state_violation(
        &mut self,
        at: &Settlement<'_>,
        stated: &StatedViolation,
    ) -> Result<Went, Fault>
        requires lawful { IsRecord (records.accuracy stated.now.violation stated.now.den) }
        requires stands { StandsAt at.now Place.Accuracy self.old }
        ensures { Takes at.now.exchange.now at.now.number self.old
            (records.accuracy stated.now.violation stated.now.den) result self.new }
    {
        // The call says that the exchange is lawful.
        let _goods = at.exchange.goods();
        let found = self.violation(at);
        if is_same(found, stated.violation) {
            self.violation = found;
            self.begin_list(CertificateList::Accuracy, stated.den);
            Ok(Went::On)
        } else {
            Err(Fault::Here(Rule::Violation))
        }
    }

    /// A record in the place of the violation.
    pub(crate) fn take_accuracy(&mut self, at: &Settlement<'_>, line: &Line) -> Result<Went, Fault>
        requires lawful { IsRecord (record_of line.now) }
        requires stands { StandsAt at.now Place.Accuracy self.old }
        ensures { Takes at.now.exchange.now at.now.number self.old (record_of line.now) result
            self.new }
    {
        match accuracy_in(line) {
            Some(stated) => self.state_violation(at, &stated),
            None => Err(Fault::Here(Rule::Order)),
        }
    }
}
