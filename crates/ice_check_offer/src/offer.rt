//! What a settlement that goes on offers.
ghost use Rattle.std.specs.Prelude.{◌≡◌, ◌<◌, ℕ, [], IfOk, length};
ghost use Rattle.ice_defs.specs.Exchange.{trees_of, opening_bounds};
ghost use Rattle.ice_defs.specs.Set.{IsSatisfied};
ghost use Rattle.ice_defs.specs.Trade.{tree_of, set_of};
ghost use Rattle.ice_defs.specs.Weighing.{weighted_weights};
ghost use Rattle.ice_journal.specs.Lines.{record_of};
ghost use Rattle.ice_journal.specs.Ranges.{IsRecord};
ghost use Rattle.ice_journal_laws.specs.State.{State, exchange_at, at_prices};
ghost use Rattle.ice_check_offer.specs.Offers.{IsOfferOf, IsKept, IsFresh, are_prices_next};
ghost use Rattle.ice_check_offer.specs.Taking.{Takes};

use crate::fault::Fault;
use crate::place::{Place, Went};
use crate::settlement::Settlement;
use ice_journal::Line;
use ice_pricing::Tally;
use ice_trade::Exchange;
use ice_tree::{AllWeights, Assignment, Bounds};
use ice_verdicts::Judge;
use std::alloc::{AllocError, Global};

/// What a settlement offers: its bounds, provisional sets and prices, with what is known of its
/// round; and what comes next in it. It keeps neither a row nor a submission, and takes memory only
/// when it is made.
#[derive(Drop)]
pub struct Offer {
    pub(crate) place: Place,
    pub(crate) judge: Judge,
    pub(crate) violation: i128,
    pub(crate) den: u64,
    pub(crate) tally: Tally,
}

impl Offer {
    /// The offer of an exchange at its opening bounds.
    pub fn new(alloc: Global, exchange: &Exchange) -> Result<Offer, AllocError>
        ensures kept { IfOk result (IsKept exchange.now) }
        ensures fresh { IfOk result (λ o. IsFresh exchange.now o.judge) }
        ensures bounds { IfOk result (λ o. o.judge.bounds ≡ opening_bounds exchange.now) }
    {
        Ok(Offer {
            place: Place::Prices,
            judge: Judge::new(alloc, exchange)?,
            violation: 0,
            den: 1,
            tally: Tally::new(),
        })
    }

    /// The bounds of the settlement.
    pub fn bounds(&self) -> &[Bounds]
        ensures { result.now ≡ self.now.judge.bounds }
    {
        self.judge.bounds()
    }

    /// Whether the prices come next.
    pub fn awaits_prices(&self) -> bool
        ensures { result ≡ are_prices_next self.now.place }
    {
        matches!(self.place, Place::Prices)
    }

    /// Offers provisional sets: the prices come next.
    pub fn begin(&mut self, exchange: &Exchange, sets: &Assignment)
        requires kept { IsKept exchange.now self.old }
        requires fresh { IsFresh exchange.now self.old.judge }
        requires count { length sets.now ≡ length exchange.now.bidders }
        requires satisfied { (b : ℕ) → b < length exchange.now.bidders
            → IsSatisfied (tree_of (trees_of exchange.now) b) (set_of sets.now b) }
        ensures kept { IsKept exchange.now self.new }
        ensures bounds { self.new.judge.bounds ≡ self.old.judge.bounds }
        ensures stands { (s : State) → exchange_at s ≡ exchange.now → s.place ≡ at_prices
            → s.bounds ≡ self.old.judge.bounds → s.offered ≡ sets.now → s.judged ≡ []
            → IsOfferOf exchange.now self.new s }
    {
        self.judge.offer(exchange, sets);
        self.place = Place::Prices;
    }

    /// Takes the next record, or tells the first test that fails; then it is of no more use. The
    /// weights are the weighted values of the offer's bounds, in hundredths, and the number is that
    /// of the settlement. Takes no memory.
    pub fn take(
        &mut self,
        exchange: &Exchange,
        weights: &AllWeights,
        number: u8,
        line: &Line,
    ) -> Result<Went, Fault>
        requires lawful { IsRecord (record_of line.now) }
        requires kept { IsKept exchange.now self.old }
        requires number { number < 250 }
        requires weights { weights.now
            ≡ weighted_weights exchange.now.settings.weight self.old.judge.bounds }
        ensures { Takes exchange.now number self.old (record_of line.now) result self.new }
    {
        let at = Settlement {
            exchange,
            weights,
            number,
        };
        match self.place {
            Place::Prices => self.take_prices(exchange, line),
            Place::Accuracy => self.take_accuracy(&at, line),
            Place::Rows(list) => self.take_rows(&at, list, line),
            Place::Round => self.take_submission(&at, line),
            Place::Verdict(due) => self.take_verdict(exchange, due, line),
        }
    }
}
