//! The settlements of a statement, up to the prices.
ghost use Rattle.std.specs.Prelude.{◌≡◌, ◌==◌, IsTrue, false, length, IfOk, map, replicate};
ghost use Rattle.ice_defs.specs.Exchange.{trees_of, opening_bounds};
ghost use Rattle.ice_defs.specs.Session.{closes};
ghost use Rattle.ice_defs.specs.Set.{IsSatisfied};
ghost use Rattle.ice_journal.specs.Records as records;
ghost use Rattle.ice_verdicts.specs.Judges.{IsRoundOf};
ghost use Rattle.ice_statement_laws.specs.Statement.{shown, kept, offered};
ghost use Rattle.ice_audit.specs.Standing.{own_tree, behind_kept, IsKept};
ghost use Rattle.ice_audit.specs.Taking.{GoesOn, Takes};
ghost use Rattle.ice_check_offer.specs.Broken.{IsBroken};

use crate::next::Next;
use ice_check_offer::{are_lawful_in, broken_rule, count_goods};
use ice_journal_laws::Rule;
use ice_set::NodeSet;
use ice_terms::Prices;
use ice_trade::Exchange;
use ice_tree::Assignment;
use ice_verdicts::Judge;
use std::alloc::{AllocError, Global};

/// What is kept of a statement behind its section: the exchange of its one bidder, the round at
/// hand, the provisional set, the number of the settlement, its final set once that came, and what
/// comes next. It keeps no submission, and takes memory only when it is made.
pub(crate) struct Settlements {
    pub(crate) exchange: Exchange,
    pub(crate) judge: Judge,
    pub(crate) offered: Assignment,
    pub(crate) number: u8,
    pub(crate) kept: NodeSet,
    pub(crate) next: Next,
}

// By hand, so that each exit that drops one has one call to prove, and not all its parts.
impl Drop for Settlements {
    fn drop(self) {
        let Settlements {
            exchange: _,
            judge: _,
            offered: _,
            number: _,
            kept: _,
            next: _,
        } = self;
    }
}

impl Settlements {
    /// The first settlement begins.
    pub(crate) fn new(alloc: Global, exchange: Exchange) -> Result<Settlements, AllocError>
        // On success
        ensures exchange { IfOk result (λ x. x.exchange ≡ exchange) }
        ensures round { IfOk result (λ x. IsRoundOf exchange x.judge) }
        ensures bounds { IfOk result (λ x. x.judge.bounds ≡ opening_bounds exchange) }
        ensures after { IfOk result (λ x. x.judge.next ≡ opening_bounds exchange) }
        ensures marks { IfOk result
            (λ x. x.judge.marks ≡ replicate (length exchange.bidders) false) }
        ensures offered { IfOk result
            (λ x. x.offered ≡ map (λ t. replicate (length t) false) (trees_of exchange)) }
        ensures number { IfOk result (λ x. x.number ≡ 0) }
        ensures next { IfOk result (λ x. x.next ≡ Next.Regret) }
    {
        let judge = Judge::new(alloc, &exchange)?;
        let offered = Assignment::empty(alloc, exchange.trees())?;
        Ok(Settlements {
            exchange,
            judge,
            offered,
            number: 0,
            kept: NodeSet::empty(0),
            next: Next::Regret,
        })
    }

    /// The regret.
    pub(crate) fn take_regret(&mut self, amount: i64) -> Result<(), Rule>
        requires kept { IsKept self.old }
        ensures { Takes self.old (shown (records.regret amount)) result self.new }
    {
        match self.next {
            Next::Regret => {
                self.next = Next::Kept { regret: amount };
                Ok(())
            }
            _ => Err(Rule::Order),
        }
    }

    /// What comes next behind a final set at this regret.
    fn behind_kept(&self, regret: i64) -> Next
        ensures { result ≡ behind_kept
            (closes self.now.exchange.settings self.now.number regret) }
    {
        let settings = self.exchange.settings();
        if settings.closes(self.number, i128::from(regret)) {
            Next::Threshold
        } else {
            Next::Offered
        }
    }

    /// The rule that a set of the bidder breaks by itself.
    fn broken_rule(&self, set: &NodeSet) -> Option<Rule>
        requires kept { IsKept self.now }
        ensures { IsBroken (own_tree self.now.exchange) set.now result }
    {
        broken_rule(self.exchange.tree(0), set)
    }

    /// A satisfied final set at this regret.
    fn keep(&mut self, regret: i64, set: &NodeSet)
        requires next { self.old.next ≡ Next.Kept regret }
        requires kept { IsKept self.old }
        requires satisfied { IsSatisfied (own_tree self.old.exchange) set.now }
        ensures { GoesOn self.old (kept set.now) self.new }
    {
        self.next = self.behind_kept(regret);
        self.kept = *set;
    }

    /// A final set at this regret.
    fn state_kept(&mut self, regret: i64, set: &NodeSet) -> Result<(), Rule>
        requires next { self.old.next ≡ Next.Kept regret }
        requires kept { IsKept self.old }
        ensures { Takes self.old (kept set.now) result self.new }
    {
        match self.broken_rule(set) {
            Some(rule) => Err(rule),
            None => {
                self.keep(regret, set);
                Ok(())
            }
        }
    }

    /// The final set.
    pub(crate) fn take_kept(&mut self, set: &NodeSet) -> Result<(), Rule>
        requires kept { IsKept self.old }
        ensures { Takes self.old (kept set.now) result self.new }
    {
        match self.next {
            Next::Kept { regret } => self.state_kept(regret, set),
            _ => Err(Rule::Order),
        }
    }

    /// A satisfied provisional set.
    fn offer(&mut self, set: &NodeSet)
        requires next { self.old.next ≡ Next.Offered }
        requires kept { IsKept self.old }
        requires satisfied { IsSatisfied (own_tree self.old.exchange) set.now }
        ensures { GoesOn self.old (offered set.now) self.new }
    {
        self.offered.put(0, set);
        self.judge.offer(&self.exchange, &self.offered);
        self.next = Next::Prices;
    }

    /// A provisional set in its place.
    fn state_offered(&mut self, set: &NodeSet) -> Result<(), Rule>
        requires next { self.old.next ≡ Next.Offered }
        requires kept { IsKept self.old }
        ensures { Takes self.old (offered set.now) result self.new }
    {
        match self.broken_rule(set) {
            Some(rule) => Err(rule),
            None => {
                self.offer(set);
                Ok(())
            }
        }
    }

    /// The provisional set.
    pub(crate) fn take_offered(&mut self, set: &NodeSet) -> Result<(), Rule>
        requires kept { IsKept self.old }
        ensures { Takes self.old (offered set.now) result self.new }
    {
        match self.next {
            Next::Offered => self.state_offered(set),
            _ => Err(Rule::Order),
        }
    }

    /// Prices in their place, of which there is one for each good.
    fn put_prices(&mut self, prices: &Prices) -> Result<(), Rule>
        requires next { self.old.next ≡ Next.Prices }
        requires kept { IsKept self.old }
        requires counts { IsTrue (length prices.now.nums == length self.old.exchange.goods) }
        ensures { Takes self.old (shown (records.prices prices.now)) result self.new }
    {
        if are_lawful_in(&self.exchange, prices) {
            self.judge.price(prices);
            self.next = Next::Round;
            Ok(())
        } else {
            Err(Rule::Prices)
        }
    }

    /// Prices in their place.
    fn state_prices(&mut self, prices: &Prices) -> Result<(), Rule>
        requires next { self.old.next ≡ Next.Prices }
        requires kept { IsKept self.old }
        ensures { Takes self.old (shown (records.prices prices.now)) result self.new }
    {
        if count_goods(&self.exchange, prices) {
            self.put_prices(prices)
        } else {
            Err(Rule::Order)
        }
    }

    /// The prices.
    pub(crate) fn take_prices(&mut self, prices: &Prices) -> Result<(), Rule>
        requires kept { IsKept self.old }
        ensures { Takes self.old (shown (records.prices prices.now)) result self.new }
    {
        match self.next {
            Next::Prices => self.state_prices(prices),
            _ => Err(Rule::Order),
        }
    }
}
