//! A settlement whose final sets and regret are found: what follows of it, step by step.
ghost use Rattle.std.specs.Prelude.{◌≡◌, ◌<◌, [], length, false, IsTrue, List, IfOk, IfErr, OnErr};
ghost use Rattle.ice_defs.specs.Exchange.{trees_of};
ghost use Rattle.ice_defs.specs.Session.{closes as closing};
ghost use Rattle.ice_price.specs.Ends.{IsPriced};
ghost use Rattle.ice_round.specs.Held.{settling_with, HasFound, HasOneMore, IsChargeOf};
ghost use Rattle.ice_round.specs.Settling.{IsStoppedBehind, IsOfferOf, IsUnpriced, IsOpenedBy, offered_trade};
ghost use Rattle.ice_round.specs.Shown.{IsOpening};
ghost use Rattle.ice_round.specs.Ends.{IsHaltOf, IsSettledAs};

use crate::in_round::InRound;
use crate::keeping::keep;
use crate::offer::Offer;
use crate::payments::pay;
use crate::session::Session;
use crate::settled::Settled;
use ice_price::{PriceEnd, Pricing, price};
use ice_regret::Regret;
use ice_search::{Found, SearchEnd};
use ice_settled::{Charged, Halt, Opening};
use ice_trade::Exchange;
use ice_tree::Assignment;
use ice_vickrey::{Marginal, without_bidder};
use std::alloc::AllocError;
use std::marker::Model;

/// A settlement whose final sets and regret are found. It is seen as the session before it, these,
/// the Vickrey discounts of the first bidders, of whom there are none at first, and the branches
/// that are left.
///
/// What the market is worth without these bidders is handed out as it is found, and isn't kept: of
/// each of them it holds the discount and, as a hint for the searches to come, the sets.
pub struct Settling {
    pub(crate) session: Session,
    pub(crate) best: Found,
    pub(crate) regret: Regret,
    pub(crate) witnesses: Vec<Assignment>,
    pub(crate) discounts: Vec<i128>,
    pub(crate) left: u32,
}

// By hand, so that each exit that drops one has one call to prove, and not all its parts.
impl Drop for Settling {
    fn drop(self) {
        let Settling {
            session: _,
            best: _,
            regret: _,
            witnesses: _,
            discounts: _,
            left: _,
        } = self;
    }
}

impl Model for Settling {
    ghost use Rattle.ice_round.specs.Held.{Held};
    ghost use Rattle.ice_round.specs.KeptSettling.{held_at, IsKeptSettling};

    ghost Value = { Held };

    ghost view = { λ x. held_at x.session x.best x.regret x.discounts.items x.left };

    ghost invariant = { λ x. IsKeptSettling x.session x.best x.regret x.discounts.items x.left };
}

impl Settling {
    /// The exchange. It takes no memory.
    pub fn exchange(&self) -> &Exchange
        ensures { result.now ≡ self.now.session.exchange }
    {
        &self.session.exchange
    }

    /// The number of the settlement, from 0.
    pub fn number(&self) -> u8
        ensures { result ≡ self.now.session.number }
    {
        self.session.number
    }

    /// The final sets.
    pub fn best(&self) -> &Found
        ensures { result.now ≡ self.now.best }
    {
        &self.best
    }

    /// Their regret.
    pub fn regret(&self) -> &Regret
        ensures { result.now ≡ self.now.regret }
    {
        &self.regret
    }

    /// Whether the close test closes the session.
    pub fn closes(&self) -> bool
        ensures { result ≡ closing self.now.session.exchange.settings self.now.session.number
            self.now.regret.amount }
    {
        let regret = &self.regret;
        self.session
            .exchange
            .settings()
            .closes(self.session.number, regret.amount)
    }

    /// Whether it is known without each bidder what the market is worth.
    pub fn is_done(&self) -> bool
        ensures all { IsTrue result
            → length self.now.discounts ≡ length (trees_of self.now.session.exchange) }
        ensures more { result ≡ false
            → length self.now.discounts < length (trees_of self.now.session.exchange) }
    {
        self.discounts.len() == usize::from(self.session.exchange.bidders())
    }

    /// What the market is worth without the next bidder, by a search from the empty assignment with
    /// the bidder's root left out.
    ///
    /// `Spent` comes only where the search used all branches that those before it left. After an
    /// error the settlement is as it was.
    pub fn find_without(&mut self) -> Result<Marginal, SearchEnd>
        requires closes { IsTrue (closing self.old.session.exchange.settings
            self.old.session.number self.old.regret.amount) }
        requires next { length self.old.discounts < length (trees_of self.old.session.exchange) }
        ensures more { IfOk result (λ m. HasOneMore self.old m self.new) }
        // Whatever was found before
        ensures end { (done : List Marginal) → HasFound self.old done
            → IfErr result (IsStoppedBehind (settling_with self.old done)) }
        ensures kept { OnErr result (self.new ≡ self.old) }
    {
        // There are at most 40 bidders.
        let _bidders = self.session.exchange.bidders();
        let bidder = self.discounts.len() as u8;
        let mut left = self.left;
        let marginal = without_bidder(
            self.session.alloc,
            &self.session.exchange,
            self.session.judge.bounds(),
            &self.best,
            &self.witnesses,
            bidder,
            &mut left,
        )?;
        match keep(
            self.session.alloc,
            self.session.exchange.trees(),
            &marginal,
            &mut self.witnesses,
            &mut self.discounts,
        ) {
            Ok(()) => {
                self.left = left;
                Ok(marginal)
            }
            Err(_) => Err(SearchEnd::NoMemory),
        }
    }

    /// The payments, where it is known without each bidder what the market is worth.
    pub fn pay(self) -> Result<Charged, AllocError>
        requires closes { IsTrue (closing self.session.exchange.settings self.session.number
            self.regret.amount) }
        requires all { length self.discounts ≡ length (trees_of self.session.exchange) }
        ensures { IfOk result (IsChargeOf self) }
    {
        let Settling {
            session,
            best,
            regret,
            witnesses: _,
            discounts,
            left: _,
        } = self;
        let payments = pay(
            session.alloc,
            &session.exchange,
            session.judge.bounds(),
            &best,
            &discounts,
        )?;
        Ok(Charged {
            exchange: session.exchange,
            bounds: session.judge.into_bounds(),
            number: session.number,
            best,
            regret,
            vickreys: discounts,
            payments,
        })
    }

    /// The provisional sets, by a search at weighted values from the empty assignment.
    ///
    /// `Spent` comes only where the search used all branches that those before it left.
    pub fn offer(&self) -> Result<Offer, SearchEnd>
        requires goes_on { closing self.now.session.exchange.settings self.now.session.number
            self.now.regret.amount ≡ false }
        requires fresh { HasFound self.now [] }
        ensures offer { IfOk result (IsOfferOf (settling_with self.now [])) }
        ensures end { IfErr result (IsStoppedBehind (settling_with self.now [])) }
    {
        let mut left = self.left;
        let provisional = self.session.provisional_sets(&mut left)?;
        Ok(Offer { provisional, left })
    }

    /// The prices of what is offered.
    pub fn price(&self, offer: &Offer) -> Result<Pricing, PriceEnd>
        requires goes_on { closing self.now.session.exchange.settings self.now.session.number
            self.now.regret.amount ≡ false }
        requires fresh { HasFound self.now [] }
        requires offer { IsOfferOf (settling_with self.now []) offer.now }
        ensures priced { IfOk result
            (IsPriced (offered_trade (settling_with self.now []) offer.now)) }
        ensures ended { IfErr result (IsUnpriced (settling_with self.now []) offer.now) }
    {
        price(
            self.session.alloc,
            &self.session.exchange,
            self.session.judge.bounds(),
            &offer.provisional.best,
        )
    }

    /// The round that the settlement opens, with what the settlement found.
    pub fn open(self, offer: Offer, pricing: Pricing) -> (InRound, Opening)
        requires goes_on { closing self.session.exchange.settings self.session.number
            self.regret.amount ≡ false }
        requires fresh { HasFound self [] }
        requires offer { IsOfferOf (settling_with self []) offer }
        requires pricing { IsPriced (offered_trade (settling_with self []) offer) pricing }
        ensures opening { IsOpening self.session result.0 result.1 }
        ensures made { IsOpenedBy (settling_with self []) offer result.1 }
    {
        let Settling {
            session,
            best,
            regret,
            witnesses: _,
            discounts: _,
            left: _,
        } = self;
        let opening = Opening {
            number: session.number,
            best,
            regret,
            provisional: offer.provisional,
            pricing,
        };
        (session.open(&opening, offer.left), opening)
    }

    /// The halt of a settlement that goes no further.
    fn halt(self, provisional: Option<Found>, marginals: Vec<Marginal>) -> Halt
        ensures session { IsHaltOf self.session result }
        ensures best { result.best ≡ Some self.best }
        ensures regret { result.regret ≡ Some self.regret }
        ensures provisional { result.provisional ≡ provisional }
        ensures marginals { result.marginals.items ≡ marginals.items }
    {
        let Settling {
            session,
            best,
            regret,
            witnesses: _,
            discounts: _,
            left: _,
        } = self;
        session.halt(Some(best), Some(regret), provisional, marginals)
    }

    /// The end where a search found nothing, behind these.
    fn stop(self, end: SearchEnd, marginals: Vec<Marginal>) -> Settled
        requires { IsStoppedBehind (settling_with self marginals.items) end }
        ensures { IsSettledAs self.session result }
    {
        match end {
            SearchEnd::Spent(spent) => Settled::Spent(self.halt(None, marginals), spent),
            SearchEnd::NoMemory => Settled::NoMemory,
        }
    }

    /// The payments, with all that was found.
    fn charge(self, marginals: Vec<Marginal>) -> Settled
        requires closes { IsTrue (closing self.session.exchange.settings self.session.number
            self.regret.amount) }
        requires found { HasFound self marginals.items }
        requires all { length self.discounts ≡ length (trees_of self.session.exchange) }
        ensures { IsSettledAs self.session result }
    {
        match self.pay() {
            Ok(charged) => Settled::Closed(charged.with(marginals)),
            Err(_) => Settled::NoMemory,
        }
    }

    /// The settlement closes the session: the bidders that are left, one by one, and the payments.
    /// All that is found is held.
    fn close(self, marginals: Vec<Marginal>) -> Settled
        requires closes { IsTrue (closing self.session.exchange.settings self.session.number
            self.regret.amount) }
        requires found { HasFound self marginals.items }
        ensures { IsSettledAs self.session result }
    {
        let mut settling = self;
        if settling.is_done() {
            return settling.charge(marginals);
        }
        match settling.find_without() {
            Ok(marginal) => {
                let mut marginals = marginals;
                match marginals.push(marginal) {
                    Ok(()) => settling.close(marginals),
                    Err(_) => Settled::NoMemory,
                }
            }
            Err(end) => settling.stop(end, marginals),
        }
    }

    /// The settlement goes on: the provisional sets, their prices, and a round.
    fn go_on(self, none: Vec<Marginal>) -> Settled
        requires goes_on { closing self.session.exchange.settings self.session.number
            self.regret.amount ≡ false }
        requires fresh { HasFound self [] }
        requires none { none.items ≡ [] }
        ensures { IsSettledAs self.session result }
    {
        let offer = match self.offer() {
            Ok(offer) => offer,
            Err(end) => return self.stop(end, none),
        };
        match self.price(&offer) {
            Ok(pricing) => {
                let (round, opening) = self.open(offer, pricing);
                Settled::Going(round, opening)
            }
            Err(PriceEnd::Limit(limit)) => {
                Settled::Limit(self.halt(Some(offer.provisional), none), limit)
            }
            Err(PriceEnd::NoMemory) => Settled::NoMemory,
        }
    }

    /// The rest of the settlement: what closes the session, or opens a round.
    pub(crate) fn finish(self) -> Settled
        requires { HasFound self [] }
        ensures { IsSettledAs self.session result }
    {
        let none = Vec::new(self.session.alloc);
        if self.closes() {
            self.close(none)
        } else {
            self.go_on(none)
        }
    }
}
