//! What is known of a round while its submissions come in.
ghost use Rattle.std.specs.Prelude.{◌≡◌, [], ◌<◌, ◌≤◌, ℕ, IfOk, length, map, replicate, false, pos, slice_set, true};
ghost use Rattle.ice_defs.specs.Exchange.{Exchange, trees_of, opening_bounds};
ghost use Rattle.ice_defs.specs.Set.{IsSatisfied};
ghost use Rattle.ice_defs.specs.Lawful.{AreBounds};
ghost use Rattle.ice_defs.specs.Trade.{tree_of, set_of};
ghost use Rattle.ice_verdicts.specs.Judges.{Round, IsRoundOf, IsAfter, is_marked};

use arrayvec::ArrayVec;
use ice_terms::Prices;
use ice_trade::Exchange;
use ice_tree::{Assignment, Bounds};
use std::alloc::{AllocError, Global};
use std::marker::Model;

/// What is known of a round: the bidders' bounds, their provisional sets and the prices at its
/// start, and of each bidder its next bounds and whether one of its submissions was accepted. It
/// keeps no submission.
///
/// It takes memory when it is made, and none later.
pub struct Judge {
    bounds: Vec<Bounds>,
    sets: Assignment,
    prices: Prices,
    next: Vec<Bounds>,
    marks: Vec<bool>,
}

// By hand, so that each exit that drops one has one call to prove, and not all its parts.
impl Drop for Judge {
    fn drop(self) {
        let Judge {
            bounds: _,
            sets: _,
            prices: _,
            next: _,
            marks: _,
        } = self;
    }
}

impl Model for Judge {
    ghost use Rattle.ice_verdicts.specs.Judges.{Round};

    ghost Value = { Round };

    ghost view = { λ j. record {
      bounds = j.bounds.items;
      sets = j.sets;
      prices = j.prices;
      next = j.next.items;
      marks = j.marks.items;
    } };
}

/// The same bounds once more.
fn copies(alloc: Global, bounds: &[Bounds]) -> Result<Vec<Bounds>, AllocError>
    ensures { IfOk result (λ copies. copies.items ≡ bounds.now) }
{
    bounds.iter().map(|bounds| bounds.copy()).collect(alloc)
}

/// Puts the second bounds in the place of the first.
fn put_all(bounds: &mut [Bounds], others: &[Bounds])
    requires { length others.now ≡ length bounds.old }
    ensures { bounds.new ≡ others.now }
{
    for bidder in 0..bounds.len() {
        bounds[bidder] = others[bidder].copy();
    }
}

/// A price of 0 for each good.
fn zero_prices(goods: u8) -> Prices
    requires some { 1 ≤ goods }
    requires few { goods ≤ 32 }
    ensures { result ≡ record { den = 1; nums = replicate goods (pos 0) } }
{
    let mut nums = ArrayVec::new();
    for _good in 0..goods {
        nums.push(0);
    }
    Prices::from_terms(1, nums)
}

impl Judge {
    /// The round at the opening bounds.
    fn opening(alloc: Global, exchange: &Exchange) -> Result<Judge, AllocError>
        ensures { IfOk result (λ j. j ≡ record {
          bounds = opening_bounds exchange.now;
          sets = map (λ t. replicate (length t) false) (trees_of exchange.now);
          prices = record { den = 1; nums = replicate (length exchange.now.goods) (pos 0) };
          next = opening_bounds exchange.now;
          marks = replicate (length exchange.now.bidders) false;
        }) }
    {
        Ok(Judge {
            bounds: copies(alloc, exchange.bounds())?,
            sets: Assignment::empty(alloc, exchange.trees())?,
            prices: zero_prices(exchange.goods()),
            next: copies(alloc, exchange.bounds())?,
            marks: vec![in alloc; false; exchange.bidders() as usize]?,
        })
    }

    /// The round of an exchange at its opening bounds, with empty sets and at prices of 0, before
    /// any submission.
    pub fn new(alloc: Global, exchange: &Exchange) -> Result<Judge, AllocError>
        ensures made { IfOk result (λ j. j ≡ record {
          bounds = opening_bounds exchange.now;
          sets = map (λ t. replicate (length t) false) (trees_of exchange.now);
          prices = record { den = 1; nums = replicate (length exchange.now.goods) (pos 0) };
          next = opening_bounds exchange.now;
          marks = replicate (length exchange.now.bidders) false;
        }) }
        ensures round { IfOk result (IsRoundOf exchange.now) }
        ensures begins { IfOk result (IsAfter exchange.now []) }
    {
        let judge = Judge::opening(alloc, exchange)?;
        let _bidders = exchange.bidders();
        Ok(judge)
    }

    /// The bounds at the start of the round.
    pub fn bounds(&self) -> &[Bounds]
        ensures { result.now ≡ self.now.bounds }
    {
        &self.bounds
    }

    /// The bounds at the start of the round, without the rest.
    pub fn into_bounds(self) -> Vec<Bounds>
        ensures { result.items ≡ self.bounds }
    {
        let Judge {
            bounds,
            sets: _,
            prices: _,
            next: _,
            marks: _,
        } = self;
        bounds
    }

    /// The provisional sets.
    pub fn sets(&self) -> &Assignment
        ensures { result.now ≡ self.now.sets }
    {
        &self.sets
    }

    /// The prices.
    pub fn prices(&self) -> &Prices
        ensures { result.now ≡ self.now.prices }
    {
        &self.prices
    }

    /// Whether a submission of the bidder was accepted in this round.
    pub fn is_marked(&self, bidder: u8) -> bool
        requires { bidder < length self.now.marks }
        ensures { result ≡ is_marked self.now bidder }
    {
        self.marks[bidder as usize]
    }

    /// Gives the bidder its next bounds, and a mark.
    pub(crate) fn mark(&mut self, bidder: u8, bounds: Bounds)
        requires next { bidder < length self.old.next }
        requires marks { bidder < length self.old.marks }
        ensures marked { self.new ≡ record self.old {
          next = slice_set self.old.next bidder bounds;
          marks = slice_set self.old.marks bidder true;
        } }
        ensures round { (ex : Exchange) → IsRoundOf ex self.old
            → AreBounds (length (tree_of (trees_of ex) bidder)) bounds → IsRoundOf ex self.new }
    {
        self.next[bidder as usize] = bounds;
        self.marks[bidder as usize] = true;
    }

    /// Takes over provisional sets.
    pub fn offer(&mut self, exchange: &Exchange, sets: &Assignment)
        requires round { IsRoundOf exchange.now self.old }
        requires count { length sets.now ≡ length exchange.now.bidders }
        requires satisfied { (b : ℕ) → b < length exchange.now.bidders
            → IsSatisfied (tree_of (trees_of exchange.now) b) (set_of sets.now b) }
        ensures sets { self.new ≡ record self.old { sets = sets.now } }
        ensures round { IsRoundOf exchange.now self.new }
    {
        self.sets.copy_from(sets);
    }

    /// Takes over prices.
    pub fn price(&mut self, prices: &Prices)
        ensures prices { self.new ≡ record self.old { prices = prices.now } }
        ensures round { (ex : Exchange) → IsRoundOf ex self.old → IsRoundOf ex self.new }
    {
        self.prices = prices.copy();
    }

    /// The bounds at the start become the next ones, and no bidder is marked.
    fn move_on(&mut self)
        requires { length self.old.bounds ≡ length self.old.next }
        ensures { self.new ≡ record self.old {
          bounds = self.old.next;
          marks = replicate (length self.old.marks) false;
        } }
    {
        put_all(&mut self.bounds, &self.next);
        self.marks.fill(false);
    }

    /// The next round begins, at the bounds that this one leaves. The sets and prices stay.
    pub fn begin_next(&mut self)
        requires { length self.old.bounds ≡ length self.old.next }
        ensures next { self.new ≡ record self.old {
          bounds = self.old.next;
          marks = replicate (length self.old.marks) false;
        } }
        ensures round { (ex : Exchange) → IsRoundOf ex self.old → IsRoundOf ex self.new }
        ensures begins { (ex : Exchange) → IsRoundOf ex self.old → IsAfter ex [] self.new }
    {
        self.move_on();
    }
}
