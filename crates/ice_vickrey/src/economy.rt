//! A market whose best value is known, and what it is worth without a bidder.
ghost use Rattle.std.specs.Prelude.{◌≡◌, ◌+◌, ◌<◌, ◌≤◌, length, IfOk, IfErr};
ghost use Rattle.ice_defs.specs.Exchange.{trees_of, exact_of};
ghost use Rattle.ice_defs.specs.Steps.{branch_count};
ghost use Rattle.ice_defs.specs.Weighing.{lower_weights};
ghost use Rattle.ice_defs.specs.Trade.{IsFeasible, IsBestOfAll, total_value};
ghost use Rattle.ice_defs.specs.Conditions.{AreBoundsOf};
ghost use Rattle.ice_search.specs.Results.{IsEnd};
ghost use Rattle.ice_vickrey.specs.Economy.{economy_at, without_search};
ghost use Rattle.ice_vickrey.specs.Marginals.{IsMarginalOf};

use crate::hints::{candidates, multipliers_of};
use crate::marginal::Marginal;
use ice_best::{Fixings, Mark};
use ice_bound::Multipliers;
use ice_refute::Log;
use ice_search::{Found, Known, Problem, SearchEnd, search_from};
use ice_trade::Exchange;
use ice_tree::{AllWeights, Assignment, Bounds};
use std::alloc::{AllocError, Global};
use std::marker::Model;

/// A market at the lower values of bounds, with its best assignment. It holds what each search
/// without a bidder needs.
pub(crate) struct Economy<'a> {
    exchange: &'a Exchange,
    bounds: &'a [Bounds],
    best: &'a Assignment,
    log: &'a Log,
    total: i128,
    weights: AllWeights,
    empty: Assignment,
    from: Multipliers,
}

// By hand, so that each exit that drops one has one call to prove, and not all its parts.
impl Drop for Economy<'_> {
    fn drop(self) {
        let Economy {
            exchange: _,
            bounds: _,
            best: _,
            log: _,
            total: _,
            weights: _,
            empty: _,
            from: _,
        } = self;
    }
}

impl<'a> Model for Economy<'a> {
    ghost use Rattle.ice_vickrey.specs.Economy as economy;
    ghost use Rattle.ice_vickrey.specs.Stored.{IsStored};

    ghost Value = { economy.Economy };

    ghost view = { λ e. record { exchange = e.exchange.now; bounds = e.bounds.now; total = e.total } };

    ghost invariant = { λ e. IsStored e.exchange.now e.bounds.now e.total e.weights e.empty e.from };
}

impl<'a> Economy<'a> {
    /// The market of an exchange at bounds, with the result of the search for its best assignment.
    pub(crate) fn new(
        alloc: Global,
        exchange: &'a Exchange,
        bounds: &'a [Bounds],
        best: &'a Found,
    ) -> Result<Economy<'a>, AllocError>
        requires bounds { AreBoundsOf (trees_of exchange.now) bounds.now }
        requires feasible { IsFeasible (trees_of exchange.now) (exact_of exchange.now)
            best.now.best }
        requires value { total_value best.now.best (lower_weights bounds.now) ≡ best.now.value }
        requires best { IsBestOfAll (trees_of exchange.now) (exact_of exchange.now)
            (lower_weights bounds.now) best.now.value }
        ensures { IfOk result (λ e. e ≡ economy_at exchange.now bounds.now best.now.value) }
    {
        let trees = exchange.trees();
        let mut weights = AllWeights::new(alloc, trees)?;
        weights.fill_lower(bounds);
        let empty = Assignment::empty(alloc, trees)?;
        let _goods = exchange.goods();
        Ok(Economy {
            exchange,
            bounds,
            best: &best.best,
            log: &best.log,
            total: best.best.lower_value(bounds),
            weights,
            empty,
            from: multipliers_of(exchange.exact(), &best.log),
        })
    }

    /// What the market is worth without the bidder. Hints are the final log's multipliers, and its
    /// sets and those that are known, with the bidder's emptied.
    pub(crate) fn without(
        &self,
        alloc: Global,
        bidder: u8,
        known: &[Assignment],
        branches: &mut u32,
    ) -> Result<Marginal, SearchEnd>
        requires bidder { bidder < length (trees_of self.now.exchange) }
        requires branches { branches.old ≤ 50000 }
        ensures marginal { IfOk result (IsMarginalOf self.now bidder) }
        ensures branches { IfOk result (λ m. branches.new + branch_count m.log ≡ branches.old) }
        ensures end { IfErr result (IsEnd (without_search self.now.exchange self.now.bounds bidder)
            branches.old branches.new) }
    {
        let trees = self.exchange.trees();
        let mut start = Fixings::free(alloc, trees)?;
        start.mark(bidder, 0, Mark::Never);
        let candidates = candidates(alloc, trees, self.best, known, bidder)?;
        let known = Known {
            from: &self.from,
            candidates: &candidates,
            log: Some(self.log),
        };
        let problem = Problem::new(self.exchange, &self.weights, &start, &self.empty);
        let found = search_from(alloc, &problem, &known, branches)?;
        let without = found.best.lower_value(self.bounds);
        Ok(Marginal {
            bidder,
            without,
            discount: self.total - without,
            witness: found.best,
            log: found.log,
        })
    }
}
