//! Parts of a settlement, with the work that they took.

use crate::provisional::best_sets;
use crate::searches::searched;
use ice_cutting_planes::{Work, cut_prices};
use ice_price::{PriceEnd, Pricing, RunWork, run_prices};
use ice_pricing::{Provisional, weighted_values};
use ice_search::SearchEnd;
use ice_trade::Exchange;
use std::alloc::{AllocError, Global};

/// The violation, the greatest price, both over the prices' denominator, and the rows of both
/// certificates.
fn figures(alloc: Global, pricing: &Pricing) -> Result<String, AllocError> {
    let prices = &pricing.prices;
    let top = prices.nums().iter().copied().max().unwrap_or(0);
    let den = prices.den();
    let delta = pricing.delta;
    let accuracy = pricing.accuracy.rows.len();
    let balance = pricing.balance.rows.len();
    format!(in alloc; "{delta}/{den} {top}/{den} rows {accuracy} {balance}")
}

/// By cutting planes.
fn by_cuts(alloc: Global, trade: &Provisional<'_>) -> Result<String, AllocError> {
    let mut work = Work::none();
    let found = cut_prices(alloc, trade, &mut work);
    let Work {
        turns,
        pivots,
        columns,
        is_rounded,
    } = work;
    let text = match found {
        Ok(pricing) => figures(alloc, &pricing)?,
        Err(end) => format!(in alloc; "given up {end:?}")?,
    };
    format!(in alloc; "turns {turns} pivots {pivots} pool {columns} rounded {is_rounded} {text}")
}

/// By the stated run.
fn by_run(alloc: Global, trade: &Provisional<'_>) -> Result<String, AllocError> {
    let mut work = RunWork::none();
    let found = run_prices(alloc, trade, &mut work);
    let text = match found {
        Ok(pricing) => figures(alloc, &pricing)?,
        Err(PriceEnd::NoMemory) => String::from_str(alloc, "no memory is left")?,
        Err(PriceEnd::Limit(limit)) => {
            let stage = limit.stage;
            let kind = limit.kind;
            let pool = limit.pool.len();
            format!(in alloc; "limit {stage:?} {kind:?} pool {pool}")?
        }
    };
    let RunWork { turns, pivots } = work;
    format!(in alloc; "turns {turns} pivots {pivots} {text}")
}

/// A part of a settlement.
#[derive(Clone, Copy, PartialEq, Eq)]
pub enum Part {
    /// The prices of the provisional sets, by cutting planes.
    Cuts,
    /// The prices of the provisional sets, by the stated run.
    Run,
    /// The provisional sets.
    Sets,
    /// The best assignment at lower values, and its rival.
    Searches,
}

impl Part {
    /// The part of this name.
    pub fn named(name: &str) -> Option<Part> {
        match name {
            "cuts" => Some(Part::Cuts),
            "run" => Some(Part::Run),
            "sets" => Some(Part::Sets),
            "searches" => Some(Part::Searches),
            _ => None,
        }
    }
}

/// What this part of the exchange's first settlement finds, with its work.
pub fn measured(alloc: Global, exchange: &Exchange, part: Part) -> Result<String, AllocError> {
    if part == Part::Searches {
        return searched(alloc, exchange);
    }
    let weights = weighted_values(alloc, exchange, exchange.bounds())?;
    let sets = match best_sets(alloc, exchange, &weights) {
        Ok(sets) => sets,
        Err(SearchEnd::Spent(_)) => return String::from_str(alloc, "spent"),
        Err(SearchEnd::NoMemory) => return String::from_str(alloc, "no memory is left"),
    };
    let trade = Provisional::of(exchange, &weights, &sets);
    match part {
        Part::Cuts => by_cuts(alloc, &trade),
        Part::Run => by_run(alloc, &trade),
        Part::Sets | Part::Searches => String::from_str(alloc, "sets"),
    }
}
