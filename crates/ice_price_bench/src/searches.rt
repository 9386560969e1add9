//! The searches of the first settlement: the best assignment at the lower values, and its regret.

use ice_regret::{best_at_lower_values, regret};
use ice_search::SearchEnd;
use ice_trade::Exchange;
use std::alloc::{AllocError, Global};

/// So many branches may be spent on both.
const BRANCHES: u32 = 50_000;

/// What is said where a search did not end.
fn unended(alloc: Global, end: SearchEnd) -> Result<String, AllocError> {
    match end {
        SearchEnd::Spent(_) => String::from_str(alloc, "spent"),
        SearchEnd::NoMemory => String::from_str(alloc, "no memory is left"),
    }
}

/// The value of the best assignment, the value of its rival and the branches of both searches.
pub fn searched(alloc: Global, exchange: &Exchange) -> Result<String, AllocError> {
    let mut left = BRANCHES;
    let bounds = exchange.bounds();
    let found = match best_at_lower_values(alloc, exchange, bounds, &mut left) {
        Ok(found) => found,
        Err(end) => return unended(alloc, end),
    };
    let regret = match regret(
        alloc,
        exchange,
        bounds,
        &found.best,
        Some(&found.log),
        &mut left,
    ) {
        Ok(regret) => regret,
        Err(end) => return unended(alloc, end),
    };
    let value = found.value;
    let rival = regret.value;
    let branches = BRANCHES.saturating_sub(left);
    format!(in alloc; "final {value} rival {rival} branches {branches}")
}
