//! Regrets of the best assignments of worked exchanges.
use crate::markets::{BUYERS, EXACT_TWO_FOR_ONE, MAYBE, PAIRS, SHARED_NODE, exchange, free};
use crate::outcome::search_lower;
use ice_regret::regret;
use ice_search::{Found, SearchEnd, is_feasible};
use ice_trade::Exchange;
use std::alloc::Global;
use std::test::Fail;

/// What the best assignment is worth at lower values, its regret, what the rival is worth at
/// perturbed values, and whether a session of these settings closes there.
#[derive(Clone, Copy, Debug, PartialEq, Eq)]
struct Settlement {
    value: i128,
    amount: i128,
    rival: i128,
    closes: bool,
}

/// What a search found.
fn found(answer: Result<Found, SearchEnd>) -> Result<Found, Fail> {
    match answer {
        Ok(found) => Ok(found),
        Err(_) => Err("no best assignment")?,
    }
}

/// The first settlement of the exchange.
fn settle(alloc: Global, exchange: &Exchange) -> Result<Settlement, Fail> {
    let mut left = 200;
    let best = search_lower(alloc, exchange, &mut left)?;
    let best = found(best)?;
    let start = free(alloc, exchange)?;
    if !is_feasible(exchange, &start, &best.best) {
        return Err("the best assignment is not feasible")?;
    }
    let mut left = 200;
    match regret(
        alloc,
        exchange,
        exchange.bounds(),
        &best.best,
        None,
        &mut left,
    ) {
        Ok(regret) => Ok(Settlement {
            value: best.value,
            amount: regret.amount,
            rival: regret.value,
            closes: exchange.settings().closes(0, regret.amount),
        }),
        Err(_) => Err("no regret")?,
    }
}

/// Exchanges, and the settlements of their opening bounds.
const SETTLEMENTS: [(&str, Settlement); 5] = [
    (
        MAYBE,
        Settlement {
            value: 0,
            amount: 4,
            rival: 4,
            closes: true,
        },
    ),
    (
        SHARED_NODE,
        Settlement {
            value: 52,
            amount: 0,
            rival: 52,
            closes: true,
        },
    ),
    (
        PAIRS,
        Settlement {
            value: 10,
            amount: 0,
            rival: 10,
            closes: true,
        },
    ),
    (
        BUYERS,
        Settlement {
            value: 0,
            amount: 0,
            rival: 0,
            closes: true,
        },
    ),
    (
        EXACT_TWO_FOR_ONE,
        Settlement {
            value: 0,
            amount: 0,
            rival: 0,
            closes: true,
        },
    ),
];

#[test]
fn regrets_are_reckoned(rt: HostRuntime) -> Result<(), Fail> {
    let alloc = rt.alloc();
    for (lines, wanted) in SETTLEMENTS {
        let exchange = exchange(alloc, lines)?;
        let settlement = settle(alloc, &exchange)?;
        assert_eq!(rt; settlement, wanted, "{lines}");
    }
    Ok(())
}
