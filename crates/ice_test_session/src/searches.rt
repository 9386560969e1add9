//! Searches of worked exchanges.
use crate::markets::{BUYERS, EXACT_TWO_FOR_ONE, PAIRS, TWO_FOR_ONE, exchange};
use crate::outcome::{Outcome, search_best};
use std::test::Fail;

/// Exchanges with so many branches, and the greatest values.
const VALUES: [(&str, u16, i128); 5] = [
    (BUYERS, 200, 0),
    (PAIRS, 1, 10),
    (PAIRS, 200, 10),
    (TWO_FOR_ONE, 200, 8),
    (EXACT_TWO_FOR_ONE, 200, 0),
];

#[test]
fn the_greatest_value_is_found(rt: HostRuntime) -> Result<(), Fail> {
    let alloc = rt.alloc();
    for (lines, branches, value) in VALUES {
        let exchange = exchange(alloc, lines)?;
        let outcome = search_best(alloc, &exchange, branches)?;
        assert_eq!(rt; (outcome.value, outcome.bound), (value, None), "{lines}");
    }
    Ok(())
}

/// Multipliers alone show that nothing is worth trading where nobody sells.
#[test]
fn no_branch_is_wanted(rt: HostRuntime) -> Result<(), Fail> {
    let alloc = rt.alloc();
    let exchange = exchange(alloc, BUYERS)?;
    let wanted = Outcome {
        value: 0,
        bound: None,
        branch_steps: 0,
        leaves: 1,
        left: 200,
    };
    assert_eq!(rt; search_best(alloc, &exchange, 200)?, wanted);
    Ok(())
}

/// No multipliers give a bound below 15, and one trade at most is worth something.
#[test]
fn no_branch_is_there(rt: HostRuntime) -> Result<(), Fail> {
    let alloc = rt.alloc();
    let exchange = exchange(alloc, PAIRS)?;
    let outcome = search_best(alloc, &exchange, 0)?;
    assert!(rt; outcome.value == 0 || outcome.value == 10);
    let wanted = Outcome {
        value: outcome.value,
        bound: Some(15),
        branch_steps: 0,
        leaves: 1,
        left: 0,
    };
    assert_eq!(rt; outcome, wanted);
    Ok(())
}
