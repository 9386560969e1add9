//! Certificates of prices that pass or fail the tests.

use crate::markets::EMPTY_CORE;
use crate::taken::{are_satisfied, market_of, with_leaf};
use ice_pricing::{Certificate, CertificateRow, Pricing, Scratch, check_pricing, weighted_values};
use ice_terms::Prices;
use ice_trade::Exchange;
use ice_tree::Assignment;
use std::alloc::Global;
use std::test::Fail;

/// Whether a pricing passes the tests for an exchange and sets at its opening bounds.
fn passes(
    alloc: Global,
    exchange: &Exchange,
    sets: &Assignment,
    pricing: &Pricing,
) -> Result<bool, Fail> {
    let weights = weighted_values(alloc, exchange, exchange.bounds())?;
    if !are_satisfied(exchange, sets) || pricing.prices.goods() != exchange.goods() {
        return Err(Fail::from("sets or prices"));
    }
    if !pricing.accuracy.is_limited() || !pricing.balance.is_limited() {
        return Err(Fail::from("a certificate"));
    }
    Ok(check_pricing(exchange, &weights, sets, pricing, &mut Scratch::new()))
}

/// A certificate of rows of bidders that take a leaf, each of weight 1.
fn certificate(alloc: Global, den: u64, leaves: &[(u8, u16)]) -> Result<Certificate, Fail> {
    let mut rows = Vec::new(alloc);
    for (bidder, leaf) in leaves {
        rows.push(CertificateRow {
            bidder: *bidder,
            weight: 1,
            set: with_leaf(*leaf),
        })?;
    }
    Ok(Certificate { den, rows })
}

/// A price of the only good with a violation, a certificate of its accuracy over a denominator that
/// has buying and selling of the third bidder, and one of its balance that has its buying.
fn stated(alloc: Global, num: i128, violation: i128, den: u64) -> Result<Pricing, Fail> {
    let prices = Prices::new(1, &[num]).ok_or("prices")?;
    let accuracy = certificate(alloc, den, &[(2, 1), (2, 2)])?;
    let balance = certificate(alloc, 1, &[(2, 1)])?;
    Ok(Pricing {
        prices,
        delta: violation,
        accuracy,
        balance,
    })
}

/// Whether it passes where the first bidder of `EMPTY_CORE` buys from the second.
fn certificate_passes(alloc: Global, num: i128, violation: i128, den: u64) -> Result<bool, Fail> {
    let market = market_of(alloc, EMPTY_CORE, &[(0, 1), (1, 2)])?;
    let pricing = stated(alloc, num, violation, den)?;
    passes(alloc, &market.exchange, &market.sets, &pricing)
}

/// Buying is worth 1,000 to the third bidder and selling nothing, so at a price of 5 it gains 500
/// by either.
const CERTIFICATES: [(i128, i128, u64, bool); 6] = [
    (5, 500, 2, true),
    (5, 499, 2, false),
    (5, 500, 1, false),
    (5, 500, 3, false),
    (6, 500, 2, false),
    (6, 600, 2, false),
];

#[test]
fn certificates_of_prices(rt: HostRuntime) -> Result<(), Fail> {
    let alloc = rt.alloc();
    for (num, violation, den, wanted) in CERTIFICATES {
        let passes = certificate_passes(alloc, num, violation, den)?;
        assert_eq!(rt; passes, wanted, "at {num} {violation} {den}");
    }
    Ok(())
}
