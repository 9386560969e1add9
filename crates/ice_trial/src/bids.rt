//! The bids that state true values.
ghost use Rattle.std.specs.Prelude.{◌≡◌, length, IfOk};
ghost use Rattle.ice_defs.specs.Exchange.{names_of};
ghost use Rattle.ice_terms.specs.Bids.{AreValues};
ghost use Rattle.ice_trial.specs.Truths.{IsExact, AreExact, truth_bids};

use arrayvec::ArrayVec;
use ice_terms::{Bid, Name};
use ice_trade::Exchange;
use ice_tree::Bounds;
use std::alloc::{AllocError, Global};

/// The lower values of a bidder.
fn lower_values(bounds: &Bounds) -> ArrayVec<i64, 200>
    ensures values { result.items ≡ bounds.now.lo }
    ensures lawful { AreValues result.items }
{
    let mut values = ArrayVec::new();
    for node in 0..bounds.len() {
        values.push(bounds.lo(node));
    }
    values
}

/// The bid of a bidder that states these true values.
fn truth_bid(bidder: &Name, truth: &Bounds) -> Bid
    requires { IsExact truth.now }
    ensures { result ≡ record { name = bidder.now; lo = truth.now.lo; hi = truth.now.hi } }
{
    Bid::new(bidder.copy(), lower_values(truth), lower_values(truth))
}

/// The bids of all bidders that state their true values, in order.
pub(crate) fn truth_bids(
    alloc: Global,
    exchange: &Exchange,
    truths: &[Bounds],
) -> Result<Vec<Bid>, AllocError>
    requires count { length truths.now ≡ length exchange.now.bidders }
    requires exact { AreExact truths.now }
    ensures { IfOk result (λ bids. bids.items ≡ truth_bids (names_of exchange.now) truths.now) }
{
    let mut bids = Vec::new(alloc);
    for bidder in 0..exchange.bidders() {
        let truth = &truths[bidder as usize];
        bids.push(truth_bid(exchange.bidder_name(bidder), truth))?;
    }
    Ok(bids)
}
