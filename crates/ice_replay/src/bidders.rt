//! The bidders of an exchange, each with its bounds.
ghost use Rattle.std.specs.Prelude.{◌≡◌, ◌<◌, [], length, slice_index_or, IfOk};
ghost use Rattle.ice_defs.specs.Bounds.{bounds_of};
ghost use Rattle.ice_defs.specs.Exchange.{names_of};
ghost use Rattle.ice_replay.specs.Replays.{names_in, bounds_in};

use crate::settlement::BidderBounds;
use ice_trade::Exchange;
use ice_tree::Bounds;
use std::alloc::{AllocError, Global};

/// The bidder with its bounds among these.
fn bidder_at(exchange: &Exchange, bounds: &[Bounds], bidder: u8) -> BidderBounds
    requires count { length bounds.now ≡ length exchange.now.bidders }
    requires bidder { bidder < length exchange.now.bidders }
    ensures name { result.name ≡ slice_index_or (names_of exchange.now) bidder [] }
    ensures bounds { result.bounds ≡ bounds_of bounds.now bidder }
{
    BidderBounds {
        name: exchange.bidder_name(bidder).copy(),
        bounds: bounds[usize::from(bidder)].copy(),
    }
}

/// All bidders of an exchange, with these bounds.
pub(crate) fn all_bidders(
    alloc: Global,
    exchange: &Exchange,
    bounds: &[Bounds],
) -> Result<Vec<BidderBounds>, AllocError>
    requires { length bounds.now ≡ length exchange.now.bidders }
    ensures names { IfOk result (λ all. names_in all.items ≡ names_of exchange.now) }
    ensures bounds { IfOk result (λ all. bounds_in all.items ≡ bounds.now) }
{
    let mut all = Vec::new(alloc);
    for bidder in 0..exchange.bidders() {
        all.push(bidder_at(exchange, bounds, bidder))?;
    }
    Ok(all)
}
