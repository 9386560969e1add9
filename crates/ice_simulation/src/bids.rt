//! The bids of proxies.
ghost use Rattle.std.specs.Prelude.{◌≡◌, ◌<◌, [], length, slice_index_or, IfOk};
ghost use Rattle.ice_proxy.specs.Sessions.{HoldTruths};
ghost use Rattle.ice_simulation.specs.TruthFile.{truth_in, truth_lists};
ghost use Rattle.ice_simulation.specs.Rounds.{Stands, IsProxyBidOf, AreProxyBidsIn};
ghost use Rattle.ice_defs.specs.Trade.{tree_of, set_of};
ghost use Rattle.ice_defs.specs.Bounds.{bounds_of};
ghost use Rattle.ice_defs.specs.Exchange.{trees_of};

use arrayvec::ArrayVec;
use ice_proxy::proxy;
use ice_round::InRound;
use ice_rules::{Scratch, Standing};
use ice_terms::{Bid, Name};
use ice_trade::Exchange;
use ice_tree::Bounds;
use std::alloc::{AllocError, Global};

/// The values of the first bid of this name.
fn truth_in<'a>(bids: &'a [Bid], name: &Name) -> &'a [i64]
    ensures { result.now ≡ truth_in bids.now name.now }
{
    for bid in bids {
        if bid.bidder().text() == name.text() {
            return bid.lo();
        }
    }
    &[]
}

fn lower_values(bounds: &Bounds) -> ArrayVec<i64, 200>
    ensures { result.items ≡ bounds.now.lo }
{
    let mut values = ArrayVec::new();
    for node in 0..bounds.len() {
        values.push(bounds.lo(node));
    }
    values
}

fn upper_values(bounds: &Bounds) -> ArrayVec<i64, 200>
    ensures { result.items ≡ bounds.now.hi }
{
    let mut values = ArrayVec::new();
    for node in 0..bounds.len() {
        values.push(bounds.hi(node));
    }
    values
}

/// The bid of a bidder that states these bounds.
fn bid_of(bidder: &Name, bounds: &Bounds) -> Bid
    ensures { result ≡ record { name = bidder.now; lo = bounds.now.lo; hi = bounds.now.hi } }
{
    let lo = lower_values(bounds);
    let hi = upper_values(bounds);
    let _nodes = bounds.len();
    Bid::new(bidder.copy(), lo, hi)
}

/// The true values of a bidder.
fn truth_of<'a>(exchange: &Exchange, bidder: u8, truths: &'a [Bid]) -> &'a [i64]
    requires { bidder < length exchange.now.bidders }
    ensures { result.now ≡ slice_index_or (truth_lists exchange.now.bidders truths.now) bidder [] }
{
    truth_in(truths, exchange.bidder_name(bidder))
}

/// By how much a bidder's loss is to fall.
fn improve_of(exchange: &Exchange) -> i64
    ensures { result ≡ exchange.now.settings.improve }
{
    exchange.settings().improve
}

/// Where a bidder stands in this round.
fn standing_in(round: &InRound, bidder: u8) -> Standing<'_>
    requires bidder { bidder < length round.now.exchange.bidders }
    requires stands { Stands round.now }
    ensures tree { result.tree.now ≡ tree_of (trees_of round.now.exchange) bidder }
    ensures bounds { result.bounds.now ≡ bounds_of round.now.round.bounds bidder }
    ensures set { result.set.now ≡ set_of round.now.round.sets bidder }
    ensures prices { result.prices.now ≡ round.now.round.prices }
{
    Standing {
        tree: &round.exchange().trees()[bidder as usize],
        bounds: &round.bounds()[bidder as usize],
        set: round.sets().of(bidder),
        prices: round.prices(),
    }
}

/// The bid of a bidder's proxy in this round.
fn proxy_bid(round: &InRound, bidder: u8, truths: &[Bid], scratch: &mut Scratch) -> Bid
    requires bidder { bidder < length round.now.exchange.bidders }
    requires stands { Stands round.now }
    requires hold { HoldTruths round.now.round.bounds
        (truth_lists round.now.exchange.bidders truths.now) }
    ensures { IsProxyBidOf round.now (truth_lists round.now.exchange.bidders truths.now) bidder
        result }
{
    let exchange = round.exchange();
    let at = standing_in(round, bidder);
    let truth = truth_of(exchange, bidder, truths);
    let found = proxy(&at, truth, improve_of(exchange), scratch);
    bid_of(exchange.bidder_name(bidder), &found.bounds)
}

/// The bids of all bidders' proxies in this round, in order. Each states the bounds of the least
/// attempt that is accepted there.
pub fn proxy_bids(alloc: Global, round: &InRound, truths: &[Bid]) -> Result<Vec<Bid>, AllocError>
    requires stands { Stands round.now }
    requires hold { HoldTruths round.now.round.bounds
        (truth_lists round.now.exchange.bidders truths.now) }
    ensures { IfOk result (λ bids. AreProxyBidsIn round.now
        (truth_lists round.now.exchange.bidders truths.now) bids.items) }
{
    let mut scratch = Scratch::new();
    let mut bids = Vec::new(alloc);
    for bidder in 0..round.exchange().bidders() {
        bids.push(proxy_bid(round, bidder, truths, &mut scratch))?;
    }
    Ok(bids)
}
