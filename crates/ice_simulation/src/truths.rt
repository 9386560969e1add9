//! Bids that state true values.
ghost use Rattle.std.specs.Prelude.{◌≡◌, ◌<◌, ◌≤ℤ◌, ◌&&◌, [], length, IsTrue, option_map};
ghost use Rattle.std.specs.List.{list_any};
ghost use Rattle.ice_defs.specs.Set.{weight_of};
ghost use Rattle.std.specs.Str.{bytes_eq};
ghost use Rattle.ice_simulation.specs.TruthFile.{are_inside, same_values, is_truth_of, bidder_named, lacks_truth, not_truth_from, truth_fault};
ghost use Rattle.ice_simulation.specs.Faults.{fault_of};

use ice_terms::{Bid, Name};
use ice_trade::Exchange;
use ice_tree::Bounds;

/// Why bids don't say the true values of an exchange's bidders.
#[derive(Clone, Copy, PartialEq, Eq, Debug, Drop)]
pub enum TruthFault {
    /// The bid at this index is of no bidder, or of one that an earlier bid has named, or it
    /// doesn't state one value for each node of the bidder's tree, inside its opening bounds, and
    /// as both bounds.
    NotTruth { index: u64 },
    /// A bidder has no bid.
    NoTruth,
}

/// Whether one of the bids has this name.
fn has_bid_of(bids: &[Bid], name: &Name) -> bool
    ensures { result ≡ list_any (λ s. bytes_eq s.name name.now) bids.now }
{
    bids.iter().any(|bid| bid.bidder().text() == name.text())
}

/// Whether the values are the same.
fn same_values(one: &[i64], other: &[i64]) -> bool
    ensures { result ≡ same_values one.now other.now }
{
    if one.len() != other.len() {
        return false;
    }
    for place in 0..one.len() {
        if one[place] != other[place] {
            return false;
        }
    }
    true
}

/// Whether the value lies inside the node's bounds.
fn is_inside(bounds: &Bounds, node: u16, value: i64) -> bool
    requires { node < length bounds.now.lo }
    ensures yes { IsTrue result → (weight_of bounds.now.lo node ≤ℤ value)
        × (value ≤ℤ weight_of bounds.now.hi node) }
    ensures no { weight_of bounds.now.lo node ≤ℤ value → value ≤ℤ weight_of bounds.now.hi node
        → IsTrue result }
{
    bounds.lo(node) <= value && value <= bounds.hi(node)
}

/// Whether there is one value for each node, inside the bounds.
fn are_inside(values: &[i64], bounds: &Bounds) -> bool
    ensures { result ≡ are_inside bounds.now.lo values.now bounds.now.hi }
{
    let nodes = bounds.len();
    if values.len() != nodes as usize {
        return false;
    }
    for node in 0..nodes {
        if !is_inside(bounds, node, values[node as usize]) {
            return false;
        }
    }
    true
}

/// Whether the bid states true values inside these bounds.
fn is_truth_inside(bid: &Bid, bounds: &Bounds) -> bool
    ensures { result ≡ (same_values bid.now.lo bid.now.hi
        && are_inside bounds.now.lo bid.now.lo bounds.now.hi) }
{
    if !same_values(bid.lo(), bid.hi()) {
        return false;
    }
    are_inside(bid.lo(), bounds)
}

/// Whether the bid states true values of a bidder.
fn is_truth(exchange: &Exchange, bid: &Bid) -> bool
    ensures { result ≡ is_truth_of bid.now (bidder_named bid.now.name exchange.now.bidders) }
{
    match exchange.find_bidder(bid.bidder().text()) {
        Some(bidder) => is_truth_inside(bid, &exchange.bounds()[bidder as usize]),
        None => false,
    }
}

/// Whether a bidder has no bid.
fn lacks_truth(exchange: &Exchange, bids: &[Bid]) -> bool
    ensures { result ≡ lacks_truth exchange.now bids.now }
{
    for bidder in 0..exchange.bidders() {
        if !has_bid_of(bids, exchange.bidder_name(bidder)) {
            return true;
        }
    }
    false
}

/// The first bid that states no true values.
fn not_truth(exchange: &Exchange, bids: &[Bid]) -> Option<usize>
    ensures { result ≡ not_truth_from exchange.now 0 [] bids.now }
{
    for index in 0..bids.len() {
        let bid = &bids[index];
        if has_bid_of(&bids[..index], bid.bidder()) || !is_truth(exchange, bid) {
            return Some(index);
        }
    }
    None
}

/// Why the bids don't say the true values of all bidders: the first bid that states none, or else
/// that a bidder has none. None exactly where there is one bid of each bidder, in any order, which
/// states one value for each node of its tree, inside its opening bounds, and as both bounds.
pub fn truth_fault(exchange: &Exchange, bids: &[Bid]) -> Option<TruthFault>
    ensures { option_map fault_of result ≡ truth_fault exchange.now bids.now }
{
    if let Some(index) = not_truth(exchange, bids) {
        return Some(TruthFault::NotTruth {
            index: index as u64,
        });
    }
    if lacks_truth(exchange, bids) {
        return Some(TruthFault::NoTruth);
    }
    None
}
