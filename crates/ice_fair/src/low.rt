//! Low bounds.
ghost use Rattle.std.specs.Prelude.{◌≡◌, ◌<◌, length, IfOk};
ghost use Rattle.ice_defs.specs.Bounds.{bounds_of};
ghost use Rattle.ice_defs.specs.Lawful.{AreBounds};
ghost use Rattle.ice_fair_laws.specs.Fair.{low_bounds};
ghost use Rattle.ice_pricing.specs.Bounding.{AreBoundsOf};

use arrayvec::ArrayVec;
use ice_trade::Exchange;
use ice_tree::{Bounds, Tree};
use std::alloc::{AllocError, Global};

/// The lower values.
fn low_values(bounds: &Bounds) -> ArrayVec<i64, 200>
    ensures { result.items ≡ bounds.now.lo }
{
    let mut values = ArrayVec::new();
    for node in 0..bounds.len() {
        values.push(bounds.lo(node));
    }
    values
}

/// The bounds of a tree with each upper value made equal to the lower one.
fn lowered(tree: &Tree, bounds: &Bounds) -> Bounds
    requires { AreBounds (length tree.now) bounds.now }
    ensures { result ≡ record { lo = bounds.now.lo; hi = bounds.now.lo } }
{
    let values = low_values(bounds);
    let Ok(low) = tree.set_bounds(&values, &values) else {
        unreachable!()
    };
    low
}

/// The low bounds of one bidder.
fn low_of(exchange: &Exchange, bounds: &[Bounds], bidder: u8) -> Bounds
    requires bounds { AreBoundsOf exchange.now bounds.now }
    requires bidder { bidder < length bounds.now }
    ensures { let b = bounds_of bounds.now bidder in result ≡ record { lo = b.lo; hi = b.lo } }
{
    lowered(exchange.tree(bidder), &bounds[bidder as usize])
}

/// The bounds of an exchange's bidders with each upper value made equal to the lower one.
pub(crate) fn low_bounds(
    alloc: Global,
    exchange: &Exchange,
    bounds: &[Bounds],
) -> Result<Vec<Bounds>, AllocError>
    requires { AreBoundsOf exchange.now bounds.now }
    ensures value { IfOk result (λ low. low.items ≡ low_bounds bounds.now) }
    ensures bounds { IfOk result (λ low. AreBoundsOf exchange.now low.items) }
{
    let mut low = Vec::new(alloc);
    for bidder in 0..exchange.bidders() {
        low.push(low_of(exchange, bounds, bidder))?;
    }
    Ok(low)
}
