//! What the bidders of a settlement that closes pay.
ghost use Rattle.std.specs.Prelude.{◌≡◌, ◌<◌, ◌≤◌, length, pos, neg_ℤ, ◌≤ℤ◌, All, IfOk};
ghost use Rattle.ice_defs.specs.Exchange.{trees_of, exact_of};
ghost use Rattle.ice_headline_laws.specs.Right.{own_values};
ghost use Rattle.ice_defs.specs.Set.{value};
ghost use Rattle.ice_defs.specs.Trade.{set_of, weights_of, IsFeasible, total_value};
ghost use Rattle.ice_defs.specs.Weighing.{lower_weights};
ghost use Rattle.ice_defs.specs.Conditions.{AreBoundsOf};
ghost use Rattle.ice_tree.specs.Alike.{AreChosen};
ghost use Rattle.ice_threshold.specs.Limits.{IsValueLimit, IsVickreyLimit};
ghost use Rattle.ice_round.specs.Paying.{ArePaymentsOf};

use ice_search::Found;
use ice_threshold::{Payments, threshold};
use ice_trade::Exchange;
use ice_tree::{Assignment, Bounds};
use std::alloc::{AllocError, Global};

/// The lower value of the bidder's set.
fn own_value(bounds: &[Bounds], sets: &Assignment, bidder: u8) -> i128
    requires bidder { bidder < length bounds.now }
    requires chosen { AreChosen sets.now bounds.now }
    ensures value { result ≡ value (set_of sets.now bidder)
        (weights_of (lower_weights bounds.now) bidder) }
    ensures low { neg_ℤ (pos 200000000000) ≤ℤ result }
    ensures high { result ≤ℤ pos 200000000000 }
{
    i128::from(bounds[usize::from(bidder)].lower_value(sets.of(bidder)))
}

/// The lower value of each bidder's set.
fn own_values(alloc: Global, bounds: &[Bounds], sets: &Assignment) -> Result<Vec<i128>, AllocError>
    requires chosen { AreChosen sets.now bounds.now }
    requires few { length bounds.now ≤ 40 }
    ensures value { IfOk result (λ values. values.items ≡ own_values bounds.now sets.now) }
    ensures limited { IfOk result (λ values. All IsValueLimit values.items) }
{
    let mut values = Vec::with_capacity(alloc, bounds.len())?;
    for bidder in 0..bounds.len() as u8 {
        values.push(own_value(bounds, sets, bidder))?;
    }
    Ok(values)
}

/// The Threshold payments for the lower values of the final sets and the Vickrey discounts.
pub(crate) fn pay(
    alloc: Global,
    exchange: &Exchange,
    bounds: &[Bounds],
    best: &Found,
    vickreys: &[i128],
) -> Result<Payments, AllocError>
    requires bounds { AreBoundsOf (trees_of exchange.now) bounds.now }
    requires feasible { IsFeasible (trees_of exchange.now) (exact_of exchange.now) best.now.best }
    requires value { total_value best.now.best (lower_weights bounds.now) ≡ best.now.value }
    requires rich { pos 0 ≤ℤ best.now.value }
    requires count { length vickreys.now ≡ length (trees_of exchange.now) }
    requires limited { All IsVickreyLimit vickreys.now }
    ensures { IfOk result (ArePaymentsOf bounds.now best.now vickreys.now) }
{
    // There are from 1 to 40 bidders.
    let _bidders = exchange.bidders();
    let values = own_values(alloc, bounds, &best.best)?;
    threshold(alloc, &values, vickreys, best.value)
}
