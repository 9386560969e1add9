//! `best`: the best set of each bidder at prices.
ghost use Rattle.std.specs.Prelude.{◌≡◌, ◌<◌, [], length, slice_index_or, IfOk, IfErr, OnOk};
ghost use Rattle.ice_defs.specs.Exchange.{names_of, opening_bounds};
ghost use Rattle.ice_defs.specs.Weighing.{weighted_weights};
ghost use Rattle.ice_commands.specs.BestServed.{IsBestNet, BestAnswers};
ghost use Rattle.ice_commands.specs.Bests.{AreBestSets};
ghost use Rattle.ice_commands.specs.BestFound.{AreBestOf, BestRefuses};
ghost use Rattle.ice_command_parts.specs.Keeping.{KeepsTold};
ghost use Rattle.ice_command_parts.specs.Parts.{Serves};
ghost use Rattle.ice_command_parts.specs.Refusals.{refusal_status};

use crate::best_lines::put_best;
use crate::best_set::BestSet;
use ice_best_at_prices::{Scratch, best_at_prices};
use ice_command_parts::{Refusal, ended, read_exchange, read_prices};
use ice_edge::{Shelf, Sink, Status};
use ice_terms::Prices;
use ice_trade::Exchange;
use ice_tree::AllWeights;
use std::alloc::{AllocError, Global};

/// The best set of a bidder. Weighted values are in hundredths, so units cost 100 times their
/// price.
fn best_set(
    exchange: &Exchange,
    prices: &Prices,
    weights: &AllWeights,
    bidder: u8,
    scratch: &mut Scratch,
) -> BestSet
    requires weights { weights.now
        ≡ weighted_weights exchange.now.settings.weight (opening_bounds exchange.now) }
    requires bidder { bidder < length exchange.now.bidders }
    ensures name { result.name ≡ slice_index_or (names_of exchange.now) bidder [] }
    ensures best { IsBestNet exchange.now prices.now bidder result.set result.net }
{
    let tree = &exchange.trees()[bidder as usize];
    let _nodes = tree.nodes();
    let best = best_at_prices(tree, weights.of(bidder), 100, prices, scratch);
    let name = exchange.bidder_name(bidder).copy();
    BestSet {
        name,
        net: best.net,
        set: best.set,
    }
}

/// The best sets of all bidders, in order.
fn best_sets(
    alloc: Global,
    exchange: &Exchange,
    prices: &Prices,
) -> Result<Vec<BestSet>, AllocError>
    ensures { IfOk result (λ sets.
        AreBestSets exchange.now prices.now 0 (names_of exchange.now) sets.items) }
{
    let weights = exchange.weighted_values(alloc)?;
    let mut scratch = Scratch::new();
    let mut sets = Vec::new(alloc);
    for bidder in 0..exchange.bidders() {
        let best = best_set(exchange, prices, &weights, bidder, &mut scratch);
        sets.push(best)?;
    }
    Ok(sets)
}

/// The best sets at the prices of one file, over the exchange of another; or why there are none.
fn best_of_files<H: Shelf>(
    alloc: Global,
    exchange: &str,
    prices: &str,
    shelf: &mut H,
) -> Result<Vec<BestSet>, Refusal>
    ensures sets { IfOk result (λ sets.
        AreBestOf (H.told shelf.old) exchange.now prices.now sets.items) }
    ensures refusal { IfErr result
        (BestRefuses exchange.now prices.now (H.told shelf.old) (H.told shelf.new)) }
    ensures kept { OnOk result (H.told shelf.new ≡ H.told shelf.old) }
    ensures kept_at_refusal { IfErr result (λ refusal.
        KeepsTold (H.told shelf.old) (H.told shelf.new) (refusal_status refusal)) }
{
    let exchange = read_exchange(alloc, 1, exchange, shelf)?;
    let prices = read_prices(alloc, 2, prices, exchange.goods(), shelf)?;
    match best_sets(alloc, &exchange, &prices) {
        Ok(sets) => Ok(sets),
        Err(AllocError) => Err(Refusal::NoMemory),
    }
}

/// Writes the best set of each bidder at the prices of one file, over the exchange of another.
pub fn best<H: Shelf, K: Sink>(
    alloc: Global,
    exchange: &str,
    prices: &str,
    shelf: &mut H,
    out: &mut K,
) -> Status
    ensures served { Serves (λ call. BestAnswers call exchange.now prices.now)
        (H.told shelf.old) (H.told shelf.new) (K.taken out.old) (K.taken out.new) result }
    ensures kept { KeepsTold (H.told shelf.old) (H.told shelf.new) result }
{
    match best_of_files(alloc, exchange, prices, shelf) {
        Ok(sets) => ended(put_best(&sets, out), Status::Done),
        Err(refusal) => refusal.say(out),
    }
}
