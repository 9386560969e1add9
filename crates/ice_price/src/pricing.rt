//! Prices of an exchange for the provisional sets of its bidders.
ghost use Rattle.std.specs.Prelude.{◌≡◌, length, IfOk, IfErr, IfSome, IsTrue};
ghost use Rattle.ice_defs.specs.Exchange.{trees_of};
ghost use Rattle.ice_defs.specs.Weighing.{weighted_weights};
ghost use Rattle.ice_row_laws.specs.Laws.{AreSatisfied};
ghost use Rattle.ice_pricing.specs.Provisional.{provisional_of};
ghost use Rattle.ice_price.specs.Ends.{IsPriceEnd, IsPriced, IsRunPriced, IsRunStopped};
ghost use Rattle.ice_turns.specs.Works.{IsMoreWork, HasTurns};
ghost use Rattle.ice_pricing.specs.Bounding.{AreBoundsOf};

use crate::ends::PriceEnd;
use crate::stages::StageAt;
use crate::turn::run_stage;
use ice_cutting_planes::{GivenUp, Work, cut_prices};
use ice_pricing::{Pricing, Provisional, Scratch, weighted_values};
use ice_trade::Exchange;
use ice_tree::{Assignment, Bounds};
use ice_turns::{PoolMember, RunWork, Stop};
use std::alloc::{AllocError, Global};

/// The end of a run that stopped in this stage with this pool.
fn end_of(stop: Stop, at: &StageAt, pool: Vec<PoolMember>, trade: &Provisional<'_>) -> PriceEnd
    requires { IsRunStopped trade.now at.now pool.items stop }
    ensures { IsPriceEnd trade.now result }
{
    match stop {
        Stop::AtLimit(kind) => PriceEnd::Limit(at.limit(kind, pool)),
        Stop::WithoutMemory => PriceEnd::NoMemory,
    }
}

/// Whether the prices that cutting planes found pass all tests.
fn is_proper(pricing: &Pricing, trade: &Provisional<'_>) -> bool
    ensures { IsTrue result → IsPriced trade.now pricing.now }
{
    pricing.prices.goods() == trade.goods()
        && pricing.accuracy.is_limited()
        && pricing.balance.is_limited()
        && pricing.passes(trade, &mut Scratch::new())
}

/// The prices that cutting planes find, where they pass all tests. Where their memory runs short
/// nothing else is tried: the stated run may give other prices, and the same files would not give
/// the same journal.
fn cut(alloc: Global, trade: &Provisional<'_>) -> Result<Option<Pricing>, AllocError>
    ensures { IfOk result (λ found. IfSome found (IsPriced trade.now)) }
{
    match cut_prices(alloc, trade, &mut Work::none()) {
        Ok(pricing) if is_proper(&pricing, trade) => Ok(Some(pricing)),
        Err(GivenUp::NoMemory) => Err(AllocError),
        _ => Ok(None),
    }
}

/// The prices of a provisional trade as `price` gives them, but by the stated run of pricing alone:
/// they are those that it ends with. What it takes is added to `work`: neither count falls, and
/// prices come with at least one turn a stage. How many pivots are counted is in no clause.
pub fn run_prices(
    alloc: Global,
    trade: &Provisional<'_>,
    work: &mut RunWork,
) -> Result<Pricing, PriceEnd>
    ensures priced { IfOk result (IsPriced trade.now) }
    ensures run { IfOk result (IsRunPriced trade.now) }
    ensures ended { IfErr result (IsPriceEnd trade.now) }
    ensures work { IsMoreWork work.old work.new }
    ensures turns { IfOk result (λ _. HasTurns 2 work.old work.new) }
{
    let _goods = trade.goods();
    let mut pool = Vec::new(alloc);
    let first = StageAt::accuracy();
    let accuracy = match run_stage(alloc, trade, &first, &mut pool, work) {
        Ok(end) => end,
        Err(stop) => return Err(end_of(stop, &first, pool, trade)),
    };
    let second = StageAt::balance(accuracy.violation, accuracy.prices.den() as u64);
    let balance = match run_stage(alloc, trade, &second, &mut pool, work) {
        Ok(end) => end,
        Err(stop) => return Err(end_of(stop, &second, pool, trade)),
    };
    Ok(Pricing {
        prices: balance.prices,
        delta: balance.violation,
        accuracy: accuracy.certificate,
        balance: balance.certificate,
    })
}

/// Prices for the provisional sets of an exchange's bidders at their bounds, one satisfied set and
/// one bounds a bidder.
///
/// The prices are one a good, from 0 to the cap, over their least common denominator. No prices
/// within the cap have a smaller violation, which is the most, in hundredths of weighted value,
/// that a bidder gains by another satisfied set than its own. Of those with that violation, none
/// have a smaller greatest price. Two certificates of at most 200 rows each show it, as
/// `check_pricing` tests.
///
/// They are sought by cutting planes first. What these find is given only where it passes all
/// tests; else the stated run of pricing takes their place. `Limit` comes only where that ends at a
/// limit: a program is too wide or takes too many pivots, 200 sets don't suffice, or a denominator
/// or a weight is above 2^32. `NoMemory` comes at any time.
pub fn price(
    alloc: Global,
    exchange: &Exchange,
    bounds: &[Bounds],
    sets: &Assignment,
) -> Result<Pricing, PriceEnd>
    requires bounds { AreBoundsOf exchange.now bounds.now }
    requires count { length sets.now ≡ length exchange.now.bidders }
    requires satisfied { AreSatisfied (trees_of exchange.now) sets.now }
    ensures priced { let ws = weighted_weights exchange.now.settings.weight bounds.now in
        IfOk result (IsPriced (provisional_of exchange.now ws sets.now)) }
    ensures ended { let ws = weighted_weights exchange.now.settings.weight bounds.now in
        IfErr result (IsPriceEnd (provisional_of exchange.now ws sets.now)) }
{
    let weights = weighted_values(alloc, exchange, bounds)?;
    let trade = Provisional::of(exchange, &weights, sets);
    match cut(alloc, &trade)? {
        Some(pricing) => Ok(pricing),
        None => run_prices(alloc, &trade, &mut RunWork::none()),
    }
}
