//! Flat bids of a file in JSON.
ghost use Rattle.std.specs.Prelude.{◌≡◌, ◌≢◌, ◌≤◌, ◌==◌, ◌||◌, [], length, MatchResult, IfOk, IfErr};
ghost use Rattle.serde_json.specs.View.{view};
ghost use Rattle.ice_defs.specs.FileFault.{Path};
ghost use Rattle.ice_defs.specs.Lawful.{good_names};
ghost use Rattle.ice_read.specs.Owned.{AreNames};
ghost use Rattle.ice_read.specs.Values.{of_member};
ghost use Rattle.ice_read.specs.Fault.{IsAnswer};
ghost use Rattle.ice_xor.specs.FlatFile.{flat_bidders_at, flat_of_value, flat_of};
ghost use Rattle.ice_xor.specs.Lawful.{AreFlatBidders, IsFlatExchange};
ghost use Rattle.ice_xor.specs.Reading.{IsFaultOrMemory};

use crate::bidders::{FlatBidder, bidders_of};
use crate::flat::FlatExchange;
use ice_read::parts::{has_exactly, member, settings_member, take_goods_member, value_of};
use ice_read::{ReadCause, ReadFault};
use ice_trade::{ExchangeMaker, MakeFault};
use serde_json::Value;
use std::alloc::Global;

fn bidders_member(
    alloc: Global,
    exchange: &ExchangeMaker,
    value: &Value,
    name: &str,
) -> Result<Vec<FlatBidder>, ReadFault>
    requires names { AreNames (good_names exchange.now) }
    requires short { length name.now ≤ 32 }
    ensures reading { MatchResult result (λ bidders. (path : Path)
        → of_member path (view value.now) name.now (flat_bidders_at exchange.now.goods)
        ≡ Ok bidders.items)
        (λ fault. IsFaultOrMemory fault (λ path.
        of_member path (view value.now) name.now (flat_bidders_at exchange.now.goods))) }
    ensures lawful { IfOk result
        (λ bidders. AreFlatBidders (length exchange.now.goods) bidders.items) }
{
    match bidders_of(alloc, exchange, member(value, name)?) {
        Ok(bidders) => Ok(bidders),
        Err(fault) => Err(fault.under(name)),
    }
}

/// Whether there is no good or no bidder.
fn is_empty(goods: u8, bidders: usize) -> bool
    ensures { result ≡ ((goods == 0) || (bidders == 0)) }
{
    goods == 0 || bidders == 0
}

/// The flat bids of a file's value.
fn flat_in(alloc: Global, value: &Value) -> Result<FlatExchange, ReadFault>
    ensures { IsAnswer result (flat_of_value (view value.now)) }
{
    if !has_exactly(value, &["settings", "goods", "bidders"]) {
        return Err(ReadFault::of(ReadCause::Shape));
    }
    let settings = settings_member(value, "settings")?;
    let Ok(mut goods) = ExchangeMaker::new(alloc, settings) else {
        return Err(ReadFault::of(ReadCause::NoMemory));
    };
    take_goods_member(&mut goods, value, "goods")?;
    let count = goods.goods();
    let bidders = bidders_member(alloc, &goods, value, "bidders")?;
    if is_empty(count, bidders.len()) {
        return Err(ReadFault::of(ReadCause::Make(MakeFault::Empty)));
    }
    Ok(FlatExchange { goods, bidders })
}

/// Want of memory is told of the whole file.
fn of_file(fault: ReadFault) -> ReadFault
    ensures same { fault.cause ≢ ReadCause.NoMemory → result ≡ fault }
    ensures cause { result.cause ≡ fault.cause }
    ensures memory { result.cause ≡ ReadCause.NoMemory → result.place ≡ [] }
{
    match fault.cause {
        ReadCause::NoMemory => ReadFault::of(ReadCause::NoMemory),
        _ => fault,
    }
}

/// The flat bids of the bytes of a file in JSON, or the first fault with its place.
///
/// The outermost object comes first, then its settings, its goods and its bidders. A bidder is read
/// member by member: its name, what it owns, its packages; then `Make` comes with `BadName`,
/// `DuplicateBidder`, or `TooMany` past 40 bidders. `NoPackages` comes at an empty array of
/// packages, and `NoUnits` at a package with no units. A package is read whole before the next one:
/// its form, then `lo`, `hi`, and its units in the order of the names. An amount of 0 is out of
/// `Range`. The other causes are those of exchange files. Want of memory is told of the whole file:
/// its place is `-`.
pub fn read_flat(alloc: Global, bytes: &[u8]) -> Result<FlatExchange, ReadFault>
    ensures flat { IsAnswer result (flat_of bytes.now) }
    ensures lawful { IfOk result IsFlatExchange }
    ensures memory { IfErr result (λ fault. fault.cause ≡ ReadCause.NoMemory → fault.place ≡ []) }
{
    let value = value_of(alloc, bytes)?;
    match flat_in(alloc, &value) {
        Ok(flat) => Ok(flat),
        Err(fault) => Err(of_file(fault)),
    }
}
