//! Exchange files.
ghost use Rattle.std.specs.Prelude.{◌≡◌, ◌≤◌, [], OnOk, IfOk, IfErr, length};
ghost use Rattle.serde_json.specs.View.{view};
ghost use Rattle.ice_defs.specs.FileFault.{Path};
ghost use Rattle.ice_defs.specs.Lawful.{good_names, IsExchange};
ghost use Rattle.ice_read.specs.Values.{of_member};
ghost use Rattle.ice_read.specs.ExchangeFile.{goods_at, bidders_at, settings_at, exchange_of_value, exchange_of};
ghost use Rattle.ice_read.specs.Fault.{IsFault, IsReading, IsAnswer};
ghost use Rattle.ice_read.specs.Owned.{AreNames};
ghost use Rattle.ice_read.specs.Sale.{TellsOfSale, IsSaleUnder, IsSaleIn, IsSaleOfBytes};

use crate::bidders::take_bidders;
use crate::cause::ReadCause;
use crate::fault::ReadFault;
use crate::file::value_of;
use crate::goods::take_goods;
use crate::settings::settings_of;
use crate::values::{has_exactly, member};
use ice_terms::Settings;
use ice_trade::{Exchange, ExchangeMaker};
use serde_json::Value;
use std::alloc::Global;

/// The settings in a member of a file.
pub fn settings_member(value: &Value, name: &str) -> Result<Settings, ReadFault>
    requires { length name.now ≤ 32 }
    ensures { IsReading result (λ path. of_member path (view value.now) name.now settings_at) }
{
    match settings_of(member(value, name)?) {
        Ok(settings) => Ok(settings),
        Err(fault) => Err(fault.under(name)),
    }
}

/// Takes the goods in a member of a file.
pub fn take_goods_member(
    exchange: &mut ExchangeMaker,
    value: &Value,
    name: &str,
) -> Result<(), ReadFault>
    requires empty { exchange.old.goods ≡ [] }
    requires first { exchange.old.bidders ≡ [] }
    requires short { length name.now ≤ 32 }
    ensures taken { OnOk result ((path : Path)
        → of_member path (view value.now) name.now goods_at ≡ Ok exchange.new.goods) }
    ensures refused { IfErr result (λ fault. IsFault fault
        (λ path. of_member path (view value.now) name.now goods_at)) }
    ensures same { OnOk result (exchange.new ≡ record exchange.old { goods = exchange.new.goods }) }
{
    match take_goods(exchange, member(value, name)?) {
        Ok(()) => Ok(()),
        Err(fault) => Err(fault.under(name)),
    }
}

fn take_bidders_member(
    exchange: &mut ExchangeMaker,
    value: &Value,
    name: &str,
) -> Result<(), ReadFault>
    requires names { AreNames (good_names exchange.old) }
    requires empty { exchange.old.bidders ≡ [] }
    requires short { length name.now ≤ 32 }
    ensures taken { OnOk result ((path : Path)
        → of_member path (view value.now) name.now (bidders_at exchange.old.goods)
        ≡ Ok exchange.new.bidders) }
    ensures refused { IfErr result (λ fault. IsFault fault
        (λ path. of_member path (view value.now) name.now (bidders_at exchange.old.goods))) }
    ensures same { OnOk result (exchange.new
        ≡ record exchange.old { bidders = exchange.new.bidders }) }
    ensures sale { IfErr result
        (TellsOfSale (IsSaleUnder exchange.old.goods name.now (view value.now))) }
{
    match take_bidders(exchange, member(value, name)?) {
        Ok(()) => Ok(()),
        Err(fault) => Err(fault.under(name)),
    }
}

fn exchange_in(alloc: Global, value: &Value) -> Result<Exchange, ReadFault>
    ensures answer { IsAnswer result (exchange_of_value (view value.now)) }
    ensures memory { IfErr result (λ fault. fault.cause ≡ ReadCause.NoMemory → fault.place ≡ []) }
    ensures sale { IfErr result (TellsOfSale (IsSaleIn (view value.now))) }
{
    if !has_exactly(value, &["settings", "goods", "bidders"]) {
        return Err(ReadFault::of(ReadCause::Shape));
    }
    let settings = settings_member(value, "settings")?;
    let Ok(mut exchange) = ExchangeMaker::new(alloc, settings) else {
        return Err(ReadFault::of(ReadCause::NoMemory));
    };
    take_goods_member(&mut exchange, value, "goods")?;
    let _named = exchange.goods();
    take_bidders_member(&mut exchange, value, "bidders")?;
    match exchange.finish() {
        Ok(exchange) => Ok(exchange),
        Err(fault) => Err(ReadFault::of(ReadCause::Make(fault))),
    }
}

/// The exchange of the bytes of a file in JSON, or the first fault with its place.
///
/// The outermost object comes first, then its settings, its goods and its bidders, each value for
/// its form before the makers may refuse it. `NotJson` comes where the bytes are no JSON, `Shape`
/// where a value is not of the type that its place asks for or an object has other members,
/// `NotWhole` and `Range` at numbers, `UnknownGood` at the name of a good that is not there, and
/// `Tree` and `Make` where a maker refuses a node, a good, a bidder or the whole: a bidder whose
/// tree may sell more of a good than it owns (`OverSale`) is told with the least such good, by its
/// number in the file, and its greatest sale. Want of memory is told of the whole file: its place
/// is `-`.
pub fn read_exchange(alloc: Global, bytes: &[u8]) -> Result<Exchange, ReadFault>
    ensures exchange { IsAnswer result (exchange_of bytes.now) }
    ensures lawful { IfOk result IsExchange }
    ensures memory { IfErr result (λ fault. fault.cause ≡ ReadCause.NoMemory → fault.place ≡ []) }
    ensures sale { IfErr result (TellsOfSale (IsSaleOfBytes bytes.now)) }
{
    let value = value_of(alloc, bytes)?;
    exchange_in(alloc, &value)
}
