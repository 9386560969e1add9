//! The goods of an exchange file.
ghost use Rattle.std.specs.Prelude.{◌≡◌, ◌≤◌, ◌<◌, ◌+◌, [], MatchResult, OnOk, IfOk, IfErr, length};
ghost use Rattle.serde_json.specs.View.{view};
ghost use Rattle.ice_defs.specs.Lawful.{good_names};
ghost use Rattle.ice_read.specs.Values.{of_member};
ghost use Rattle.ice_read.specs.TreeFile.{good_at};
ghost use Rattle.ice_defs.specs.FileFault.{Path};
ghost use Rattle.ice_read.specs.ExchangeFile.{good_value, goods_at};
ghost use Rattle.ice_defs.specs.Making.{good_refusal};
ghost use Rattle.ice_trade.specs.Fault.{RefusedBy};
ghost use Rattle.ice_trade.specs.Parts.{with_good};
ghost use Rattle.ice_read.specs.Reading.{goods_with};
ghost use Rattle.ice_read.specs.Fault.{IsFault, IsReading};

use crate::cause::ReadCause;
use crate::fault::ReadFault;
use crate::values::{array_of, has_exactly, text_member};
use ice_trade::{ExchangeMaker, MakeFault};
use serde_json::Value;

/// The number of the good that a member names.
pub(crate) fn good_member(
    exchange: &ExchangeMaker,
    value: &Value,
    name: &str,
) -> Result<u8, ReadFault>
    requires { length name.now ≤ 32 }
    ensures reading { IsReading result (λ path.
        of_member path (view value.now) name.now (good_at (good_names exchange.now))) }
    ensures short { IfErr result (λ fault. length fault.place ≤ length name.now + 1) }
    ensures there { IfOk result (λ good. good < length exchange.now.goods) }
{
    let good = text_member(value, name)?;
    match exchange.find_good(good) {
        Some(number) => Ok(number),
        None => Err(ReadFault::of(ReadCause::UnknownGood).under(name)),
    }
}

/// The name of a good, and whether it is exact.
fn good_of(value: &Value) -> Result<(&str, bool), ReadFault>
    ensures reading { MatchResult result (λ good. (path : Path)
        → good_value path (view value.now) ≡ Ok (record { name = good.0.now; exact = good.1 }))
        (λ fault. IsFault fault (λ path. good_value path (view value.now))) }
    ensures short { IfErr result (λ fault. length fault.place ≤ 6) }
{
    if let Some(name) = value.as_str() {
        return Ok((name, false));
    }
    if !has_exactly(value, &["exact"]) {
        return Err(ReadFault::of(ReadCause::Shape));
    }
    match text_member(value, "exact") {
        Ok(name) => Ok((name, true)),
        Err(fault) => Err(fault),
    }
}

fn add_good(exchange: &mut ExchangeMaker, name: &str, exact: bool) -> Result<u8, MakeFault>
    ensures made { OnOk result (exchange.new
        ≡ with_good exchange.old (record { name = name.now; exact = exact })) }
    ensures refused { RefusedBy result
        (good_refusal exchange.old.goods exchange.old.bidders name.now) }
    ensures few { OnOk result (length exchange.new.goods ≤ 32) }
{
    if exact {
        exchange.exact_good(name)
    } else {
        exchange.good(name)
    }
}

/// Takes a good.
fn take_good(exchange: &mut ExchangeMaker, value: &Value) -> Result<(), ReadFault>
    requires { exchange.old.bidders ≡ [] }
    ensures taken { OnOk result ((path : Path)
        → goods_with exchange.old path (view value.now) ≡ Ok exchange.new.goods) }
    ensures refused { IfErr result (λ fault. IsFault fault
        (λ path. goods_with exchange.old path (view value.now))) }
    ensures same { OnOk result (exchange.new ≡ record exchange.old { goods = exchange.new.goods }) }
    ensures one { OnOk result (length exchange.new.goods ≡ length exchange.old.goods + 1) }
    ensures few { OnOk result (length exchange.new.goods ≤ 32) }
    ensures short { IfErr result (λ fault. length fault.place ≤ 6) }
{
    let (name, exact) = match good_of(value) {
        Ok(good) => good,
        Err(fault) => return Err(fault),
    };
    match add_good(exchange, name, exact) {
        Ok(_) => Ok(()),
        Err(fault) => Err(ReadFault::of(ReadCause::Make(fault))),
    }
}

/// Takes the goods of an exchange.
pub(crate) fn take_goods(exchange: &mut ExchangeMaker, value: &Value) -> Result<(), ReadFault>
    requires empty { exchange.old.goods ≡ [] }
    requires first { exchange.old.bidders ≡ [] }
    ensures taken { OnOk result ((path : Path)
        → goods_at path (view value.now) ≡ Ok exchange.new.goods) }
    ensures refused { IfErr result (λ fault. IsFault fault
        (λ path. goods_at path (view value.now))) }
    ensures same { OnOk result (exchange.new ≡ record exchange.old { goods = exchange.new.goods }) }
    ensures short { IfErr result (λ fault. length fault.place ≤ 12) }
{
    let items = array_of(value)?;
    for (index, item) in items.iter().enumerate() {
        if let Err(fault) = take_good(exchange, item) {
            return Err(fault.at(index as u16));
        }
    }
    Ok(())
}
