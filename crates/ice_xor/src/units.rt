//! The units of a package.
ghost use Rattle.std.specs.Prelude.{◌≡◌, ◌≤◌, [], length, nat_lt, position, MatchResult, OnOk, IfErr};
ghost use Rattle.serde_json.specs.View.{view};
ghost use Rattle.ice_defs.specs.FileFault.{Path};
ghost use Rattle.ice_defs.specs.Lawful.{good_names};
ghost use Rattle.ice_read.specs.Owned.{AreNames};
ghost use Rattle.ice_read.specs.Fault.{IsReading};
ghost use Rattle.ice_xor.specs.FlatFile.{amount_at, with_units, units_one, units_at};
ghost use Rattle.ice_xor.specs.Reading.{IsFaultOrMemory};

use ice_read::parts::{object_of, whole_of};
use ice_read::{ReadCause, ReadFault};
use ice_trade::ExchangeMaker;
use serde_json::Value;
use std::alloc::{AllocError, Global};

/// The most units of a good in a package.
const MOST_UNITS: i64 = 1000;

/// Units of one good in a package, by the good's number: bought units are positive, and sold ones
/// negative.
#[derive(Clone, Copy, PartialEq, Eq, Debug)]
pub struct GoodUnits {
    /// The good's number.
    pub good: u8,
    /// The units, from -1,000 to 1,000 and not 0.
    pub amount: i16,
}

/// A whole number of at most 1,000 in size, and not 0.
fn amount_of(value: &Value) -> Result<i16, ReadFault>
    ensures reading { IsReading result (λ path. amount_at path (view value.now)) }
    ensures place { IfErr result (λ fault. fault.place ≡ []) }
{
    let amount = whole_of(value, -MOST_UNITS, MOST_UNITS)?;
    if amount == 0 {
        return Err(ReadFault::of(ReadCause::Range));
    }
    Ok(amount as i16)
}

/// The place of the first units of a greater good.
fn next_place(units: &[GoodUnits], good: u8) -> Option<usize>
    ensures { result ≡ position (λ other. nat_lt good other.good) units.now }
{
    units.iter().position(|other| good < other.good)
}

/// Adds units of a good, in ascending order of goods.
fn add_units(units: &mut Vec<GoodUnits>, added: GoodUnits) -> Result<(), AllocError>
    ensures { OnOk result (units.new.items ≡ with_units added units.old.items) }
{
    let place = next_place(units, added.good).unwrap_or(units.len());
    match units.insert(place, added) {
        Ok(()) => Ok(()),
        Err(_) => Err(AllocError),
    }
}

/// Takes the units of one good.
fn take_units(
    exchange: &ExchangeMaker,
    units: &mut Vec<GoodUnits>,
    name: &str,
    value: &Value,
) -> Result<(), ReadFault>
    requires { AreNames (good_names exchange.now) }
    ensures taken { OnOk result ((path : Path)
        → units_one (good_names exchange.now) path units.old.items name.now (view value.now)
        ≡ Ok units.new.items) }
    ensures refused { IfErr result (λ fault. IsFaultOrMemory fault
        (λ path. units_one (good_names exchange.now) path units.old.items name.now
        (view value.now))) }
    ensures short { IfErr result (λ fault. length fault.place ≤ 33) }
{
    let Some(good) = exchange.find_good(name) else {
        return Err(ReadFault::of(ReadCause::UnknownGood));
    };
    let amount = match amount_of(value) {
        Ok(amount) => amount,
        Err(fault) => return Err(fault.under(name)),
    };
    match add_units(units, GoodUnits { good, amount }) {
        Ok(()) => Ok(()),
        Err(AllocError) => Err(ReadFault::of(ReadCause::NoMemory)),
    }
}

/// The units of a package, over the goods of an exchange that is being made.
pub(crate) fn units_of(
    alloc: Global,
    exchange: &ExchangeMaker,
    value: &Value,
) -> Result<Vec<GoodUnits>, ReadFault>
    requires { AreNames (good_names exchange.now) }
    ensures reading { MatchResult result (λ units. (path : Path)
        → units_at (good_names exchange.now) path (view value.now) ≡ Ok units.items)
        (λ fault. IsFaultOrMemory fault
        (λ path. units_at (good_names exchange.now) path (view value.now))) }
    ensures short { IfErr result (λ fault. length fault.place ≤ 33) }
{
    let members = object_of(value)?;
    if members.is_empty() {
        return Err(ReadFault::of(ReadCause::NoUnits));
    }
    let mut units = Vec::new(alloc);
    for (name, value) in members {
        if let Err(fault) = take_units(exchange, &mut units, name.as_str(), value) {
            return Err(fault);
        }
    }
    Ok(units)
}
