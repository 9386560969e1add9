//! The packages of a bidder.
ghost use Rattle.std.specs.Prelude.{◌≡◌, ◌≤◌, ◌+◌, length, MatchResult, IfErr};
ghost use Rattle.serde_json.specs.View.{view};
ghost use Rattle.ice_defs.specs.FileFault.{Path};
ghost use Rattle.ice_defs.specs.Lawful.{good_names};
ghost use Rattle.ice_read.specs.Owned.{AreNames};
ghost use Rattle.ice_read.specs.Values.{of_member};
ghost use Rattle.ice_xor.specs.FlatFile.{units_at, package_at, packages_at};
ghost use Rattle.ice_xor.specs.Reading.{IsFaultOrMemory, IsReadingOrMemory};

use crate::units::{GoodUnits, units_of};
use ice_read::parts::{array_of, has_exactly, member, value_member};
use ice_read::{ReadCause, ReadFault};
use ice_trade::ExchangeMaker;
use serde_json::Value;
use std::alloc::Global;
use std::marker::Model;

/// A package: the units that it buys and sells, ascending by goods, and the bounds of its value.
#[derive(Drop)]
pub struct Package {
    pub(crate) lo: i64,
    pub(crate) hi: i64,
    pub(crate) units: Vec<GoodUnits>,
}

impl Model for Package {
    ghost use Rattle.ice_xor.specs.FlatBids as flat;

    ghost Value = { flat.Package };

    ghost view = { λ p. record { lo = p.lo; hi = p.hi; units = p.units.items } };
}

impl Package {
    /// The lower bound of its value.
    pub fn lo(&self) -> i64
        ensures { result ≡ self.now.lo }
    {
        self.lo
    }

    /// The upper bound of its value.
    pub fn hi(&self) -> i64
        ensures { result ≡ self.now.hi }
    {
        self.hi
    }

    /// Its units, good by good in ascending order.
    pub fn units(&self) -> &[GoodUnits]
        ensures { result.now ≡ self.now.units }
    {
        &self.units
    }
}

fn units_member(
    alloc: Global,
    exchange: &ExchangeMaker,
    value: &Value,
    name: &str,
) -> Result<Vec<GoodUnits>, ReadFault>
    requires names { AreNames (good_names exchange.now) }
    requires short { length name.now ≤ 32 }
    ensures reading { MatchResult result (λ units. (path : Path)
        → of_member path (view value.now) name.now (units_at (good_names exchange.now))
        ≡ Ok units.items)
        (λ fault. IsFaultOrMemory fault (λ path.
        of_member path (view value.now) name.now (units_at (good_names exchange.now)))) }
    ensures short { IfErr result (λ fault. length fault.place ≤ length name.now + 34) }
{
    match units_of(alloc, exchange, member(value, name)?) {
        Ok(units) => Ok(units),
        Err(fault) => Err(fault.under(name)),
    }
}

/// A package.
fn package_of(alloc: Global, exchange: &ExchangeMaker, value: &Value) -> Result<Package, ReadFault>
    requires { AreNames (good_names exchange.now) }
    ensures reading { IsReadingOrMemory result
        (λ path. package_at (good_names exchange.now) path (view value.now)) }
    ensures short { IfErr result (λ fault. length fault.place ≤ 39) }
{
    if !has_exactly(value, &["lo", "hi", "units"]) {
        return Err(ReadFault::of(ReadCause::Shape));
    }
    let lo = value_member(value, "lo")?;
    let hi = value_member(value, "hi")?;
    let units = units_member(alloc, exchange, value, "units")?;
    Ok(Package { lo, hi, units })
}

/// The packages of a bidder, over the goods of an exchange that is being made.
fn packages_of(
    alloc: Global,
    exchange: &ExchangeMaker,
    value: &Value,
) -> Result<Vec<Package>, ReadFault>
    requires { AreNames (good_names exchange.now) }
    ensures reading { MatchResult result (λ packages. (path : Path)
        → packages_at (good_names exchange.now) path (view value.now) ≡ Ok packages.items)
        (λ fault. IsFaultOrMemory fault
        (λ path. packages_at (good_names exchange.now) path (view value.now))) }
    ensures short { IfErr result (λ fault. length fault.place ≤ 60) }
{
    let items = array_of(value)?;
    if items.is_empty() {
        return Err(ReadFault::of(ReadCause::NoPackages));
    }
    let mut packages = Vec::new(alloc);
    for (index, item) in items.iter().enumerate() {
        match package_of(alloc, exchange, item) {
            Ok(package) => {
                let Ok(()) = packages.push(package) else {
                    return Err(ReadFault::of(ReadCause::NoMemory));
                };
            }
            Err(fault) => return Err(fault.at_any(index as u64)),
        }
    }
    Ok(packages)
}

/// The packages in a member of a bidder.
pub(crate) fn packages_member(
    alloc: Global,
    exchange: &ExchangeMaker,
    value: &Value,
    name: &str,
) -> Result<Vec<Package>, ReadFault>
    requires names { AreNames (good_names exchange.now) }
    requires short { length name.now ≤ 32 }
    ensures reading { MatchResult result (λ packages. (path : Path)
        → of_member path (view value.now) name.now (packages_at (good_names exchange.now))
        ≡ Ok packages.items)
        (λ fault. IsFaultOrMemory fault (λ path.
        of_member path (view value.now) name.now (packages_at (good_names exchange.now)))) }
    ensures short { IfErr result (λ fault. length fault.place ≤ length name.now + 61) }
{
    match packages_of(alloc, exchange, member(value, name)?) {
        Ok(packages) => Ok(packages),
        Err(fault) => Err(fault.under(name)),
    }
}
