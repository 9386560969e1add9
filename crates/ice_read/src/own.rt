//! What a bidder owns.
ghost use Rattle.std.specs.Prelude.{◌≡◌, ◌≤◌, replicate, OnOk, IfOk, IfErr, MatchResult, length};
ghost use Rattle.serde_json.specs.View.{view};
ghost use Rattle.ice_defs.specs.FileFault.{Path};
ghost use Rattle.ice_defs.specs.Lawful.{good_names};
ghost use Rattle.ice_read.specs.ExchangeFile.{own_one, own_at};
ghost use Rattle.ice_read.specs.Owned.{AreNames, AreAmounts};
ghost use Rattle.ice_read.specs.Fault.{IsFault};

use crate::cause::ReadCause;
use crate::fault::ReadFault;
use crate::limits::MOST_OWNED;
use crate::values::{natural_of, object_of};
use arrayvec::ArrayVec;
use ice_trade::ExchangeMaker;
use serde_json::Value;

/// Nothing of each good.
fn nothing(goods: u8) -> ArrayVec<u32, 32>
    requires { goods ≤ 32 }
    ensures { result.items ≡ replicate goods 0 }
{
    let mut own = ArrayVec::from([0; 32]);
    own.truncate(goods as usize);
    own
}

/// Takes one owned amount.
fn take_amount(
    exchange: &ExchangeMaker,
    own: &mut ArrayVec<u32, 32>,
    name: &str,
    value: &Value,
) -> Result<(), ReadFault>
    requires named { AreNames (good_names exchange.now) }
    requires count { length own.old.items ≡ length exchange.now.goods }
    requires limits { AreAmounts own.old.items }
    // What comes of it
    ensures taken { OnOk result ((path : Path)
        → own_one (good_names exchange.now) path own.old.items name.now (view value.now)
        ≡ Ok own.new.items) }
    ensures refused { IfErr result (λ fault. IsFault fault
        (λ path. own_one (good_names exchange.now) path own.old.items name.now (view value.now))) }
    // On success
    ensures count { OnOk result (length own.new.items ≡ length exchange.now.goods) }
    ensures limits { OnOk result (AreAmounts own.new.items) }
    // On refusal
    ensures short { IfErr result (λ fault. length fault.place ≤ 33) }
{
    let Some(good) = exchange.find_good(name) else {
        return Err(ReadFault::of(ReadCause::UnknownGood));
    };
    match natural_of(value, 0, MOST_OWNED) {
        Ok(amount) => {
            own[good as usize] = amount;
            Ok(())
        }
        Err(fault) => Err(fault.under(name)),
    }
}

/// The owned amounts, one per good of an exchange that is being made.
pub fn own_of(exchange: &ExchangeMaker, value: &Value) -> Result<ArrayVec<u32, 32>, ReadFault>
    requires { AreNames (good_names exchange.now) }
    ensures reading { MatchResult result (λ own. (path : Path)
        → own_at (good_names exchange.now) path (view value.now) ≡ Ok own.items)
        (λ fault. IsFault fault (λ path. own_at (good_names exchange.now) path (view value.now))) }
    ensures count { IfOk result (λ own. length own.items ≡ length exchange.now.goods) }
    ensures limits { IfOk result (λ own. AreAmounts own.items) }
    ensures short { IfErr result (λ fault. length fault.place ≤ 33) }
{
    let members = object_of(value)?;
    let mut own = nothing(exchange.goods());
    for (name, value) in members {
        if let Err(fault) = take_amount(exchange, &mut own, name.as_str(), value) {
            return Err(fault);
        }
    }
    Ok(own)
}
