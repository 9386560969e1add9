//! The bidders of an exchange file.
ghost use Rattle.std.specs.Prelude.{◌≡◌, ◌≤◌, ◌+◌, [], MatchResult, OnOk, IfOk, IfErr, length};
ghost use Rattle.serde_json.specs.View.{view};
ghost use Rattle.ice_defs.specs.FileFault.{Path};
ghost use Rattle.ice_defs.specs.Lawful.{good_names, IsLimitedTree, AreBounds};
ghost use Rattle.ice_read.specs.Values.{of_member};
ghost use Rattle.ice_read.specs.ExchangeFile.{own_at, bidders_at};
ghost use Rattle.ice_read.specs.TreeFile.{tree_at};
ghost use Rattle.ice_read.specs.Reading.{bidders_with};
ghost use Rattle.ice_read.specs.Owned.{AreNames, AreAmounts};
ghost use Rattle.ice_read.specs.Fault.{IsFault};
ghost use Rattle.ice_read.specs.Sale.{TellsOfSale, IsSaleOf, IsSaleAmong};

use crate::cause::ReadCause;
use crate::fault::ReadFault;
use crate::own::own_of;
use crate::tree::tree_of;
use crate::values::{array_of, has_exactly, member, text_member};
use arrayvec::ArrayVec;
use ice_trade::ExchangeMaker;
use ice_tree::{Bounds, Tree};
use serde_json::Value;

/// The owned amounts in a member of a bidder, one per good of an exchange that is being made.
pub fn own_member(
    exchange: &ExchangeMaker,
    value: &Value,
    name: &str,
) -> Result<ArrayVec<u32, 32>, ReadFault>
    requires names { AreNames (good_names exchange.now) }
    requires short { length name.now ≤ 32 }
    ensures reading { MatchResult result (λ own. (path : Path)
        → of_member path (view value.now) name.now (own_at (good_names exchange.now))
        ≡ Ok own.items) (λ fault. IsFault fault
        (λ path. of_member path (view value.now) name.now (own_at (good_names exchange.now)))) }
    ensures count { IfOk result (λ own. length own.items ≡ length exchange.now.goods) }
    ensures limits { IfOk result (λ own. AreAmounts own.items) }
    ensures short { IfErr result (λ fault. length fault.place ≤ length name.now + 34) }
{
    match own_of(exchange, member(value, name)?) {
        Ok(own) => Ok(own),
        Err(fault) => Err(fault.under(name)),
    }
}

fn tree_member(
    exchange: &ExchangeMaker,
    value: &Value,
    name: &str,
) -> Result<(Tree, Bounds), ReadFault>
    requires { length name.now ≤ 32 }
    ensures reading { MatchResult result (λ made. (path : Path)
        → of_member path (view value.now) name.now (tree_at (good_names exchange.now))
        ≡ Ok (record { tree = made.0; bounds = made.1 }))
        (λ fault. IsFault fault (λ path.
        of_member path (view value.now) name.now (tree_at (good_names exchange.now)))) }
    ensures tree { IfOk result (λ made. IsLimitedTree (length exchange.now.goods) made.0) }
    ensures bounds { IfOk result (λ made. AreBounds (length made.0) made.1) }
    ensures short { IfErr result (λ fault. length fault.place ≤ length name.now + 158) }
{
    match tree_of(exchange, member(value, name)?) {
        Ok(made) => Ok(made),
        Err(fault) => Err(fault.under(name)),
    }
}

/// Takes a bidder.
fn take_bidder(exchange: &mut ExchangeMaker, value: &Value) -> Result<(), ReadFault>
    requires { AreNames (good_names exchange.old) }
    // What comes of it
    ensures taken { OnOk result ((path : Path)
        → bidders_with exchange.old path (view value.now) ≡ Ok exchange.new.bidders) }
    ensures refused { IfErr result (λ fault. IsFault fault
        (λ path. bidders_with exchange.old path (view value.now))) }
    // On success
    ensures same { OnOk result (exchange.new
        ≡ record exchange.old { bidders = exchange.new.bidders }) }
    ensures one { OnOk result (length exchange.new.bidders ≡ length exchange.old.bidders + 1) }
    ensures few { OnOk result (length exchange.new.bidders ≤ 40) }
    // On refusal
    ensures short { IfErr result (λ fault. length fault.place ≤ 162) }
    ensures sale { IfErr result (TellsOfSale (IsSaleOf exchange.old.goods (view value.now))) }
{
    if !has_exactly(value, &["name", "own", "tree"]) {
        return Err(ReadFault::of(ReadCause::Shape));
    }
    let name = text_member(value, "name")?;
    let own = own_member(exchange, value, "own")?;
    let (tree, bounds) = tree_member(exchange, value, "tree")?;
    match exchange.bidder(name, own.as_slice(), tree, bounds) {
        Ok(_) => Ok(()),
        Err(fault) => Err(ReadFault::of(ReadCause::Make(fault))),
    }
}

/// Takes the bidders of an exchange.
pub(crate) fn take_bidders(exchange: &mut ExchangeMaker, value: &Value) -> Result<(), ReadFault>
    requires names { AreNames (good_names exchange.old) }
    requires empty { exchange.old.bidders ≡ [] }
    ensures taken { OnOk result ((path : Path)
        → bidders_at exchange.old.goods path (view value.now) ≡ Ok exchange.new.bidders) }
    ensures refused { IfErr result (λ fault. IsFault fault
        (λ path. bidders_at exchange.old.goods path (view value.now))) }
    ensures same { OnOk result (exchange.new
        ≡ record exchange.old { bidders = exchange.new.bidders }) }
    ensures short { IfErr result (λ fault. length fault.place ≤ 168) }
    ensures sale { IfErr result (TellsOfSale (IsSaleAmong exchange.old.goods (view value.now))) }
{
    let items = array_of(value)?;
    for (index, item) in items.iter().enumerate() {
        if let Err(fault) = take_bidder(exchange, item) {
            return Err(fault.at(index as u16));
        }
    }
    Ok(())
}
