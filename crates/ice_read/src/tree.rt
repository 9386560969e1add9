//! The tree of a bidder.
ghost use Rattle.std.specs.Prelude.{◌≡◌, ◌≤◌, ◌+◌, ◌*◌, max, OnOk, IfOk, IfErr, MatchResult, length};
ghost use Rattle.serde_json.specs.View.{view};
ghost use Rattle.ice_defs.specs.FileFault.{Path};
ghost use Rattle.ice_defs.specs.Lawful.{good_names, IsLimitedTree, AreBounds};
ghost use Rattle.ice_read.specs.TreeFile.{is_buy, is_sell, is_choose, tree_at};
ghost use Rattle.ice_read.specs.Reading.{made_so_far, levels_below, node_below, IsWaiting};
ghost use Rattle.ice_read.specs.Fault.{IsFault};

use crate::cause::ReadCause;
use crate::choose::open_choose;
use crate::fault::ReadFault;
use crate::leaf::{Side, take_leaf};
use crate::values::has_exactly;
use ice_trade::ExchangeMaker;
use ice_tree::{Bounds, Tree, TreeMaker};
use serde_json::Value;

fn is_buy(value: &Value) -> bool
    ensures { result ≡ is_buy (view value.now) }
{
    has_exactly(value, &["buy", "units", "lo", "hi"])
}

fn is_sell(value: &Value) -> bool
    ensures { result ≡ is_sell (view value.now) }
{
    has_exactly(value, &["sell", "units", "lo", "hi"])
}

fn is_choose(value: &Value) -> bool
    ensures { result ≡ is_choose (view value.now) }
{
    has_exactly(value, &["choose", "lo", "hi", "of"])
}

/// Takes a node and all that is below it into a tree that is being made.
fn take_node(
    exchange: &ExchangeMaker,
    maker: &mut TreeMaker,
    value: &Value,
) -> Result<(), ReadFault>
    requires goods { maker.old.goods ≡ max 1 (length exchange.now.goods) }
    requires waiting { IsWaiting maker.old.draft }
    ensures taken { OnOk result ((path : Path)
        → node_below (good_names exchange.now) maker.old.draft path (view value.now)
        ≡ Ok (made_so_far maker.new.draft)) }
    ensures refused { IfErr result (λ fault. IsFault fault
        (λ path. node_below (good_names exchange.now) maker.old.draft path (view value.now))) }
    ensures same { OnOk result (maker.new
        ≡ record maker.old { draft = record maker.new.draft { opened = maker.old.draft.opened } }) }
    ensures short { IfErr result
        (λ fault. length fault.place ≤ 13 + 9 * levels_below maker.old.draft) }
{
    if is_buy(value) {
        return take_leaf(exchange, maker, value, Side::Buy);
    }
    if is_sell(value) {
        return take_leaf(exchange, maker, value, Side::Sell);
    }
    if !is_choose(value) {
        return Err(ReadFault::of(ReadCause::Shape));
    }
    let items = open_choose(maker, value)?;
    for (index, item) in items.iter().enumerate() {
        if let Err(fault) = take_node(exchange, maker, item) {
            return Err(fault.at(index as u16).under("of"));
        }
    }
    match maker.close() {
        Ok(()) => Ok(()),
        Err(fault) => Err(ReadFault::of(ReadCause::Tree(fault))),
    }
}

/// The tree of a bidder, with its opening bounds.
pub(crate) fn tree_of(exchange: &ExchangeMaker, value: &Value) -> Result<(Tree, Bounds), ReadFault>
    ensures reading { MatchResult result (λ made. (path : Path)
        → tree_at (good_names exchange.now) path (view value.now)
        ≡ Ok (record { tree = made.0; bounds = made.1 }))
        (λ fault. IsFault fault (λ path. tree_at (good_names exchange.now) path (view value.now))) }
    ensures tree { IfOk result (λ made. IsLimitedTree (length exchange.now.goods) made.0) }
    ensures bounds { IfOk result (λ made. AreBounds (length made.0) made.1) }
    ensures short { IfErr result (λ fault. length fault.place ≤ 157) }
{
    let mut maker = TreeMaker::new(exchange.goods().max(1));
    take_node(exchange, &mut maker, value)?;
    let Ok(made) = maker.finish() else {
        unreachable!()
    };
    Ok(made)
}
