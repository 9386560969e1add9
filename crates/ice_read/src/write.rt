//! The text of an exchange.
ghost use Rattle.std.specs.Prelude.{◌≡◌, ◌<◌, ◌++◌, codes, map, length, IfOk, OnOk};
ghost use Rattle.serde_json.specs.Data.{array, object};
ghost use Rattle.serde_json.specs.View.{view};
ghost use Rattle.ice_defs.specs.Lawful.{IsLimitedTree, IsExchange};
ghost use Rattle.ice_read.specs.Written.{items_of, object_of, setting_members, derived_members, settings_data, good_data, leaf_data, own_members, node_data, bidder_data, exchange_data, exchange_text};
ghost use Rattle.ice_read.specs.ExchangeFile.{exchange_of};
ghost use Rattle.ice_read.specs.Parts.{with_tree, bidder_of, choose_data, named_data, file_data};

use ice_terms::{Name, Settings};
use ice_trade::Exchange;
use ice_tree::{Bounds, NodeKind, Tree};
use serde_json::{Map, Value, json};
use std::alloc::{AllocError, Global};

/// The settings that are always written.
fn without_derived(alloc: Global, settings: Settings) -> Result<Value, AllocError>
    ensures { IfOk result (λ v. view v ≡ object_of (setting_members settings)) }
{
    json!(in alloc; {
        "weight": settings.weight,
        "close_regret": settings.close_regret,
        "cap": settings.cap,
        "improve": settings.improve,
        "rounds": settings.rounds,
        "branches": settings.branches
    })
}

/// All settings, with how many derived goods they allow.
fn with_derived(alloc: Global, settings: Settings) -> Result<Value, AllocError>
    ensures { IfOk result (λ v. view v
        ≡ object_of (setting_members settings ++ derived_members settings.derived)) }
{
    json!(in alloc; {
        "weight": settings.weight,
        "close_regret": settings.close_regret,
        "cap": settings.cap,
        "improve": settings.improve,
        "rounds": settings.rounds,
        "branches": settings.branches,
        "derived": settings.derived
    })
}

fn settings_value(alloc: Global, settings: Settings) -> Result<Value, AllocError>
    ensures { IfOk result (λ v. view v ≡ settings_data settings) }
{
    if settings.derived == 0 {
        without_derived(alloc, settings)
    } else {
        with_derived(alloc, settings)
    }
}

/// A good: its name, or an object with it where the good is exact.
fn good_value(alloc: Global, name: &Name, exact: bool) -> Result<Value, AllocError>
    ensures { IfOk result (λ v. view v ≡ good_data (record { name = name.now; exact = exact })) }
{
    if exact {
        json!(in alloc; {"exact": name.text()})
    } else {
        Value::try_from_str(alloc, name.text())
    }
}

fn goods_value(alloc: Global, ex: &Exchange) -> Result<Value, AllocError>
    ensures { IfOk result (λ v. view v ≡ array (items_of (map good_data ex.now.goods))) }
{
    let mut goods = Vec::new(alloc);
    for good in 0..ex.goods() {
        goods.push(good_value(alloc, ex.good_name(good), ex.is_exact(good))?)?;
    }
    Ok(Value::from(goods))
}

/// What a bidder owns of each good of which it owns anything.
fn own_value(alloc: Global, ex: &Exchange, bidder: u8) -> Result<Value, AllocError>
    requires { bidder < length ex.now.bidders }
    ensures { IfOk result (λ v. view v ≡ object (own_members ex.now.goods
        (bidder_of ex.now bidder).own)) }
{
    let mut own = Map::new(alloc);
    for good in (0..ex.goods()).rev() {
        let amount = ex.owns(bidder, good);
        if amount != 0 {
            let name = String::from_str(alloc, ex.good_name(good).text())?;
            drop(own.insert(name, Value::from(amount))?);
        }
    }
    Ok(Value::from(own))
}

/// A leaf that buys so many units of the good with this name.
fn buy_value(alloc: Global, name: &Name, units: u16, lo: i64, hi: i64) -> Result<Value, AllocError>
    ensures { IfOk result (λ v. view v ≡ leaf_data (codes "buy") name.now units lo hi) }
{
    json!(in alloc; {"buy": name.text(), "units": units, "lo": lo, "hi": hi})
}

/// A leaf that sells so many units of the good with this name.
fn sell_value(alloc: Global, name: &Name, units: u16, lo: i64, hi: i64) -> Result<Value, AllocError>
    ensures { IfOk result (λ v. view v ≡ leaf_data (codes "sell") name.now units lo hi) }
{
    json!(in alloc; {"sell": name.text(), "units": units, "lo": lo, "hi": hi})
}

/// A choose node with these children.
fn choose_value(
    alloc: Global,
    least: u16,
    most: u16,
    lo: i64,
    hi: i64,
    children: Vec<Value>,
) -> Result<Value, AllocError>
    ensures { IfOk result (λ v. view v ≡ choose_data least most lo hi (map view children.items)) }
{
    json!(in alloc; {"choose": [least, most], "lo": lo, "hi": hi, "of": children})
}

/// A node and what is below it, down to so many levels.
fn node_value(
    alloc: Global,
    ex: &Exchange,
    tree: &Tree,
    bounds: &Bounds,
    node: u16,
    levels: u8,
) -> Result<Value, AllocError>
    requires tree { IsLimitedTree (length ex.now.goods) tree.now }
    requires bounds { length bounds.now.lo ≡ length tree.now }
    requires node { node < length tree.now }
    ensures { IfOk result (λ v. view v ≡ node_data ex.now.goods
        (with_tree tree.now bounds.now) levels node) }
{
    if levels == 0 {
        return Ok(Value::Null);
    }
    let lo = bounds.lo(node);
    let hi = bounds.hi(node);
    match tree.kind(node) {
        NodeKind::Buy { good, units } => buy_value(alloc, ex.good_name(good), units, lo, hi),
        NodeKind::Sell { good, units } => sell_value(alloc, ex.good_name(good), units, lo, hi),
        NodeKind::Choose { least, most } => {
            let mut children = Vec::new(alloc);
            for child in tree.children(node) {
                children.push(node_value(alloc, ex, tree, bounds, *child, levels - 1)?)?;
            }
            choose_value(alloc, least, most, lo, hi, children)
        }
    }
}

/// A bidder of this name.
fn named_value(alloc: Global, name: &Name, own: Value, tree: Value) -> Result<Value, AllocError>
    ensures { IfOk result (λ v. view v ≡ named_data name.now (view own) (view tree)) }
{
    json!(in alloc; {"name": name.text(), "own": own, "tree": tree})
}

fn bidder_value(alloc: Global, ex: &Exchange, bidder: u8) -> Result<Value, AllocError>
    requires { bidder < length ex.now.bidders }
    ensures { IfOk result (λ v. view v ≡ bidder_data ex.now.goods (bidder_of ex.now bidder)) }
{
    let own = own_value(alloc, ex, bidder)?;
    let tree = &ex.trees()[bidder as usize];
    let bounds = &ex.bounds()[bidder as usize];
    let root = node_value(alloc, ex, tree, bounds, 0, 16)?;
    named_value(alloc, ex.bidder_name(bidder), own, root)
}

fn bidders_value(alloc: Global, ex: &Exchange) -> Result<Value, AllocError>
    ensures value { IfOk result (λ v. view v ≡ array (items_of (map
        (bidder_data ex.now.goods) ex.now.bidders))) }
    ensures lawful { IsExchange ex.now }
{
    let mut bidders = Vec::new(alloc);
    for bidder in 0..ex.bidders() {
        bidders.push(bidder_value(alloc, ex, bidder)?)?;
    }
    Ok(Value::from(bidders))
}

/// A file of these three parts.
fn file_value(
    alloc: Global,
    settings: Value,
    goods: Value,
    bidders: Value,
) -> Result<Value, AllocError>
    ensures { IfOk result (λ v. view v ≡ file_data (view settings) (view goods) (view bidders)) }
{
    json!(in alloc; {"settings": settings, "goods": goods, "bidders": bidders})
}

fn exchange_value(alloc: Global, ex: &Exchange) -> Result<Value, AllocError>
    ensures value { IfOk result (λ v. view v ≡ exchange_data ex.now) }
    ensures lawful { OnOk result (IsExchange ex.now) }
{
    let settings = settings_value(alloc, ex.settings())?;
    let goods = goods_value(alloc, ex)?;
    let bidders = bidders_value(alloc, ex)?;
    file_value(alloc, settings, goods, bidders)
}

/// The exchange as a file in JSON: without spaces, the members of each object in the order of their
/// names' bytes, and of what a bidder owns only the amounts that aren't 0. What is written is read
/// again as the same exchange. Only for want of memory can it fail.
pub fn write_exchange(alloc: Global, ex: &Exchange) -> Result<Vec<u8>, AllocError>
    ensures text { IfOk result (λ text. text.items ≡ exchange_text ex.now) }
    ensures read_again { IfOk result (λ text. exchange_of text.items ≡ Ok ex.now) }
{
    let value = exchange_value(alloc, ex)?;
    Ok(value.to_vec(alloc)?)
}
