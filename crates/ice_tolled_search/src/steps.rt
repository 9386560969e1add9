//! Steps that are taken at the first open side of a walk, and appended to a log.
ghost use Rattle.std.specs.Prelude.{◌≡◌, ◌<◌, ◌≤◌, ◌↔◌, length, IsTrue, IfOk};
ghost use Rattle.ice_defs.specs.Log.{IsFreeNode};
ghost use Rattle.ice_defs.specs.Conditions.{AreWeightsOf, AreFixingsOf};
ghost use Rattle.ice_refute.specs.Waiting.{nodes_of};
ghost use Rattle.ice_tolled_search.specs.Turn.{IsTurn};

use crate::stated::Stated;
use crate::sweep::{is_live_with, sweep};
use ice_best::{Fixings, Mark};
use ice_bound::Desk;
use ice_derived::{Rates, TollRoom, Weighing, take_leaf};
use ice_refute::{Step, Walk};
use ice_relaxation::Candidate;
use ice_tolled_log::{LeafNumbers, TolledLog, TolledStep};
use ice_tree::{AllWeights, Tree};
use std::alloc::{AllocError, Global};

/// Closes the side by a leaf with the tolls that are on derived goods, where that passes, and says
/// whether it does.
pub(crate) fn close_tolled(
    alloc: Global,
    trees: &[Tree],
    weights: &AllWeights,
    value: i128,
    m: &Rates,
    stated: &Stated,
    walk: &mut Walk,
    log: &mut TolledLog,
    desk: &Desk,
    toll_room: &mut TollRoom,
) -> Result<bool, AllocError>
    requires few { length trees.now ≤ 40 }
    requires weights { AreWeightsOf trees.now weights.now }
    requires derived { stated.now.goods.nodes ≡ nodes_of trees.now }
    requires nodes { walk.old.nodes ≡ nodes_of trees.now }
    requires opened { 0 < length walk.old.sides }
    requires goods { length m.now ≡ length desk.now.room }
    ensures turn { IfOk result (IsTurn stated.now.goods.goods trees.now desk.now.room weights.now value
        0 walk.old.sides walk.new.sides log.old log.new) }
    ensures nodes { walk.new.nodes ≡ walk.old.nodes }
{
    let weighing = Weighing::Group(weights);
    let goods = &stated.goods;
    // there is one toll for each derived good
    let _count = goods.len();
    let room = &desk.room;
    let Ok(()) = take_leaf(walk, trees, &weighing, goods, value, m, room, toll_room) else {
        return Ok(false);
    };
    let m = LeafNumbers::with_tolls(alloc, m, goods)?;
    log.push(TolledStep::Leaf { m })?;
    Ok(true)
}

/// Closes the side by a leaf without tolls, where its swept bound is at most the value, and says
/// whether it is.
pub(crate) fn close_swept(
    alloc: Global,
    trees: &[Tree],
    weights: &AllWeights,
    value: i128,
    stated: &Stated,
    walk: &mut Walk,
    log: &mut TolledLog,
    desk: &mut Desk,
) -> Result<bool, AllocError>
    requires few { length trees.now ≤ 40 }
    requires weights { AreWeightsOf trees.now weights.now }
    requires nodes { walk.old.nodes ≡ nodes_of trees.now }
    requires opened { 0 < length walk.old.sides }
    ensures turn { IfOk result (IsTurn stated.now.goods.goods trees.now desk.old.room weights.now value
        0 walk.old.sides walk.new.sides log.old log.new) }
    ensures nodes { walk.new.nodes ≡ walk.old.nodes }
    ensures exact { desk.new.room ≡ desk.old.room }
    ensures marks { desk.new.marks ≡ desk.old.marks }
{
    let Some(swept) = sweep(trees, weights, walk.side(), desk) else {
        return Ok(false);
    };
    if swept.bound > value {
        return Ok(false);
    }
    let m = LeafNumbers::of_goods(alloc, &swept.m)?;
    log.push(TolledStep::Leaf { m })?;
    walk.leave();
    Ok(true)
}

/// Whether the node is there and free.
fn is_free_node(trees: &[Tree], marks: &Fixings, bidder: u8, node: u16) -> bool
    requires { AreFixingsOf trees.now marks.now }
    ensures { IsTrue result ↔ IsFreeNode trees.now marks.now bidder node }
{
    (bidder as usize) < marks.len()
        && node < marks.of(bidder).len()
        && marks.of(bidder).get(node) == Mark::Free
}

/// Splits the side at a node, where that is there and free, both its sides are live and its swept
/// bound is above the value, and says whether it does.
pub(crate) fn split(
    trees: &[Tree],
    weights: &AllWeights,
    value: i128,
    node: Candidate,
    stated: &Stated,
    walk: &mut Walk,
    log: &mut TolledLog,
    desk: &mut Desk,
) -> Result<bool, AllocError>
    requires few { length trees.now ≤ 40 }
    requires weights { AreWeightsOf trees.now weights.now }
    requires nodes { walk.old.nodes ≡ nodes_of trees.now }
    requires marks { AreFixingsOf trees.now desk.old.marks }
    requires opened { 0 < length walk.old.sides }
    ensures turn { IfOk result (IsTurn stated.now.goods.goods trees.now desk.old.room weights.now value
        1 walk.old.sides walk.new.sides log.old log.new) }
    ensures nodes { walk.new.nodes ≡ walk.old.nodes }
    ensures exact { desk.new.room ≡ desk.old.room }
    ensures marks { AreFixingsOf trees.now desk.new.marks }
{
    let side = walk.side();
    if !is_free_node(trees, side, node.bidder, node.node) {
        return Ok(false);
    }
    let Some(swept) = sweep(trees, weights, side, desk) else {
        return Ok(false);
    };
    if swept.bound <= value {
        return Ok(false);
    }
    if !is_live_with(trees, weights, side, node, Mark::Must, desk) {
        return Ok(false);
    }
    if !is_live_with(trees, weights, side, node, Mark::Never, desk) {
        return Ok(false);
    }
    let step = Step::Branch {
        bidder: node.bidder,
        node: node.node,
    };
    let Ok(()) = walk.step(trees, weights, value, &step, desk) else {
        return Ok(false);
    };
    log.push(TolledStep::Branch {
        bidder: node.bidder,
        node: node.node,
    })?;
    Ok(true)
}
