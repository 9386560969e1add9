//! Flat bids as an exchange of trees.
ghost use Rattle.std.specs.Prelude.{◌≡◌, ◌<◌, length, None, OnOk, IfOk, IfErr};
ghost use Rattle.ice_defs.specs.Making.{bidder_refusal};
ghost use Rattle.ice_defs.specs.Lawful.{IsExchange};
ghost use Rattle.ice_trade.specs.Parts.{with_bidder};
ghost use Rattle.ice_xor.specs.FlatBids.{translation, translated_bidder};
ghost use Rattle.ice_xor.specs.Lawful.{IsFlatBidder};
ghost use Rattle.ice_xor.specs.Translating.{tree_refusal, or_later, translate_refusal};
ghost use Rattle.ice_xor.specs.Faults.{IsTranslateFault, IsRefusedBy, TellsSaleOf, TellsItsSale};

use crate::bidders::FlatBidder;
use crate::building::tree_of;
use crate::faults::{MakerFault, TranslateFault};
use crate::flat::FlatExchange;
use ice_trade::{Exchange, ExchangeMaker};
use std::alloc::Global;

/// Adds a bidder with the tree of its packages.
fn add_bidder(exchange: &mut ExchangeMaker, bidder: &FlatBidder) -> Result<(), MakerFault>
    requires some { 0 < length exchange.old.goods }
    requires lawful { IsFlatBidder (length exchange.old.goods) bidder.now }
    ensures made { OnOk result (exchange.new
        ≡ with_bidder exchange.old (translated_bidder bidder.now)) }
    ensures refused { IsRefusedBy result
        (or_later (tree_refusal (length exchange.old.goods) bidder.now)
        (bidder_refusal (length exchange.old.goods) exchange.old.bidders
        (translated_bidder bidder.now))) }
    ensures sale { IfErr result (TellsSaleOf (length exchange.old.goods) bidder.now) }
{
    let (tree, bounds) = match tree_of(exchange.goods(), bidder) {
        Ok(made) => made,
        Err(fault) => return Err(MakerFault::Tree(fault)),
    };
    match exchange.bidder(bidder.name().text(), bidder.own(), tree, bounds) {
        Ok(_) => Ok(()),
        Err(fault) => Err(MakerFault::Make(fault)),
    }
}

/// The exchange that flat bids say, or the first refusal of a maker, the bidders being made in
/// order.
///
/// Each bidder has a tree whose root chooses at most one of its packages, or any; a package is a
/// choose node with its bounds that takes all its leaves, one for each good in ascending order.
/// Settings, goods, names and owned amounts are kept. The tree's maker refuses the first node of a
/// bidder that it does not take, the exchange's maker a bidder with too many nodes (`TooMany`), or
/// whose packages may sell more of a good than it owns (`OverSale`). Want of memory (`NoMemory`) is
/// the other error.
pub fn translate(alloc: Global, flat: &FlatExchange) -> Result<Exchange, TranslateFault>
    ensures exchange { IfOk result (λ exchange. exchange ≡ translation flat.now) }
    ensures lawful { IfOk result IsExchange }
    ensures allowed { IfOk result (λ exchange. translate_refusal flat.now ≡ None) }
    ensures refused { IfErr result (IsTranslateFault (translate_refusal flat.now)) }
    ensures sale { IfErr result (TellsItsSale flat.now) }
{
    let Ok(mut exchange) = flat.goods.without_bidders(alloc) else {
        return Err(TranslateFault::NoMemory);
    };
    for (bidder, flat_bidder) in flat.bidders().iter().enumerate() {
        if let Err(cause) = add_bidder(&mut exchange, flat_bidder) {
            return Err(TranslateFault::Refused {
                bidder: bidder as u8,
                cause,
            });
        }
    }
    Ok(exchange.finish().unwrap())
}
