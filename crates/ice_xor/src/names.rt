//! The names of the bidders of flat bids.
ghost use Rattle.std.specs.Prelude.{◌≡◌, ◌<◌, length, false, IsTrue, IfOk};
ghost use Rattle.std.specs.List.{list_any};
ghost use Rattle.std.specs.Str.{bytes_eq};
ghost use Rattle.ice_defs.specs.Name.{is_name};
ghost use Rattle.ice_trade.specs.Fault.{RefusedBy};
ghost use Rattle.ice_xor.specs.FlatFile.{flat_refusal};

use crate::bidders::FlatBidder;
use ice_defs::MOST_BIDDERS;
use ice_terms::Name;
use ice_trade::MakeFault;

fn is_named(bidder: &FlatBidder, name: &Name) -> bool
    ensures { result ≡ bytes_eq bidder.now.name name.now }
{
    bidder.name.bytes() == name.bytes()
}

/// Whether one of these bidders has the name.
fn is_taken(bidders: &[FlatBidder], name: &Name) -> bool
    ensures { result ≡ list_any (λ other. bytes_eq other.name name.now) bidders.now }
{
    bidders.iter().any(|other| is_named(other, name))
}

/// The name of a bidder that comes after these. It refuses, in this order, where this is no name
/// (`BadName`), where a bidder has the name (`DuplicateBidder`), and where 40 bidders stand
/// (`TooMany`).
pub(crate) fn check_name(bidders: &[FlatBidder], name: &str) -> Result<Name, MakeFault>
    ensures made { IfOk result (λ made. made ≡ name.now) }
    ensures refused { RefusedBy result (flat_refusal bidders.now name.now) }
    ensures named { IfOk result (λ made. IsTrue (is_name made)) }
    ensures fresh { IfOk result
        (λ made. list_any (λ other. bytes_eq other.name made) bidders.now ≡ false) }
    ensures room { IfOk result (λ made. length bidders.now < 40) }
{
    let Some(name) = Name::new(name) else {
        return Err(MakeFault::BadName);
    };
    if is_taken(bidders, &name) {
        return Err(MakeFault::DuplicateBidder);
    }
    if bidders.len() >= usize::from(MOST_BIDDERS) {
        return Err(MakeFault::TooMany);
    }
    Ok(name)
}
