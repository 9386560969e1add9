//! The file of the bidders' true values, fetched and read.
ghost use Rattle.std.specs.Prelude.{◌≡◌, IfOk, IfErr, OnOk};
ghost use Rattle.ice_edge.specs.Told.{IsLater};
ghost use Rattle.ice_defs.specs.Exchange.{opening_bounds};
ghost use Rattle.ice_proxy.specs.Sessions.{HoldTruths};
ghost use Rattle.ice_simulation.specs.Faults.{fault_of};
ghost use Rattle.ice_simulation.specs.TruthFile.{truth_lists};
ghost use Rattle.ice_command_parts.specs.Keeping.{KeepsTold};
ghost use Rattle.ice_command_parts.specs.Refusals.{refusal_status, IsFaultOf, Refuses};
ghost use Rattle.ice_session_commands.specs.TruthParts.{AreTruthsOf, IsTruthFault, HoldsTruths};

use ice_command_parts::{FILE_LIMIT, FileFault, Refusal, fetch, place_refusal};
use ice_edge::Shelf;
use ice_read::{Place, read_round};
use ice_simulation::{TruthFault, truth_fault};
use ice_terms::Bid;
use ice_trade::Exchange;
use std::alloc::Global;

/// What is wrong with the second file, whose bids don't say the true values of all bidders.
fn truth_refusal(fault: TruthFault) -> Refusal
    ensures { IsFaultOf 2 (λ found. found ≡ fault_of fault) result }
{
    let (number, place) = match fault {
        TruthFault::NotTruth { index } => (92, Place::here().at_any(index).under("bids")),
        TruthFault::NoTruth => (93, Place::here()),
    };
    Refusal::File {
        file: 2,
        fault: FileFault::AtPlace { number, place },
    }
}

/// The bids of the second file's bytes, which say the true values of all bidders, or why there are
/// none.
fn truths_of(alloc: Global, exchange: &Exchange, bytes: &[u8]) -> Result<Vec<Bid>, Refusal>
    ensures truths { IfOk result (λ bids. AreTruthsOf exchange.now bytes.now bids.items) }
    ensures hold { IfOk result (λ bids. HoldTruths (opening_bounds exchange.now)
        (truth_lists exchange.now.bidders bids.items)) }
    ensures refusal { IfErr result (IsFaultOf 2 (IsTruthFault exchange.now bytes.now)) }
{
    let _bidders = exchange.bidders();
    let bids = match read_round(alloc, bytes) {
        Ok(bids) => bids,
        Err(fault) => return Err(place_refusal(2, fault)),
    };
    match truth_fault(exchange, &bids) {
        Some(fault) => Err(truth_refusal(fault)),
        None => Ok(bids),
    }
}

/// The bids of the second file, of this name, which say the true values of all bidders, or why
/// there are none.
pub fn read_truths<H: Shelf>(
    alloc: Global,
    exchange: &Exchange,
    name: &str,
    shelf: &mut H,
) -> Result<Vec<Bid>, Refusal>
    ensures truths { IfOk result (λ bids.
        HoldsTruths (H.told shelf.old) name.now exchange.now bids.items) }
    ensures hold { IfOk result (λ bids. HoldTruths (opening_bounds exchange.now)
        (truth_lists exchange.now.bidders bids.items)) }
    ensures refusal { IfErr result (Refuses 2 name.now FILE_LIMIT (IsTruthFault exchange.now)
        (H.told shelf.old) (H.told shelf.new)) }
    ensures kept { OnOk result (H.told shelf.new ≡ H.told shelf.old) }
    ensures kept_at_refusal { IfErr result (λ refusal.
        KeepsTold (H.told shelf.old) (H.told shelf.new) (refusal_status refusal)) }
    ensures later { IsLater (H.told shelf.old) (H.told shelf.new) }
{
    let bytes = fetch(alloc, 2, name, FILE_LIMIT, shelf)?;
    truths_of(alloc, exchange, &bytes)
}
