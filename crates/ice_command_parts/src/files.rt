//! The files that a command's words name, fetched and read.
ghost use Rattle.std.specs.Prelude.{◌≡◌, IfOk, IfErr, OnOk, Ok as Found};
ghost use Rattle.ice_section.specs.LineFile.{IsPricesOfLines};
ghost use Rattle.ice_edge.specs.Told.{IsLater};
ghost use Rattle.ice_read.specs.RoundFile.{bids_of as read_bids};
ghost use Rattle.ice_command_parts.specs.Files.{is_line_form, IsExchangeOf, IsExchangeFault, IsPricesFault, IsRoundFault, HoldsExchange, HoldsPrices, HoldsBids, IsLineRefusal, IsPlaceRefusal};
ghost use Rattle.ice_command_parts.specs.Keeping.{KeepsTold};
ghost use Rattle.ice_command_parts.specs.Parts.{AreFetched};
ghost use Rattle.ice_command_parts.specs.Refusals.{refusal_status, NoFault, IsFaultOf, Refuses};

use crate::refusal::{FileFault, Refusal};
use ice_edge::{FetchFault, Shelf};
use ice_read::ReadFault;
use ice_section::{LineFileFault, read_exchange_lines, read_prices_lines};
use ice_terms::{Bid, Prices};
use ice_trade::Exchange;
use std::alloc::Global;

/// The most bytes of a file that is no journal.
pub const FILE_LIMIT: usize = 16_777_216;

/// The bytes of the file with this number and name, of which there are at most `limit`, or why they
/// are not had. Only where the file is the reason may a count of the shelf change.
pub fn fetch<H: Shelf>(
    alloc: Global,
    file: u8,
    name: &str,
    limit: usize,
    shelf: &mut H,
) -> Result<Vec<u8>, Refusal>
    ensures bytes { IfOk result
        (λ bytes. AreFetched (H.told shelf.old) name.now limit bytes.items) }
    ensures refusal { IfErr result
        (Refuses file name.now limit NoFault (H.told shelf.old) (H.told shelf.new)) }
    ensures kept { OnOk result (H.told shelf.new ≡ H.told shelf.old) }
    ensures kept_at_refusal { IfErr result (λ refusal.
        KeepsTold (H.told shelf.old) (H.told shelf.new) (refusal_status refusal)) }
    ensures later { IsLater (H.told shelf.old) (H.told shelf.new) }
{
    match shelf.fetch(alloc, name, limit) {
        Ok(bytes) => Ok(bytes),
        Err(FetchFault::Failed) => Err(Refusal::Unread { file }),
        Err(FetchFault::TooLong) => Err(Refusal::File {
            file,
            fault: FileFault::TooLong,
        }),
        Err(FetchFault::NoMemory) => Err(Refusal::NoMemory),
    }
}

/// Whether the first byte is `i`.
fn is_line_form(bytes: &[u8]) -> bool
    ensures { result ≡ is_line_form bytes.now }
{
    match bytes {
        [first, ..] => *first == b'i',
        [] => false,
    }
}

/// What is wrong with the file with this number, of which a line is at fault.
fn line_refusal(file: u8, fault: LineFileFault) -> Refusal
    ensures { IsLineRefusal file fault result }
{
    match fault {
        LineFileFault::Fault { cause, line } => match cause.number() {
            Some(number) => Refusal::File {
                file,
                fault: FileFault::AtLine { number, line },
            },
            None => Refusal::NoMemory,
        },
        LineFileFault::NoMemory => Refusal::NoMemory,
    }
}

/// What is wrong with the JSON file with this number, of which a value is at fault.
pub fn place_refusal(file: u8, fault: ReadFault) -> Refusal
    ensures { IsPlaceRefusal file fault result }
{
    let ReadFault { place, cause } = fault;
    match cause.number() {
        Some(number) => Refusal::File {
            file,
            fault: FileFault::AtPlace { number, place },
        },
        None => Refusal::NoMemory,
    }
}

/// The exchange of the bytes of the file with this number.
fn exchange_of(alloc: Global, file: u8, bytes: &[u8]) -> Result<Exchange, Refusal>
    ensures exchange { IfOk result (λ exchange. IsExchangeOf bytes.now (Found exchange)) }
    ensures refusal { IfErr result (IsFaultOf file (IsExchangeFault bytes.now)) }
{
    if is_line_form(bytes) {
        match read_exchange_lines(alloc, bytes) {
            Ok(exchange) => Ok(exchange),
            Err(fault) => Err(line_refusal(file, fault)),
        }
    } else {
        match ice_read::read_exchange(alloc, bytes) {
            Ok(exchange) => Ok(exchange),
            Err(fault) => Err(place_refusal(file, fault)),
        }
    }
}

/// The prices, for so many goods, of the bytes of the file with this number.
fn prices_of(file: u8, bytes: &[u8], goods: u8) -> Result<Prices, Refusal>
    ensures prices { IfOk result (λ prices. IsPricesOfLines goods bytes.now (Found prices)) }
    ensures refusal { IfErr result (IsFaultOf file (IsPricesFault goods bytes.now)) }
{
    match read_prices_lines(bytes, goods) {
        Ok(prices) => Ok(prices),
        Err(fault) => Err(line_refusal(file, fault)),
    }
}

/// The bids of the bytes of the round file with this number.
fn bids_of(alloc: Global, file: u8, bytes: &[u8]) -> Result<Vec<Bid>, Refusal>
    ensures bids { IfOk result (λ bids. read_bids bytes.now ≡ Found bids.items) }
    ensures refusal { IfErr result (IsFaultOf file (IsRoundFault bytes.now)) }
{
    match ice_read::read_round(alloc, bytes) {
        Ok(bids) => Ok(bids),
        Err(fault) => Err(place_refusal(file, fault)),
    }
}

/// The exchange of the file with this number and name, or why there is none.
pub fn read_exchange<H: Shelf>(
    alloc: Global,
    file: u8,
    name: &str,
    shelf: &mut H,
) -> Result<Exchange, Refusal>
    ensures exchange { IfOk result (HoldsExchange (H.told shelf.old) name.now) }
    ensures refusal { IfErr result
        (Refuses file name.now FILE_LIMIT IsExchangeFault (H.told shelf.old) (H.told shelf.new)) }
    ensures kept { OnOk result (H.told shelf.new ≡ H.told shelf.old) }
    ensures kept_at_refusal { IfErr result (λ refusal.
        KeepsTold (H.told shelf.old) (H.told shelf.new) (refusal_status refusal)) }
    ensures later { IsLater (H.told shelf.old) (H.told shelf.new) }
{
    let bytes = fetch(alloc, file, name, FILE_LIMIT, shelf)?;
    exchange_of(alloc, file, &bytes)
}

/// The prices, for so many goods, of the file with this number and name, or why there are none.
pub fn read_prices<H: Shelf>(
    alloc: Global,
    file: u8,
    name: &str,
    goods: u8,
    shelf: &mut H,
) -> Result<Prices, Refusal>
    ensures prices { IfOk result (HoldsPrices (H.told shelf.old) name.now goods) }
    ensures refusal { IfErr result
        (Refuses file name.now FILE_LIMIT (IsPricesFault goods) (H.told shelf.old)
        (H.told shelf.new)) }
    ensures kept { OnOk result (H.told shelf.new ≡ H.told shelf.old) }
    ensures kept_at_refusal { IfErr result (λ refusal.
        KeepsTold (H.told shelf.old) (H.told shelf.new) (refusal_status refusal)) }
    ensures later { IsLater (H.told shelf.old) (H.told shelf.new) }
{
    let bytes = fetch(alloc, file, name, FILE_LIMIT, shelf)?;
    prices_of(file, &bytes, goods)
}

/// The bids of the round file with this number and name, or why there are none.
pub fn read_round<H: Shelf>(
    alloc: Global,
    file: u8,
    name: &str,
    shelf: &mut H,
) -> Result<Vec<Bid>, Refusal>
    ensures bids { IfOk result (λ bids. HoldsBids (H.told shelf.old) name.now bids.items) }
    ensures refusal { IfErr result
        (Refuses file name.now FILE_LIMIT IsRoundFault (H.told shelf.old) (H.told shelf.new)) }
    ensures kept { OnOk result (H.told shelf.new ≡ H.told shelf.old) }
    ensures kept_at_refusal { IfErr result (λ refusal.
        KeepsTold (H.told shelf.old) (H.told shelf.new) (refusal_status refusal)) }
    ensures later { IsLater (H.told shelf.old) (H.told shelf.new) }
{
    let bytes = fetch(alloc, file, name, FILE_LIMIT, shelf)?;
    bids_of(alloc, file, &bytes)
}
