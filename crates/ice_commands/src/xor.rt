//! `xor`: the exchange that flat bids say.
ghost use Rattle.std.specs.Prelude.{◌≡◌, ◌++◌, ◌∷◌, [], ℕ, List, IfOk, IfErr, OnOk};
ghost use Rattle.ice_read.specs.Written.{exchange_text};
ghost use Rattle.ice_xor.specs.Translating.{translate_refusal};
ghost use Rattle.ice_command_parts.specs.Keeping.{KeepsTold};
ghost use Rattle.ice_command_parts.specs.Parts.{AreFetched, Serves};
ghost use Rattle.ice_command_parts.specs.Refusals.{refusal_status, IsFaultOf, Refuses};
ghost use Rattle.ice_commands.specs.XorServed.{IsFlatFault, IsTranslation, IsTranslationOf, XorAnswers};
ghost use Rattle.ice_commands.specs.XorParts.{IsBidderFault, IsMakerFault};

use ice_command_parts::{FILE_LIMIT, FileFault, Refusal, ended, fetch, place_refusal};
use ice_edge::{Shelf, Sink, Status};
use ice_read::{Place, write_exchange};
use ice_trade::Exchange;
use ice_xor::{FlatExchange, TranslateFault, read_flat, translate};
use std::alloc::{AllocError, Global};

/// What is wrong with the first file, where its flat bids are not translated.
fn maker_refusal(fault: TranslateFault) -> Refusal
    ensures { IsMakerFault fault result }
{
    match fault {
        TranslateFault::Refused { bidder, cause } => match cause.number() {
            Some(number) => Refusal::File {
                file: 1,
                fault: FileFault::AtPlace {
                    number,
                    place: Place::here().at(u16::from(bidder)).under("bidders"),
                },
            },
            None => Refusal::NoMemory,
        },
        TranslateFault::NoMemory => Refusal::NoMemory,
    }
}

/// The text of an exchange as a line.
fn line_of(alloc: Global, exchange: &Exchange) -> Result<Vec<u8>, AllocError>
    ensures { IfOk result (λ line. line.items ≡ exchange_text exchange.now ++ 10 ∷ []) }
{
    let mut line = write_exchange(alloc, exchange)?;
    line.push(b'\n')?;
    Ok(line)
}

/// The line of the exchange that flat bids say.
fn line_in(alloc: Global, flat: &FlatExchange) -> Result<Vec<u8>, Refusal>
    ensures line { IfOk result (λ line. IsTranslation flat.now line.items) }
    ensures refusal { IfErr result
        (IsFaultOf 1 (IsBidderFault (translate_refusal flat.now))) }
{
    let exchange = match translate(alloc, flat) {
        Ok(exchange) => exchange,
        Err(fault) => return Err(maker_refusal(fault)),
    };
    match line_of(alloc, &exchange) {
        Ok(line) => Ok(line),
        Err(AllocError) => Err(Refusal::NoMemory),
    }
}

/// The line of the exchange that the flat bids of the first file's bytes say, or why there is none.
fn line_to(alloc: Global, bytes: &[u8]) -> Result<Vec<u8>, Refusal>
    ensures line { IfOk result (λ line. IsTranslationOf bytes.now line.items) }
    ensures refusal { IfErr result (IsFaultOf 1 (IsFlatFault bytes.now)) }
{
    match read_flat(alloc, bytes) {
        Ok(flat) => line_in(alloc, &flat),
        Err(fault) => Err(place_refusal(1, fault)),
    }
}

/// The line of the exchange that the flat bids of the file of this name say, or why there is none.
fn translation_of<H: Shelf>(alloc: Global, name: &str, shelf: &mut H) -> Result<Vec<u8>, Refusal>
    ensures line { IfOk result (λ line. (bytes : List ℕ)
        × IsTranslationOf bytes line.items
        × AreFetched (H.told shelf.old) name.now FILE_LIMIT bytes) }
    ensures refusal { IfErr result
        (Refuses 1 name.now FILE_LIMIT IsFlatFault (H.told shelf.old) (H.told shelf.new)) }
    ensures kept { OnOk result (H.told shelf.new ≡ H.told shelf.old) }
    ensures kept_at_refusal { IfErr result (λ refusal.
        KeepsTold (H.told shelf.old) (H.told shelf.new) (refusal_status refusal)) }
{
    let bytes = fetch(alloc, 1, name, FILE_LIMIT, shelf)?;
    line_to(alloc, &bytes)
}

/// Writes the exchange that the flat bids of the file of this name say, as one line.
pub fn xor<H: Shelf, K: Sink>(alloc: Global, file: &str, shelf: &mut H, out: &mut K) -> Status
    ensures served { Serves (λ call. XorAnswers call file.now)
        (H.told shelf.old) (H.told shelf.new) (K.taken out.old) (K.taken out.new) result }
    ensures kept { KeepsTold (H.told shelf.old) (H.told shelf.new) result }
{
    match translation_of(alloc, file, shelf) {
        Ok(line) => ended(out.put(&line), Status::Done),
        Err(refusal) => refusal.say(out),
    }
}
