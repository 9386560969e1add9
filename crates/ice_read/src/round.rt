//! Round files: the bids of one round.
ghost use Rattle.std.specs.Prelude.{◌≡◌, ◌≢◌, ◌+◌, ◌<◌, ◌≤◌, [], codes, length, vec_len, MatchResult, IfOk, IfErr};
ghost use Rattle.serde_json.specs.View.{view, items_view};
ghost use Rattle.ice_defs.specs.FileFault.{Path};
ghost use Rattle.ice_terms.specs.Bids.{AreValues};
ghost use Rattle.ice_read.specs.Values.{at_member, of_member, each};
ghost use Rattle.ice_read.specs.RoundFile.{values_at, name_at, bid_at, bids_of_value, bids_of};
ghost use Rattle.ice_read.specs.Fault.{fault_at, IsFault, IsReading};

use crate::cause::ReadCause;
use crate::fault::ReadFault;
use crate::file::value_of;
use crate::limits::{MOST_BIDS, MOST_VALUES};
use crate::values::{array_of, has_exactly, member, text_of, whole_of};
use arrayvec::ArrayVec;
use ice_defs::GREATEST_VALUE;
use ice_terms::{Bid, Name};
use ice_trade::MakeFault;
use serde_json::Value;
use std::alloc::Global;

/// A list of at most 200 values.
fn values_at(value: &Value) -> Result<ArrayVec<i64, 200>, ReadFault>
    ensures reading { MatchResult result (λ values. (path : Path)
        → values_at path (view value.now) ≡ Ok values.items)
        (λ fault. IsFault fault (λ path. values_at path (view value.now))) }
    ensures place { IfErr result (λ fault. length fault.place ≤ 6) }
    ensures values { IfOk result (λ values. AreValues values.items) }
{
    let items = array_of(value)?;
    if items.len() > MOST_VALUES {
        return Err(ReadFault::of(ReadCause::Range));
    }
    let mut values = ArrayVec::new();
    for (index, item) in items.iter().enumerate() {
        match whole_of(item, -GREATEST_VALUE, GREATEST_VALUE) {
            Ok(number) => values.push(number),
            Err(fault) => return Err(fault.at(index as u16)),
        }
    }
    Ok(values)
}

/// A name.
fn name_at(value: &Value) -> Result<Name, ReadFault>
    ensures reading { IsReading result (λ path. name_at path (view value.now)) }
    ensures place { IfErr result (λ fault. fault.place ≡ []) }
{
    let text = text_of(value)?;
    let Some(name) = Name::new(text) else {
        return Err(ReadFault::of(ReadCause::Make(MakeFault::BadName)));
    };
    Ok(name)
}

/// The name in a bid.
fn bidder_in(bid: &Value) -> Result<Name, ReadFault>
    ensures reading { IsReading result (λ path.
        of_member path (view bid.now) (codes "bidder") name_at) }
    ensures place { IfErr result (λ fault. length fault.place ≤ 7) }
{
    match name_at(member(bid, "bidder")?) {
        Ok(name) => Ok(name),
        Err(fault) => Err(fault.under("bidder")),
    }
}

/// One of the two lists of values in a bid.
fn values_in(bid: &Value, name: &str) -> Result<ArrayVec<i64, 200>, ReadFault>
    requires { length name.now < 100 }
    ensures reading { MatchResult result (λ values. (path : Path)
        → of_member path (view bid.now) name.now values_at ≡ Ok values.items)
        (λ fault. IsFault fault (λ path. of_member path (view bid.now) name.now values_at)) }
    ensures place { IfErr result (λ fault. length fault.place ≤ length name.now + 7) }
    ensures values { IfOk result (λ values. AreValues values.items) }
{
    match values_at(member(bid, name)?) {
        Ok(values) => Ok(values),
        Err(fault) => Err(fault.under(name)),
    }
}

/// A bid.
fn bid_at(value: &Value) -> Result<Bid, ReadFault>
    ensures reading { IsReading result (λ path. bid_at path (view value.now)) }
    ensures place { IfErr result (λ fault. length fault.place ≤ 20) }
{
    if !has_exactly(value, &["bidder", "lo", "hi"]) {
        return Err(ReadFault::of(ReadCause::Shape));
    }
    let bidder = bidder_in(value)?;
    let lo = values_in(value, "lo")?;
    let hi = values_in(value, "hi")?;
    Ok(Bid::new(bidder, lo, hi))
}

/// The list of at most 400 bids in a file.
fn bids_in(file: &Value) -> Result<&Vec<Value>, ReadFault>
    ensures reading { MatchResult result (λ items.
        bids_of_value (view file.now)
        ≡ each bid_at (at_member [] (codes "bids")) 0 (items_view items.now.items))
        (λ fault. bids_of_value (view file.now) ≡ Err (fault_at [] fault)) }
    ensures few { IfOk result (λ items. vec_len items.now ≤ 400) }
    ensures place { IfErr result (λ fault. fault.cause ≡ ReadCause.NoMemory → fault.place ≡ []) }
{
    if !has_exactly(file, &["bids"]) {
        return Err(ReadFault::of(ReadCause::Shape));
    }
    match array_of(member(file, "bids")?) {
        Ok(items) if items.len() <= MOST_BIDS => Ok(items),
        Ok(_) => Err(ReadFault::of(ReadCause::Range).under("bids")),
        Err(fault) => Err(fault.under("bids")),
    }
}

/// The bids of a file's value.
fn bids_of(alloc: Global, file: &Value) -> Result<Vec<Bid>, ReadFault>
    ensures answer { MatchResult result (λ bids. bids_of_value (view file.now) ≡ Ok bids.items)
        (λ fault. fault.cause ≢ ReadCause.NoMemory
        → bids_of_value (view file.now) ≡ Err (fault_at [] fault)) }
    ensures memory { IfErr result (λ fault. fault.cause ≡ ReadCause.NoMemory → fault.place ≡ []) }
{
    let items = bids_in(file)?;
    let mut bids = Vec::new(alloc);
    for (index, item) in items.iter().enumerate() {
        match bid_at(item) {
            Ok(bid) => {
                let Ok(()) = bids.push(bid) else {
                    return Err(ReadFault::of(ReadCause::NoMemory));
                };
            }
            Err(fault) => return Err(fault.at(index as u16).under("bids")),
        }
    }
    Ok(bids)
}

/// The bids of a round file, in their order, or the first fault of the file with its place.
///
/// A round has at most 400 bids, each with at most 200 lower and 200 upper values, from
/// -1,000,000,000 to 1,000,000,000. Which bidders there are, and how many values a bid needs, is
/// not known here: a bid for an unknown name and a wrong count of values are read.
pub fn read_round(alloc: Global, bytes: &[u8]) -> Result<Vec<Bid>, ReadFault>
    ensures answer { MatchResult result (λ bids. bids_of bytes.now ≡ Ok bids.items)
        (λ fault. fault.cause ≢ ReadCause.NoMemory → bids_of bytes.now ≡ Err (fault_at [] fault)) }
    ensures memory { IfErr result (λ fault. fault.cause ≡ ReadCause.NoMemory → fault.place ≡ []) }
{
    let file = value_of(alloc, bytes)?;
    bids_of(alloc, &file)
}
