//! Values of a file: of the type that their place asks for, whole, and in range.
ghost use Rattle.std.specs.Prelude.{◌≡◌, ◌&&◌, int_le, ◌+◌, ◌<◌, ◌≤◌, [], ◌∷◌, length, map, MatchResult, IfOk, IfErr, pos, is_some, option_and_then};
ghost use Rattle.std.specs.List.{list_all};
ghost use Rattle.serde_json.specs.Find.{get, as_number, as_integer};
ghost use Rattle.serde_json.specs.View.{view, items_view, members_view};
ghost use Rattle.serde_json.specs.Data.{null};
ghost use Rattle.ice_defs.specs.Exchange.{IsBetween};
ghost use Rattle.ice_defs.specs.FileFault.{Path};
ghost use Rattle.ice_read.specs.Values.{object_of, array_of, text_of, whole_of, has_exactly, member_or_null, of_member};
ghost use Rattle.ice_read.specs.Fault.{IsFault, IsReading};

use crate::cause::ReadCause;
use crate::fault::ReadFault;
use serde_json::{Map, Value};

/// The members of an object.
pub fn object_of(value: &Value) -> Result<&Map<String, Value>, ReadFault>
    ensures reading { MatchResult result (λ members. (path : Path)
        → object_of path (view value.now) ≡ Ok (members_view members.now.entries))
        (λ fault. IsFault fault (λ path. object_of path (view value.now))) }
    ensures place { IfErr result (λ fault. fault.place ≡ []) }
{
    let Some(found) = value.as_object() else {
        return Err(ReadFault::of(ReadCause::Shape));
    };
    Ok(found)
}

/// The elements of an array.
pub fn array_of(value: &Value) -> Result<&Vec<Value>, ReadFault>
    ensures reading { MatchResult result (λ items. (path : Path)
        → array_of path (view value.now) ≡ Ok (items_view items.now.items))
        (λ fault. IsFault fault (λ path. array_of path (view value.now))) }
    ensures place { IfErr result (λ fault. fault.place ≡ []) }
{
    let Some(found) = value.as_array() else {
        return Err(ReadFault::of(ReadCause::Shape));
    };
    Ok(found)
}

/// A text.
pub fn text_of(value: &Value) -> Result<&str, ReadFault>
    ensures reading { MatchResult result (λ text. (path : Path)
        → text_of path (view value.now) ≡ Ok text.now)
        (λ fault. IsFault fault (λ path. text_of path (view value.now))) }
    ensures place { IfErr result (λ fault. fault.place ≡ []) }
{
    let Some(found) = value.as_str() else {
        return Err(ReadFault::of(ReadCause::Shape));
    };
    Ok(found)
}

fn is_between(low: i64, number: i64, high: i64) -> bool
    ensures { result ≡ (int_le low number && int_le number high) }
{
    low <= number && number <= high
}

/// Whether a value is a whole number.
#[tactic(auto, using(crate::proofs::WholeNumbers::wholes))]
fn is_whole(value: &Value) -> bool
    ensures { result ≡ is_some (option_and_then as_integer (as_number (view value.now))) }
{
    value.is_i64() || value.is_u64()
}

/// A whole number between these limits.
pub fn whole_of(value: &Value, low: i64, high: i64) -> Result<i64, ReadFault>
    ensures reading { IsReading result (λ path. whole_of path low high (view value.now)) }
    ensures place { IfErr result (λ fault. fault.place ≡ []) }
    ensures between { IfOk result (IsBetween low high) }
{
    if !value.is_number() {
        return Err(ReadFault::of(ReadCause::Shape));
    }
    if !is_whole(value) {
        return Err(ReadFault::of(ReadCause::NotWhole));
    }
    match value.as_i64() {
        Some(number) if is_between(low, number, high) => Ok(number),
        _ => Err(ReadFault::of(ReadCause::Range)),
    }
}

/// Whether an object has each of these members.
fn has_each(value: &Value, names: &[&str]) -> bool
    ensures { result ≡ list_all (λ name. is_some (get name.now (view value.now))) names.now }
{
    names.iter().all(|name| value.get(*name).is_some())
}

/// Whether this is an object that has exactly these members.
pub fn has_exactly(value: &Value, names: &[&str]) -> bool
    ensures { result ≡ has_exactly (map (λ name. name.now) names.now) (view value.now) }
{
    match value.as_object() {
        Some(members) => members.len() == names.len() && has_each(value, names),
        None => false,
    }
}

/// A member of an object. Where it isn't there, no value is of the type that its place asks for.
pub fn member<'a>(value: &'a Value, name: &str) -> Result<&'a Value, ReadFault>
    requires { length name.now < 256 }
    ensures { MatchResult result (λ found.
        view found.now ≡ member_or_null name.now (view value.now))
        (λ fault. (member_or_null name.now (view value.now) ≡ null)
        × (fault ≡ record { place = 46 ∷ name.now; cause = ReadCause.Shape })) }
{
    let Some(found) = value.get(name) else {
        return Err(ReadFault::of(ReadCause::Shape).under(name));
    };
    Ok(found)
}

/// A whole number between these limits, which is not negative.
pub fn natural_of(value: &Value, low: u32, high: u32) -> Result<u32, ReadFault>
    ensures reading { MatchResult result (λ number. (path : Path)
        → whole_of path (pos low) (pos high) (view value.now) ≡ Ok (pos number))
        (λ fault. IsFault fault (λ path. whole_of path (pos low) (pos high) (view value.now))) }
    ensures place { IfErr result (λ fault. fault.place ≡ []) }
    ensures between { IfOk result (λ number. (low ≤ number) × (number ≤ high)) }
{
    let number = whole_of(value, i64::from(low), i64::from(high))?;
    Ok(number as u32)
}

/// A whole number between these limits, which is not negative, in a member of an object.
pub fn natural_member(value: &Value, name: &str, low: u32, high: u32) -> Result<u32, ReadFault>
    requires { length name.now ≤ 32 }
    ensures reading { MatchResult result (λ number. (path : Path)
        → of_member path (view value.now) name.now
        (λ p. whole_of p (pos low) (pos high)) ≡ Ok (pos number))
        (λ fault. IsFault fault (λ path. of_member path (view value.now) name.now
        (λ p. whole_of p (pos low) (pos high)))) }
    ensures short { IfErr result (λ fault. length fault.place ≤ length name.now + 1) }
    ensures between { IfOk result (λ number. (low ≤ number) × (number ≤ high)) }
{
    match natural_of(member(value, name)?, low, high) {
        Ok(number) => Ok(number),
        Err(fault) => Err(fault.under(name)),
    }
}

/// A whole number between these limits, in a member of an object.
pub fn whole_member(value: &Value, name: &str, low: i64, high: i64) -> Result<i64, ReadFault>
    requires { length name.now ≤ 32 }
    ensures reading { IsReading result (λ path. of_member path (view value.now) name.now
        (λ p. whole_of p low high)) }
    ensures short { IfErr result (λ fault. length fault.place ≤ length name.now + 1) }
    ensures between { IfOk result (IsBetween low high) }
{
    match whole_of(member(value, name)?, low, high) {
        Ok(number) => Ok(number),
        Err(fault) => Err(fault.under(name)),
    }
}

/// A text, in a member of an object.
pub fn text_member<'a>(value: &'a Value, name: &str) -> Result<&'a str, ReadFault>
    requires { length name.now ≤ 32 }
    ensures reading { MatchResult result (λ text. (path : Path)
        → of_member path (view value.now) name.now text_of ≡ Ok text.now)
        (λ fault. IsFault fault (λ path. of_member path (view value.now) name.now text_of)) }
    ensures short { IfErr result (λ fault. length fault.place ≤ length name.now + 1) }
{
    match text_of(member(value, name)?) {
        Ok(text) => Ok(text),
        Err(fault) => Err(fault.under(name)),
    }
}

/// The elements of an array, in a member of an object.
pub fn array_member<'a>(value: &'a Value, name: &str) -> Result<&'a Vec<Value>, ReadFault>
    requires { length name.now ≤ 32 }
    ensures reading { MatchResult result (λ items. (path : Path)
        → of_member path (view value.now) name.now array_of ≡ Ok (items_view items.now.items))
        (λ fault. IsFault fault (λ path. of_member path (view value.now) name.now array_of)) }
    ensures short { IfErr result (λ fault. length fault.place ≤ length name.now + 1) }
{
    match array_of(member(value, name)?) {
        Ok(items) => Ok(items),
        Err(fault) => Err(fault.under(name)),
    }
}
