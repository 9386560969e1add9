//! The words and numbers of single fields, read.
ghost use Rattle.std.specs.Prelude.{◌-◌, ◌^◌, pos, neg_ℤ, option_map};
ghost use Rattle.std.specs.Fmt.{signed_decimal};
ghost use Rattle.ice_defs.specs.Exchange.{IsBetween};
ghost use Rattle.ice_journal.specs.Reading.{Finds};
ghost use Rattle.ice_journal.specs.Ranges.{IsPlace, IsBits, IsViolationField, IsStageRecord};
ghost use Rattle.ice_journal.specs.Spelling.{bits, bit_byte, version_word, kind_word, end_word, stage_word, limit_word};
ghost use Rattle.ice_journal.specs.Lines.{version_of, kind_of, end_of};
ghost use Rattle.ice_defs.specs.PricingLimit.{stage_of, limit_of};

use crate::line::{EndWord, Kind, Version};
use arrayvec::ArrayVec;
use ice_defs::{LimitKind, PricingStage};
use ice_line::number;
use ice_set::NodeSet;
use ice_terms::all_may_stand_in_name;

/// A version.
pub fn version(field: &[u8]) -> Option<Version>
    ensures { Finds (option_map version_of result) (λ _. Unit {0}) version_word field.now }
{
    if field == b"1".as_slice() {
        Some(Version::One)
    } else if field == b"2".as_slice() {
        Some(Version::Two)
    } else {
        None
    }
}

/// The kind of a journal or a file.
pub fn journal_kind(field: &[u8]) -> Option<Kind>
    ensures { Finds (option_map kind_of result) (λ _. Unit {0}) kind_word field.now }
{
    if field == b"assign".as_slice() {
        Some(Kind::Assign)
    } else if field == b"regret".as_slice() {
        Some(Kind::Regret)
    } else if field == b"session".as_slice() {
        Some(Kind::Session)
    } else if field == b"exchange".as_slice() {
        Some(Kind::Exchange)
    } else if field == b"prices".as_slice() {
        Some(Kind::Prices)
    } else {
        None
    }
}

/// The last word of a journal or a file.
pub fn last_word(field: &[u8]) -> Option<EndWord>
    ensures { Finds (option_map end_of result) (λ _. Unit {0}) end_word field.now }
{
    if field == b"assign".as_slice() {
        Some(EndWord::Assign)
    } else if field == b"exchange".as_slice() {
        Some(EndWord::Exchange)
    } else if field == b"prices".as_slice() {
        Some(EndWord::Prices)
    } else if field == b"regret".as_slice() {
        Some(EndWord::Regret)
    } else if field == b"closed".as_slice() {
        Some(EndWord::Closed)
    } else if field == b"open".as_slice() {
        Some(EndWord::Open)
    } else if field == b"spent".as_slice() {
        Some(EndWord::Spent)
    } else if field == b"limit".as_slice() {
        Some(EndWord::Limit)
    } else {
        None
    }
}

/// The stage of a pricing run.
pub fn pricing_stage(field: &[u8]) -> Option<PricingStage>
    ensures { Finds (option_map stage_of result) IsStageRecord stage_word field.now }
{
    if field == b"accuracy".as_slice() {
        Some(PricingStage::Accuracy)
    } else if field == b"balance".as_slice() {
        Some(PricingStage::Balance)
    } else {
        None
    }
}

/// The limit of a pricing run.
pub fn limit_kind(field: &[u8]) -> Option<LimitKind>
    ensures { Finds (option_map limit_of result) (λ _. Unit {0}) limit_word field.now }
{
    if field == b"wide".as_slice() {
        Some(LimitKind::Wide)
    } else if field == b"pivots".as_slice() {
        Some(LimitKind::Pivots)
    } else if field == b"rows".as_slice() {
        Some(LimitKind::Rows)
    } else if field == b"den".as_slice() {
        Some(LimitKind::Den)
    } else {
        None
    }
}

/// A place in a file: 1 to 256 bytes, each of which may stand in a name.
pub fn file_place(field: &[u8]) -> Option<ArrayVec<u8, 256>>
    ensures { Finds (option_map (λ place. place.items) result) IsPlace (λ place. place) field.now }
{
    if field.is_empty() || field.len() > 256 || !all_may_stand_in_name(field) {
        return None;
    }
    let mut place = ArrayVec::new();
    place.try_extend_from_slice(field).unwrap();
    Some(place)
}

/// The bit of a character.
fn bit(byte: u8) -> Option<bool>
    ensures { Finds result (λ _. Unit {0}) bit_byte byte }
{
    match byte {
        b'0' => Some(false),
        b'1' => Some(true),
        _ => None,
    }
}

/// A set, one character per node.
pub fn node_bits(field: &[u8]) -> Option<NodeSet>
    ensures { Finds result IsBits bits field.now }
{
    if field.is_empty() || field.len() > 200 {
        return None;
    }
    let mut set = NodeSet::empty(field.len() as u16);
    for (node, byte) in field.iter().enumerate() {
        set.put(node as u16, bit(*byte)?);
    }
    Some(set)
}

/// A violation: from 0 to 2^100.
pub fn violation_number(field: &[u8]) -> Option<i128>
    ensures { Finds result IsViolationField signed_decimal field.now }
{
    let violation = number(field)?;
    if violation >= 0 && violation <= 1 << 100 {
        Some(violation)
    } else {
        None
    }
}

/// A number of 128 bits with a sign.
pub fn bound_number(field: &[u8]) -> Option<i128>
    ensures { Finds result (IsBetween (neg_ℤ (pos (2 ^ 127))) (pos (2 ^ 127 - 1))) signed_decimal field.now }
{
    number(field)
}
