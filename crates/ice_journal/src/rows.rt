//! The fields behind the first word of a record, by their form.
ghost use Rattle.std.specs.Prelude.{◌≡◌, ◌-◌, ◌≤◌, ◌^◌, ◌∷◌, [], length, map, decimal, pos, neg_ℤ, IsTrue, ◌↔◌, option_map};
ghost use Rattle.std.specs.Fmt.{signed_decimal};
ghost use Rattle.std.specs.List.{AllByRecursion};
ghost use Rattle.ice_defs.specs.Exchange.{IsBetween, AreSettings};
ghost use Rattle.ice_journal.specs.Reading.{Finds};
ghost use Rattle.ice_journal.specs.Ranges.{IsName, IsPlace, IsBits, IsAmount, AreNumbers, IsTotal, IsFromTo, IsDen, IsViolationField, IsFractionField, IsValue, HasLength, IsHead, IsBidderNumber, IsNodeNumber, IsLeafRecord, IsStageRecord, ArePricesRecord, IsVerdictRecord};
ghost use Rattle.ice_journal.specs.Spelling.{bits, fraction_text, version_word, kind_word, end_word, stage_word, limit_word, derived_fields, settings_fields, numbers_fields, verdict_fields};
ghost use Rattle.ice_journal.specs.Lines.{version_of, kind_of, end_of, head_of, bidder_of, amounts_of, threshold_of, payment_of, limit_row_of, refused_of};

use crate::fractions::lowest_fraction;
use crate::items::{
    bound_number, file_place, journal_kind, last_word, limit_kind, node_bits, pricing_stage,
    version, violation_number,
};
use crate::limits::{DENOMINATOR, TOTAL};
use crate::line::{EndWord, Kind, LowestFraction, Numbered, Room, Version};
use crate::lists::{amounts, integers};
use crate::numbered::{Listed, numbers};
use arrayvec::ArrayVec;
use ice_defs::{GREATEST_VALUE, LimitKind, PricingStage, Verdict};
use ice_line::{Fields, integer, natural};
use ice_set::NodeSet;
use ice_terms::{Name, Prices, Settings};

/// One number from `least` to `most`.
pub fn one_natural(mut fields: Fields<'_>, least: u64, most: u64) -> Option<u64>
    ensures { Finds result (λ n. (least ≤ n) × (n ≤ most)) (λ n. decimal n ∷ []) fields.entry }
{
    let number = natural(fields.next()?, least, most)?;
    if fields.is_end() { Some(number) } else { None }
}

/// One number from `least` to `most` that may be negative.
pub fn one_integer(mut fields: Fields<'_>, least: i64, most: i64) -> Option<i64>
    ensures { Finds result (IsBetween least most) (λ n. signed_decimal n ∷ []) fields.entry }
{
    let number = integer(fields.next()?, least, most)?;
    if fields.is_end() { Some(number) } else { None }
}

/// No field.
pub fn none_left(fields: Fields<'_>) -> Option<()>
    ensures { Finds result (λ _. Unit {0}) (λ _. []) fields.entry }
{
    if fields.is_end() { Some(()) } else { None }
}

fn may_be(version: Version, kind: Kind) -> bool
    ensures { IsTrue result ↔ IsHead (version_of version) (kind_of kind) }
{
    match version {
        Version::One => true,
        Version::Two => match kind {
            Kind::Regret | Kind::Session => true,
            Kind::Assign | Kind::Exchange | Kind::Prices => false,
        },
    }
}

/// A version and a kind.
pub fn head(mut fields: Fields<'_>) -> Option<(Version, Kind)>
    ensures { Finds (option_map head_of result) (λ head. IsHead head.0 head.1) (λ head. version_word head.0 ∷ kind_word head.1 ∷ []) fields.entry }
{
    let version = version(fields.next()?)?;
    let kind = journal_kind(fields.next()?)?;
    if fields.is_end() && may_be(version, kind) {
        Some((version, kind))
    } else {
        None
    }
}

/// How many derived goods there may be, by the fields that are left: 0 where none is.
fn derived(mut fields: Fields<'_>) -> Option<u16>
    ensures { Finds result (λ n. n ≤ 2000) derived_fields fields.entry }
{
    let Some(field) = fields.next() else {
        return Some(0);
    };
    let derived = natural(field, 1, 2000)? as u16;
    if fields.is_end() { Some(derived) } else { None }
}

/// The settings.
pub fn settings(mut fields: Fields<'_>) -> Option<Settings>
    ensures { Finds result AreSettings settings_fields fields.entry }
{
    let weight = natural(fields.next()?, 0, 100)? as u8;
    let close_regret = integer(fields.next()?, 0, 1_000_000_000_000)?;
    let cap = integer(fields.next()?, 1, 1_000_000_000)?;
    let improve = integer(fields.next()?, 0, 1_000_000_000)?;
    let rounds = natural(fields.next()?, 0, 20)? as u8;
    let branches = natural(fields.next()?, 0, 50_000)? as u32;
    let derived = derived(fields)?;
    Some(Settings {
        weight,
        close_regret,
        cap,
        improve,
        rounds,
        branches,
        derived,
    })
}

/// A bidder, and its nodes with their amounts.
pub fn bidder_amounts<'room>(
    mut fields: Fields<'_>,
    room: &'room mut Room,
) -> Option<(u8, &'room [Numbered])>
    ensures { Finds (option_map amounts_of result)
        (λ found. IsBidderNumber found.0 × AreNumbers 1 200 IsAmount found.1) (λ found. decimal found.0 ∷ numbers_fields found.1) fields.entry }
{
    let bidder = natural(fields.next()?, 0, 39)? as u8;
    let amounts = numbers(fields, Listed::Amounts, room)?;
    Some((bidder, amounts))
}

/// A name alone.
pub fn one_name(mut fields: Fields<'_>) -> Option<Name>
    ensures { Finds result IsName (λ name. name ∷ []) fields.entry }
{
    let name = Name::from_bytes(fields.next()?)?;
    if fields.is_end() { Some(name) } else { None }
}

/// A name and owned amounts.
pub fn bidder(mut fields: Fields<'_>) -> Option<(Name, ArrayVec<u32, 32>)>
    ensures { Finds (option_map bidder_of result) (λ bidder. IsName bidder.0 × HasLength 1 32 bidder.1 × AllByRecursion (λ amount. amount ≤ 1000000) bidder.1) (λ bidder. bidder.0 ∷ map decimal bidder.1) fields.entry }
{
    let name = Name::from_bytes(fields.next()?)?;
    let own = amounts(fields)?;
    Some((name, own))
}

/// Least, most and number of children, and two values.
pub fn choose(mut fields: Fields<'_>) -> Option<(u16, u16, u16, i64, i64)>
    ensures { Finds result (λ node. (node.0 ≤ 199) × (node.1 ≤ 199) × (node.2 ≤ 199) × IsValue node.3 × IsValue node.4) (λ node. decimal node.0 ∷ decimal node.1 ∷ decimal node.2 ∷ signed_decimal node.3 ∷ signed_decimal node.4 ∷ []) fields.entry }
{
    let least = natural(fields.next()?, 0, 199)? as u16;
    let most = natural(fields.next()?, 0, 199)? as u16;
    let children = natural(fields.next()?, 0, 199)? as u16;
    let lo = integer(fields.next()?, -GREATEST_VALUE, GREATEST_VALUE)?;
    let hi = integer(fields.next()?, -GREATEST_VALUE, GREATEST_VALUE)?;
    if !fields.is_end() {
        return None;
    }
    Some((least, most, children, lo, hi))
}

/// Good, units, and two values.
pub fn leaf(mut fields: Fields<'_>) -> Option<(u8, u16, i64, i64)>
    ensures { Finds result (λ node. IsLeafRecord node.0 node.1 node.2 node.3) (λ node. decimal node.0 ∷ decimal node.1 ∷ signed_decimal node.2 ∷ signed_decimal node.3 ∷ []) fields.entry }
{
    let good = natural(fields.next()?, 0, 31)? as u8;
    let units = natural(fields.next()?, 1, 1000)? as u16;
    let lo = integer(fields.next()?, -GREATEST_VALUE, GREATEST_VALUE)?;
    let hi = integer(fields.next()?, -GREATEST_VALUE, GREATEST_VALUE)?;
    if !fields.is_end() {
        return None;
    }
    Some((good, units, lo, hi))
}

/// A bidder and a value.
pub fn without(mut fields: Fields<'_>) -> Option<(u8, i64)>
    ensures { Finds result (λ found. IsBidderNumber found.0 × IsTotal found.1) (λ found. decimal found.0 ∷ signed_decimal found.1 ∷ []) fields.entry }
{
    let bidder = natural(fields.next()?, 0, 39)? as u8;
    let value = integer(fields.next()?, -TOTAL, TOTAL)?;
    if !fields.is_end() {
        return None;
    }
    Some((bidder, value))
}

/// One set.
pub fn one_set(mut fields: Fields<'_>) -> Option<NodeSet>
    ensures { Finds result IsBits (λ set. bits set ∷ []) fields.entry }
{
    let set = node_bits(fields.next()?)?;
    if fields.is_end() { Some(set) } else { None }
}

/// A bidder and a node.
pub fn branch(mut fields: Fields<'_>) -> Option<(u8, u16)>
    ensures { Finds result (λ step. IsBidderNumber step.0 × IsNodeNumber step.1) (λ step. decimal step.0 ∷ decimal step.1 ∷ []) fields.entry }
{
    let bidder = natural(fields.next()?, 0, 39)? as u8;
    let node = natural(fields.next()?, 0, 199)? as u16;
    if !fields.is_end() {
        return None;
    }
    Some((bidder, node))
}

/// Denominator and numerators.
pub fn prices(mut fields: Fields<'_>) -> Option<Prices>
    ensures { Finds result ArePricesRecord (λ prices. decimal prices.den ∷ map signed_decimal prices.nums) fields.entry }
{
    let den = natural(fields.next()?, 1, DENOMINATOR)?;
    let nums = integers(fields, 0, 4_611_686_018_427_387_904)?;
    Some(Prices::from_terms(den, nums))
}

/// A violation over a denominator.
pub fn accuracy(mut fields: Fields<'_>) -> Option<(i128, u64)>
    ensures { Finds result (λ found. IsViolationField found.0 × IsDen found.1) (λ found. signed_decimal found.0 ∷ decimal found.1 ∷ []) fields.entry }
{
    let violation = violation_number(fields.next()?)?;
    let den = natural(fields.next()?, 1, DENOMINATOR)?;
    if !fields.is_end() {
        return None;
    }
    Some((violation, den))
}

/// Bidder, weight and set.
pub fn weighted_set(mut fields: Fields<'_>) -> Option<(u8, u64, NodeSet)>
    ensures { Finds result (λ row. IsBidderNumber row.0 × IsDen row.1 × IsBits row.2) (λ row. decimal row.0 ∷ decimal row.1 ∷ bits row.2 ∷ []) fields.entry }
{
    let bidder = natural(fields.next()?, 0, 39)? as u8;
    let weight = natural(fields.next()?, 1, DENOMINATOR)?;
    let set = node_bits(fields.next()?)?;
    if !fields.is_end() {
        return None;
    }
    Some((bidder, weight, set))
}

/// Bidder and set.
pub fn pool(mut fields: Fields<'_>) -> Option<(u8, NodeSet)>
    ensures { Finds result (λ row. IsBidderNumber row.0 × IsBits row.1) (λ row. decimal row.0 ∷ bits row.1 ∷ []) fields.entry }
{
    let bidder = natural(fields.next()?, 0, 39)? as u8;
    let set = node_bits(fields.next()?)?;
    if !fields.is_end() {
        return None;
    }
    Some((bidder, set))
}

/// Cut and surplus.
pub fn threshold(mut fields: Fields<'_>) -> Option<(LowestFraction, LowestFraction)>
    ensures { Finds (option_map threshold_of result) (λ found. IsFractionField found.0 × IsFractionField found.1) (λ found. fraction_text found.0 ∷ fraction_text found.1 ∷ []) fields.entry }
{
    let cut = lowest_fraction(fields.next()?)?;
    let surplus = lowest_fraction(fields.next()?)?;
    if !fields.is_end() {
        return None;
    }
    Some((cut, surplus))
}

/// Name, Vickrey discount, discount and payment.
pub fn payment(mut fields: Fields<'_>) -> Option<(Name, i64, LowestFraction, LowestFraction)>
    ensures { Finds (option_map payment_of result) (λ found. IsName found.0 × IsBetween (pos 0) (pos (10 ^ 15)) found.1 × IsFractionField found.2 × IsFractionField found.3) (λ found. found.0 ∷ signed_decimal found.1 ∷ fraction_text found.2 ∷ fraction_text found.3 ∷ []) fields.entry }
{
    let name = Name::from_bytes(fields.next()?)?;
    let vickrey = integer(fields.next()?, 0, 1_000_000_000_000_000)?;
    let discount = lowest_fraction(fields.next()?)?;
    let payment = lowest_fraction(fields.next()?)?;
    if !fields.is_end() {
        return None;
    }
    Some((name, vickrey, discount, payment))
}

/// A value and a bound.
pub fn spent(mut fields: Fields<'_>) -> Option<(i64, i128)>
    ensures { Finds result (λ found. IsTotal found.0 × IsBetween (neg_ℤ (pos (2 ^ 127))) (pos (2 ^ 127 - 1)) found.1) (λ found. signed_decimal found.0 ∷ signed_decimal found.1 ∷ []) fields.entry }
{
    let value = integer(fields.next()?, -TOTAL, TOTAL)?;
    let bound = bound_number(fields.next()?)?;
    if !fields.is_end() {
        return None;
    }
    Some((value, bound))
}

/// Stage, kind, violation and denominator.
pub fn limit(mut fields: Fields<'_>) -> Option<(PricingStage, LimitKind, i128, u64)>
    ensures { Finds (option_map limit_row_of result) (λ found. IsStageRecord found.0 × IsViolationField found.2 × IsDen found.3) (λ found. stage_word found.0 ∷ limit_word found.1 ∷ signed_decimal found.2 ∷ decimal found.3 ∷ []) fields.entry }
{
    let stage = pricing_stage(fields.next()?)?;
    let kind = limit_kind(fields.next()?)?;
    let violation = violation_number(fields.next()?)?;
    let den = natural(fields.next()?, 1, DENOMINATOR)?;
    if !fields.is_end() {
        return None;
    }
    Some((stage, kind, violation, den))
}

/// The last word.
pub fn ended(mut fields: Fields<'_>) -> Option<EndWord>
    ensures { Finds (option_map end_of result) (λ _. Unit {0}) (λ word. end_word word ∷ []) fields.entry }
{
    let word = last_word(fields.next()?)?;
    if fields.is_end() { Some(word) } else { None }
}

/// File, number and place.
pub fn refused(mut fields: Fields<'_>) -> Option<(u8, u8, ArrayVec<u8, 256>)>
    ensures { Finds (option_map refused_of result) (λ found. IsFromTo 1 21 found.0 × IsFromTo 1 99 found.1 × IsPlace found.2) (λ found. decimal found.0 ∷ decimal found.1 ∷ found.2 ∷ []) fields.entry }
{
    let file = natural(fields.next()?, 1, 21)? as u8;
    let number = natural(fields.next()?, 1, 99)? as u8;
    let place = file_place(fields.next()?)?;
    if !fields.is_end() {
        return None;
    }
    Some((file, number, place))
}

/// The verdicts of one word.
fn bare_verdict(word: &[u8]) -> Option<Verdict>
    ensures { Finds result (λ verdict. IsVerdictRecord verdict × (length (verdict_fields verdict) ≡ 1)) verdict_fields (word.now ∷ []) }
{
    if word == b"accepted".as_slice() {
        Some(Verdict::Accepted)
    } else if word == b"42".as_slice() {
        Some(Verdict::Mrpar)
    } else if word == b"43".as_slice() {
        Some(Verdict::Improve)
    } else if word == b"44".as_slice() {
        Some(Verdict::Repeated)
    } else if word == b"45".as_slice() {
        Some(Verdict::UnknownBidder)
    } else if word == b"46".as_slice() {
        Some(Verdict::WrongCount)
    } else {
        None
    }
}

/// A verdict, and its node where it has one.
pub fn verdict(mut fields: Fields<'_>) -> Option<Verdict>
    ensures { Finds result IsVerdictRecord verdict_fields fields.entry }
{
    let word = fields.next()?;
    if word == b"40".as_slice() {
        let node = one_natural(fields, 0, 199)? as u16;
        return Some(Verdict::Loosened { node });
    }
    if word == b"41".as_slice() {
        let node = one_natural(fields, 0, 199)? as u16;
        return Some(Verdict::Crossed { node });
    }
    let verdict = bare_verdict(word)?;
    if fields.is_end() { Some(verdict) } else { None }
}
