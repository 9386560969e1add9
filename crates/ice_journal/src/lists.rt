//! Fields that are lists to the end of a record, read.
ghost use Rattle.std.specs.Prelude.{◌≤◌, ◌∷◌, length, map, decimal, option_map};
ghost use Rattle.std.specs.Fmt.{signed_decimal};
ghost use Rattle.std.specs.List.{AllByRecursion, flat_map};
ghost use Rattle.ice_defs.specs.Exchange.{IsBetween};
ghost use Rattle.ice_journal.specs.Reading.{Finds, ReadsFront};
ghost use Rattle.ice_journal.specs.Ranges.{HasLength, IsValue, Ascends, IsChange, IsSubmission};
ghost use Rattle.ice_journal.specs.Spelling.{counted_list, change_fields, submission_fields};
ghost use Rattle.ice_journal.specs.Lines.{change_of, changes_of, submission_of};

use crate::limits::MULTIPLIER;
use crate::line::Change;
use arrayvec::ArrayVec;
use ice_defs::GREATEST_VALUE;
use ice_line::{Fields, integer, natural};
use ice_terms::Name;

/// The owned amounts of a bidder, which are all the fields that are left.
pub fn amounts(mut fields: Fields<'_>) -> Option<ArrayVec<u32, 32>>
    ensures { Finds (option_map (λ own. own.items) result) (λ own. HasLength 1 32 own × AllByRecursion (λ amount. amount ≤ 1000000) own) (map decimal) fields.entry }
{
    let mut own = ArrayVec::new();
    while let Some(field) = fields.next() {
        if own.is_full() {
            return None;
        }
        own.push(natural(field, 0, 1_000_000)? as u32);
    }
    if own.is_empty() { None } else { Some(own) }
}

/// The 1 to 32 numbers from `least` to `most` that are all the fields that are left.
pub fn integers(mut fields: Fields<'_>, least: i64, most: i64) -> Option<ArrayVec<i64, 32>>
    ensures { Finds (option_map (λ numbers. numbers.items) result) (λ numbers. HasLength 1 32 numbers × AllByRecursion (IsBetween least most) numbers) (map signed_decimal) fields.entry }
{
    let mut numbers = ArrayVec::new();
    while let Some(field) = fields.next() {
        if numbers.is_full() {
            return None;
        }
        numbers.push(integer(field, least, most)?);
    }
    if numbers.is_empty() {
        None
    } else {
        Some(numbers)
    }
}

/// A count of at most 200, and so many values.
fn counted_values(fields: &mut Fields<'_>) -> Option<ArrayVec<i32, 200>>
    ensures { ReadsFront (option_map (λ values. values.items) result) (λ values. (length values ≤ 200) × AllByRecursion IsValue values) counted_list fields.old fields.new }
{
    let count = natural(fields.next()?, 0, 200)?;
    let mut values = ArrayVec::new();
    while (values.len() as u64) < count {
        let value = integer(fields.next()?, -GREATEST_VALUE, GREATEST_VALUE)?;
        values.push(value as i32);
    }
    Some(values)
}

/// A name and two counted lists of values.
pub fn submission(mut fields: Fields<'_>) -> Option<(Name, ArrayVec<i32, 200>, ArrayVec<i32, 200>)>
    ensures { Finds (option_map submission_of result) IsSubmission submission_fields fields.entry }
{
    let name = Name::from_bytes(fields.next()?)?;
    let lo = counted_values(&mut fields)?;
    let hi = counted_values(&mut fields)?;
    if !fields.is_end() {
        return None;
    }
    Some((name, lo, hi))
}

/// A change of a good from `least` on.
fn one_change(fields: &mut Fields<'_>, least: u64) -> Option<Change>
    ensures { ReadsFront (option_map change_of result) (λ change. (least ≤ change.good) × IsChange change) change_fields fields.old fields.new }
{
    let good = natural(fields.next()?, least, 31)? as u8;
    let multiplier = integer(fields.next()?, -MULTIPLIER, MULTIPLIER)?;
    Some(Change { good, multiplier })
}

/// A count of at most 32, and so many changes, their goods strictly ascending.
pub fn changes(mut fields: Fields<'_>) -> Option<ArrayVec<Change, 32>>
    ensures { Finds (option_map changes_of result) (λ changes. (length changes ≤ 32) × Ascends 0 changes × AllByRecursion IsChange changes) (λ changes. decimal (length changes) ∷ flat_map change_fields changes) fields.entry }
{
    let count = natural(fields.next()?, 0, 32)?;
    let mut changed = ArrayVec::new();
    let mut least = 0;
    while (changed.len() as u64) < count {
        let change = one_change(&mut fields, least)?;
        least = u64::from(change.good) + 1;
        changed.push(change);
    }
    if fields.is_end() { Some(changed) } else { None }
}
