//! Fields that are numbers, each with what stands at it, read into the room of the caller.
ghost use Rattle.std.specs.Prelude.{◌≤◌, ◌∷◌, [], decimal, option_map};
ghost use Rattle.ice_journal.specs.Reading.{Finds, ReadsFront};
ghost use Rattle.ice_journal.specs.Ranges.{IsToll, IsAmount, AreNumbers};
ghost use Rattle.ice_journal.specs.Listed.{least_of, most_of, IsOf};
ghost use Rattle.ice_journal.specs.Spelling.{numbered_fields, numbers_fields};
ghost use Rattle.ice_journal.specs.Lines.{numbered_of, numbers_of};

use crate::limits::{AMOUNT, TOLL};
use crate::line::{Numbered, Room};
use ice_line::{Fields, integer, natural};

/// What a list of numbers is of.
#[derive(Clone, Copy)]
pub(crate) enum Listed {
    /// Goods and derived goods, with their multipliers and tolls.
    Tolls,
    /// Nodes, with their amounts of a derived good.
    Amounts,
}

/// A good or a derived good from `least` on, and its multiplier or toll.
fn one_toll(fields: &mut Fields<'_>, least: u64) -> Option<Numbered>
    ensures { ReadsFront (option_map numbered_of result)
        (λ toll. (least ≤ toll.number) × IsToll toll) numbered_fields fields.old fields.new }
{
    let number = natural(fields.next()?, least, 2031)? as u16;
    let amount = integer(fields.next()?, -TOLL, TOLL)?;
    Some(Numbered { number, amount })
}

/// A node from `least` on, and its amount.
fn one_amount(fields: &mut Fields<'_>, least: u64) -> Option<Numbered>
    ensures { ReadsFront (option_map numbered_of result)
        (λ amount. (least ≤ amount.number) × IsAmount amount) numbered_fields fields.old fields.new }
{
    let number = natural(fields.next()?, least, 199)? as u16;
    let amount = integer(fields.next()?, -AMOUNT, AMOUNT)?;
    if amount == 0 {
        return None;
    }
    Some(Numbered { number, amount })
}

/// A number from `least` on, and what stands at it.
fn one_number(fields: &mut Fields<'_>, listed: Listed, least: u64) -> Option<Numbered>
    ensures { ReadsFront (option_map numbered_of result)
        (λ number. (least ≤ number.number) × IsOf listed number) numbered_fields fields.old fields.new }
{
    match listed {
        Listed::Tolls => one_toll(fields, least),
        Listed::Amounts => one_amount(fields, least),
    }
}

/// How many numbers follow.
fn count(fields: &mut Fields<'_>, listed: Listed) -> Option<u64>
    ensures { ReadsFront result (λ n. (least_of listed ≤ n) × (n ≤ most_of listed))
        (λ n. decimal n ∷ []) fields.old fields.new }
{
    match listed {
        Listed::Tolls => natural(fields.next()?, 0, 300),
        Listed::Amounts => natural(fields.next()?, 1, 200),
    }
}

/// A count, and so many numbers, strictly ascending, which are all the fields that are left.
pub(crate) fn numbers<'room>(
    mut fields: Fields<'_>,
    listed: Listed,
    room: &'room mut Room,
) -> Option<&'room [Numbered]>
    ensures { Finds (option_map (λ found. numbers_of found.now) result)
        (AreNumbers (least_of listed) (most_of listed) (IsOf listed)) numbers_fields fields.entry }
{
    let count = count(&mut fields, listed)?;
    let read = &mut room.numbers;
    read.clear();
    let mut least = 0;
    while (read.len() as u64) < count {
        let number = one_number(&mut fields, listed, least)?;
        least = u64::from(number.number) + 1;
        read.push(number);
    }
    if fields.is_end() {
        Some(read.as_slice())
    } else {
        None
    }
}
