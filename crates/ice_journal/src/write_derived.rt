//! The records of derived goods and of leaves with tolls, written into a line.
ghost use Rattle.std.specs.Prelude.{◌≡◌, ◌+◌, ◌≤◌, [], length};
ghost use Rattle.std.specs.List.{AllByRecursion};
ghost use Rattle.ice_line.specs.Writing.{with_fields};
ghost use Rattle.ice_journal.specs.Records as line;
ghost use Rattle.ice_journal.specs.Ranges.{IsToll};
ghost use Rattle.ice_journal.specs.Spelling.{text_of, numbered_fields, numbers_fields};
ghost use Rattle.ice_journal.specs.Lines.{numbered_of, numbers_of};

use crate::line::Numbered;
use ice_line::LineWriter;

/// A number and what stands at it: at most 26 bytes.
fn put_number(number: Numbered, to: &mut LineWriter)
    requires room { length to.old ≤ 8000 }
    requires number { IsToll (numbered_of number) }
    ensures fields { to.new ≡ with_fields to.old (numbered_fields (numbered_of number)) }
    ensures len { length to.new ≤ length to.old + 26 }
{
    to.natural(u64::from(number.number));
    to.integer(number.amount);
}

/// A count, and so many numbers.
fn put_numbers(numbers: &[Numbered], to: &mut LineWriter)
    requires room { length to.old ≤ 100 }
    requires count { length numbers.now ≤ 300 }
    requires numbers { AllByRecursion IsToll (numbers_of numbers.now) }
    ensures fields { to.new ≡ with_fields to.old (numbers_fields (numbers_of numbers.now)) }
    ensures short { length to.new ≤ 8192 }
{
    to.natural(numbers.len() as u64);
    for number in numbers {
        put_number(*number, to);
    }
}

pub(crate) fn put_tolled(tolls: &[Numbered], to: &mut LineWriter)
    requires empty { to.old ≡ [] }
    requires count { length tolls.now ≤ 300 }
    requires tolls { AllByRecursion IsToll (numbers_of tolls.now) }
    ensures text { to.new ≡ text_of (line.tolled (numbers_of tolls.now)) }
    ensures short { length to.new ≤ 8192 }
{
    to.word(b"tolled");
    put_numbers(tolls, to);
}

pub(crate) fn put_amounts_record(bidder: u8, numbers: &[Numbered], to: &mut LineWriter)
    requires empty { to.old ≡ [] }
    requires count { length numbers.now ≤ 200 }
    requires numbers { AllByRecursion IsToll (numbers_of numbers.now) }
    ensures text { to.new ≡ text_of (line.amounts bidder (numbers_of numbers.now)) }
    ensures short { length to.new ≤ 8192 }
{
    to.word(b"amounts");
    to.natural(u64::from(bidder));
    put_numbers(numbers, to);
}
