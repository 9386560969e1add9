//! Fields that records have in common, written into a line.
ghost use Rattle.std.specs.Prelude.{◌≡◌, ◌+◌, ◌≤◌, [], length, map, decimal};
ghost use Rattle.std.specs.Fmt.{signed_decimal};
ghost use Rattle.ice_line.specs.Writing.{with_field, with_fields};
ghost use Rattle.ice_journal.specs.Spelling.{bits, fraction_text};
ghost use Rattle.ice_journal.specs.Lines.{fraction_of};

use crate::line::LowestFraction;
use arrayvec::ArrayVec;
use ice_line::LineWriter;
use ice_set::NodeSet;
use ice_terms::Name;

/// A word and a name, as the whole line.
pub(crate) fn put_name(word: &[u8], name: &Name, to: &mut LineWriter)
    requires empty { to.old ≡ [] }
    requires short { length word.now ≤ 20 }
    ensures text { to.new ≡ with_field word.now name.now }
    ensures short { length to.new ≤ 8192 }
{
    to.word(word);
    to.word(name.bytes());
}

/// A word and a number that isn't negative, as the whole line.
pub(crate) fn put_natural(word: &[u8], number: u64, to: &mut LineWriter)
    requires empty { to.old ≡ [] }
    requires short { length word.now ≤ 20 }
    ensures text { to.new ≡ with_field word.now (decimal number) }
    ensures short { length to.new ≤ 8192 }
{
    to.word(word);
    to.natural(number);
}

/// A word and a whole number, as the whole line.
pub(crate) fn put_integer(word: &[u8], number: i64, to: &mut LineWriter)
    requires empty { to.old ≡ [] }
    requires short { length word.now ≤ 20 }
    ensures text { to.new ≡ with_field word.now (signed_decimal number) }
    ensures short { length to.new ≤ 8192 }
{
    to.word(word);
    to.integer(number);
}

/// One character per node.
fn bits_text(set: &NodeSet) -> ArrayVec<u8, 200>
    ensures text { result.items ≡ bits set.now }
    ensures short { length result.items ≤ 200 }
{
    let mut text = ArrayVec::new();
    for node in 0..set.len() {
        text.push(if set.has(node) { b'1' } else { b'0' });
    }
    text
}

/// A set of nodes, one character per node.
pub(crate) fn put_set(set: &NodeSet, to: &mut LineWriter)
    requires { length to.old ≤ 1000 }
    ensures text { to.new ≡ with_field to.old (bits set.now) }
    ensures short { length to.new ≤ length to.old + 201 }
{
    to.word(&bits_text(set));
}

/// Whole numbers, each a field.
pub(crate) fn put_integers(numbers: &[i64], to: &mut LineWriter)
    requires room { length to.old ≤ 1000 }
    requires count { length numbers.now ≤ 32 }
    ensures text { to.new ≡ with_fields to.old (map signed_decimal numbers.now) }
    ensures short { length to.new ≤ 2312 }
{
    for number in numbers {
        to.integer(*number);
    }
}

/// A fraction in lowest terms.
pub(crate) fn put_fraction(fraction: &LowestFraction, to: &mut LineWriter)
    requires { length to.old ≤ 1000 }
    ensures field { to.new ≡ with_field to.old (fraction_text (fraction_of fraction.now)) }
    ensures len { length to.new ≤ length to.old + 82 }
{
    to.fraction(i128::from(fraction.num), i128::from(fraction.den));
}
