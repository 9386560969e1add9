//! A line, written field by field.
ghost use Rattle.std.specs.Prelude.{◌≡◌, ℕ, ◌+◌, ◌<◌, ◌≤◌, [], ◌++◌, ◌∷◌, length, decimal, map};
ghost use Rattle.std.specs.Fmt.{signed_decimal};
ghost use Rattle.ice_line.specs.Writing.{with_field, bit_byte, fraction_text};

use arrayvec::ArrayVec;
use itoa::Buffer;
use std::marker::Model;

/// Writes one line of at most 8,192 bytes, field by field, into a buffer of its own.
/// A contract sees the bytes so far.
#[derive(Drop)]
pub struct LineWriter {
    bytes: ArrayVec<u8, 8193>,
}

impl Model for LineWriter {
    ghost use Rattle.std.specs.Prelude.{List, ℕ};

    ghost Value = { List ℕ };

    ghost view = { λ a. a.bytes.items };
}

impl LineWriter {
    /// An empty line.
    pub fn new() -> Self
        ensures { result ≡ [] }
    {
        LineWriter {
            bytes: ArrayVec::new(),
        }
    }

    /// Appends a field, after a space where bytes stand before it. The line then has at most 8,192
    /// bytes. Behind an empty field the caller appends the bytes itself.
    pub fn word(&mut self, text: &[u8])
        requires { length self.old + length text.now < 8192 }
        ensures field { self.new ≡ with_field self.old text.now }
        ensures len { length self.new ≤ length self.old + length text.now + 1 }
    {
        if !self.bytes.is_empty() {
            self.bytes.push(b' ');
        }
        self.bytes.try_extend_from_slice(text).unwrap();
    }

    /// Appends a whole number.
    pub fn number(&mut self, value: i128)
        requires { length self.old + 40 < 8192 }
        ensures field { self.new ≡ with_field self.old (signed_decimal value) }
        ensures len { length self.new ≤ length self.old + 41 }
    {
        self.word(Buffer::new().format(value).as_bytes());
    }

    /// Appends a whole number of 64 bits.
    pub fn integer(&mut self, value: i64)
        requires { length self.old + 40 < 8192 }
        ensures field { self.new ≡ with_field self.old (signed_decimal value) }
        ensures len { length self.new ≤ length self.old + 41 }
    {
        self.word(Buffer::new().format(value).as_bytes());
    }

    /// Appends a number that is not negative.
    pub fn natural(&mut self, value: u64)
        requires { length self.old + 40 < 8192 }
        ensures field { self.new ≡ with_field self.old (decimal value) }
        ensures len { length self.new ≤ length self.old + 41 }
    {
        self.word(Buffer::new().format(value).as_bytes());
    }

    /// Appends a fraction: numerator, slash, denominator.
    pub fn fraction(&mut self, num: i128, den: i128)
        requires { length self.old + 81 < 8192 }
        ensures field { self.new ≡ with_field self.old (fraction_text num den) }
        ensures len { length self.new ≤ length self.old + 82 }
    {
        self.number(num);
        self.bytes.push(b'/');
        self.bytes
            .try_extend_from_slice(Buffer::new().format(den).as_bytes())
            .unwrap();
    }

    /// Appends one character per bit, `1` where it is set and `0` elsewhere.
    pub fn bits(&mut self, bits: &[bool])
        requires { length self.old + length bits.now < 8192 }
        ensures field { self.new ≡ with_field self.old (map bit_byte bits.now) }
        ensures len { length self.new ≤ length self.old + length bits.now + 1 }
    {
        self.word(&[]);
        push_bits(&mut self.bytes, bits);
    }

    /// The bytes so far.
    pub fn text(&self) -> &[u8]
        ensures { result.now ≡ self.now }
    {
        self.bytes.as_slice()
    }

    /// Appends the newline, and gives the line with it.
    pub fn end(&mut self) -> &[u8]
        requires { length self.old ≤ 8192 }
        ensures { result.now ≡ self.old ++ 10 ∷ [] }
    {
        self.bytes.push(b'\n');
        self.bytes.as_slice()
    }

    /// Empties the line.
    pub fn clear(&mut self)
        ensures { self.new ≡ [] }
    {
        self.bytes.clear();
    }
}

fn push_bits(bytes: &mut ArrayVec<u8, 8193>, bits: &[bool])
    requires { length bytes.old.items + length bits.now ≤ 8193 }
    ensures { bytes.new.items ≡ bytes.old.items ++ map bit_byte bits.now }
{
    for bit in bits {
        bytes.push(if *bit { b'1' } else { b'0' });
    }
}
