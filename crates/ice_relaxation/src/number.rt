//! Numbers of operations, and sets of them.
ghost use Rattle.std.specs.Prelude.{◌<◌};

/// The number of an operation. A tree has at most 200 nodes, and no more operations, so a byte
/// holds it, and a place in a table of 256 entries needs no test whether it is in range.
#[derive(Clone, Copy, Debug, PartialEq, Eq)]
pub(crate) struct Number(u8);

/// A set of operations: a bit for each, in words of 64.
#[derive(Clone, Copy)]
pub(crate) struct NumberSet {
    words: [u64; 4],
}

impl Number {
    /// The number of the first operation.
    pub(crate) const FIRST: Number = Number(0);

    /// The number behind so many others.
    pub(crate) fn new(number: u8) -> Number {
        Number(number)
    }

    /// Its place in a table.
    pub(crate) fn place(self) -> usize
        ensures { result < 256 }
    {
        usize::from(self.0)
    }
}

impl NumberSet {
    /// The set with none.
    pub(crate) const EMPTY: NumberSet = NumberSet { words: [0; 4] };

    /// Puts an operation in.
    pub(crate) fn insert(&mut self, number: Number) {
        self.words[usize::from(number.0 / 64)] |= 1 << (number.0 % 64);
    }

    /// Takes the first one of a word out. None where the word has none.
    pub(crate) fn take_first(&mut self, word: u8) -> Option<Number>
        requires { word < 4 }
    {
        let bits = self.words[usize::from(word)];
        if bits == 0 {
            return None;
        }
        self.words[usize::from(word)] = bits & bits.wrapping_sub(1);
        Some(Number(word * 64 + (bits.trailing_zeros() % 64) as u8))
    }
}
