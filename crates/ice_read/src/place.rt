//! Where in a file a fault is.
ghost use Rattle.std.specs.Prelude.{◌≡◌, ◌+◌, ◌<◌, ◌≤◌, [], ◌∷◌, ◌++◌, length, decimal};
ghost use Rattle.ice_read.specs.Places.{place_text};

use arrayvec::ArrayString;
use itoa::Buffer;
use std::marker::Model;

/// Where in a file a fault is: the members and indices that lead to the value, with dots between
/// them, and `-` for the whole file. It has at most 256 bytes. A contract sees each part after a
/// dot.
#[derive(Debug, Drop)]
pub struct Place {
    text: ArrayString<256>,
}

impl Model for Place {
    ghost use Rattle.std.specs.Prelude.{List, ℕ};

    ghost Value = { List ℕ };

    ghost use Rattle.ice_read.specs.Places.{is_dotted};
    ghost use Rattle.std.specs.Prelude.{IsTrue};

    ghost view = { λ p. p.text.bytes };

    ghost invariant = { λ p. IsTrue (is_dotted p.text.bytes) };
}

impl std::fmt::Display for Place {
    fn fmt<W: std::fmt::Write>(&self, f: &mut std::fmt::Formatter<W>) -> std::fmt::Result {
        f.write_str(self.text())
    }
}

impl Place {
    /// The value itself.
    pub fn here() -> Place
        ensures { result ≡ [] }
    {
        Place {
            text: ArrayString::new(),
        }
    }

    /// The place as text, of at most 256 bytes.
    pub fn text(&self) -> &str
        ensures text { result.now ≡ place_text self.now }
        ensures short { length result.now ≤ 256 }
    {
        match self.text.as_str().strip_prefix('.') {
            Some(text) => text,
            None => "-",
        }
    }

    /// The same place, told from an object that has it in this member.
    pub fn under(self, name: &str) -> Place
        requires { length self + length name.now < 256 }
        ensures { result ≡ (46 ∷ name.now) ++ self }
    {
        let mut text = ArrayString::new();
        text.push('.');
        text.push_str(name);
        text.push_str(self.text.as_str());
        Place { text }
    }

    /// The same place, told from an array that has it at this index.
    pub fn at(self, index: u16) -> Place
        requires { length self ≤ 250 }
        ensures place { result ≡ (46 ∷ decimal index) ++ self }
        ensures short { length result ≤ length self + 6 }
    {
        self.under(Buffer::new().format(index))
    }

    /// The same place, told from an array of any length that has it at this index.
    pub fn at_any(self, index: u64) -> Place
        requires { length self ≤ 230 }
        ensures place { result ≡ (46 ∷ decimal index) ++ self }
        ensures short { length result ≤ length self + 21 }
    {
        self.under(Buffer::new().format(index))
    }
}
