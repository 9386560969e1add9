//! Names of goods and bidders.
ghost use Rattle.std.specs.Prelude.{◌≡◌, ℕ};
ghost use Rattle.std.specs.List.{list_all};
ghost use Rattle.ice_defs.specs.Name.{is_name_byte};
ghost use Rattle.ice_terms.specs.Terms.{IsName};
ghost use Rattle.ice_terms.specs.Made.{IsMade};

use arrayvec::ArrayVec;
use std::marker::Model;

/// A name of a good or a bidder: 1 to 32 letters, digits, `_`, `-` and dots.
#[derive(Drop, PartialEq, Eq, Hash)]
pub struct Name {
    bytes: ArrayVec<u8, 32>,
}

impl Model for Name {
    ghost use Rattle.std.specs.Prelude.{List, ℕ};
    ghost use Rattle.ice_terms.specs.Terms.{IsName};

    ghost Value = { List ℕ };

    ghost view = { λ a. a.bytes.items };

    ghost invariant = { λ a. IsName a.bytes.items };

    ghost inverse = { λ text. record { bytes = record { items = text } } };
}

/// Whether the byte may stand in a name: a letter or digit of ASCII, `_`, `-` or `.`.
fn may_stand_in_name(byte: u8) -> bool
    ensures { result ≡ is_name_byte byte }
{
    matches!(byte, b'0'..=b'9' | b'A'..=b'Z' | b'a'..=b'z' | b'_' | b'-' | b'.')
}

/// Whether each of the bytes may stand in a name: a letter or digit of ASCII, `_`, `-` or `.`.
/// There may be none of them.
pub fn all_may_stand_in_name(bytes: &[u8]) -> bool
    ensures { result ≡ list_all is_name_byte bytes.now }
{
    bytes.iter().all(|byte| may_stand_in_name(*byte))
}

impl Name {
    /// The name with this text, and None exactly where the text is no name.
    pub fn new(text: &str) -> Option<Name>
        ensures { IsMade result IsName text.now }
    {
        Name::from_bytes(text.as_bytes())
    }

    /// The name with these bytes, and None exactly where they are no name.
    pub fn from_bytes(bytes: &[u8]) -> Option<Name>
        ensures { IsMade result IsName bytes.now }
    {
        if bytes.is_empty() || bytes.len() > 32 || !all_may_stand_in_name(bytes) {
            return None;
        }
        let mut name = ArrayVec::new();
        name.try_extend_from_slice(bytes).unwrap();
        Some(Name { bytes: name })
    }

    /// The bytes of the name.
    pub fn bytes(&self) -> &[u8]
        ensures bytes { result.now ≡ self.now }
        ensures name { IsName self.now }
    {
        self.bytes.as_slice()
    }

    /// The name as text.
    pub fn text(&self) -> &str
        ensures text { result.now ≡ self.now }
        ensures name { IsName self.now }
    {
        let Ok(text) = str::from_utf8(self.bytes()) else {
            unreachable!()
        };
        text
    }

    /// The same name once more. It takes no memory.
    pub fn copy(&self) -> Name
        ensures copy { result ≡ self.now }
        ensures name { IsName self.now }
    {
        let mut bytes = ArrayVec::new();
        bytes.try_extend_from_slice(self.bytes.as_slice()).unwrap();
        Name { bytes }
    }
}
