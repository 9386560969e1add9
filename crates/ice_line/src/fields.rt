//! The fields of a line.
ghost use Rattle.std.specs.Prelude.{◌≡◌, ◌∷◌, [], ◌↔◌, IsTrue, MatchOption};
ghost use Rattle.ice_line.specs.Fields as cut;

use std::marker::Model;

/// The part of a text before its first space, and what comes after that space.
fn split_field(text: &[u8]) -> (&[u8], Option<&[u8]>)
    ensures { cut.fields text.now ≡ result.0.now ∷ cut.fields_left result.1 }
{
    for (i, byte) in text.iter().enumerate() {
        if *byte == b' ' {
            return (&text[..i], Some(&text[i + 1..]));
        }
    }
    (text, None)
}

/// The fields of a line, which stand between its spaces. A contract sees those that are not yet
/// taken.
#[derive(Drop)]
pub struct Fields<'a> {
    rest: Option<&'a [u8]>,
}

impl<'a> Model for Fields<'a> {
    ghost use Rattle.std.specs.Prelude.{List, ℕ};
    ghost use Rattle.ice_line.specs.Fields.{fields_left};

    ghost Value = { List (List ℕ) };

    ghost view = { λ a. fields_left a.rest };
}

impl<'a> Fields<'a> {
    /// The fields of a line: one more than it has spaces.
    pub fn new(line: &'a [u8]) -> Self
        ensures { result ≡ cut.fields line.now }
    {
        Fields { rest: Some(line) }
    }

    /// Takes the next field.
    pub fn next(&mut self) -> Option<&'a [u8]>
        ensures { MatchOption result ((self.old ≡ []) × (self.new ≡ []))
            (λ field. self.old ≡ field.now ∷ self.new) }
    {
        let (field, rest) = split_field(self.rest?);
        self.rest = rest;
        Some(field)
    }

    /// All fields are taken.
    pub fn is_end(&self) -> bool
        ensures { IsTrue result ↔ (self.now ≡ []) }
    {
        match self.rest {
            None => true,
            Some(_) => false,
        }
    }
}
