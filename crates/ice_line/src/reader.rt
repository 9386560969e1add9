//! The lines of bytes.
ghost use Rattle.std.specs.Prelude.{◌≡◌, ℕ, Contains, MatchOption};
ghost use Rattle.std.specs.List.{list_all};
ghost use Rattle.ice_line.specs.Lines.{is_line_byte, BeginsWithLine, NextLine};

use std::marker::Model;

/// The greatest number of bytes of a line, without its newline.
const MOST_BYTES: usize = 8192;

/// What is wrong with a line.
#[derive(Clone, Copy, Debug, PartialEq, Eq)]
pub enum LineFault {
    /// A byte is outside 32 to 126.
    BadByte,
    /// There are more than 8,192 bytes before the newline, all of them from 32 to 126.
    LongLine,
    /// The last line has no newline, whatever it holds.
    Unended,
}

/// The first line, without its newline, and the bytes after it. None exactly where there is no
/// newline.
pub fn split_line(bytes: &[u8]) -> Option<(&[u8], &[u8])>
    ensures { MatchOption result (¬ Contains bytes.now 10)
        (λ parts. BeginsWithLine bytes.now parts.0.now parts.1.now) }
{
    for (i, byte) in bytes.iter().enumerate() {
        if *byte == b'\n' {
            return Some((&bytes[..i], &bytes[i + 1..]));
        }
    }
    None
}

fn has_line_bytes(line: &[u8]) -> bool
    ensures { result ≡ list_all is_line_byte line.now }
{
    line.iter().all(|byte| *byte >= 32 && *byte <= 126)
}

/// Reads the lines of bytes one after another. A contract sees the bytes that are left.
#[derive(Drop)]
pub struct LineReader<'a> {
    rest: &'a [u8],
}

impl<'a> Model for LineReader<'a> {
    ghost use Rattle.std.specs.Prelude.{List, ℕ};

    ghost Value = { List ℕ };

    ghost view = { λ a. a.rest.now };
}

impl<'a> LineReader<'a> {
    /// A reader at the first line.
    pub fn new(bytes: &'a [u8]) -> Self
        ensures { result ≡ bytes.now }
    {
        LineReader { rest: bytes }
    }

    /// The next line without its newline, or what is wrong with it. None exactly at the end of the
    /// bytes. After a fault it goes on with the line after it.
    pub fn next(&mut self) -> Option<Result<&'a [u8], LineFault>>
        ensures { NextLine self.old result self.new }
    {
        if self.rest.is_empty() {
            return None;
        }
        let Some((line, after)) = split_line(self.rest) else {
            self.rest = &[];
            return Some(Err(LineFault::Unended));
        };
        self.rest = after;
        if !has_line_bytes(line) {
            Some(Err(LineFault::BadByte))
        } else if line.len() > MOST_BYTES {
            Some(Err(LineFault::LongLine))
        } else {
            Some(Ok(line))
        }
    }
}
