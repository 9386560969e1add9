//! The checker, which takes the bytes of a journal piece by piece.
ghost use Rattle.std.specs.Prelude.{◌≡◌, ◌≢◌, ◌<◌, ◌+◌, ◌^◌, ◌++◌, ◌∷◌, [], ℕ, List, length, Contains, Err, IsTrue, IsOk, IsErr, IfOk, OnOk, OnErr};
ghost use Rattle.ice_journal_laws.specs.Answers.{AnswersBytes};
ghost use Rattle.ice_check.specs.Standing.{StandsFor, IsStopped, is_ready_at, IsReadiness};

use crate::begun::Begun;
use crate::lines::Lines;
use ice_check_records::Checker as RecordChecker;
use ice_journal::Room;
use ice_journal_laws::{Answer, CheckEnd};
use ice_line::split_line;
use std::alloc::{AllocError, Global};
use std::marker::Model;

/// A checker of one journal, seen as the number of its bytes, what is kept of the line that has
/// begun, and what is known of the whole lines. It takes the bytes in pieces, and keeps none but
/// those of that line.
#[derive(Drop)]
pub struct Checker {
    count: u64,
    begun: Box<Begun>,
    room: Box<Room>,
    lines: Lines,
}

impl Model for Checker {
    ghost use Rattle.std.specs.Prelude.{suc};
    ghost use Rattle.ice_check.specs.Standing.{Checking, IsWithin};

    ghost Value = { Checking };

    ghost view = { λ c. record { count = c.count; begun = c.begun.value; lines = c.lines } };

    ghost invariant = { λ c. IsWithin (suc c.count) c.lines };
}

impl Checker {
    /// A checker that has taken no byte.
    pub fn new(alloc: Global) -> Result<Checker, AllocError>
        ensures stands { IfOk result (λ c. StandsFor c []) }
        ensures count { IfOk result (λ c. c.count ≡ 0) }
    {
        let begun = Box::new(alloc, Begun::new())?;
        let room = Box::new(alloc, Room::new())?;
        let lines = Lines::Records(RecordChecker::new(alloc));
        Ok(Checker {
            count: 0,
            begun,
            room,
            lines,
        })
    }

    /// Takes the last bytes of a line, and its newline.
    fn end_line(&mut self, text: &[u8]) -> Result<(), AllocError>
        requires few { self.old.count + length text.now + 1 < 2 ^ 63 }
        requires one_line { ¬ Contains text.now 10 }
        ensures after { OnOk result ((bytes : List ℕ) → StandsFor self.old bytes
            → StandsFor self.new (bytes ++ (text.now ++ 10 ∷ []))) }
        ensures count { OnOk result (self.new.count ≡ self.old.count + length text.now + 1) }
        ensures stopped { OnErr result (IsStopped self.new) }
        ensures ready { IsTrue (is_ready_at self.old) → IsOk result }
        ensures stays { OnOk result (IsTrue (is_ready_at self.old)
            → IsTrue (is_ready_at self.new)) }
    {
        let record = self.begun.end(text, &mut self.room);
        self.count += text.len() as u64 + 1;
        self.lines.take(&record)
    }

    /// Takes bytes that end no line.
    fn go_on(&mut self, text: &[u8])
        requires few { self.old.count + length text.now < 2 ^ 63 }
        requires one_line { ¬ Contains text.now 10 }
        ensures after { (bytes : List ℕ) → StandsFor self.old bytes
            → StandsFor self.new (bytes ++ text.now) }
        ensures count { self.new.count ≡ self.old.count + length text.now }
        ensures lines { self.new.lines ≡ self.old.lines }
    {
        self.begun.push(text);
        self.count += text.len() as u64;
    }

    /// Takes the next bytes.
    ///
    /// There are fewer than 2^63 with them. After `NoMemory` it takes no more bytes, and each later
    /// call answers `NoMemory`. Where `ready` is true, no memory is wanted.
    pub fn feed(&mut self, piece: &[u8]) -> Result<(), AllocError>
        requires { self.old.count + length piece.now < 2 ^ 63 }
        ensures after { OnOk result ((bytes : List ℕ) → StandsFor self.old bytes
            → StandsFor self.new (bytes ++ piece.now)) }
        ensures count { OnOk result (self.new.count ≡ self.old.count + length piece.now) }
        ensures stopped { OnErr result (IsStopped self.new) }
        ensures ready { IsTrue (is_ready_at self.old) → IsOk result }
        ensures stays { OnOk result (IsTrue (is_ready_at self.old)
            → IsTrue (is_ready_at self.new)) }
        ensures still { IsStopped self.old → IsErr result }
    {
        if self.lines.are_stopped() {
            return Err(AllocError);
        }
        let mut rest = piece;
        while let Some((text, after)) = split_line(rest) {
            self.end_line(text)?;
            rest = after;
        }
        self.go_on(rest);
        Ok(())
    }

    /// Whether the whole lines hold the exchange and one record after it, or no record matters any
    /// more: then `feed` wants no memory.
    pub fn ready(&self) -> bool
        ensures at { result ≡ is_ready_at self.now }
        ensures of { (bytes : List ℕ) → StandsFor self.now bytes → IsReadiness bytes result }
    {
        self.lines.ready()
    }

    /// What the tests find, where the bytes taken so far are the whole journal. It wants no memory.
    pub fn finish(self) -> Result<Answer, CheckEnd>
        ensures answer { (bytes : List ℕ) → StandsFor self bytes → AnswersBytes bytes result }
        ensures memory { (bytes : List ℕ) → StandsFor self bytes → result ≢ Err CheckEnd.NoMemory }
        ensures stopped { IsStopped self → result ≡ Err CheckEnd.NoMemory }
    {
        if self.lines.are_stopped() {
            return Err(CheckEnd::NoMemory);
        }
        let Checker {
            count: _,
            begun,
            room: _,
            lines,
        } = self;
        match lines {
            Lines::Records(checker) => {
                if begun.is_empty() {
                    checker.finish()
                } else {
                    Err(CheckEnd::Unended {
                        line: checker.next_line(),
                    })
                }
            }
            Lines::Grammar { line } => Err(CheckEnd::Grammar { line }),
        }
    }
}
