//! The line that has begun.
ghost use Rattle.std.specs.Prelude.{◌≡◌, ◌++◌, ◌↔◌, ℕ, List, [], IsTrue, IfSome, option_map};
ghost use Rattle.ice_line.specs.Reading.{Reads};
ghost use Rattle.ice_journal.specs.Lines.{record_of};
ghost use Rattle.ice_journal.specs.Ranges.{IsRecord};
ghost use Rattle.ice_journal.specs.Spelling.{text_of};
ghost use Rattle.ice_check.specs.Standing.{IsTextOf};

use arrayvec::ArrayVec;
use ice_journal::{Line, Room, read_record};

/// What is kept of the text of a line whose newline has not come: the whole text, as long as a
/// record may have it.
#[derive(Drop)]
pub(crate) struct Begun {
    text: ArrayVec<u8, 8192>,
    is_long: bool,
}

impl Begun {
    /// No byte of a line.
    pub(crate) fn new() -> Begun
        ensures { IsTextOf result [] }
    {
        Begun {
            text: ArrayVec::new(),
            is_long: false,
        }
    }

    /// Whether no byte of the line has come.
    pub(crate) fn is_empty(&self) -> bool
        ensures of { (text : List ℕ) → IsTextOf self.now text → IsTrue result ↔ (text ≡ []) }
        ensures empty { IsTrue result → IsTextOf self.now [] }
    {
        !self.is_long && self.text.is_empty()
    }

    /// Appends bytes of the line. It takes no memory.
    pub(crate) fn push(&mut self, more: &[u8])
        ensures { (text : List ℕ) → IsTextOf self.old text → IsTextOf self.new (text ++ more.now) }
    {
        match self.text.try_extend_from_slice(more) {
            Ok(()) => {}
            Err(_full) => self.is_long = true,
        }
    }

    /// The record of the line, if it is the text of one.
    fn record<'room>(&self, room: &'room mut Room) -> Option<Line<'room>>
        ensures read { (text : List ℕ) → IsTextOf self.now text
            → Reads (option_map record_of result) IsRecord text_of text }
        ensures lawful { IfSome result (λ line. IsRecord (record_of line)) }
    {
        if self.is_long {
            None
        } else {
            read_record(self.text.as_slice(), room)
        }
    }

    /// The record of the line, where some of its bytes have come and these are its last ones.
    fn end_kept<'room>(&mut self, last: &[u8], room: &'room mut Room) -> Option<Line<'room>>
        ensures read { (text : List ℕ) → IsTextOf self.old text
            → Reads (option_map record_of result) IsRecord text_of (text ++ last.now) }
        ensures lawful { IfSome result (λ line. IsRecord (record_of line)) }
        ensures empty { IsTextOf self.new [] }
    {
        self.push(last);
        let record = self.record(room);
        self.text.clear();
        self.is_long = false;
        record
    }

    /// The record of the line, if it is the text of one, where these are its last bytes. The next
    /// line has not begun. It takes no memory.
    pub(crate) fn end<'room>(&mut self, last: &[u8], room: &'room mut Room) -> Option<Line<'room>>
        ensures read { (text : List ℕ) → IsTextOf self.old text
            → Reads (option_map record_of result) IsRecord text_of (text ++ last.now) }
        ensures lawful { IfSome result (λ line. IsRecord (record_of line)) }
        ensures empty { IsTextOf self.new [] }
    {
        if self.is_empty() {
            read_record(last, room)
        } else {
            self.end_kept(last, room)
        }
    }
}
