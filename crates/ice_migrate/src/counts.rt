//! How many goods and bidders records name.
ghost use Rattle.std.specs.Prelude.{◌≡◌, ◌+◌, ◌-◌, ◌<◌, ◌≤◌, ◌^◌, ◌∷◌, [], ◌++◌, List, length, IfSome};
ghost use Rattle.ice_journal.specs.Records.{Record};
ghost use Rattle.ice_journal.specs.Journal.{IsJournal};
ghost use Rattle.ice_journal.specs.Spelling.{line_of};
ghost use Rattle.ice_journal.specs.Plain.{goods_in};
ghost use Rattle.ice_migrate.specs.Reading.{bidders_in};
ghost use Rattle.ice_migrate.specs.Stopped.{AreCounted};

use crate::sort::{Sort, sort_of};
use ice_reading::Records;

/// How many goods and bidders records name.
#[derive(Clone, Copy)]
pub(crate) struct Counts {
    pub(crate) goods: u64,
    pub(crate) bidders: u64,
}

impl Counts {
    /// Those of no records.
    fn none() -> Counts
        ensures goods { result.goods ≡ 0 }
        ensures bidders { result.bidders ≡ 0 }
    {
        Counts {
            goods: 0,
            bidders: 0,
        }
    }

    /// These with one record more, of this line.
    fn with(self, line: &[u8]) -> Counts
        requires few { self.goods + self.bidders < 2 ^ 64 - 1 }
        ensures goods { (r : Record) → line.now ≡ line_of r
            → result.goods ≡ self.goods + goods_in (r ∷ []) }
        ensures bidders { (r : Record) → line.now ≡ line_of r
            → result.bidders ≡ self.bidders + bidders_in (r ∷ []) }
        ensures more { result.goods + result.bidders ≤ self.goods + self.bidders + 1 }
    {
        match sort_of(line) {
            Sort::Good => Counts {
                goods: self.goods + 1,
                bidders: self.bidders,
            },
            Sort::Bidder => Counts {
                goods: self.goods,
                bidders: self.bidders + 1,
            },
            _ => self,
        }
    }

    /// Those of so many records, which are taken; None where there are fewer.
    pub(crate) fn of_first(records: &mut Records<'_>, lines: u64) -> Option<Counts>
        ensures counts { (before after : List Record) → IsJournal records.old (before ++ after)
            → length before ≡ lines → AreCounted before after result records.new }
        ensures shorter { IfSome result (λ _. lines + length records.new ≤ length records.old) }
    {
        let mut counts = Counts::none();
        for _ in 0..lines {
            let line = records.next_line()?;
            counts = counts.with(line);
        }
        Some(counts)
    }

    /// Those of the records of the bytes.
    pub(crate) fn of_all(bytes: &[u8]) -> Counts
        ensures { (journal : List Record) → IsJournal bytes.now journal
            → result.goods ≡ goods_in journal }
    {
        let mut records = Records::new(bytes);
        let mut counts = Counts::none();
        while let Some(line) = records.next_line() {
            counts = counts.with(line);
        }
        counts
    }
}
