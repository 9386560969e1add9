//! The checker of gaps, which takes one record at a time.
ghost use Rattle.std.specs.Prelude.{◌≡◌, ◌<◌, ◌^◌, suc, OnOk};
ghost use Rattle.ice_journal.specs.Lines.{record_of};
ghost use Rattle.ice_journal.specs.Ranges.{IsRecord};
ghost use Rattle.ice_journal_laws.specs.Progress.{nothing};
ghost use Rattle.ice_gap_laws.specs.Gap.{GapProgress, checking};
ghost use Rattle.ice_gap_laws.specs.Answers.{gap_answer};
ghost use Rattle.ice_check_records.specs.GapChecking.{HasGapCome, GapComesTo};

use crate::gap::GapStage;
use crate::stage::Stage;
use ice_gap_laws::GapAnswer;
use ice_journal::Line;
use ice_journal_laws::CheckEnd;
use std::alloc::{AllocError, Global};
use std::marker::Model;
use std::mem;

/// A checker of one journal that may stop at a search that spent its branches, seen as the number
/// of the next line and what is known of how far the tests have come. It takes the records one
/// after another, and keeps neither them nor their bytes.
#[derive(Drop)]
pub struct GapChecker {
    alloc: Global,
    next_line: u64,
    stage: GapStage,
}

impl Model for GapChecker {
    ghost use Rattle.ice_check_records.specs.GapChecking.{GapChecking};
    ghost use Rattle.ice_check_records.specs.Gaps.{IsGapKept};

    ghost Value = { GapChecking };

    ghost view = { λ c. record { line = c.next_line; stage = c.stage } };

    ghost invariant = { λ c. IsGapKept c.next_line c.stage };
}

impl GapChecker {
    /// A checker that has taken no record.
    pub fn new(alloc: Global) -> GapChecker
        ensures made { HasGapCome result (checking nothing) }
        ensures first { result.line ≡ 1 }
    {
        GapChecker {
            alloc,
            next_line: 1,
            stage: GapStage::Before(Stage::Begin),
        }
    }

    /// Takes the next record.
    ///
    /// Fewer than 2^63 records came before it. After `NoMemory` it takes no more records.
    pub fn feed(&mut self, line: &Line) -> Result<(), AllocError>
        requires lawful { IsRecord (record_of line.now) }
        requires few { self.old.line < 2 ^ 63 }
        ensures after { OnOk result ((p : GapProgress) → HasGapCome self.old p
            → GapComesTo p (record_of line.now) self.new) }
        ensures line { OnOk result (self.new.line ≡ suc self.old.line) }
    {
        let stage = mem::replace(&mut self.stage, GapStage::Before(Stage::OutOfMemory));
        self.stage = stage.taken(self.alloc, self.next_line, line)?;
        self.next_line += 1;
        Ok(())
    }

    /// What the tests find, where the records taken so far are the whole journal. It wants no
    /// memory.
    pub fn answer(&self) -> Result<GapAnswer, CheckEnd>
        ensures { (p : GapProgress) → HasGapCome self.now p → gap_answer p ≡ result }
    {
        self.stage.answer(self.next_line)
    }
}
