//! The checker, which takes one record at a time.
ghost use Rattle.std.specs.Prelude.{◌≡◌, ◌<◌, ◌^◌, ◌↔◌, suc, length, IsTrue, IfSome, IfOk, OnOk, OnErr, IsOk};
ghost use Rattle.ice_journal.specs.Lines.{record_of};
ghost use Rattle.ice_journal.specs.Ranges.{IsRecord};
ghost use Rattle.ice_journal_laws.specs.Progress.{Progress, nothing, out_of_memory, is_ready};
ghost use Rattle.ice_journal_laws.specs.Answers.{EndsWith};
ghost use Rattle.ice_check_records.specs.Checking.{HasCome, ComesTo, is_ready_checker};
ghost use Rattle.ice_check_records.specs.Due.{awaits_prices, TellsDue};
ghost use Rattle.ice_check_records.specs.Closed.{TellsClosed};

use crate::closed::ClosedSession;
use crate::due::DueRegret;
use crate::stage::Stage;
use ice_journal::Line;
use ice_journal_laws::{Answer, CheckEnd};
use std::alloc::{AllocError, Global};
use std::marker::Model;

/// A checker of one journal, seen as the number of the next line and what is known of how far the
/// tests have come. It takes the records one after another, and keeps neither them nor their bytes.
#[derive(Drop)]
pub struct Checker {
    alloc: Global,
    next_line: u64,
    stage: Stage,
}

impl Model for Checker {
    ghost use Rattle.ice_check_records.specs.Checking.{Checking};
    ghost use Rattle.ice_check_records.specs.Stages.{IsAtLine};

    ghost Value = { Checking };

    ghost view = { λ c. record { line = c.next_line; stage = c.stage } };

    ghost invariant = { λ c. IsAtLine c.next_line c.stage };
}

impl Checker {
    /// A checker that has taken no record.
    pub fn new(alloc: Global) -> Checker
        ensures made { HasCome result nothing }
        ensures first { result.line ≡ 1 }
    {
        Checker {
            alloc,
            next_line: 1,
            stage: Stage::Begin,
        }
    }

    /// Takes the next record.
    ///
    /// Fewer than 2^63 records came before it. After `NoMemory` it takes no more records, and each
    /// later call answers `NoMemory`. Where `ready` is true, no memory is wanted.
    pub fn feed(&mut self, line: &Line) -> Result<(), AllocError>
        requires lawful { IsRecord (record_of line.now) }
        requires few { self.old.line < 2 ^ 63 }
        // On success
        ensures after { OnOk result ((p : Progress) → HasCome self.old p
            → ComesTo p (record_of line.now) self.new) }
        ensures line { OnOk result (self.new.line ≡ suc self.old.line) }
        // Out of memory
        ensures stopped { OnErr result (HasCome self.new out_of_memory) }
        ensures still { OnErr result (self.new.line ≡ self.old.line) }
        // Where no memory is wanted
        ensures ready { (p : Progress) → HasCome self.old p → IsTrue (is_ready p) → IsOk result }
        ensures once { IsTrue (is_ready_checker self.old) → IsOk result }
        ensures stays { OnOk result (IsTrue (is_ready_checker self.old)
            → IsTrue (is_ready_checker self.new)) }
    {
        self.stage.take(self.alloc, self.next_line, line)?;
        self.next_line += 1;
        Ok(())
    }

    /// Whether the exchange and one record after it are taken, or no record matters any more: then
    /// `feed` wants no memory.
    pub fn ready(&self) -> bool
        ensures at { result ≡ is_ready_checker self.now }
        ensures progress { (p : Progress) → HasCome self.now p → result ≡ is_ready p }
    {
        !matches!(
            self.stage,
            Stage::Begin | Stage::Describing(_, _) | Stage::OutOfMemory
        )
    }

    /// Whether memory ran out at a record: then `feed` takes no more.
    pub fn is_stopped(&self) -> bool
        ensures { IsTrue result ↔ HasCome self.now out_of_memory }
    {
        matches!(self.stage, Stage::OutOfMemory)
    }

    /// The number of the next record's line.
    pub fn next_line(&self) -> u64
        ensures { result ≡ self.now.line }
    {
        self.next_line
    }

    /// The settlement whose regret the next record is to state, where it is to state one and no
    /// test has failed.
    pub fn due_regret(&self) -> Option<DueRegret<'_>>
        ensures tells { (p : Progress) → HasCome self.now p → TellsDue result p }
        ensures count { IfSome result (λ due. length due.bounds.now
            ≡ length due.exchange.now.bidders) }
    {
        self.stage.due()
    }

    /// Whether the next record is to state the prices of a settlement, or to begin a stop in their
    /// place, and no test has failed.
    pub fn awaits_prices(&self) -> bool
        ensures { (p : Progress) → HasCome self.now p → result ≡ awaits_prices p }
    {
        self.stage.awaits_prices()
    }

    /// What the tests find, where the records taken so far are the whole journal. It wants no
    /// memory.
    pub fn answer(&self) -> Result<Answer, CheckEnd>
        ensures { (p : Progress) → HasCome self.now p → EndsWith p result }
    {
        self.stage.answer(self.next_line)
    }

    /// What the tests find, as `answer`.
    pub fn finish(self) -> Result<Answer, CheckEnd>
        ensures { (p : Progress) → HasCome self p → EndsWith p result }
    {
        self.answer()
    }

    /// The session that the records taken so far are, and None exactly where they are none that has
    /// closed or a test has failed.
    pub fn into_session(self) -> Result<Option<ClosedSession>, AllocError>
        ensures { IfOk result (λ found. (p : Progress) → HasCome self p → TellsClosed found p) }
    {
        let Checker {
            alloc,
            next_line: _,
            stage,
        } = self;
        stage.into_session(alloc)
    }
}
