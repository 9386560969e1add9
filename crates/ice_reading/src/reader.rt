//! Who takes the records of a journal.
ghost use Rattle.std.specs.Prelude.{◌≡◌, ◌<◌, ◌^◌, suc, ℕ, OnOk};
ghost use Rattle.ice_journal.specs.Records.{Record};
ghost use Rattle.ice_journal.specs.Lines.{record_of};
ghost use Rattle.ice_journal.specs.Ranges.{IsRecord};

use ice_journal::Line;
use std::alloc::AllocError;

/// Who takes the records of a journal, one after another.
pub trait Reader {
    /// The number of the next record's line.
    ghost line: { Self → ℕ };

    /// What a record makes of it.
    ghost step: { Self → Record → Self → Type 0 };

    /// Takes the next record.
    fn take(&mut self, next: &Line) -> Result<(), AllocError>
        requires lawful { IsRecord (record_of next.now) }
        requires few { line self.old < 2 ^ 63 }
        ensures step { OnOk result (step self.old (record_of next.now) self.new) }
        ensures line { OnOk result (line self.new ≡ suc (line self.old)) };
}
