//! What is known of a session and of one settlement while its records are read.
use crate::watch::Watch;
use ice_check_records::Checker;
use ice_journal::Line;
use ice_reading::Reader;
use std::alloc::{AllocError, Global};
use std::mem;

/// What is known while the records of a journal are read: how far its tests have come, and what it
/// says of the settlement with this number.
#[derive(Drop)]
pub(crate) struct WatchedTests {
    pub(crate) alloc: Global,
    pub(crate) number: u8,
    pub(crate) checker: Checker,
    pub(crate) watch: Watch,
}

impl Reader for WatchedTests {
    ghost use Rattle.ice_replay.specs.Watching.{TestsOn};

    ghost line = { λ tests. tests.checker.line };

    ghost step = { TestsOn };

    fn take(&mut self, next: &Line) -> Result<(), AllocError> {
        let watch = mem::replace(&mut self.watch, Watch::Start);
        self.watch = watch.after(self.alloc, self.number, &self.checker, next)?;
        self.checker.feed(next)?;
        Ok(())
    }
}
