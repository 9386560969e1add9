//! What is known of a session while its records are read.
use crate::watch::Watch;
use ice_check_records::Checker;
use ice_journal::Line;
use ice_reading::Reader;
use std::alloc::{AllocError, Global};
use std::mem;

/// What is known of a session while its records are read: how far its tests have come, and what
/// its last settlement needs beside.
#[derive(Drop)]
pub(crate) struct Closing {
    pub(crate) alloc: Global,
    pub(crate) checker: Checker,
    pub(crate) watch: Watch,
}

impl Reader for Closing {
    ghost use Rattle.ice_last.specs.Reading.{ClosesOn};

    ghost line = { λ closing. closing.checker.line };

    ghost step = { ClosesOn };

    fn take(&mut self, next: &Line) -> Result<(), AllocError> {
        let watch = mem::replace(&mut self.watch, Watch::Start);
        self.watch = watch.after(self.alloc, next)?;
        self.checker.feed(next)?;
        Ok(())
    }
}
