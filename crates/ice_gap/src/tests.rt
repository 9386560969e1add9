//! The tests of a journal that may state a gap.
use ice_check_records::GapChecker;
use ice_journal::Line;
use ice_reading::Reader;
use std::alloc::AllocError;

/// The tests of a journal that may state a gap, which takes its records.
#[derive(Drop)]
pub(crate) struct GapTests {
    pub(crate) checker: GapChecker,
}

impl Reader for GapTests {
    ghost use Rattle.ice_gap.specs.Reading.{TestsOn};

    ghost line = { λ tests. tests.checker.line };

    ghost step = { TestsOn };

    fn take(&mut self, next: &Line) -> Result<(), AllocError> {
        self.checker.feed(next)
    }
}
