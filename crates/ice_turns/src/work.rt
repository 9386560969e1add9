//! How much work a pricing run took.
ghost use Rattle.std.specs.Prelude.{◌≡◌};
ghost use Rattle.ice_turns.specs.Works.{saturating_sum, no_work, IsMoreWork};

/// The work of a pricing run.
#[derive(Clone, Copy, Debug, PartialEq, Eq)]
pub struct RunWork {
    /// How often a program was solved, or 2^32 - 1 where that is less.
    pub turns: u32,
    /// The pivots of all of them, or 2^32 - 1 where that is less.
    pub pivots: u32,
}

impl RunWork {
    /// No work.
    pub fn none() -> RunWork
        ensures { result ≡ no_work }
    {
        RunWork {
            turns: 0,
            pivots: 0,
        }
    }

    /// Counts a turn with its pivots.
    pub(crate) fn add_turn(&mut self, pivots: u32)
        ensures turns { self.new.turns ≡ saturating_sum self.old.turns 1 }
        ensures pivots { self.new.pivots ≡ saturating_sum self.old.pivots pivots }
        ensures more { IsMoreWork self.old self.new }
    {
        self.turns = self.turns.saturating_add(1);
        self.pivots = self.pivots.saturating_add(pivots);
    }
}
