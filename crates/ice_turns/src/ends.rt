//! What stops a turn.
use ice_defs::LimitKind;
use std::alloc::{AllocError, AllocFailed};

/// What stops a turn of a stage.
#[derive(Clone, Copy)]
pub enum Stop {
    /// It is at a limit.
    AtLimit(LimitKind),
    /// No memory was left. It says nothing of the stage.
    WithoutMemory,
}

impl From<AllocError> for Stop {
    ghost use Rattle.std.specs.Prelude.{◌≡◌};
    ghost use Rattle.ice_turns.specs.declared.ends.Stop.{Stop};

    ghost from_gives = { λ _ e. e ≡ Stop.WithoutMemory };

    fn from(_: AllocError) -> Stop {
        Stop::WithoutMemory
    }
}

impl<T: Drop> From<AllocFailed<T>> for Stop {
    ghost use Rattle.std.specs.Prelude.{◌≡◌};
    ghost use Rattle.ice_turns.specs.declared.ends.Stop.{Stop};

    ghost from_gives = { λ _ e. e ≡ Stop.WithoutMemory };

    fn from(_failed: AllocFailed<T>) -> Stop {
        Stop::WithoutMemory
    }
}
