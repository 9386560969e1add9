//! Why the tests of a journal don't go on.
use ice_check_offer::Fault;
use std::alloc::AllocError;

/// Why the tests don't go on with a record: it fails this test first, or there is no memory for it.
#[derive(Clone, Copy, PartialEq, Eq, Debug)]
pub(crate) enum Halt {
    Fails(Fault),
    NoMemory,
}

impl From<Fault> for Halt {
    ghost use Rattle.std.specs.Prelude.{◌≡◌};
    ghost use Rattle.ice_check_records.specs.declared.halt.Halt.TheVariants.{Fails};

    ghost from_gives = { λ fault halt. halt ≡ Fails fault };

    fn from(fault: Fault) -> Halt {
        Halt::Fails(fault)
    }
}

impl From<AllocError> for Halt {
    ghost use Rattle.std.specs.Prelude.{◌≡◌};
    ghost use Rattle.ice_check_records.specs.declared.halt.Halt.TheVariants.{NoMemory};

    ghost from_gives = { λ _ halt. halt ≡ NoMemory };

    fn from(_: AllocError) -> Halt {
        Halt::NoMemory
    }
}
