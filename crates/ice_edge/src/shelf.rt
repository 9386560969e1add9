//! Where files come from.
ghost use Rattle.std.specs.Prelude.{◌≡◌, ◌≤◌, length, IfOk, IsErrOf, OnOk};
ghost use Rattle.ice_edge.specs.Told.{Told, IsLater, AreTold, IsLonger, FaultRose, OverlongRose};

use std::alloc::{AllocError, Global};

/// Why a file could not be fetched.
#[derive(Clone, Copy, Debug, PartialEq, Eq)]
pub enum FetchFault {
    /// The file could not be read.
    Failed,
    /// It has more bytes than the limit.
    TooLong,
    /// Memory ran out.
    NoMemory,
}

impl From<AllocError> for FetchFault {
    ghost use Rattle.std.specs.Prelude.{◌≡◌};
    ghost use Rattle.ice_edge.specs.declared.shelf.FetchFault.TheVariants.{NoMemory};

    ghost from_gives = { λ _ e. e ≡ NoMemory };

    fn from(_: AllocError) -> FetchFault {
        FetchFault::NoMemory
    }
}

/// Where files come from.
pub trait Shelf {
    /// What it tells of its files, and how often fetches have failed.
    ghost told: { Self → Told };

    /// The bytes under a name, of which there are at most `limit`. Of the same files nothing else
    /// is told after it.
    ///
    /// `TooLong` comes where there are more bytes than `limit`, and `Failed` where the file could
    /// not be read; each raises a count. `NoMemory` is free. Where the bytes are had, and where
    /// memory is wanting, all that is told stays the same, each count among it.
    fn fetch(&mut self, alloc: Global, name: &str, limit: usize) -> Result<Vec<u8>, FetchFault>
        // The bytes that are had, or are too many.
        ensures bytes { IfOk result (λ v. AreTold (told self.old) name.now v.items) }
        ensures within { IfOk result (λ v. length v.items ≤ limit) }
        ensures too_long { IsErrOf result FetchFault.TooLong
            → IsLonger (told self.old) name.now limit }

        // The counts that rise.
        ensures failed { IsErrOf result FetchFault.Failed
            → FaultRose (told self.old) (told self.new) name.now }
        ensures overlong { IsErrOf result FetchFault.TooLong
            → OverlongRose (told self.old) (told self.new) name.now limit }

        // What stays the same.
        ensures kept { OnOk result (told self.new ≡ told self.old) }
        ensures kept_in_want { IsErrOf result FetchFault.NoMemory → told self.new ≡ told self.old }
        ensures later { IsLater (told self.old) (told self.new) };
}
