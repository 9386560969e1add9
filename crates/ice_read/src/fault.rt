//! The first fault of a file in JSON, with its place.
ghost use Rattle.std.specs.Prelude.{◌≡◌, ◌+◌, ◌<◌, ◌≤◌, [], ◌∷◌, ◌++◌, length, decimal};
ghost use Rattle.ice_read.specs.Cause.{cause_number};

use crate::cause::ReadCause;
use crate::place::Place;
use thiserror::Error;

/// The first fault of a file in JSON: where it is, and why the file is refused.
#[derive(Debug, Drop, Error)]
#[error("{place}: {cause}")]
pub struct ReadFault {
    /// Where it is: member names and indices from the file's top.
    pub place: Place,
    /// Why the file is refused.
    pub cause: ReadCause,
}

impl ReadFault {
    /// A fault of the value itself.
    pub fn of(cause: ReadCause) -> ReadFault
        ensures { result ≡ record { place = []; cause = cause } }
    {
        ReadFault {
            place: Place::here(),
            cause,
        }
    }

    /// The same fault, told from an object that has it in this member.
    pub fn under(self, name: &str) -> ReadFault
        requires { length self.place + length name.now < 256 }
        ensures { result ≡ record { place = (46 ∷ name.now) ++ self.place; cause = self.cause } }
    {
        ReadFault {
            place: self.place.under(name),
            cause: self.cause,
        }
    }

    /// The same fault, told from an array that has it at this index.
    pub fn at(self, index: u16) -> ReadFault
        requires { length self.place ≤ 250 }
        ensures fault { result
            ≡ record { place = (46 ∷ decimal index) ++ self.place; cause = self.cause } }
        ensures short { length result.place ≤ length self.place + 6 }
    {
        ReadFault {
            place: self.place.at(index),
            cause: self.cause,
        }
    }

    /// The same fault, told from an array of any length that has it at this index.
    pub fn at_any(self, index: u64) -> ReadFault
        requires { length self.place ≤ 230 }
        ensures fault { result
            ≡ record { place = (46 ∷ decimal index) ++ self.place; cause = self.cause } }
        ensures short { length result.place ≤ length self.place + 21 }
    {
        ReadFault {
            place: self.place.at_any(index),
            cause: self.cause,
        }
    }

    /// The number of this refusal in reports, and None for want of memory.
    pub fn number(&self) -> Option<u8>
        ensures { result ≡ cause_number self.now.cause }
    {
        self.cause.number()
    }
}
