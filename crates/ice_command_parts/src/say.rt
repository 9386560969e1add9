//! How a call ends that has put its text.
ghost use Rattle.std.specs.Prelude.{◌≡◌, MatchResult};

use ice_edge::{SinkFault, Status};

/// The status that goes with the text, or `WriteFault` where the sink failed.
pub fn ended(put: Result<(), SinkFault>, status: Status) -> Status
    ensures { MatchResult put (λ _. result ≡ status) (λ _. result ≡ Status.WriteFault) }
{
    match put {
        Ok(()) => status,
        Err(SinkFault::Failed) => Status::WriteFault,
    }
}
