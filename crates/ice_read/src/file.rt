//! The value of a file in JSON.
ghost use Rattle.std.specs.Prelude.{◌≡◌, ◌≢◌, [], Some, None, MatchResult, IfErr};
ghost use Rattle.serde_json.specs.View.{view};
ghost use Rattle.ice_read.specs.Values.{value_of};

use crate::cause::ReadCause;
use crate::fault::ReadFault;
use serde_json::Value;
use std::alloc::Global;

/// The value of the bytes of a file.
pub fn value_of(alloc: Global, bytes: &[u8]) -> Result<Value, ReadFault>
    ensures value { MatchResult result (λ value. value_of bytes.now ≡ Some (view value))
        (λ fault. fault.cause ≢ ReadCause.NoMemory → (fault.cause ≡ ReadCause.NotJson)
        × (value_of bytes.now ≡ None)) }
    ensures place { IfErr result (λ fault. fault.place ≡ []) }
{
    match Value::from_slice(alloc, bytes) {
        Ok(value) => Ok(value),
        Err(error) if error.is_memory() => Err(ReadFault::of(ReadCause::NoMemory)),
        Err(_) => Err(ReadFault::of(ReadCause::NotJson)),
    }
}
