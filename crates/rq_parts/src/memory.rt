//! Want of memory, told by its type.
ghost use Rattle.std.specs.Prelude.{◌≡◌};
ghost use Rattle.rq_bytes.specs.declared.error.Error.TheVariants.{OutOfMemory};

use rq_bytes::error::Error;
use std::alloc::AllocError;

/// Why a call stopped that refuses nothing but want of memory, for callers that say so by their type.
pub fn want_of_memory(_refusal: Error) -> AllocError
    requires { _refusal ≡ OutOfMemory }
{
    AllocError
}
