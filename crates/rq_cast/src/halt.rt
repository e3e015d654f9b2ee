//! What stops a round of a stream.
ghost use Rattle.std.specs.Prelude.{◌≡◌};
ghost use Rattle.rq_bytes.specs.declared.error.Error.TheVariants.{OutOfMemory};
ghost use Rattle.rq_streams.specs.declared.run.Stop.TheVariants.{Refused};
ghost use Rattle.rq_cast.specs.declared.halt.Halt.TheVariants.{By};

use raptorq::error::Error;
use rq_streams::Stop;
use std::alloc::AllocError;

/// What stops a round of a stream.
#[derive(Clone, Copy, Debug, PartialEq, Eq)]
pub enum Halt {
    /// A call failed, or what is read is refused, or memory is.
    By(Stop),
    /// The part of this index isn't what it was in the first round, or there was none.
    Changed(u32),
}

impl From<Stop> for Halt {
    ghost from_gives = { λ s h. h ≡ By s };

    fn from(stop: Stop) -> Halt {
        Halt::By(stop)
    }
}

impl From<Error> for Halt {
    ghost from_gives = { λ e h. h ≡ By (Refused e) };

    fn from(refusal: Error) -> Halt {
        Halt::By(Stop::Refused(refusal))
    }
}

impl From<AllocError> for Halt {
    ghost from_gives = { λ _ h. h ≡ By (Refused OutOfMemory) };

    fn from(_refused: AllocError) -> Halt {
        Halt::By(Stop::Refused(Error::OutOfMemory))
    }
}
