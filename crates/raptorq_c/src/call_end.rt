//! What ends a call without its result, and the numbers that calls answer.
ghost use Rattle.std.specs.Prelude.{◌≡◌};
ghost use Rattle.raptorq_c.specs.declared.call_end.CallEnd.TheVariants.{Refused};
ghost use Rattle.raptorq_c.specs.Numbers.{number_of, refusal_number};

use raptorq::error::Error;

/// What ends a call without its result. What the codec doesn't refuse has numbers from 24 to 31, which
/// no refusal has.
#[derive(Clone, Copy)]
pub enum CallEnd {
    /// The codec refuses.
    Refused(Error),
    /// The caller's buffer has another length than what is to be written.
    WrongBuffer,
    /// The packets don't determine what is asked for.
    Incomplete,
}

impl From<Error> for CallEnd {
    ghost from_gives = { λ e s. s ≡ Refused e };

    fn from(refusal: Error) -> CallEnd {
        CallEnd::Refused(refusal)
    }
}

/// The number that a call answers: 0 where it is done.
pub(crate) fn number(ended: Result<(), CallEnd>) -> u8
    ensures { result ≡ number_of ended }
{
    match ended {
        Ok(()) => 0,
        Err(CallEnd::Refused(refusal)) => refusal.code(),
        Err(CallEnd::WrongBuffer) => 24,
        Err(CallEnd::Incomplete) => 25,
    }
}

/// The same of a call that ends for a refusal alone.
pub(crate) fn refusal(ended: Result<(), Error>) -> u8
    ensures { result ≡ refusal_number ended }
{
    match ended {
        Ok(()) => 0,
        Err(refusal) => refusal.code(),
    }
}
