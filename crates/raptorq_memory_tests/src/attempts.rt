//! Calls that are tried again and again while memory is refused, each with what it lends and what
//! it answers with ample memory. Making one takes memory, trying it takes none but the call's.
use raptorq::error::Error;
use rq_memory_kit::Ending;

pub mod decoders;
pub mod encoders;

// How a call ended that lends nothing that can change.
fn ending<T: PartialEq>(answer: Result<T, Error>, wanted: &T) -> Ending
where
    T: Drop,
{
    match answer {
        Ok(value) if value == *wanted => Ending::Answered,
        Err(Error::OutOfMemory) => Ending::Refused,
        _ => Ending::Other,
    }
}
