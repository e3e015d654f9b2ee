//! Buffers of the caller's, which are filled whole or left as they are.
ghost use Rattle.std.specs.Prelude.{◌≡◌, ◌≢◌, length, OnOk, OnErr};
ghost use Rattle.std.specs.Option.{option_copied};
ghost use Rattle.raptorq_c.specs.ObjectBuffers.{Answered, IsFilled};
ghost use Rattle.raptorq_c.specs.Numbers.{number_of};

use crate::call_end::CallEnd;

/// Fills a buffer with bytes, where it has their length.
pub(crate) fn fill(buffer: &mut [u8], bytes: &[u8]) -> Result<(), CallEnd>
    ensures filled { OnOk result (buffer.new ≡ bytes.now) }
    ensures fits { OnOk result (length bytes.now ≡ length buffer.old) }
    ensures number { OnErr result (number_of result ≡ 24) }
    ensures other { OnErr result (length bytes.now ≢ length buffer.old) }
    ensures kept { OnErr result (buffer.new ≡ buffer.old) }
{
    if buffer.len() != bytes.len() {
        return Err(CallEnd::WrongBuffer);
    }
    buffer.copy_from_slice(bytes);
    Ok(())
}

/// Fills a buffer with bytes that a decoder answers, where it does.
pub(crate) fn fill_answer(buffer: &mut [u8], answer: Option<&[u8]>) -> Result<(), CallEnd>
    ensures answered { Answered (number_of result) buffer.old buffer.new (λ r. r ≡ option_copied answer.entry) }
    ensures number { IsFilled (number_of result) }
    ensures kept { OnErr result (buffer.new ≡ buffer.old) }
{
    match answer {
        Some(bytes) => fill(buffer, bytes),
        None => Err(CallEnd::Incomplete),
    }
}
