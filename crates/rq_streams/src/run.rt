//! How a run reads its input and writes what it made.
ghost use Rattle.std.specs.Prelude.{◌≡◌, ◌+◌, ◌^◌, ◌-◌, ◌<◌, ◌⊎◌, ℕ, take, OnOk, OnErr, IfOk, IfErr, IfSome, Ok, Some};
ghost use Rattle.std.specs.Io.KnownBytes.{Appends, Keeps};
ghost use Rattle.rq_bytes.specs.declared.error.Error.TheVariants.{OutOfMemory};
ghost use Rattle.rq_streams.specs.declared.run.Stop.TheVariants.{Fault, Refused};
ghost use Rattle.rq_streams.specs.Counted.{failed_count, inner};
ghost use Rattle.rq_streams.specs.Ends.{Ends, failed_calls};

use crate::counted::Counted;
use raptorq::error::Error;
use std::alloc::{AllocError, Global};
use std::io::{Read, Write};

/// What a run did that nothing stopped.
#[derive(Clone, Copy, Debug, PartialEq, Eq)]
pub enum Outcome {
    /// The output is written.
    Written,
    /// The packets do not determine the object, and nothing is written.
    Incomplete,
}

/// What stopped a run.
#[derive(Clone, Copy, Debug, PartialEq, Eq)]
pub enum Stop {
    /// Reading or writing failed. A beginning of the output may be written.
    Fault,
    /// The input is refused, or memory is. `run_send` and `run_receive` have written nothing then.
    Refused(Error),
}

impl From<Error> for Stop {
    ghost from_gives = { λ e s. s ≡ Refused e };

    fn from(refusal: Error) -> Stop {
        Stop::Refused(refusal)
    }
}

impl From<AllocError> for Stop {
    ghost from_gives = { λ _ s. s ≡ Refused OutOfMemory };

    fn from(_refused: AllocError) -> Stop {
        Stop::Refused(Error::OutOfMemory)
    }
}

// How many bytes are read at once, as many as a pipe holds.
const CHUNK: usize = 65536;

/// All that is left to read. The first failed call ends it with [`Stop::Fault`]. Refuses
/// [`Error::OutOfMemory`] alone.
pub fn read_all<R: Read>(alloc: Global, reader: &mut Counted<R>) -> Result<Vec<u8>, Stop>
    requires { failed_count reader.old < 2 ^ 64 - 1 }
    ensures bytes { IfOk result (λ v. IfSome (R.remaining (inner reader.old)) (λ input. v.items ≡ input)) }
    ensures counts { failed_count reader.new ≡ failed_count reader.old + failed_calls result }
    ensures err { IfErr result (λ stop. (stop ≡ Stop.Fault) ⊎ (stop ≡ Stop.Refused Error.OutOfMemory)) }
{
    let mut bytes = Vec::new(alloc);
    let mut chunk = [0u8; CHUNK];
    'reading: loop {
        let Ok(n) = reader.read(&mut chunk) else {
            return Err(Stop::Fault);
        };
        if n == 0 {
            return Ok(bytes);
        }
        bytes.extend_from_slice(&chunk[..n])?;
    }
}

/// Writes the bytes, by as many calls as it takes. The first failed call ends it with
/// [`Stop::Fault`], and a beginning of the bytes may be written.
pub fn write_bytes<W: Write>(writer: &mut Counted<W>, bytes: &[u8]) -> Result<(), Stop>
    requires { failed_count writer.old < 2 ^ 64 - 1 }
    ensures bytes { OnOk result (Appends (W.contents (inner writer.old)) (W.contents (inner writer.new)) bytes.now) }
    ensures counts { failed_count writer.new ≡ failed_count writer.old + failed_calls result }
    ensures err { IfErr result (λ stop. stop ≡ Stop.Fault) }
    ensures beginning { OnErr result ((n : ℕ)
        × Appends (W.contents (inner writer.old)) (W.contents (inner writer.new)) (take n bytes.now)) }
{
    let mut at = 0;
    'writing: while at < bytes.len() {
        let Ok(n) = writer.write(&bytes[at..]) else {
            return Err(Stop::Fault);
        };
        if n == 0 {
            return Err(Stop::Fault);
        }
        at += n;
    }
    Ok(())
}

/// Flushes once, behind all that is written. A failed call is [`Stop::Fault`].
pub fn flush<W: Write>(writer: &mut Counted<W>) -> Result<(), Stop>
    requires { failed_count writer.old < 2 ^ 64 - 1 }
    ensures bytes { Keeps (W.contents (inner writer.old)) (W.contents (inner writer.new)) }
    ensures counts { failed_count writer.new ≡ failed_count writer.old + failed_calls result }
    ensures err { IfErr result (λ stop. stop ≡ Stop.Fault) }
{
    match writer.flush() {
        Ok(()) => Ok(()),
        Err(_) => Err(Stop::Fault),
    }
}

/// Writes the bytes as all of the output, and flushes then. The first failed call ends it with
/// [`Stop::Fault`], and a beginning of the bytes may be written.
pub fn finish<W: Write>(writer: &mut Counted<W>, bytes: Vec<u8>) -> Result<Outcome, Stop>
    requires { failed_count writer.old < 2 ^ 64 - 1 }
    ensures counts { failed_count writer.new ≡ failed_count writer.old + failed_calls result }
    ensures ends { Ends result (W.contents (inner writer.old)) (W.contents (inner writer.new)) (Ok (Some bytes.items)) }
{
    write_bytes(writer, bytes.as_slice())?;
    flush(writer)?;
    Ok(Outcome::Written)
}
