//! How the bytes of a part are read.
ghost use Rattle.std.specs.Prelude.{◌≡◌, ◌+◌, ◌-◌, ◌^◌, ◌<◌, IfOk, IfErr, OnErr};
ghost use Rattle.rq_streams.specs.Counted.{failed_count, inner};
ghost use Rattle.rq_streams.specs.Ends.{failed_calls};
ghost use Rattle.rq_cast.specs.PartReading.{ReadsPart, ReadsWithin};
ghost use Rattle.rq_cast.specs.Reading.{IsStopOfReads};

use crate::input::CHUNK;
use rq_streams::{Counted, Stop};
use std::alloc::Global;
use std::io::Read;

/// Reads so many bytes, and fewer at the end alone, and nothing behind them. A failed call is a fault.
/// Refuses [`Error::OutOfMemory`](raptorq::error::Error::OutOfMemory) alone.
pub fn read_part<R: Read>(
    alloc: Global,
    reader: &mut Counted<R>,
    size: u64,
) -> Result<Vec<u8>, Stop>
    requires { failed_count reader.old < 2 ^ 64 - 1 }
    ensures reads { IfOk result (λ v. ReadsPart (R.remaining (inner reader.old)) (R.remaining (inner reader.new)) size v.items) }
    ensures within { OnErr result (ReadsWithin (R.remaining (inner reader.old)) (R.remaining (inner reader.new)) size) }
    ensures counts { failed_count reader.new ≡ failed_count reader.old + failed_calls result }
    ensures stops { IfErr result IsStopOfReads }
{
    let size = size as usize;
    let mut bytes = Vec::new(alloc);
    let mut chunk = [0u8; CHUNK];
    'reading: while bytes.len() < size {
        let room = CHUNK.min(size - bytes.len());
        let Ok(n) = reader.read(&mut chunk[..room]) else {
            return Err(Stop::Fault);
        };
        if n == 0 {
            return Ok(bytes);
        }
        bytes.extend_from_slice(&chunk[..n])?;
    }
    Ok(bytes)
}
