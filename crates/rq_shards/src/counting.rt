//! How many cells of a stream a shard has.
ghost use Rattle.std.specs.Prelude.{◌≡◌, ◌+◌, ◌-◌, ◌^◌, ◌<◌, IfOk, IfErr};
ghost use Rattle.rq_streams.specs.Counted.{failed_count, inner};
ghost use Rattle.rq_streams.specs.Ends.{failed_calls};
ghost use Rattle.rq_cells.specs.Found.{source_of};
ghost use Rattle.rq_cast.specs.Reading.{IsStopOfReads};
ghost use Rattle.rq_shards.specs.Counting.{CountsCells};

use rq_cells::{Head, Key};
use rq_guard::CellPass;
use rq_streams::{Counted, Stop};
use std::alloc::Global;
use std::io::Read;

/// How many cells stand among what a reader brings that are a head's and its like, wherever they begin. A failed call
/// ends it with [`Stop::Fault`]. Refuses [`Error::OutOfMemory`](raptorq::error::Error::OutOfMemory) alone.
pub fn count_cells<R: Read>(
    alloc: Global,
    key: &Key,
    head: &Head,
    reader: &mut Counted<R>,
) -> Result<u64, Stop>
    requires { failed_count reader.old < 2 ^ 64 - 1 }
    ensures cells { IfOk result (CountsCells (source_of key.now head.now) (R.remaining (inner reader.old)) (R.remaining (inner reader.new))) }
    ensures counts { failed_count reader.new ≡ failed_count reader.old + failed_calls result }
    ensures stops { IfErr result IsStopOfReads }
{
    let mut pass = CellPass::new(alloc, key, head)?;
    let mut cells = 0u64;
    // For the proof that it ends: more reads than these are never made.
    'reading: for _reads in 0..u64::MAX {
        let Some(found) = pass.read(alloc, reader)? else {
            return Ok(cells);
        };
        cells = cells.saturating_add(found.len() as u64);
    }
    Ok(cells)
}
