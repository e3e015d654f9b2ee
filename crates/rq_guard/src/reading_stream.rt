//! Whose guard is read.
ghost use Rattle.std.specs.Prelude.{◌≡◌, ◌+◌, ◌-◌, ◌^◌, ◌<◌, IfOk, IfErr};
ghost use Rattle.rq_streams.specs.Counted.{failed_count, inner};
ghost use Rattle.rq_streams.specs.Ends.{failed_calls};
ghost use Rattle.rq_cells.specs.Wanted.{wish_of};
ghost use Rattle.rq_cast.specs.Reading.{IsStopOfReads};
ghost use Rattle.rq_guard.specs.StreamReading.{FindsFirst};

use crate::reading::CHUNK;
use rq_cells::{CellSearch, Head, Search, Wanted};
use rq_streams::{Counted, Stop};
use std::alloc::Global;
use std::io::Read;

/// The head of the first wanted cell that is whole in what a reader brings, read no further than it takes: its stream
/// is the one that a guard is of. A failed call ends it with [`Stop::Fault`]. Refuses
/// [`Error::OutOfMemory`](rq_bytes::error::Error::OutOfMemory) alone.
pub fn first_head<R: Read>(
    alloc: Global,
    wanted: &Wanted<'_>,
    reader: &mut Counted<R>,
) -> Result<Option<Head>, Stop>
    requires { failed_count reader.old < 2 ^ 64 - 1 }
    ensures first { IfOk result (FindsFirst (wish_of wanted.now) (R.remaining (inner reader.old)) (R.remaining (inner reader.new))) }
    ensures counts { failed_count reader.new ≡ failed_count reader.old + failed_calls result }
    ensures stops { IfErr result IsStopOfReads }
{
    let mut search = CellSearch::new(alloc, wanted);
    let mut chunk = [0u8; CHUNK];
    // For the proof that it ends: more reads than these are never made.
    'reading: for _reads in 0..u64::MAX {
        let Ok(n) = reader.read(&mut chunk) else {
            return Err(Stop::Fault);
        };
        if n == 0 {
            return Ok(None);
        }
        match search.feed(alloc, &chunk[..n])? {
            Search::Found { head, .. } => return Ok(Some(head)),
            Search::NotYet { .. } => {}
        }
    }
    Ok(None)
}
