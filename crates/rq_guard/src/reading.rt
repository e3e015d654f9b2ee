//! Cells among what a reader brings, piece by piece.
ghost use Rattle.std.specs.Prelude.{◌≡◌, ◌+◌, ◌-◌, ◌^◌, ◌<◌, [], filter, All, IfOk, IfErr};
ghost use Rattle.rq_streams.specs.Counted.{failed_count, inner};
ghost use Rattle.rq_streams.specs.Ends.{failed_calls};
ghost use Rattle.rq_cells.specs.Found.{source_of};
ghost use Rattle.rq_cells.specs.Scans.{HasDigest};
ghost use Rattle.rq_cast.specs.Reading.{IsStopOfReads};
ghost use Rattle.rq_cast.specs.Taken.{has_head};
ghost use Rattle.rq_guard.specs.Reading.{cells_of};

use rq_bytes::error::Error;
use rq_cells::{CellScanner, FoundCell, Head, Key, remove_front};
use rq_streams::{Counted, Stop};
use rq_tables::systematic_constants::SystematicTable;
use std::alloc::{AllocError, Global};
use std::io::Read;

/// How many bytes are read at once, as many as a pipe holds.
pub(crate) const CHUNK: usize = 65536;

/// What cells are decoded by.
#[derive(Clone, Copy)]
pub struct Decoding<'a> {
    /// What their checks are made with.
    pub key: &'a Key,
    /// The table of coders.
    pub table: &'a SystematicTable,
}

/// Finds the cells of a stream whose symbols have one length among what a reader brings.
#[derive(Drop)]
pub struct CellPass {
    pub(crate) scanner: CellScanner,
    // What came and may still become cells.
    pub(crate) bytes: Vec<u8>,
}

impl CellPass {
    ghost use Rattle.rq_guard.specs.Reading.{HasPassed, Passes, ReadsOn, cells_of};

    /// Finds the cells that are a head's and its like. Refuses [`Error::OutOfMemory`] alone.
    pub fn new(alloc: Global, key: &Key, head: &Head) -> Result<CellPass, Error>
        ensures passed { IfOk result (HasPassed (source_of key.now head.now) [] []) }
        ensures memory { IfErr result (λ e. e ≡ Error.OutOfMemory) }
    {
        Ok(CellPass {
            scanner: CellScanner::new(key.clone()?, head),
            bytes: Vec::new(alloc),
        })
    }

    // Takes the next piece, and hands out the cells that are whole with it.
    fn take(&mut self, alloc: Global, piece: &[u8]) -> Result<Vec<FoundCell>, Error>
        ensures passes { IfOk result (λ v. Passes self.old piece.now (cells_of v.items) self.new) }
        ensures digests { IfOk result (λ v. All HasDigest v.items) }
        ensures memory { IfErr result (λ e. e ≡ Error.OutOfMemory) }
    {
        self.bytes.extend_from_slice(piece)?;
        let scan = self.scanner.scan(alloc, self.bytes.as_slice())?;
        remove_front(&mut self.bytes, scan.places);
        Ok(scan.cells)
    }

    /// Reads the next piece, and hands out the cells that are whole with it: none at the end.
    pub fn read<R: Read>(
        &mut self,
        alloc: Global,
        reader: &mut Counted<R>,
    ) -> Result<Option<Vec<FoundCell>>, Stop>
        requires { failed_count reader.old < 2 ^ 64 - 1 }
        ensures reads { IfOk result (λ o. ReadsOn (R.remaining (inner reader.old)) (R.remaining (inner reader.new)) self.old o self.new) }
        ensures counts { failed_count reader.new ≡ failed_count reader.old + failed_calls result }
        ensures stops { IfErr result IsStopOfReads }
    {
        let mut chunk = [0u8; CHUNK];
        let Ok(n) = reader.read(&mut chunk) else {
            return Err(Stop::Fault);
        };
        if n == 0 {
            return Ok(None);
        }
        Ok(Some(self.take(alloc, &chunk[..n])?))
    }
}

/// Those of some cells that have a head.
pub(crate) fn with_head(
    alloc: Global,
    cells: Vec<FoundCell>,
    head: &Head,
) -> Result<Vec<FoundCell>, AllocError>
    requires { All HasDigest cells.items }
    ensures cells { IfOk result (λ v. cells_of v.items ≡ filter (has_head head.now) (cells_of cells.items)) }
    ensures digests { IfOk result (λ v. All HasDigest v.items) }
{
    let mut kept = Vec::with_capacity(alloc, cells.len())?;
    for found in cells {
        if found.cell.head == *head {
            kept.push(found)?;
        }
    }
    Ok(kept)
}
