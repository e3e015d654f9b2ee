//! Parts of a file from its whole symbols and a guard's packets.
ghost use Rattle.std.specs.Prelude.{◌≡◌, ◌+◌, ◌-◌, ◌^◌, ◌<◌, List, ℕ, [], map, All, OnOk, IfOk, IfErr};
ghost use Rattle.rq_standard.specs.declared.row.TableRow.{TableRow};
ghost use Rattle.rq_streams.specs.Counted.{failed_count, inner};
ghost use Rattle.rq_streams.specs.Ends.{failed_calls};
ghost use Rattle.rq_cells.specs.Scans.{HasDigest};
ghost use Rattle.rq_cast.specs.Reading.{IsStopOfReads};

use crate::reading::{CellPass, Decoding, with_head};
use rq_bytes::error::Error;
use rq_cast::Window;
use rq_cells::{FoundCell, Head};
use rq_streams::{Counted, Stop};
use rq_tables::systematic_constants::SystematicTable;
use std::alloc::Global;
use std::io::Read;

/// Mends a file part after part, from the first one on, as a receiver writes its stream: of each part the cells of the
/// symbols that are whole ([`whole_cells`](crate::whole_cells)) and those of its guard are taken. What is handed out
/// are the bytes of parts that have the right name, and of one sender's cells those that they determine: no repairer
/// tells more by these.
#[derive(Drop)]
pub struct Mending {
    window: Window,
}

impl Mending {
    ghost use Rattle.rq_guard.specs.Mending.{HasMended, IsSoundMending, TakesMore, mended_parts, has_mended_last};
    ghost use Rattle.rq_guard.specs.Reading.{TakesFrom};

    /// Before any cell. Refuses [`Error::OutOfMemory`] alone.
    pub fn new(alloc: Global) -> Result<Mending, Error>
        ensures mended { IfOk result (λ m. (table : List TableRow) (stream : List ℕ) → HasMended table stream [] [] m) }
        ensures sound { IfOk result (λ m. (table : List TableRow) → IsSoundMending table m) }
        ensures memory { IfErr result (λ e. e ≡ Error.OutOfMemory) }
    {
        let window = Window::new(alloc, 1)?;
        Ok(Mending { window })
    }

    /// Takes cells of the next part, and hands out its bytes, if they determine it with those before. Cells of the
    /// parts that are mended are passed over. Refuses [`Error::OutOfMemory`] alone.
    pub fn take(
        &mut self,
        alloc: Global,
        table: &SystematicTable,
        cells: Vec<FoundCell>,
    ) -> Result<Vec<u8>, Error>
        requires sound { IsSoundMending table.now self.old }
        requires digests { All HasDigest cells.items }
        ensures takes { IfOk result (λ v. TakesMore table.now self.old (map (λ found. found.cell) cells.items) v.items self.new) }
        ensures sound { OnOk result (IsSoundMending table.now self.new) }
        ensures memory { IfErr result (λ e. e ≡ Error.OutOfMemory) }
    {
        self.window.take_all(alloc, table, cells)?;
        Ok(self.window.take_ready())
    }

    /// Takes the cells with the next part's head among what a reader brings, as far as it takes, and hands out the part's
    /// bytes, if they determine it with those before. A failed call ends it with [`Stop::Fault`]. Refuses
    /// [`Error::OutOfMemory`] alone.
    pub fn take_from<R: Read>(
        &mut self,
        alloc: Global,
        by: &Decoding<'_>,
        head: &Head,
        reader: &mut Counted<R>,
    ) -> Result<Vec<u8>, Stop>
        requires reads { failed_count reader.old < 2 ^ 64 - 1 }
        requires sound { IsSoundMending by.now.table.now self.old }
        ensures takes { IfOk result (λ v. TakesFrom by.now.table.now by.now.key.now head.now (R.remaining (inner reader.old)) (R.remaining (inner reader.new))
            self.old v.items self.new) }
        ensures sound { OnOk result (IsSoundMending by.now.table.now self.new) }
        ensures counts { failed_count reader.new ≡ failed_count reader.old + failed_calls result }
        ensures stops { IfErr result IsStopOfReads }
    {
        let mut pass = CellPass::new(alloc, by.key, head)?;
        // For the proof that it ends: more reads than these are never made.
        'reading: for _reads in 0..u64::MAX {
            let Some(found) = pass.read(alloc, reader)? else {
                return Ok(Vec::new(alloc));
            };
            let cells = with_head(alloc, found, head)?;
            let bytes = self.take(alloc, by.table, cells)?;
            if !bytes.is_empty() || self.has_ended() {
                return Ok(bytes);
            }
        }
        Ok(Vec::new(alloc))
    }

    /// How many parts are mended.
    pub fn mended_parts(&self) -> u32
        ensures { result ≡ mended_parts self.now }
    {
        self.window.settled_parts()
    }

    /// Whether the last part is mended.
    pub fn has_ended(&self) -> bool
        ensures { result ≡ has_mended_last self.now }
    {
        self.window.has_ended()
    }
}
