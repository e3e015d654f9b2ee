//! What is received of a stream from its first cell on.
ghost use Rattle.std.specs.Prelude.{◌≡◌, List, [], OnOk, IfOk, IfErr};
ghost use Rattle.rq_standard.specs.declared.row.TableRow.{TableRow};
ghost use Rattle.rq_cast.specs.declared.seen.Seen.{Seen};
ghost use Rattle.rq_cast.specs.Windows.{IsSoundWindow};

use crate::seen::Seen;
use crate::window::Window;
use raptorq::error::Error;
use raptorq::systematic_constants::SystematicTable;
use rq_cells::{CellScanner, Head, Heads, Key, remove_front};
use std::alloc::Global;

/// The stream that is received, what was read from its first cell on, and what was seen before that.
#[derive(Debug, PartialEq, Eq, Drop)]
pub(crate) struct Found {
    pub head: Head,
    pub bytes: Vec<u8>,
    pub seen: Seen,
}

/// Receives a stream from bytes that come in pieces.
#[derive(Drop)]
pub(crate) struct StreamReceiver {
    pub scanner: CellScanner,
    pub window: Window,
    /// What came and may still become cells.
    pub bytes: Vec<u8>,
    /// The heads and cells that were seen before these bytes. What the window counts isn't among it.
    pub seen: Seen,
}

impl StreamReceiver {
    ghost use Rattle.rq_cast.specs.Receiving.{HasRead, HasReadAll, ReadsAll, ReadsMore, HandsOut, SeesAll};

    // A receiver of the stream that was found, which has taken nothing yet.
    fn empty(alloc: Global, key: &Key, width: u32, found: Found) -> Result<StreamReceiver, Error>
        ensures read { IfOk result (λ r. (table : List TableRow) → HasRead table key.now width found found.bytes.items [] r) }
        ensures sound { IfOk result (λ r. (table : List TableRow) → IsSoundWindow table r.window) }
        ensures memory { IfErr result (λ e. e ≡ Error.OutOfMemory) }
    {
        let Found { head, bytes, seen } = found;
        Ok(StreamReceiver {
            scanner: CellScanner::new(key.clone()?, &head),
            window: Window::new(alloc, width)?,
            bytes,
            seen,
        })
    }

    /// A receiver of the stream that was found, which has taken the cells that are whole in what was read
    /// from its first cell on. Refuses [`Error::OutOfMemory`] alone.
    pub fn new(
        alloc: Global,
        table: &SystematicTable,
        key: &Key,
        width: u32,
        found: Found,
    ) -> Result<StreamReceiver, Error>
        ensures read { IfOk result (HasReadAll table.now key.now width found found.bytes.items []) }
        ensures sound { IfOk result (λ r. IsSoundWindow table.now r.window) }
        ensures memory { IfErr result (λ e. e ≡ Error.OutOfMemory) }
    {
        let mut receiver = StreamReceiver::empty(alloc, key, width, found)?;
        receiver.take_cells(alloc, table)?;
        Ok(receiver)
    }

    // Takes the cells that are whole in what came, and keeps what may still become cells.
    fn take_cells(&mut self, alloc: Global, table: &SystematicTable) -> Result<(), Error>
        requires { IsSoundWindow table.now self.old.window }
        ensures reads { OnOk result (ReadsAll table.now self.old self.new) }
        ensures sound { OnOk result (IsSoundWindow table.now self.new.window) }
        ensures memory { IfErr result (λ e. e ≡ Error.OutOfMemory) }
    {
        let scan = self.scanner.scan(alloc, self.bytes.as_slice())?;
        let cells = scan.cells.len();
        self.window.take_all(alloc, table, scan.cells)?;
        remove_front(&mut self.bytes, scan.places);
        self.seen = self.seen.with(Heads {
            damaged: scan.damaged,
            others: scan.others,
        });
        self.seen.cells = self.seen.cells.saturating_add(cells as u64);
        Ok(())
    }

    /// Takes the next piece of the bytes. Refuses [`Error::OutOfMemory`] alone.
    pub fn feed(
        &mut self,
        alloc: Global,
        table: &SystematicTable,
        piece: &[u8],
    ) -> Result<(), Error>
        requires { IsSoundWindow table.now self.old.window }
        ensures reads { OnOk result (ReadsMore table.now piece.now self.old self.new) }
        ensures sound { OnOk result (IsSoundWindow table.now self.new.window) }
        ensures memory { IfErr result (λ e. e ≡ Error.OutOfMemory) }
    {
        self.bytes.extend_from_slice(piece)?;
        self.take_cells(alloc, table)
    }

    /// Hands out the bytes of the parts that are settled and weren't handed out.
    pub fn take_ready(&mut self) -> Vec<u8>
        ensures hands { HandsOut self.old result.items self.new }
        ensures ended { self.new.window.ended ≡ self.old.window.ended }
        ensures ready { result.items ≡ self.old.window.ready.items }
        ensures none { self.new.window.ready.items ≡ [] }
        ensures sees { (seen : Seen) → SeesAll self.old seen → SeesAll self.new seen }
        ensures sound { (table : List TableRow) → IsSoundWindow table self.old.window → IsSoundWindow table self.new.window }
    {
        self.window.take_ready()
    }

    /// What was seen in all that came, with heads of other streams in what may still become cells.
    pub fn all_seen(&self) -> Seen
        ensures { SeesAll self.now result }
    {
        let others = self.scanner.count_others(self.bytes.as_slice());
        let seen = self.seen.with(Heads { damaged: 0, others });
        Seen {
            restarted: self.window.restarted,
            ahead: self.window.ahead,
            behind: self.window.behind,
            ..seen
        }
    }
}
