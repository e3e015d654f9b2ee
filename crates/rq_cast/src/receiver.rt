//! Bytes in, the parts of the stream of the cells among them out.
ghost use Rattle.std.specs.Prelude.{◌≡◌, ℕ, List, [], ◌++◌, length, OnOk, IfErr, IfSome, false};
ghost use Rattle.rq_standard.specs.declared.row.TableRow.{TableRow};
ghost use Rattle.rq_cells.specs.Wanted.{Wish, wish_of, AreHeads, IsFirstWanted};
ghost use Rattle.rq_cast.specs.declared.seen.Seen.{Seen};
ghost use Rattle.rq_cast.specs.Receiving.{IsSoundReceiver, HasFed, Feeds, Begins, HandsOutOf, Shows, has_ended, ready_of, TellsEnding, TellsGivenUp};

use crate::run::Ending;
use crate::seen::Seen;
use crate::stream_receiver::{Found, StreamReceiver};
use raptorq::Decoder;
use raptorq::error::Error;
use rq_cells::{CellSearch, Head, Heads, Search, Wanted};
use std::alloc::Global;
use std::mem::replace;

/// Receives a stream from bytes that come in pieces: the first wanted cell says which, and from then on all its
/// cells are taken, at whatever place they stand. A part is handed out once all before it are, its cells determine
/// it, and its name is right.
#[derive(Drop)]
pub(crate) struct Receiver<'a> {
    alloc: Global,
    wanted: Wanted<'a>,
    window: u32,
    search: CellSearch<'a>,
    // What was seen before the bytes that the search keeps, and in all.
    settled: Seen,
    seen: Seen,
    // Once a wanted cell was whole.
    stream: Option<StreamReceiver>,
}

impl<'a> Receiver<'a> {
    /// Receives wanted cells, of so many parts at once: from the first on that isn't handed out. Cells of further
    /// parts are dropped, as those of parts are that are handed out. So it keeps at most so many parts, whatever comes.
    pub fn new(alloc: Global, wanted: &Wanted<'a>, window: u32) -> Receiver<'a>
        ensures sound { IsSoundReceiver result }
        ensures open_still { has_ended result ≡ false }
        ensures none { ready_of result ≡ [] }
        ensures fed { (most : ℕ) → HasFed wanted.now.table.now (wish_of wanted.now) window most [] [] result }
    {
        Receiver {
            alloc,
            wanted: *wanted,
            window,
            search: CellSearch::new(alloc, wanted),
            settled: Seen::default(),
            seen: Seen::default(),
            stream: None,
        }
    }

    /// Takes the next piece of the bytes. Refuses [`Error::OutOfMemory`] alone, and may have taken some of its cells
    /// then.
    pub fn feed(&mut self, alloc: Global, piece: &[u8]) -> Result<(), Error>
        requires { IsSoundReceiver self.old }
        ensures fed { OnOk result (Feeds piece.now self.old self.new) }
        ensures sound { OnOk result (IsSoundReceiver self.new) }
        ensures memory { IfErr result (λ e. e ≡ Error.OutOfMemory) }
    {
        if let Some(stream) = &mut self.stream {
            return stream.feed(alloc, self.wanted.table, piece);
        }
        match self.search.feed(alloc, piece)? {
            Search::Found { head, before, .. } => self.begin(alloc, head, before),
            Search::NotYet { before, all, .. } => {
                self.seen = self.settled.with(all);
                self.settled = self.settled.with(before);
                Ok(())
            }
        }
    }

    // Begins with the stream of the first wanted cell, which stands at the front of what is kept.
    fn begin(&mut self, alloc: Global, head: Head, before: Heads) -> Result<(), Error>
        ensures begins { OnOk result (Begins head before self.old self.new) }
        ensures sound { OnOk result (IsSoundReceiver self.new) }
        ensures memory { IfErr result (λ e. e ≡ Error.OutOfMemory) }
    {
        let search = replace(&mut self.search, CellSearch::new(alloc, &self.wanted));
        let found = Found {
            head,
            bytes: search.into_bytes(),
            seen: self.settled.with(before),
        };
        let Wanted { key, table, .. } = self.wanted;
        self.stream = Some(StreamReceiver::new(alloc, table, key, self.window, found)?);
        Ok(())
    }

    /// Hands out the bytes of the parts that may be and weren't yet, one behind another.
    pub fn take_ready(&mut self) -> Vec<u8>
        ensures hands { HandsOutOf self.old result.items self.new }
        ensures ended { has_ended self.new ≡ has_ended self.old }
        ensures ready { result.items ≡ ready_of self.old }
        ensures none { ready_of self.new ≡ [] }
        ensures shows { (seen : Seen) → Shows self.old seen → Shows self.new seen }
        ensures sound { IsSoundReceiver self.old → IsSoundReceiver self.new }
    {
        match &mut self.stream {
            Some(stream) => stream.take_ready(),
            None => Vec::new(self.alloc),
        }
    }

    /// Whether the last part is handed out, or may be.
    pub fn has_ended(&self) -> bool
        ensures { result ≡ has_ended self.now }
    {
        match &self.stream {
            Some(stream) => stream.window.ended,
            None => false,
        }
    }

    /// What was seen in all that came.
    pub fn all_seen(&self) -> Seen
        ensures { Shows self.now result }
    {
        match &self.stream {
            Some(stream) => stream.all_seen(),
            None => self.seen,
        }
    }

    /// The decoder of the first part that isn't handed out, where a cell of it came.
    pub fn decoder(&self) -> Option<&Decoder> {
        match &self.stream {
            Some(stream) => stream.window.decoder(),
            None => None,
        }
    }

    /// How a run ends that reads no more.
    pub fn ending(&self) -> Ending
        ensures { TellsEnding self.now result }
    {
        match &self.stream {
            Some(stream) if stream.window.ended => Ending::Written {
                stream: stream.scanner.stream(),
            },
            Some(stream) => Ending::Incomplete {
                parts: stream.window.names.count,
                missing: stream.window.missing(),
            },
            None => Ending::Incomplete {
                parts: 0,
                missing: None,
            },
        }
    }

    /// How a run ends that gives up the stream that it receives, where it receives one that hasn't ended.
    pub fn given_up(&self) -> Option<Ending>
        ensures { IfSome result (TellsGivenUp self.now) }
    {
        match &self.stream {
            Some(stream) if !stream.window.ended => Some(Ending::GivenUp {
                stream: stream.scanner.stream(),
                parts: stream.window.names.count,
                missing: stream.window.missing(),
            }),
            _ => None,
        }
    }
}
