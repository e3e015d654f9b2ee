//! Cells of one stream among any bytes.
ghost use Rattle.std.specs.Prelude.{◌≡◌, ◌≤◌, length, Some, IfSome, IfOk, IfErr};
ghost use Rattle.rq_cells.specs.Cells.{head_at, head_size, cell_size};
ghost use Rattle.rq_cells.specs.Found.{source_of, is_of, is_other, others_in};
ghost use Rattle.rq_cells.specs.Scans.{Settles, AreLongHeads, IsPlace};

use crate::cell::FoundCell;
use crate::checking::check_cells;
use crate::head::{HEAD_LENGTH, Head, STREAM_LENGTH, headless_places};
use crate::key::{CHECK_LENGTH, Key};
use crate::long_heads::{LongHead, LongHeads, Place};
use crate::parts::part;
use rq_base::base::PAYLOAD_ID_LENGTH;
use rq_bytes::error::Error;
use std::alloc::Global;
use std::marker::Model;

/// What stands at the first places of some bytes, whatever comes behind the bytes.
#[derive(Debug, PartialEq, Eq, Drop)]
pub struct Scan {
    /// How many places these are.
    pub places: usize,
    /// The stream's cells at these places, in order.
    pub cells: Vec<FoundCell>,
    /// How many of its cells are damaged behind their head.
    pub damaged: usize,
    /// How many heads are those of other streams' cells, or of cells of another length.
    pub others: usize,
}

// A head that was right, and its bytes.
#[derive(Clone, Copy, Debug)]
pub(crate) struct KnownHead {
    pub head: Head,
    pub bytes: [u8; HEAD_LENGTH],
}

/// Finds the cells of one stream among any bytes: those of one length.
#[derive(Drop)]
pub struct CellScanner {
    key: Key,
    stream: [u8; STREAM_LENGTH],
    symbol_size: u16,
    // The last head that was right isn't hashed again.
    known: Option<KnownHead>,
}

impl Model for CellScanner {
    ghost use Rattle.std.specs.Prelude.{◌≡◌, IfSome};
    ghost use Rattle.rq_cells.specs.Found.{Source};
    ghost use Rattle.rq_cells.specs.Scans.{IsKnown};

    ghost Value = { Source };

    ghost view = { λ s. record { key = s.key; stream = s.stream; symbol_size = s.symbol_size } };

    ghost invariant = { λ s. IfSome s.known (IsKnown s.key) };
}

impl CellScanner {
    /// A scanner of the cells that are a head's: those of its stream whose symbols are as long.
    pub fn new(key: Key, head: &Head) -> CellScanner
        ensures { result ≡ source_of key head.now }
    {
        CellScanner {
            key,
            stream: head.stream,
            symbol_size: head.configuration.symbol_size(),
            known: None,
        }
    }

    /// The stream whose cells it finds.
    pub fn stream(&self) -> [u8; STREAM_LENGTH]
        ensures { result ≡ self.now.stream }
    {
        self.stream
    }

    // How many bytes its cells have.
    fn cell_length(&self) -> usize
        ensures { result ≡ cell_size self.now.symbol_size }
    {
        HEAD_LENGTH + PAYLOAD_ID_LENGTH + usize::from(self.symbol_size) + CHECK_LENGTH
    }

    /// Whether a head is one of its cells'.
    pub fn is_of(&self, head: &Head) -> bool
        ensures { result ≡ is_of self.now head.now }
    {
        head.stream == self.stream && head.configuration.symbol_size() == self.symbol_size
    }

    // The known head, where bytes begin with it.
    fn known_head(&self, bytes: &[u8]) -> Option<Head>
        ensures { IfSome result (λ head. head_at self.now.key bytes.now ≡ Some head) }
    {
        match &self.known {
            Some(known) if bytes.starts_with(&known.bytes) => Some(known.head),
            _ => None,
        }
    }

    // Makes the head with which bytes begin the known one.
    fn remember(&mut self, head: &Head, bytes: &[u8])
        requires long { head_size ≤ length bytes.now }
        requires head { head_at self.old.key bytes.now ≡ Some head.now }
        ensures { self.new ≡ self.old }
    {
        self.known = Some(KnownHead {
            head: *head,
            bytes: part(bytes, 0),
        });
    }

    // The head whose bytes these begin with, whoever's.
    fn read_head(&mut self, bytes: &[u8]) -> Option<Head>
        requires { head_size ≤ length bytes.now }
        ensures head { result ≡ head_at self.old.key bytes.now }
        ensures same { self.new ≡ self.old }
    {
        if let Some(head) = self.known_head(bytes) {
            return Some(head);
        }
        let Some(head) = Head::read(&self.key, bytes) else {
            return None;
        };
        self.remember(&head, bytes);
        Some(head)
    }

    // What stands where these bytes begin.
    fn look(&mut self, bytes: &[u8]) -> Place
        ensures place { IsPlace self.old bytes.now result }
        ensures same { self.new ≡ self.old }
    {
        if bytes.len() < HEAD_LENGTH {
            return Place::Open;
        }
        let Some(head) = self.read_head(bytes) else {
            return Place::Nothing;
        };
        if !self.is_of(&head) {
            return Place::Other;
        }
        if bytes.len() < self.cell_length() {
            return Place::Open;
        }
        Place::Headed(head)
    }

    // Looks at each place up to the first of which the bytes don't say yet what stands there.
    fn long_heads(&mut self, alloc: Global, bytes: &[u8]) -> Result<LongHeads, Error>
        ensures found { IfOk result (AreLongHeads self.old bytes.now) }
        ensures memory { IfErr result (λ e. e ≡ Error.OutOfMemory) }
        ensures same { self.new ≡ self.old }
    {
        let mut found = LongHeads {
            places: 0,
            heads: Vec::with_capacity(alloc, bytes.len() / self.cell_length())?,
            others: 0,
        };
        'places: while found.places < bytes.len() {
            found.places += headless_places(&bytes[found.places..]);
            match self.look(&bytes[found.places..]) {
                Place::Open => break,
                Place::Nothing => {}
                Place::Headed(head) => found.heads.push(LongHead {
                    at: found.places,
                    head,
                })?,
                Place::Other => found.others += 1,
            }
            found.places += 1;
        }
        Ok(found)
    }

    /// Looks at each place of bytes behind which others may come, up to the first of which these don't
    /// say yet what stands there. From there on no cell of the stream is whole. Refuses
    /// [`Error::OutOfMemory`] alone.
    pub fn scan(&mut self, alloc: Global, bytes: &[u8]) -> Result<Scan, Error>
        ensures scan { IfOk result (Settles self.old bytes.now) }
        ensures memory { IfErr result (λ e. e ≡ Error.OutOfMemory) }
        ensures same { self.new ≡ self.old }
    {
        let found = self.long_heads(alloc, bytes)?;
        let symbol_size = usize::from(self.symbol_size);
        let checked = check_cells(alloc, &self.key, found.heads.as_slice(), symbol_size, bytes)?;
        Ok(Scan {
            places: found.places,
            cells: checked.cells,
            damaged: checked.damaged,
            others: found.others,
        })
    }

    // Whether bytes begin with the head of another's cell.
    fn is_other(&self, bytes: &[u8]) -> bool
        ensures { result ≡ is_other self.now bytes.now }
    {
        match Head::read(&self.key, bytes) {
            Some(head) => !self.is_of(&head),
            None => false,
        }
    }

    /// How many heads in some bytes are others', at whatever places.
    pub fn count_others(&self, bytes: &[u8]) -> usize
        ensures { result ≡ others_in self.now bytes.now }
    {
        let mut others = 0;
        for at in 0..bytes.len() {
            if self.is_other(&bytes[at..]) {
                others += 1;
            }
        }
        others
    }
}
