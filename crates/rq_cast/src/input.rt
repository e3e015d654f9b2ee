//! A reader whose last read can be read again.
ghost use Rattle.std.specs.Prelude.{◌≡◌, ℕ, ◌≤◌, List, length, Option, OnOk, OnErr, IfOk, IfErr, false};
ghost use Rattle.std.specs.Io.KnownBytes.{Consumes, IsAtEnd, Keeps, prepend_known};
ghost use Rattle.rq_streams.specs.Counted.{failed_count, inner, one_more};
ghost use Rattle.rq_cast.specs.Input.{counted_of, is_put_back, last_piece, unread};
ghost use Rattle.rq_cast.specs.Reading.{chunk_length};

use rq_streams::{Counted, Stop};
use std::io::Read;

/// How many bytes are read at once, as many as a pipe holds.
pub(crate) const CHUNK: usize = 65536;

/// A reader that counts its failed calls, and keeps what its last read brought, so that it can be read again.
#[derive(Drop)]
pub struct Input<R> {
    reader: Counted<R>,
    // What the last read brought stands at the front, and is so long.
    chunk: [u8; CHUNK],
    last: usize,
    // It is read again.
    is_again: bool,
}

impl<R> Input<R> {
    /// Reads from this reader from now on.
    pub fn new(reader: Counted<R>) -> Input<R>
        ensures reader { counted_of result ≡ reader }
        ensures unread { (remaining : R → Option (List ℕ)) → unread remaining result ≡ remaining (inner reader) }
    {
        Input {
            reader,
            chunk: [0; CHUNK],
            last: 0,
            is_again: false,
        }
    }

    /// The reader that counts its failed calls.
    pub fn into_counted(self) -> Counted<R>
        ensures { result ≡ counted_of self }
    {
        let Input { reader, .. } = self;
        reader
    }

    /// What the last read brought.
    pub(crate) fn piece(&self) -> &[u8]
        ensures { result.now ≡ last_piece self.now }
    {
        &self.chunk[..self.last.min(CHUNK)]
    }

    /// Has what the last read brought be read again, before what its reader still has.
    pub fn put_back(&mut self)
        requires { is_put_back self.old ≡ false }
        ensures reader { counted_of self.new ≡ counted_of self.old }
        ensures unread { (remaining : R → Option (List ℕ)) → unread remaining self.new ≡ prepend_known (last_piece self.old) (unread remaining self.old) }
    {
        self.is_again = true;
    }
}

impl<R: Read> Input<R> {
    /// Reads the next piece, or the last one, where that is read again. Answers how long it is: nothing at the end alone.
    pub(crate) fn read(&mut self) -> Result<usize, Stop>
        ensures bytes { OnOk result (Consumes (unread R.remaining self.old) (unread R.remaining self.new) (last_piece self.new)) }
        ensures length { IfOk result (λ n. length (last_piece self.new) ≡ n) }
        ensures few { IfOk result (λ n. n ≤ chunk_length) }
        ensures end { IfOk result (λ n. n ≡ 0 → IsAtEnd (unread R.remaining self.new)) }
        ensures once { is_put_back self.new ≡ false }
        ensures ok { OnOk result (failed_count (counted_of self.new) ≡ failed_count (counted_of self.old)) }
        ensures err { OnErr result (failed_count (counted_of self.new) ≡ one_more (failed_count (counted_of self.old))) }
        ensures kept { OnErr result (Keeps (unread R.remaining self.old) (unread R.remaining self.new)) }
        ensures fault { IfErr result (λ stop. stop ≡ Stop.Fault) }
    {
        let is_again = self.is_again && self.last > 0;
        self.is_again = false;
        if is_again {
            return Ok(self.last.min(CHUNK));
        }
        let Ok(n) = self.reader.read(&mut self.chunk) else {
            return Err(Stop::Fault);
        };
        self.last = n;
        Ok(n)
    }
}
