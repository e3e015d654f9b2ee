//! A reader or a writer that counts its failed calls.
ghost use Rattle.std.specs.Prelude.{◌≡◌, OnOk, OnErr};
ghost use Rattle.std.specs.Io.{ReadsAtMost, WritesAtMost};
ghost use Rattle.std.specs.Io.KnownBytes.{Keeps, ReadConsumes, WriteAppends};

use std::io;
use std::io::{Read, Write};

/// A reader or a writer, and how many of its calls failed. A call that was interrupted has failed,
/// and so has a write that took none of some bytes.
#[derive(Drop)]
pub struct Counted<T> {
    inner: T,
    failed: u64,
}

impl<T> Counted<T> {
    ghost use Rattle.rq_streams.specs.Counted.{failed_count, inner};

    /// Counts the failed calls of a reader or a writer from now on.
    pub fn new(wrapped: T) -> Counted<T>
        ensures inner { inner result ≡ wrapped }
        ensures none { failed_count result ≡ 0 }
    {
        Counted {
            inner: wrapped,
            failed: 0,
        }
    }

    /// How many calls failed. It stays at `u64::MAX`.
    pub fn failed(&self) -> u64
        ensures { result ≡ failed_count self.now }
    {
        self.failed
    }

    /// The reader or the writer, whose calls aren't counted any more.
    pub fn into_inner(self) -> T
        ensures { result ≡ inner self }
    {
        let Counted { inner, failed: _ } = self;
        inner
    }
}

impl<R: Read> Read for Counted<R> {
    ghost use Rattle.rq_streams.specs.Counted.{failed_count, inner, one_more};

    ghost remaining = { λ c. R.remaining (inner c) };

    fn read(&mut self, buf: &mut [u8]) -> io::Result<usize>
        ensures bound { ReadsAtMost result buf.new }
        ensures bytes { ReadConsumes (R.remaining (inner self.old)) (R.remaining (inner self.new)) result buf.new }
        ensures ok { OnOk result (failed_count self.new ≡ failed_count self.old) }
        ensures err { OnErr result (failed_count self.new ≡ one_more (failed_count self.old)) }
    {
        let result = self.inner.read(buf);
        if result.is_err() {
            self.failed = self.failed.saturating_add(1);
        }
        result
    }
}

impl<W: Write> Write for Counted<W> {
    ghost use Rattle.rq_streams.specs.Counted.{failed_count, inner, one_more, CountsWrite};

    ghost contents = { λ c. W.contents (inner c) };

    fn write(&mut self, buf: &[u8]) -> io::Result<usize>
        ensures bound { WritesAtMost result buf.now }
        ensures bytes { WriteAppends (W.contents (inner self.old)) (W.contents (inner self.new)) result buf.now }
        ensures counts { CountsWrite (failed_count self.old) (failed_count self.new) result buf.now }
    {
        let result = self.inner.write(buf);
        let failed = match &result {
            Ok(n) => *n == 0 && !buf.is_empty(),
            Err(_) => true,
        };
        if failed {
            self.failed = self.failed.saturating_add(1);
        }
        result
    }

    fn flush(&mut self) -> io::Result<()>
        ensures bytes { Keeps (W.contents (inner self.old)) (W.contents (inner self.new)) }
        ensures ok { OnOk result (failed_count self.new ≡ failed_count self.old) }
        ensures err { OnErr result (failed_count self.new ≡ one_more (failed_count self.old)) }
    {
        let result = self.inner.flush();
        if result.is_err() {
            self.failed = self.failed.saturating_add(1);
        }
        result
    }
}
