//! A writer that knows which of its calls lost a cell, and whether it is flushed.
ghost use Rattle.std.specs.Prelude.{◌≡◌, ℕ, ◌+◌, ◌-◌, ◌^◌, ◌<◌, ◌≤◌, OnOk, OnErr, IfErr, take, true, false};
ghost use Rattle.std.specs.Io.{WritesAtMost};
ghost use Rattle.std.specs.Io.KnownBytes.{Appends, Keeps, WriteAppends};
ghost use Rattle.rq_streams.specs.Counted.{failed_count, CountsWrite};
ghost use Rattle.rq_streams.specs.Ends.{failed_calls};

use crate::losing::is_lost;
use crate::pace::Pace;
use rq_streams::{Counted, Stop, flush, write_bytes};
use std::io;
use std::io::Write;

/// A writer that counts its failed calls, and apart those that should have begun a cell and lost it, as
/// calls on a socket of datagrams do where nobody listens or a network fails.
#[derive(Drop)]
pub struct Output<W> {
    writer: Counted<W>,
    lost: u64,
    is_flushed: bool,
    pub ghost failed: { lost ≤ failed_count writer },
}

impl<W> Output<W> {
    ghost use Rattle.rq_cast.specs.Output.{counting, lost_count, flushed};

    /// Writes to this writer from now on.
    pub fn new(writer: Counted<W>) -> Output<W>
        ensures writer { counting result ≡ writer }
        ensures none { lost_count result ≡ 0 }
        ensures unflushed { flushed result ≡ false }
    {
        Output {
            writer,
            lost: 0,
            is_flushed: false,
        }
    }

    /// The writer that counts its failed calls.
    pub fn into_counted(self) -> Counted<W>
        ensures { result ≡ counting self }
    {
        let Output {
            writer,
            lost: _,
            is_flushed: _,
        } = self;
        writer
    }
}

impl<W: Write> Output<W> {
    ghost use Rattle.rq_cast.specs.Calls.{Tells, one_call};
    ghost use Rattle.rq_cast.specs.Output.{counting, sink, lost_count, flushed};
    ghost use Rattle.rq_cast.specs.Losing.{is_lost};

    /// Begins a cell by one call, and tells of that.
    pub(crate) fn begin<P: Pace>(&mut self, cell: &[u8], pace: &mut P) -> io::Result<usize>
        requires { failed_count (counting self.old) < 2 ^ 64 - 1 }
        ensures bound { WritesAtMost result cell.now }
        ensures bytes { WriteAppends (W.contents (sink self.old)) (W.contents (sink self.new)) result cell.now }
        ensures counts { CountsWrite (failed_count (counting self.old)) (failed_count (counting self.new)) result cell.now }
        ensures lost { is_lost result ≡ true → lost_count self.new ≡ lost_count self.old + 1 }
        ensures others { is_lost result ≡ false → lost_count self.new ≡ lost_count self.old }
        ensures told { Tells (P.calls pace.old) (P.calls pace.new) (one_call cell.now (is_lost result)) }
        ensures unflushed { flushed self.new ≡ false }
    {
        self.is_flushed = false;
        let result = self.writer.write(cell);
        let is_lost = is_lost(&result);
        if is_lost {
            self.lost += 1;
        }
        pace.tell_call(cell, is_lost);
        result
    }

    /// Writes the rest of a cell that is begun, by as many calls as it takes. The first failed call ends
    /// it with [`Stop::Fault`].
    pub(crate) fn write_rest(&mut self, rest: &[u8]) -> Result<(), Stop>
        requires { failed_count (counting self.old) < 2 ^ 64 - 1 }
        ensures bytes { OnOk result (Appends (W.contents (sink self.old)) (W.contents (sink self.new)) rest.now) }
        ensures counts { failed_count (counting self.new) ≡ failed_count (counting self.old) + failed_calls result }
        ensures err { IfErr result (λ stop. stop ≡ Stop.Fault) }
        ensures beginning { OnErr result ((n : ℕ)
            × Appends (W.contents (sink self.old)) (W.contents (sink self.new)) (take n rest.now)) }
        ensures lost { lost_count self.new ≡ lost_count self.old }
        ensures unflushed { flushed self.new ≡ false }
    {
        self.is_flushed = false;
        write_bytes(&mut self.writer, rest)
    }

    /// Flushes all that is written. A failed call is [`Stop::Fault`].
    pub(crate) fn flush(&mut self) -> Result<(), Stop>
        requires { failed_count (counting self.old) < 2 ^ 64 - 1 }
        ensures bytes { Keeps (W.contents (sink self.old)) (W.contents (sink self.new)) }
        ensures counts { failed_count (counting self.new) ≡ failed_count (counting self.old) + failed_calls result }
        ensures err { IfErr result (λ stop. stop ≡ Stop.Fault) }
        ensures lost { lost_count self.new ≡ lost_count self.old }
        ensures done { OnOk result (flushed self.new ≡ true) }
    {
        flush(&mut self.writer)?;
        self.is_flushed = true;
        Ok(())
    }
}
