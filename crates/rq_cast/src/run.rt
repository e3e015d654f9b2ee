//! Bytes in, the stream of the cells among them out.
ghost use Rattle.std.specs.Prelude.{◌≡◌, ◌+◌, ◌-◌, ◌<◌, ◌^◌, [], take, ℕ, None, OnOk, false, OnErr, IfErr, IfNone, IfSome};
ghost use Rattle.std.specs.Io.KnownBytes.{Appends};
ghost use Rattle.rq_streams.specs.Counted.{failed_count, inner};
ghost use Rattle.rq_streams.specs.Ends.{failed_calls};
ghost use Rattle.rq_cells.specs.Wanted.{wish_of};
ghost use Rattle.rq_cast.specs.Input.{counted_of, is_put_back, last_piece, unread};
ghost use Rattle.rq_cast.specs.Receiving.{TellsGivenUp};
ghost use Rattle.rq_cast.specs.Received.{EndsAtFailedCall, EndsReceiving, WritesAllRead, is_given_up};

use crate::input::Input;
use crate::progress::Progress;
use crate::receiver::Receiver;
use crate::seen::Seen;
use rq_cells::{STREAM_LENGTH, Wanted};
use rq_streams::{Counted, Stop, flush, write_bytes};
use std::alloc::Global;
use std::io::{Read, Write};

/// How a run ended that nothing stopped.
#[derive(Clone, Copy, Debug, PartialEq, Eq)]
pub enum Ending {
    /// All parts of the stream are written.
    Written {
        /// The stream.
        stream: [u8; STREAM_LENGTH],
    },
    /// What was read doesn't determine the next part, and no further one is written.
    Incomplete {
        /// How many parts are written.
        parts: u32,
        /// How many packets the next one needs more at least, of ids that weren't received yet: what
        /// [`missing_packets`](crate::missing_packets) answers of those that count. `None` where no cell of it
        /// came.
        missing: Option<u64>,
    },
    /// It was silent too long while cells of others came, and is given up. No further part is written.
    GivenUp {
        /// The stream.
        stream: [u8; STREAM_LENGTH],
        /// How many parts are written.
        parts: u32,
        /// What the next one lacks, as above.
        missing: Option<u64>,
    },
}

// Writes bytes, if there are any, and flushes then.
fn write_part<W: Write>(writer: &mut Counted<W>, bytes: &[u8]) -> Result<(), Stop>
    requires { failed_count writer.old < 2 ^ 64 - 1 }
    ensures bytes { OnOk result (Appends (W.contents (inner writer.old)) (W.contents (inner writer.new)) bytes.now) }
    ensures counts { failed_count writer.new ≡ failed_count writer.old + failed_calls result }
    ensures err { IfErr result (λ stop. stop ≡ Stop.Fault) }
    ensures beginning { OnErr result ((n : ℕ)
        × Appends (W.contents (inner writer.old)) (W.contents (inner writer.new)) (take n bytes.now)) }
{
    if bytes.is_empty() {
        return Ok(());
    }
    write_bytes(writer, bytes)?;
    flush(writer)
}

// How a run ends that gives up its stream, where that is silent for so many seconds.
fn given_up<P: Progress>(
    receiver: &Receiver<'_>,
    timeout: Option<u64>,
    seen: &Seen,
    progress: &mut P,
) -> Option<Ending>
    ensures tells { IfSome result (TellsGivenUp receiver.now) }
    ensures patient { IfNone timeout (result ≡ None) }
{
    let seconds = timeout?;
    if progress.is_silent(seconds, seen) {
        receiver.given_up()
    } else {
        None
    }
}

/// Reads any bytes and writes the stream of the cells that stand among them, part by part. `seen` becomes what
/// was seen: in all that was read, or, where the run is stopped, in all but the bytes of the last read at most.
///
/// The first wanted cell says which stream is received. Its cells are taken, at whatever place they stand, of so
/// many parts as the window has, from the first unwritten one on; those of others are dropped. A part is written
/// as soon as all parts before it are, those of its cells determine it that have one head, and it is what that
/// head says: its name is right, and the last one's seal. The run ends at the first read with which the last part
/// is written, with the input still open.
///
/// Where a timeout is said, `progress` is asked after each read whether the stream is silent for so many seconds while
/// cells of others come, and where it is the run ends with [`Ending::GivenUp`].
///
/// Where cells of a head contradict each other, or determine another object, the part is begun anew with
/// what comes, and so it is with another head of the part where more cells have that: so forged cells
/// delay the run, and don't end it. `seen` counts how often. It is never where one sender made all cells
/// of the stream. While it reads, `progress` is told how far it has come.
///
/// Refuses [`Error::OutOfMemory`](raptorq::error::Error) alone, which may come at any read.
pub fn run_receive<R: Read, W: Write, P: Progress>(
    alloc: Global,
    wanted: &Wanted<'_>,
    window: u32,
    timeout: Option<u64>,
    input: &mut Input<R>,
    writer: &mut Counted<W>,
    seen: &mut Seen,
    progress: &mut P,
) -> Result<Ending, Stop>
    requires window { 0 < window }
    requires reads { failed_count (counted_of input.old) < 2 ^ 64 - 1 }
    requires writes { failed_count writer.old < 2 ^ 64 - 1 }

    // The first failed call ends the run, and nothing else is a fault.
    ensures failures { EndsAtFailedCall (counted_of input.old) writer.old result (counted_of input.new) writer.new }

    // The last read isn't put back.
    ensures once { OnOk result (is_put_back input.new ≡ false) }

    // The parts of the stream, as far as the cells determine them, exactly so far if one sender made them, and not the
    // last one before the last read that was made.
    ensures ends { EndsReceiving wanted.now.table.now (wish_of wanted.now) window result seen.new
        (unread R.remaining input.old) (unread R.remaining input.new) (last_piece input.new)
        (W.contents (inner writer.old)) (W.contents (inner writer.new)) }

    // No stream is given up where no timeout is said.
    ensures patient { IfNone timeout (is_given_up result ≡ false) }

    // What is settled is written before the next read.
    ensures at_once { failed_count (counted_of input.old) < failed_count (counted_of input.new)
        → WritesAllRead wanted.now.table.now (wish_of wanted.now) window
        (unread R.remaining input.old) (unread R.remaining input.new) seen.new
        (W.contents (inner writer.old)) (W.contents (inner writer.new)) }
{
    let mut receiver = Receiver::new(alloc, wanted, window);
    *seen = receiver.all_seen();
    // For the proof that it ends: more reads than these are never made.
    'reading: for _reads in 0..u64::MAX {
        let n = input.read()?;
        if n == 0 {
            return Ok(receiver.ending());
        }
        receiver.feed(alloc, input.piece())?;
        *seen = receiver.all_seen();
        progress.tell(n, seen, receiver.decoder());
        write_part(writer, receiver.take_ready().as_slice())?;
        if receiver.has_ended() {
            return Ok(receiver.ending());
        }
        if let Some(ending) = given_up(&receiver, timeout, seen, progress) {
            return Ok(ending);
        }
    }
    Ok(receiver.ending())
}
