//! How what is read is sent as a stream, part after part.
ghost use Rattle.std.specs.Prelude.{◌≡◌, ℕ, ◌+◌, ◌-◌, ◌*◌, ◌^◌, ◌<◌, ◌≤◌, List, [], IfOk, IfErr, OnOk, true};
ghost use Rattle.rq_streams.specs.Counted.{failed_count, inner};
ghost use Rattle.rq_cast.specs.Names.{AreNames};
ghost use Rattle.rq_cast.specs.Parts.{object_of};
ghost use Rattle.rq_cast.specs.Output.{counting, sink, flushed, CountsLost};
ghost use Rattle.rq_cast.specs.SentParts.{SendsStream, StopsStream, CountsStop, halted_calls};

use crate::halt::Halt;
use crate::known::Known;
use crate::names::Names;
use crate::order::Order;
use crate::output::Output;
use crate::pace::Pace;
use crate::part_reading::read_part;
use crate::parts::MOST_PARTS;
use crate::preparing::fitting;
use crate::sending::{Part, Sender};
use raptorq::error::Error;
use rq_cells::Key;
use rq_streams::{Counted, Stop};
use std::alloc::Global;
use std::io::{Read, Write};

/// How much of a stream was sent.
#[derive(Clone, Copy, Debug, Default, PartialEq, Eq)]
pub struct Sent {
    /// How many parts it has.
    pub parts: u32,
    /// How many cells they have.
    pub cells: u64,
    /// How many of these were lost.
    pub lost: u64,
}

impl Sent {
    ghost use Rattle.rq_cast.specs.Rounds.{sum_of};

    /// What was sent in both of two rounds, whose parts are the same. A count stays at `u64::MAX`.
    pub fn with(self, next: Sent) -> Sent
        ensures { result ≡ sum_of self next }
    {
        Sent {
            parts: next.parts,
            cells: self.cells.saturating_add(next.cells),
            lost: self.lost.saturating_add(next.lost),
        }
    }
}

/// The object of a part behind parts of these names: its bytes, and the seal behind those of the last one. Refuses
/// [`Error::OutOfMemory`] alone.
pub fn object_of(names: &Names, bytes: Vec<u8>, is_last: bool) -> Result<Vec<u8>, Error>
    ensures object { IfOk result (λ v. (before : List (List ℕ)) → AreNames before names.now → v.items ≡ object_of is_last before bytes.items) }
    ensures memory { IfErr result (λ e. e ≡ Error.OutOfMemory) }
{
    let mut object = bytes;
    if is_last {
        object.extend_from_slice(&names.seal()?)?;
    }
    Ok(object)
}

// A stream, as far as it is sent.
#[derive(Drop)]
struct StreamSender<'a> {
    order: Order,
    key: &'a Key,
    // Of the parts that are sent.
    names: Names,
    known: Known,
    // Of these.
    cells: u64,
    lost: u64,
    pub ghost few: { cells ≤ names.count * 2 ^ 32 },
    pub ghost fewer: { lost ≤ cells },
}

impl<'a> StreamSender<'a> {
    ghost use Rattle.rq_cast.specs.Calls.{Call, lost_in};
    ghost use Rattle.rq_cast.specs.Preparing.{IsPrepared};
    ghost use Rattle.rq_cast.specs.Sent.{sending_of};
    ghost use Rattle.rq_cast.specs.PartSending.{RefusesPart, SendsPart, StopsPart};

    // Makes the sender of the next part.
    fn prepare(&self, alloc: Global, bytes: Vec<u8>, is_last: bool) -> Result<Sender<'a>, Error>
        requires step { 0 < self.now.order.ids.step }
        requires few { self.now.names.count < 2 ^ 30 }
        ensures prepared { IfOk result (λ s. (before : List (List ℕ)) → AreNames before self.now.names
            → IsPrepared self.now.order self.now.key.now is_last before bytes.items (sending_of s)) }
        ensures refused { IfErr result (λ e. (before : List (List ℕ)) → AreNames before self.now.names
            → RefusesPart self.now is_last before bytes.items e) }
    {
        let sealed = object_of(&self.names, bytes, is_last)?;
        let object = sealed.as_slice();
        let (table, configuration) = fitting(alloc, object.len() as u64, self.order.symbol_size)?;
        let part = Part {
            is_last,
            names: &self.names,
            configuration,
            object,
        };
        Sender::of_part(alloc, self.key, &table, &part, &self.order)
    }

    // Sends the next part.
    fn send_part<W: Write, P: Pace>(
        &mut self,
        alloc: Global,
        bytes: Vec<u8>,
        is_last: bool,
        output: &mut Output<W>,
        pace: &mut P,
    ) -> Result<(), Halt>
        requires step { 0 < self.old.order.ids.step }
        requires few { self.old.names.count < 2 ^ 30 }
        requires room { failed_count (counting output.old) < 2 ^ 64 - 2 ^ 32 }
        ensures sends { OnOk result ((before : List (List ℕ)) → AreNames before self.old.names
            → SendsPart is_last before bytes.items self.old self.new (P.calls pace.old) (P.calls pace.new)
            (W.contents (sink output.old)) (W.contents (sink output.new))) }
        ensures counts { OnOk result (CountsLost output.old output.new (self.new.lost - self.old.lost) 0) }
        ensures flushes { OnOk result (flushed output.new ≡ true) }
        ensures stops { IfErr result (λ halt. (before : List (List ℕ)) → AreNames before self.old.names
            → (calls : List Call) × CountsLost output.old output.new (lost_in calls) (halted_calls halt)
            × StopsPart is_last before bytes.items self.old calls (P.calls pace.old) (P.calls pace.new)
            (W.contents (sink output.old)) (W.contents (sink output.new)) halt) }
        ensures order { self.new.order ≡ self.old.order }
        ensures key { self.new.key.now ≡ self.old.key.now }
    {
        let sender = self.prepare(alloc, bytes, is_last)?;
        let index = self.names.count;
        if !self.known.take(index, is_last, &sender.head().name)? {
            return Err(Halt::Changed(index));
        }
        pace.begin_part(&sender);
        let lost = sender.send(alloc, output, pace)?;
        self.cells += sender.cells();
        self.lost += lost;
        self.names.push(&sender.head().name);
        Ok(())
    }
}

/// Sends what is read as a stream, in parts of so many bytes as are ordered, each as soon as it is read: the
/// last one has fewer, perhaps none, and then 32 bytes that seal the stream. Each part is cut in its default
/// configuration (RFC 6330, 4.3) for symbols of at most so many bytes as are ordered, over the built-in rows
/// where it fits them, and else over all rows of section 5.6. Its cells are sent as [`Sender`] says, with
/// checks that are made by a key.
///
/// It waits before each cell, which is one call: on a socket of datagrams a cell is one. Behind each it tells whether
/// the cell is lost ([`Pace`]). Of a short write the
/// rest follows. A cell is lost where its call fails as those do that send a datagram to nobody, nowhere, over a
/// network that is down or without room, and the next one is written then. Behind each part it flushes. Each other failed call ends it
/// with [`Stop::Fault`], and a beginning of a cell may be written.
///
/// It is one round of a stream, as is ordered. `known` is what the round before it answered, and for the first one
/// [`Known::new`]. Behind the first one a part that isn't what it was, or a last one that wasn't, ends it with
/// [`Halt::Changed`] before any of its cells is written.
///
/// Refuses, of each part in this order, [`Error::TransferTooLong`] where 2^30 are sent already, what
/// [`ObjectTransmissionInformation::with_defaults`](raptorq::ObjectTransmissionInformation::with_defaults)
/// refuses, and what [`Encoder::new`](raptorq::Encoder::new) refuses. [`Error::OutOfMemory`] may come before
/// any of them.
pub fn send_stream<R: Read, W: Write, P: Pace>(
    alloc: Global,
    order: &Order,
    key: &Key,
    known: Known,
    reader: &mut Counted<R>,
    output: &mut Output<W>,
    pace: &mut P,
) -> Result<(Sent, Known), Halt>
    requires part { 0 < order.now.part }
    requires step { 0 < order.now.ids.step }
    requires reads { failed_count reader.old < 2 ^ 64 - 1 }
    requires writes { failed_count (counting output.old) < 2 ^ 63 }

    // All that is read is sent.
    ensures sends { IfOk result (λ r. SendsStream order.now key.now known (R.remaining (inner reader.old)) (R.remaining (inner reader.new))
        (W.contents (sink output.old)) (W.contents (sink output.new)) (P.calls pace.old) (P.calls pace.new) r.0 r.1) }
    ensures counts { IfOk result (λ r. CountsLost output.old output.new r.0.lost 0) }
    ensures reader { OnOk result (failed_count reader.new ≡ failed_count reader.old) }
    ensures flushes { OnOk result (flushed output.new ≡ true) }

    // Or the parts before the one at which it stops, and of this one what could be.
    ensures stops { IfErr result (λ halt. (lost : ℕ)
        × StopsStream order.now key.now known (R.remaining (inner reader.old)) (R.remaining (inner reader.new))
        (W.contents (sink output.old)) (W.contents (sink output.new)) (P.calls pace.old) (P.calls pace.new) halt lost
        × CountsStop reader.old reader.new output.old output.new halt lost) }
{
    let mut stream = StreamSender {
        order: *order,
        key,
        names: Names::new(),
        known,
        cells: 0,
        lost: 0,
    };
    'parts: while stream.names.count < MOST_PARTS {
        let bytes = read_part(alloc, reader, order.part)?;
        let is_last = (bytes.len() as u64) < order.part;
        stream.send_part(alloc, bytes, is_last, output, pace)?;
        if is_last {
            let sent = Sent {
                parts: stream.names.count,
                cells: stream.cells,
                lost: stream.lost,
            };
            return Ok((sent, stream.known.behind()));
        }
    }
    Err(Halt::By(Stop::Refused(Error::TransferTooLong)))
}
