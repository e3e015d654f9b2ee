//! How a file's guard is written.
ghost use Rattle.std.specs.Prelude.{◌≡◌, ℕ, ◌+◌, ◌-◌, ◌*◌, ◌^◌, ◌<◌, ◌≤◌, List, IfOk, IfErr, OnOk, true};
ghost use Rattle.rq_streams.specs.Counted.{failed_count, inner};
ghost use Rattle.rq_cast.specs.Names.{AreNames};
ghost use Rattle.rq_cast.specs.Output.{counting, sink, flushed, CountsLost};
ghost use Rattle.rq_cast.specs.Sent.{sending_of};
ghost use Rattle.rq_guard.specs.Lists.{listed_of};
ghost use Rattle.rq_guard.specs.Protecting.{IsListSending, RefusesList, SendsAll, StopsAll, CountsFault, Protects, StopsProtecting, CountsStop};

use crate::layout::layout_of;
use crate::list::{DigestList, LIST_PART, LIST_SYMBOL_SIZE};
use raptorq::error::Error;
use rq_cast::{
    Digested, MOST_PARTS, Names, Output, Pace, Part, Repair, Sender, Series, fitting, object_of,
    part_head, read_part,
};
use rq_cells::{Head, Key, part_name};
use rq_rows::full_table;
use rq_streams::{Counted, Stop};
use std::alloc::Global;
use std::io::{Read, Write};

/// How a guard is made.
#[derive(Clone, Copy, Debug, PartialEq, Eq)]
pub struct GuardOrder {
    /// How many bytes a part has: not 0. The last one has fewer.
    pub part: u64,
    /// How many repair packets a part has.
    pub repair: Repair,
}

/// How much a guard has.
#[derive(Clone, Copy, Debug, Default, PartialEq, Eq)]
pub struct Guarded {
    /// How many parts the file has.
    pub parts: u32,
    /// How many cells the guard has.
    pub cells: u64,
}

// A half of a list's cells: either is enough for it.
#[derive(Clone, Copy)]
enum Half {
    // Those of the source symbols.
    Source,
    // Of each block two more repair cells than the largest one has source symbols: so many don't determine it once in
    // a million.
    Spare,
}

impl Half {
    ghost use Rattle.rq_guard.specs.Protecting.{IsListSeries};

    // The ids, where the largest block has so many source symbols.
    fn series(self, largest_block: u64) -> Series
        requires { largest_block < 65536 }
        ensures { IsListSeries self largest_block result }
    {
        let symbols = largest_block as u32;
        match self {
            Half::Source => Series::new(0, 1, symbols),
            Half::Spare => Series::new(symbols, 1, 2 * symbols + 2),
        }
    }
}

// The sender of the cells of a half of a list.
fn list_sender<'a>(
    alloc: Global,
    key: &'a Key,
    list: &DigestList,
    half: Half,
) -> Result<Sender<'a>, Error>
    requires { list.now.head.number + 2 ^ 30 < 2 ^ 32 }
    ensures sends { IfOk result (λ s. IsListSending key.now (listed_of list.now) half (sending_of s)) }
    ensures refused { IfErr result (RefusesList key.now (listed_of list.now)) }
{
    let serialized = list.serialize(alloc, key)?;
    let bytes = serialized.as_slice();
    let (table, configuration) = fitting(alloc, bytes.len() as u64, LIST_SYMBOL_SIZE)?;
    let digested = Digested::new(alloc, &table, configuration, bytes)?;
    let number = list.head.number + LIST_PART;
    let head = Head {
        stream: list.head.stream,
        number,
        name: part_name(number, &configuration, digested.digests()),
        configuration,
    };
    let series = half.series(digested.largest_block());
    Ok(Sender::new(key, digested, head, series))
}

// Writes all cells of a sender. It stops where one is lost.
fn send_all<W: Write, P: Pace>(
    alloc: Global,
    sender: &Sender<'_>,
    output: &mut Output<W>,
    pace: &mut P,
) -> Result<(), Stop>
    requires { failed_count (counting output.old) < 2 ^ 64 - 2 ^ 32 }
    ensures sends { OnOk result (SendsAll (sending_of sender.now) (W.contents (sink output.old)) (W.contents (sink output.new))) }
    ensures counts { OnOk result (CountsLost output.old output.new 0 0) }
    ensures flushes { OnOk result (flushed output.new ≡ true) }
    ensures stops { IfErr result (StopsAll (sending_of sender.now) (W.contents (sink output.old)) (W.contents (sink output.new))) }
    ensures failed { IfErr result (CountsFault output.old output.new) }
{
    let lost = sender.send(alloc, output, pace)?;
    if lost > 0 {
        return Err(Stop::Fault);
    }
    Ok(())
}

// What sends the guard of a part, in this order: so a hole over one half of the list leaves the other.
#[derive(Drop)]
struct Senders<'a> {
    // The source cells of its list.
    list: Sender<'a>,
    // Its repair cells.
    part: Sender<'a>,
    // The repair cells of its list.
    spare: Sender<'a>,
}

impl Senders<'_> {
    ghost use Rattle.rq_guard.specs.Protecting.{guard_cells, SendsGuard, StopsGuard};
    ghost use Rattle.rq_guard.specs.ProtectingParts.{guarding_of};

    // How many cells they have.
    fn cells(&self) -> u64
        ensures value { result ≡ guard_cells (guarding_of self.now) }
        ensures few { result < 2 ^ 34 }
    {
        self.list.cells() + self.part.cells() + self.spare.cells()
    }

    // Writes all of these. It stops where one is lost.
    fn send<W: Write, P: Pace>(
        &self,
        alloc: Global,
        output: &mut Output<W>,
        pace: &mut P,
    ) -> Result<(), Stop>
        requires { failed_count (counting output.old) < 2 ^ 63 }
        ensures sends { OnOk result (SendsGuard (guarding_of self.now) (W.contents (sink output.old)) (W.contents (sink output.new))) }
        ensures counts { OnOk result (CountsLost output.old output.new 0 0) }
        ensures flushes { OnOk result (flushed output.new ≡ true) }
        ensures stops { IfErr result (StopsGuard (guarding_of self.now) (W.contents (sink output.old)) (W.contents (sink output.new))) }
        ensures failed { IfErr result (CountsFault output.old output.new) }
    {
        pace.begin_part(&self.part);
        send_all(alloc, &self.list, output, pace)?;
        send_all(alloc, &self.part, output, pace)?;
        send_all(alloc, &self.spare, output, pace)?;
        Ok(())
    }
}

// The bytes of the next part of a file, and whether it is the last one.
#[derive(Drop)]
struct NextPart {
    bytes: Vec<u8>,
    is_last: bool,
}

// A file, as far as it is guarded.
#[derive(Drop)]
struct Protector<'a> {
    order: GuardOrder,
    key: &'a Key,
    // Of the parts that are guarded.
    names: Names,
    // Of these.
    cells: u64,
    pub ghost few: { cells ≤ names.count * 2 ^ 34 },
}

impl<'a> Protector<'a> {
    ghost use Rattle.rq_guard.specs.Protecting.{IsGuarding, RefusesGuarding};
    ghost use Rattle.rq_guard.specs.ProtectingParts.{guarding_of, GuardsPart, StopsPart};

    // Makes the senders of what guards the next part.
    fn prepare(&self, alloc: Global, bytes: Vec<u8>, is_last: bool) -> Result<Senders<'a>, Error>
        requires { self.now.names.count < 2 ^ 30 }
        ensures prepared { IfOk result (λ s. (before : List (List ℕ)) → AreNames before self.now.names
            → IsGuarding self.now.order self.now.key.now is_last before bytes.items (guarding_of s)) }
        ensures refused { IfErr result (λ e. (before : List (List ℕ)) → AreNames before self.now.names
            → RefusesGuarding self.now.key.now is_last before bytes.items e) }
    {
        let sealed = object_of(&self.names, bytes, is_last)?;
        let object = sealed.as_slice();
        let configuration = layout_of(object.len() as u64)?;
        let table = full_table(alloc)?;
        let digested = Digested::new(alloc, &table, configuration, object)?;
        let part = Part {
            is_last,
            names: &self.names,
            configuration,
            object,
        };
        let head = part_head(&part, digested.digests());
        let listed = DigestList::new(alloc, &head, digested.digests())?;
        let list = list_sender(alloc, self.key, &listed, Half::Source)?;
        let spare = list_sender(alloc, self.key, &listed, Half::Spare)?;
        let symbols = digested.largest_block();
        let series = Series::new(symbols as u32, 1, self.order.repair.end(symbols));
        let part = Sender::new(self.key, digested, head, series);
        Ok(Senders { list, part, spare })
    }

    // Guards the next part.
    fn guard_part<W: Write, P: Pace>(
        &mut self,
        alloc: Global,
        next: NextPart,
        output: &mut Output<W>,
        pace: &mut P,
    ) -> Result<(), Stop>
        requires few { self.old.names.count < 2 ^ 30 }
        requires room { failed_count (counting output.old) < 2 ^ 63 }
        ensures guards { OnOk result ((before : List (List ℕ)) → AreNames before self.old.names
            → GuardsPart next.is_last before next.bytes.items self.old self.new (W.contents (sink output.old)) (W.contents (sink output.new))) }
        ensures counts { OnOk result (CountsLost output.old output.new 0 0) }
        ensures flushes { OnOk result (flushed output.new ≡ true) }
        ensures stops { IfErr result (λ stop. (before : List (List ℕ)) → AreNames before self.old.names
            → StopsPart next.is_last before next.bytes.items self.old (W.contents (sink output.old)) (W.contents (sink output.new)) stop) }
        ensures failed { IfErr result (CountsFault output.old output.new) }
        ensures order { self.new.order ≡ self.old.order }
        ensures key { self.new.key.now ≡ self.old.key.now }
    {
        let NextPart { bytes, is_last } = next;
        let senders = self.prepare(alloc, bytes, is_last)?;
        senders.send(alloc, output, pace)?;
        self.cells += senders.cells();
        self.names.push(&senders.part.head().name);
        Ok(())
    }
}

/// Writes the guard of what is read: of each of its parts the source cells of the list of its digests, then its repair
/// cells, and then the list's. It is cut into parts of so many bytes as are ordered, each of which is guarded as soon
/// as it is read: the last one has fewer, perhaps none, and then 32 bytes that seal it, as
/// [`send_stream`](rq_cast::send_stream) cuts a stream. The cells are those of that stream, whose parts are cut as
/// [`layout_of`] says; their source symbols stay in the file.
///
/// A [`DigestList`] is sent as a part whose number has [`LIST_PART`] too, in its default configuration (RFC 6330,
/// 4.3) for symbols of at most [`LIST_SYMBOL_SIZE`] bytes. Of each of its blocks two more repair cells are sent than
/// the largest one has source symbols. Of a part the packets behind its source symbols are sent, as many as are
/// ordered.
///
/// A part is begun before the cells of its list, and it waits before each cell ([`Pace`]). The first failed call ends
/// it with [`Stop::Fault`], but for those by which a socket of datagrams loses a cell: they end it once the other cells
/// of the part, or of that half of its list, are written.
///
/// Refuses, of each part in this order, [`Error::TransferTooLong`] where 2^30 are guarded already, what [`layout_of`]
/// refuses, and what [`Encoder::new`](raptorq::Encoder::new) refuses. [`Error::OutOfMemory`] may come before any of
/// them.
pub fn protect<R: Read, W: Write, P: Pace>(
    alloc: Global,
    order: &GuardOrder,
    key: &Key,
    reader: &mut Counted<R>,
    output: &mut Output<W>,
    pace: &mut P,
) -> Result<Guarded, Stop>
    requires part { 0 < order.now.part }
    requires reads { failed_count reader.old < 2 ^ 64 - 1 }
    requires writes { failed_count (counting output.old) < 2 ^ 63 }

    // All that is read is guarded.
    ensures protects { IfOk result (Protects order.now key.now (R.remaining (inner reader.old)) (R.remaining (inner reader.new))
        (W.contents (sink output.old)) (W.contents (sink output.new))) }
    ensures counts { OnOk result (CountsLost output.old output.new 0 0) }
    ensures reader { OnOk result (failed_count reader.new ≡ failed_count reader.old) }
    ensures flushes { OnOk result (flushed output.new ≡ true) }

    // Or the parts before the one at which it stops, and of this one what could be.
    ensures stops { IfErr result (StopsProtecting order.now key.now (R.remaining (inner reader.old)) (R.remaining (inner reader.new))
        (W.contents (sink output.old)) (W.contents (sink output.new))) }
    ensures failed { IfErr result (CountsStop reader.old reader.new output.old output.new) }
{
    let mut file = Protector {
        order: *order,
        key,
        names: Names::new(),
        cells: 0,
    };
    'parts: while file.names.count < MOST_PARTS {
        let bytes = read_part(alloc, reader, order.part)?;
        let is_last = (bytes.len() as u64) < order.part;
        file.guard_part(alloc, NextPart { bytes, is_last }, output, pace)?;
        if is_last {
            return Ok(Guarded {
                parts: file.names.count,
                cells: file.cells,
            });
        }
    }
    Err(Stop::Refused(Error::TransferTooLong))
}
