//! How a part's cells are sent.
ghost use Rattle.std.specs.Prelude.{◌≡◌, ℕ, ◌+◌, ◌-◌, ◌%◌, ◌^◌, ◌<◌, ◌≤◌, OnOk, OnErr, IfOk, IfErr, List, [], take, drop, length, true};
ghost use Rattle.std.specs.Io.KnownBytes.{Appends};
ghost use Rattle.raptorq.specs.Encoder.{encoded_of, IsFrameIn};
ghost use Rattle.rq_streams.specs.Counted.{failed_count};
ghost use Rattle.rq_streams.specs.Ends.{failed_calls};
ghost use Rattle.rq_cells.specs.Cells.{digest_of};
ghost use Rattle.rq_cast.specs.Calls.{Tells, one_call};
ghost use Rattle.rq_cast.specs.Names.{AreNames};
ghost use Rattle.rq_cast.specs.Parts.{source_digests, number_of, part_head};
ghost use Rattle.rq_cast.specs.Output.{counting, sink, lost_count, flushed};
ghost use Rattle.rq_cast.specs.Writing.{AreDigestsIn, IsRoom, WritesCell, failed_writes, loses_cell, lost_cells};

mod rows;

use crate::digested::Digested;
use crate::losing::loses;
use crate::names::Names;
use crate::order::Order;
use crate::output::Output;
use crate::pace::Pace;
use crate::series::Series;
use raptorq::error::Error;
use raptorq::systematic_constants::SystematicTable;
use raptorq::{Encoder, ObjectTransmissionInformation};
use rq_cells::{DIGEST_LENGTH, Head, Key, LAST_PART, part_name};
use rq_streams::Stop;
use std::alloc::Global;
use std::io::Write;

// How many blocks are sent side by side.
const GROUP: u64 = 8;

// Writes a cell, by one call so that a datagram is one, and of a short write the rest behind it.
// Answers whether it is written: else the network lost it.
fn write_cell<W: Write, P: Pace>(
    output: &mut Output<W>,
    cell: &[u8],
    pace: &mut P,
) -> Result<bool, Stop>
    requires some { 0 < length cell.now }
    requires room { failed_count (counting output.old) < 2 ^ 64 - 1 }
    ensures writes { IfOk result (WritesCell (W.contents (sink output.old)) (W.contents (sink output.new)) cell.now) }
    ensures counts { failed_count (counting output.new) ≡ failed_count (counting output.old) + failed_writes result }
    ensures lost { lost_count output.new ≡ lost_count output.old + lost_cells result }
    ensures told { Tells (P.calls pace.old) (P.calls pace.new) (one_call cell.now (loses_cell result)) }
    ensures stops { IfErr result (λ stop. stop ≡ Stop.Fault) }
    ensures beginning { OnErr result ((n : ℕ)
        × Appends (W.contents (sink output.old)) (W.contents (sink output.new)) (take n cell.now)) }
{
    match output.begin(cell, pace) {
        Ok(0) => Err(Stop::Fault),
        Ok(n) => {
            output.write_rest(&cell[n..])?;
            Ok(true)
        }
        Err(error) if loses(&error) => Ok(false),
        Err(_) => Err(Stop::Fault),
    }
}

/// An object, and which part of a stream it is.
#[derive(Clone, Copy)]
pub struct Part<'a> {
    /// Whether it is the last one.
    pub is_last: bool,
    /// The names of all parts before it.
    pub names: &'a Names,
    /// How it is cut.
    pub configuration: ObjectTransmissionInformation,
    /// Its bytes.
    pub object: &'a [u8],
}

/// The head of a part, by the digests of its source symbols.
pub fn part_head(part: &Part<'_>, digests: &[[u8; DIGEST_LENGTH]]) -> Head
    requires few { part.now.names.now.count < 2 ^ 30 }
    ensures configuration { result.configuration ≡ part.now.configuration }
    ensures number { result.number ≡ number_of part.now.is_last part.now.names.now.count }
    ensures head { (names : List (List ℕ)) → AreNames names part.now.names.now
        → digests.now ≡ source_digests part.now.configuration part.now.object.now
        → result ≡ part_head part.now.is_last names part.now.configuration part.now.object.now }
{
    let index = part.names.count;
    let number = if part.is_last {
        index + LAST_PART
    } else {
        index
    };
    let name = part_name(number, &part.configuration, digests);
    Head {
        stream: part.names.stream_behind(&name),
        number,
        name,
        configuration: part.configuration,
    }
}

/// Sends the cells of a part of a stream: those of its blocks in groups of eight, one group behind another, in
/// a group id by id, and of an id that of each block in turn.
#[derive(Drop)]
pub struct Sender<'a> {
    key: &'a Key,
    encoder: Encoder,
    // Of all source symbols, block by block.
    digests: Vec<[u8; DIGEST_LENGTH]>,
    head: Head,
    series: Series,
    pub ghost same: { head.configuration ≡ (encoded_of encoder).configuration },
    pub ghost digested: { ∥ AreDigestsIn (encoded_of encoder) digests.items ∥₁ },
}

impl<'a> Sender<'a> {
    ghost use Rattle.rq_standard.specs.Configuration.{largest_block};
    ghost use Rattle.rq_standard.specs.Packet.{SymbolId};
    ghost use Rattle.raptorq.specs.Refused.{RefusesEncoder};
    ghost use Rattle.rq_cast.specs.Sent.{Sending, IsSendingOf, IsSeriesOf, encoded_by, sending_of, cell_count, sent_id, SendsFirst, StopsSending};
    ghost use Rattle.rq_cast.specs.Calls.{Call, lost_in};
    ghost use Rattle.rq_cast.specs.Output.{CountsLost};

    /// The sender of an object's symbols with these ids, in cells that begin with a head, and whose checks are made
    /// by a key.
    pub fn new(key: &'a Key, object: Digested, head: Head, series: Series) -> Sender<'a>
        requires { head.configuration ≡ (encoded_by object).configuration }
        ensures { sending_of result ≡ record { key = key.now; encoded = encoded_by object; head = head; series = series } }
    {
        let Digested { encoder, digests } = object;
        Sender {
            key,
            encoder,
            digests,
            head,
            series,
        }
    }

    /// The sender of a part, in cells whose checks are made by a key. It sends the symbols whose ids are
    /// ordered, up to the last source symbol of the largest block, and to so many repair symbols behind it; in a
    /// later round as many that follow.
    /// Where the first is none of these it sends nothing.
    ///
    /// Refuses what [`Encoder::new`] refuses.
    pub(crate) fn of_part(
        alloc: Global,
        key: &'a Key,
        table: &SystematicTable,
        part: &Part<'_>,
        order: &Order,
    ) -> Result<Sender<'a>, Error>
        requires step { 0 < order.now.ids.step }
        requires few { part.now.names.now.count < 2 ^ 30 }
        ensures refused { IfErr result (RefusesEncoder table.now part.now.configuration (length part.now.object.now)) }
        ensures sends { IfOk result (λ s. (names : List (List ℕ)) → AreNames names part.now.names.now
            → IsSendingOf table.now part.now.is_last names part.now.object.now (sending_of s)) }
        ensures configuration { IfOk result (λ s. (sending_of s).encoded.configuration ≡ part.now.configuration) }
        ensures keyed { IfOk result (λ s. (sending_of s).key ≡ key.now) }
        ensures series { IfOk result (λ s. IsSeriesOf order.now.ids (largest_block part.now.configuration) order.now.repair (sending_of s).series) }
    {
        let object = Digested::new(alloc, table, part.configuration, part.object)?;
        let head = part_head(part, object.digests());
        let end = order.repair.end(object.largest_block());
        let begun = Series::new(order.ids.first, order.ids.step, end);
        let series = begun.in_round(order.ids.round);
        Ok(Sender::new(key, object, head, series))
    }

    /// What all its cells begin with.
    pub fn head(&self) -> Head
        ensures { result ≡ (sending_of self.now).head }
    {
        self.head
    }

    /// The index of its part, from 0.
    pub fn index(&self) -> u32
        ensures { result ≡ (sending_of self.now).head.number % 2 ^ 31 }
    {
        self.head.number % LAST_PART
    }

    /// How many source symbols the largest block of its object has (RFC 6330, section 4.4.1.2).
    pub fn largest_block(&self) -> u64
        ensures { result ≡ largest_block (sending_of self.now).encoded.configuration }
    {
        self.encoder.get_config().largest_block()
    }

    /// How many cells it sends.
    pub fn cells(&self) -> u64
        ensures value { result ≡ cell_count (sending_of self.now) }
        ensures few { result < 2 ^ 32 }
    {
        u64::from(self.series.count) * u64::from(self.encoder.get_config().source_blocks())
    }

    // Which symbol the cell of a number carries: its block, and its encoding symbol id.
    fn place(&self, number: u64) -> (u8, u32)
        requires { number < cell_count (sending_of self.now) }
        ensures block { result.0 ≡ (sent_id (sending_of self.now) number).block }
        ensures id { result.1 ≡ (sent_id (sending_of self.now) number).esi }
        ensures known { result.0 < (sending_of self.now).encoded.configuration.source_blocks }
        ensures few { result.1 < 2 ^ 24 }
    {
        let blocks = u64::from(self.encoder.get_config().source_blocks());
        let whole = GROUP * u64::from(self.series.count);
        let first = GROUP * (number / whole);
        let width = GROUP.min(blocks - first);
        let place = number % whole;
        let esi = self.series.first + self.series.step * (place / width) as u32;
        ((first + place % width) as u8, esi)
    }

    /// Writes its cells, one of each block for each id, and flushes then. Answers how many were lost.
    ///
    /// It waits before each cell, which is one call: on a socket of datagrams a cell is one. Behind each it tells
    /// whether the cell is lost. Of a
    /// short write the rest follows. A cell is lost where its call fails as those do that
    /// send a datagram to nobody, nowhere, over a network that is down or without room, and the next one
    /// is written then. Each other failed call ends it with [`Stop::Fault`], and a beginning of a cell
    /// may be written. Refuses [`Error::OutOfMemory`] alone, before the first cell.
    pub fn send<W: Write, P: Pace>(
        &self,
        alloc: Global,
        output: &mut Output<W>,
        pace: &mut P,
    ) -> Result<u64, Stop>
        requires { failed_count (counting output.old) < 2 ^ 64 - 2 ^ 32 }
        ensures sends { IfOk result (λ lost. (calls : List Call) × (lost ≡ lost_in calls)
            × SendsFirst (sending_of self.now) (cell_count (sending_of self.now)) calls [] [] (P.calls pace.old) (P.calls pace.new)
            (W.contents (sink output.old)) (W.contents (sink output.new))) }
        ensures counts { IfOk result (λ lost. CountsLost output.old output.new lost 0) }
        ensures few { IfOk result (λ lost. lost ≤ cell_count (sending_of self.now)) }
        ensures flushes { OnOk result (flushed output.new ≡ true) }
        ensures stops { IfErr result (λ stop. (calls : List Call) × CountsLost output.old output.new (lost_in calls) (failed_calls result)
            × StopsSending (sending_of self.now) calls (P.calls pace.old) (P.calls pace.new)
            (W.contents (sink output.old)) (W.contents (sink output.new)) stop) }
    {
        let mut row = self.row(alloc)?;
        let mut lost = 0;
        for number in 0..self.cells() {
            self.make(number, &mut row);
            let cell = row.cells[(number - row.from) as usize].as_slice();
            pace.wait(cell.len());
            if !write_cell(output, cell, pace)? {
                lost += 1;
            }
        }
        output.flush()?;
        Ok(lost)
    }
}
