//! The lists of a guard.
ghost use Rattle.std.specs.Prelude.{◌≡◌, ◌≢◌, ◌+◌, ◌-◌, ◌<◌, ◌^◌, All, IsOk, List, ℕ, [], None, option_map, vec_items, OnOk, IfOk, IfErr, IfSome};
ghost use Rattle.std.specs.Ordering.{nat_cmp};
ghost use Rattle.std.specs.BTreeMap.{get};
ghost use Rattle.rq_standard.specs.declared.row.TableRow.{TableRow};
ghost use Rattle.rq_standard.specs.TableRows.{greatest_size};
ghost use Rattle.rq_cells.specs.declared.cell.Cell.{Cell};
ghost use Rattle.rq_streams.specs.Counted.{failed_count, inner};
ghost use Rattle.rq_streams.specs.Ends.{failed_calls};
ghost use Rattle.rq_cells.specs.Cells.{Key as CellKey};
ghost use Rattle.rq_cells.specs.Found.{source_of};
ghost use Rattle.rq_cells.specs.Scans.{HasDigest};
ghost use Rattle.rq_cast.specs.Reading.{IsStopOfReads};
ghost use Rattle.rq_guard.specs.Lists.{listed_of};
ghost use Rattle.rq_guard.specs.Damage.{IsList};
ghost use Rattle.rq_guard.specs.ListReading.{is_of_part, list_of_part, list_source, AreSound, ReceivesLists, ReadsLists};

use crate::list::{DigestList, LIST_PART, LIST_SYMBOL_SIZE};
use crate::reading::{CellPass, Decoding};
use rq_base::base::ObjectTransmissionInformation;
use rq_bytes::error::Error;
use rq_cast::{PartReceiver, receive_cell};
use rq_cells::{FoundCell, Head, LAST_PART, NAME_LENGTH, STREAM_LENGTH};
use rq_streams::{Counted, Stop};
use rq_tables::systematic_constants::SystematicTable;
use std::alloc::Global;
use std::collections::BTreeMap;
use std::io::Read;

/// What is received of a guard's lists, each by a receiver of its own.
#[derive(Drop)]
pub(crate) struct ListReceivers {
    // By the index of their cells.
    of: BTreeMap<u32, PartReceiver>,
}

// Whether a head is that of the part of an index of a stream.
fn is_of_part(head: &Head, stream: &[u8; STREAM_LENGTH], index: u32) -> bool
    ensures { result ≡ is_of_part stream.now index head.now }
{
    head.stream == *stream && head.number % LAST_PART == index
}

// The list that bytes spell, if it is that of the part of an index of a stream.
fn list_of_part(
    alloc: Global,
    by: &Decoding<'_>,
    stream: &[u8; STREAM_LENGTH],
    index: u32,
    bytes: &[u8],
) -> Result<Option<DigestList>, Error>
    ensures list { IfOk result (λ o. option_map listed_of o ≡ list_of_part by.now.key.now (greatest_size by.now.table.now) stream.now index bytes.now) }
    ensures usable { IfOk result (λ o. IfSome o (λ l. IsList (listed_of l))) }
    ensures memory { IfErr result (λ e. e ≡ Error.OutOfMemory) }
{
    let Some(list) = DigestList::read(alloc, by.key, by.table, bytes)? else {
        return Ok(None);
    };
    if !is_of_part(&list.head, stream, index) {
        return Ok(None);
    }
    Ok(Some(list))
}

impl ListReceivers {
    ghost use Rattle.rq_guard.specs.ListReading.{HasLists, AreSound, TakesListCell, TakesListCells, IsListIn, AreLists};
    ghost use Rattle.rq_guard.specs.Reading.{cells_of};

    /// Before any cell.
    pub fn new(alloc: Global) -> ListReceivers
        ensures lists { (table : List TableRow) → HasLists table [] result }
        ensures sound { (table : List TableRow) → AreSound table result }
    {
        ListReceivers {
            of: BTreeMap::new(alloc),
        }
    }

    // Takes out what is received of the cells of an index.
    fn lift(&mut self, index: u32) -> Option<PartReceiver>
        ensures value { result ≡ get nat_cmp self.old.of index }
        ensures none { get nat_cmp self.new.of index ≡ None }
        ensures others { (k : ℕ) → k ≢ index → get nat_cmp self.new.of k ≡ get nat_cmp self.old.of k }
    {
        self.of.remove(&index)
    }

    // Puts what is received of them in its place.
    fn put(&mut self, index: u32, place: Option<PartReceiver>) -> Result<(), Error>
        requires { get nat_cmp self.old.of index ≡ None }
        ensures here { OnOk result (get nat_cmp self.new.of index ≡ place) }
        ensures others { OnOk result ((k : ℕ) → k ≢ index → get nat_cmp self.new.of k ≡ get nat_cmp self.old.of k) }
        ensures memory { IfErr result (λ e. e ≡ Error.OutOfMemory) }
    {
        if let Some(receiver) = place {
            let _none = self.of.insert(index, receiver)?;
        }
        Ok(())
    }

    /// Takes a cell of the stream, if it is one of a list. Refuses [`Error::OutOfMemory`] alone.
    pub fn take(
        &mut self,
        alloc: Global,
        table: &SystematicTable,
        found: FoundCell,
    ) -> Result<(), Error>
        requires sound { AreSound table.now self.old }
        requires digest { HasDigest found }
        ensures takes { OnOk result (TakesListCell table.now self.old found.cell self.new) }
        ensures sound { OnOk result (AreSound table.now self.new) }
        ensures memory { IfErr result (λ e. e ≡ Error.OutOfMemory) }
    {
        let index = found.cell.head.number % LAST_PART;
        if index < LIST_PART {
            return Ok(());
        }
        let mut place = self.lift(index);
        let _anew = receive_cell(alloc, table, &mut place, found)?;
        self.put(index, place)
    }

    /// The list of the part of an index of a stream, if it is received. Refuses [`Error::OutOfMemory`] alone.
    pub fn list(
        &self,
        alloc: Global,
        by: &Decoding<'_>,
        stream: &[u8; STREAM_LENGTH],
        index: u32,
    ) -> Result<Option<DigestList>, Error>
        requires index { index < 2 ^ 30 }
        requires sound { AreSound by.now.table.now self.now }
        ensures list { IfOk result (λ o. (came : List Cell) → HasLists by.now.table.now came self.now
            → IsListIn by.now.table.now by.now.key.now stream.now came index (option_map listed_of o)) }
        ensures usable { IfOk result (λ o. IfSome o (λ l. IsList (listed_of l))) }
        ensures memory { IfErr result (λ e. e ≡ Error.OutOfMemory) }
    {
        let Some(receiver) = self.of.get(&(LIST_PART + index)) else {
            return Ok(None);
        };
        match receiver.object() {
            Some(object) => list_of_part(alloc, by, stream, index, object),
            None => Ok(None),
        }
    }

    // Takes cells of the stream, in their order.
    fn take_all(
        &mut self,
        alloc: Global,
        table: &SystematicTable,
        cells: Vec<FoundCell>,
    ) -> Result<(), Error>
        requires sound { AreSound table.now self.old }
        requires digests { All HasDigest cells.items }
        ensures takes { OnOk result (TakesListCells table.now self.old (cells_of cells.items) self.new) }
        ensures sound { OnOk result (AreSound table.now self.new) }
        ensures memory { IfErr result (λ e. e ≡ Error.OutOfMemory) }
    {
        for found in cells {
            self.take(alloc, table, found)?;
        }
        Ok(())
    }

    // The lists of all parts of a stream, if all of them are received.
    fn lists(
        &self,
        alloc: Global,
        by: &Decoding<'_>,
        stream: &[u8; STREAM_LENGTH],
    ) -> Result<Option<Vec<DigestList>>, Error>
        requires { AreSound by.now.table.now self.now }
        ensures lists { IfOk result (λ o. (came : List Cell) → HasLists by.now.table.now came self.now
            → AreLists by.now.table.now by.now.key.now stream.now came (option_map vec_items o)) }
        ensures usable { IfOk result (λ o. IfSome o (λ v. All (λ l. IsList (listed_of l)) v.items)) }
        ensures memory { IfErr result (λ e. e ≡ Error.OutOfMemory) }
    {
        let mut lists = Vec::new(alloc);
        for index in 0..LIST_PART {
            let Some(list) = self.list(alloc, by, stream, index)? else {
                return Ok(None);
            };
            let is_last = list.head.number >= LAST_PART;
            lists.push(list)?;
            if is_last {
                return Ok(Some(lists));
            }
        }
        Ok(None)
    }
}

// A head like those of the cells of a stream's lists.
fn list_like(stream: &[u8; STREAM_LENGTH]) -> Result<Head, Error>
    ensures like { IfOk result (λ h. (key : CellKey) → source_of key h ≡ list_source key stream.now) }
    ensures some { IsOk result }
{
    Ok(Head {
        stream: *stream,
        number: LIST_PART,
        name: [0; NAME_LENGTH],
        configuration: ObjectTransmissionInformation::new(0, LIST_SYMBOL_SIZE, 1, 1, 1)?,
    })
}

// Receives the lists of a stream from all that a reader brings.
fn receive_lists<R: Read>(
    alloc: Global,
    by: &Decoding<'_>,
    stream: &[u8; STREAM_LENGTH],
    reader: &mut Counted<R>,
) -> Result<ListReceivers, Stop>
    requires { failed_count reader.old < 2 ^ 64 - 1 }
    ensures receives { IfOk result (ReceivesLists by.now.table.now by.now.key.now stream.now (R.remaining (inner reader.old)) (R.remaining (inner reader.new))) }
    ensures sound { IfOk result (AreSound by.now.table.now) }
    ensures counts { failed_count reader.new ≡ failed_count reader.old + failed_calls result }
    ensures stops { IfErr result IsStopOfReads }
{
    let mut pass = CellPass::new(alloc, by.key, &list_like(stream)?)?;
    let mut lists = ListReceivers::new(alloc);
    // For the proof that it ends: more reads than these are never made.
    'reading: for _reads in 0..u64::MAX {
        let Some(found) = pass.read(alloc, reader)? else {
            return Ok(lists);
        };
        lists.take_all(alloc, by.table, found)?;
    }
    Ok(lists)
}

/// The lists in a guard of all parts of a stream, the last of which is that of the last part: none where one of them
/// isn't there. They are among the cells of the stream with symbols of 1024 bytes, at all places of what a reader
/// brings. A failed call ends it with [`Stop::Fault`]. Refuses [`Error::OutOfMemory`] alone.
pub fn lists_in<R: Read>(
    alloc: Global,
    by: &Decoding<'_>,
    stream: &[u8; STREAM_LENGTH],
    reader: &mut Counted<R>,
) -> Result<Option<Vec<DigestList>>, Stop>
    requires { failed_count reader.old < 2 ^ 64 - 1 }
    ensures lists { IfOk result (λ o. ReadsLists by.now.table.now by.now.key.now stream.now (R.remaining (inner reader.old)) (R.remaining (inner reader.new))
        (option_map vec_items o)) }
    ensures usable { IfOk result (λ o. IfSome o (λ v. All (λ l. IsList (listed_of l)) v.items)) }
    ensures counts { failed_count reader.new ≡ failed_count reader.old + failed_calls result }
    ensures stops { IfErr result IsStopOfReads }
{
    let received = receive_lists(alloc, by, stream, reader)?;
    Ok(received.lists(alloc, by, stream)?)
}
