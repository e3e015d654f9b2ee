//! Cells that are made side by side, so that the digests of their symbols are made together.
ghost use Rattle.std.specs.Prelude.{◌≡◌, ℕ, ◌+◌, ◌^◌, ◌<◌, ◌≤◌, List, [], length, map, take, drop, vec_items, slice_index_or, All, IfSome, IfOk, IfErr};
ghost use Rattle.rq_standard.specs.Streams.{frame_size};
ghost use Rattle.sha2.specs.Sha512.{sha512};
ghost use Rattle.rq_cast.specs.Rows.{AreRooms, HasPacket, HasPacketOf, HavePackets, symbol_digest, AreSymbolDigests, AreSentCells};
ghost use Rattle.rq_cast.specs.Writing.{IsRoom};

use super::Sender;
use crate::parts::first_bytes;
use raptorq::base::PAYLOAD_ID_LENGTH;
use raptorq::error::Error;
use raptorq::{block_symbols, symbols_before};
use rq_cells::{DIGEST_LENGTH, HEAD_LENGTH, Head, Key, write_check};
use rq_digests::all_digests;
use std::alloc::Global;

// How many there are at most.
const ROW: usize = 8;

// Where a cell's symbol begins.
const SYMBOL_PLACE: usize = HEAD_LENGTH + PAYLOAD_ID_LENGTH;

// Room for a cell with a head, which stands there already.
fn cell_room(alloc: Global, key: &Key, head: Head) -> Result<Vec<u8>, Error>
    ensures room { IfOk result (λ v. IsRoom key.now head v.items) }
    ensures memory { IfErr result (λ e. e ≡ Error.OutOfMemory) }
{
    let mut room = head.serialize(alloc, key)?;
    room.resize(head.cell_length(), 0)?;
    Ok(room)
}

// Room for as many cells with a head.
fn row_room(alloc: Global, key: &Key, head: Head) -> Result<Vec<Vec<u8>>, Error>
    ensures rooms { IfOk result (λ v. AreRooms key.now head (map vec_items v.items)) }
    ensures count { IfOk result (λ v. length v.items ≡ 8) }
    ensures memory { IfErr result (λ e. e ≡ Error.OutOfMemory) }
{
    let mut row = Vec::with_capacity(alloc, ROW)?;
    for _cell in 0..ROW {
        row.push(cell_room(alloc, key, head)?)?;
    }
    Ok(row)
}

/// Room for cells side by side, each of which is written over another, and which of them stand there.
#[derive(Drop)]
pub(super) struct Row {
    /// The cells, where they stand there.
    pub cells: Vec<Vec<u8>>,
    /// The number of the first.
    pub from: u64,
    /// The number of the first that doesn't stand there behind it.
    pub end: u64,
}

// The SHA-512 of the symbol of each cell of a row, of so many bytes; the rest are zeros.
fn hashes_in(row: &[Vec<u8>], size: usize) -> [[u8; 64]; ROW]
    requires few { length row.now ≤ 8 }
    requires long { All (λ v. 56 + size ≤ length v.items) row.now }
    ensures { take (length row.now) result ≡ map (λ cell. sha512 (take size (drop 56 cell))) (map vec_items row.now) }
{
    let mut messages: [&[u8]; ROW] = [&[]; ROW];
    for j in 0..row.len() {
        messages[j] = &row[j].as_slice()[SYMBOL_PLACE..SYMBOL_PLACE + size];
    }
    let mut hashes = [[0; 64]; ROW];
    all_digests(&messages[..row.len()], &mut hashes[..row.len()]);
    hashes
}

// The digests that hashes begin with.
fn digests_by(hashes: &[[u8; 64]; ROW]) -> [[u8; DIGEST_LENGTH]; ROW]
    ensures { result ≡ map (take 32) hashes.now }
{
    let mut digests = [[0; DIGEST_LENGTH]; ROW];
    for j in 0..ROW {
        digests[j] = first_bytes(&hashes[j]);
    }
    digests
}

impl Sender<'_> {
    ghost use Rattle.rq_cast.specs.Rows.{HoldsCells};
    ghost use Rattle.rq_cast.specs.Sent.{sending_of, cell_count, IsSentCell};

    // Writes the packet of an encoding symbol id of a block, of so many bytes, behind the head of a cell.
    fn put_packet(&self, block: u8, esi: u32, length: usize, cell: &mut [u8])
        requires block { block < (sending_of self.now).encoded.configuration.source_blocks }
        requires id { esi < 2 ^ 24 }
        requires length { length ≡ frame_size (sending_of self.now).encoded.configuration }
        requires room { IsRoom (sending_of self.now).key (sending_of self.now).head cell.old }
        ensures packet { HasPacket (sending_of self.now).encoded block esi cell.new }
        ensures room { IsRoom (sending_of self.now).key (sending_of self.now).head cell.new }
    {
        let (_, behind) = cell.split_at_mut(HEAD_LENGTH);
        let (packet, _) = behind.split_at_mut(length);
        self.encoder.write_packet(block, esi, packet);
    }

    // The same for the cells of the numbers from one on.
    fn put_packets(&self, first: u64, row: &mut [Vec<u8>])
        requires numbers { first + length row.old ≤ cell_count (sending_of self.now) }
        requires rooms { AreRooms (sending_of self.now).key (sending_of self.now).head (map vec_items row.old) }
        ensures packets { HavePackets (sending_of self.now) first (map vec_items row.new) }
        ensures rooms { AreRooms (sending_of self.now).key (sending_of self.now).head (map vec_items row.new) }
    {
        let length = self.encoder.get_config().frame_size();
        let mut number = first;
        for cell in row {
            let (block, esi) = self.place(number);
            self.put_packet(block, esi, length, cell.as_mut_slice());
            number += 1;
        }
    }

    // The digests of the symbols in the cells of so many numbers from one on, where all are source symbols: they
    // are there already.
    fn known_digests(&self, first: u64, count: usize) -> Option<[[u8; DIGEST_LENGTH]; ROW]>
        requires few { count ≤ 8 }
        requires numbers { first + count ≤ cell_count (sending_of self.now) }
        ensures { IfSome result (λ digests. (j : ℕ) (cell : List ℕ) → j < count → HasPacketOf (sending_of self.now) (first + j) cell
            → slice_index_or digests j [] ≡ symbol_digest (sending_of self.now).encoded cell) }
    {
        let config = self.encoder.get_config();
        let mut digests = [[0; DIGEST_LENGTH]; ROW];
        for j in 0..count {
            let (block, esi) = self.place(first + j as u64);
            if esi >= block_symbols(&config, block) {
                return None;
            }
            let before = symbols_before(&config, block) as usize;
            digests[j] = self.digests[before + esi as usize];
        }
        Some(digests)
    }

    // The digests of the symbols in the cells of the numbers from one on, whose packets stand there.
    fn digests_in(&self, first: u64, row: &[Vec<u8>]) -> [[u8; DIGEST_LENGTH]; ROW]
        requires few { length row.now ≤ 8 }
        requires numbers { first + length row.now ≤ cell_count (sending_of self.now) }
        requires rooms { AreRooms (sending_of self.now).key (sending_of self.now).head (map vec_items row.now) }
        requires packets { HavePackets (sending_of self.now) first (map vec_items row.now) }
        ensures { AreSymbolDigests (sending_of self.now).encoded (map vec_items row.now) result }
    {
        match self.known_digests(first, row.len()) {
            Some(digests) => digests,
            None => {
                let size = self.encoder.get_config().symbol_size();
                digests_by(&hashes_in(row, usize::from(size)))
            }
        }
    }

    // Writes the check of a cell by the digest of its symbol.
    fn put_check(&self, digest: &[u8; DIGEST_LENGTH], cell: &mut [u8])
        requires room { IsRoom (sending_of self.now).key (sending_of self.now).head cell.old }
        ensures room { IsRoom (sending_of self.now).key (sending_of self.now).head cell.new }
        ensures cell { (number : ℕ) → HasPacketOf (sending_of self.now) number cell.old
            → digest.now ≡ symbol_digest (sending_of self.now).encoded cell.old → IsSentCell (sending_of self.now) number cell.new }
    {
        write_check(self.key, digest, cell);
    }

    // The same for each of some cells.
    fn put_checks(&self, digests: &[[u8; DIGEST_LENGTH]; ROW], row: &mut [Vec<u8>])
        requires few { length row.old ≤ 8 }
        requires rooms { AreRooms (sending_of self.now).key (sending_of self.now).head (map vec_items row.old) }
        ensures rooms { AreRooms (sending_of self.now).key (sending_of self.now).head (map vec_items row.new) }
        ensures cells { (first : ℕ) → HavePackets (sending_of self.now) first (map vec_items row.old)
            → AreSymbolDigests (sending_of self.now).encoded (map vec_items row.old) digests.now
            → AreSentCells (sending_of self.now) first (map vec_items row.new) }
    {
        let mut number = 0;
        for cell in row {
            self.put_check(&digests[number], cell.as_mut_slice());
            number += 1;
        }
    }

    // Writes the cells of the numbers from one on, each over another cell of its part.
    fn put_cells(&self, first: u64, row: &mut [Vec<u8>])
        requires few { length row.old ≤ 8 }
        requires numbers { first + length row.old ≤ cell_count (sending_of self.now) }
        requires rooms { AreRooms (sending_of self.now).key (sending_of self.now).head (map vec_items row.old) }
        ensures cells { AreSentCells (sending_of self.now) first (map vec_items row.new) }
        ensures rooms { AreRooms (sending_of self.now).key (sending_of self.now).head (map vec_items row.new) }
    {
        self.put_packets(first, row);
        let digests = self.digests_in(first, row);
        self.put_checks(&digests, row);
    }

    /// A row with none of its cells. Refuses [`Error::OutOfMemory`] alone.
    pub(super) fn row(&self, alloc: Global) -> Result<Row, Error>
        ensures row { IfOk result (HoldsCells (sending_of self.now)) }
        ensures none { IfOk result (λ row. row.from ≡ 0) }
        ensures memory { IfErr result (λ e. e ≡ Error.OutOfMemory) }
    {
        Ok(Row {
            cells: row_room(alloc, self.key, self.head)?,
            from: 0,
            end: 0,
        })
    }

    /// Sees to it that the cell of a number stands in a row: where it doesn't, it is made with those that are sent
    /// behind it.
    pub(super) fn make(&self, number: u64, row: &mut Row)
        requires number { number < cell_count (sending_of self.now) }
        requires row { HoldsCells (sending_of self.now) row.old }
        requires behind { row.old.from ≤ number }
        ensures row { HoldsCells (sending_of self.now) row.new }
        ensures from { row.new.from ≤ number }
        ensures end { number < row.new.end }
    {
        if number < row.end {
            return;
        }
        let count = (self.cells() - number).min(ROW as u64) as usize;
        let (cells, _) = row.cells.as_mut_slice().split_at_mut(count);
        self.put_cells(number, cells);
        row.from = number;
        row.end = number + count as u64;
    }
}
