//! `InactiveEntries`: the matrix U of RFC 6330 (section 5.4.2.2), rows of bits or of octets
//! (`own_octets`), each read by an `octet_row`.
ghost use Rattle.std.specs.Prelude.{◌≡◌, ◌≢◌, ◌+◌, ◌*◌, ◌%◌, ◌^◌, ◌<◌, ◌≤◌, All, length, replicate, slice_set, IfSome, IfOk, OnOk, OnErr};
ghost use Rattle.rq_parts.specs.DenseOctetMatrix.{entry_of, HasOctets, row_at, with_row};
ghost use Rattle.rq_elimination.specs.EntryRow.{HasWidth, octets_of};
ghost use Rattle.rq_elimination.specs.InactiveEntries.{IsNextOctet, with_column_octets};
ghost use Rattle.rq_elimination.specs.EntryWords.{AreBitsOfWord};
ghost use Rattle.rq_standard.specs.Rows.{row_sum, row_multiple};

mod octet_row;
mod own_octets;

use crate::pivot_search::OctetRows;
pub use octet_row::{next_in_vectors, nonzero_after_first};
use octet_row::{EntryRow, count_octets, next_octet};
use own_octets::OwnOctets;
use rq_bytes::octet::Octet;
use rq_bytes::products::LANES;
use rq_parts::bit_rows::BitRows;
use rq_parts::octet_matrix::DenseOctetMatrix;
use rq_parts::packed_bits::{count_ones, get_bit, next_one, set_bit};
use std::alloc::{AllocError, Global};
use std::marker::Model;

/// What rows have in the inactive columns: bits, which stand in one buffer for all rows, or octets of
/// their own, in another one. The columns fill whole vectors. A row of bits becomes one of octets
/// where it takes what isn't bits. Contracts see octets alone.
#[derive(Drop)]
pub struct InactiveEntries {
    bits: BitRows,
    octets: OwnOctets,
}

impl Model for InactiveEntries {
    ghost use Rattle.rq_parts.specs.DenseOctetMatrix.{OctetTable};
    ghost use Rattle.rq_elimination.specs.InactiveEntries.{AreEntries, entry_rows};

    ghost Value = { OctetTable };

    ghost view = { λ e. record { width = e.octets.width; rows = entry_rows e.octets.width e.bits e.octets.rows } };

    ghost invariant = { λ e. AreEntries e.octets.width e.bits e.octets.rows };
}

impl InactiveEntries {
    /// Rows of zeros.
    pub fn new(alloc: Global, height: usize, width: usize) -> Result<InactiveEntries, AllocError>
        requires few { height < 2 ^ 31 }
        requires narrow { width < 2 ^ 17 }
        requires whole { width % 32 ≡ 0 }
        ensures { IfOk result (λ entries. entries ≡ record { width = width; rows = replicate height (replicate width 0) }) }
    {
        Ok(InactiveEntries {
            bits: BitRows::zeros(alloc, height, width)?,
            octets: OwnOctets::new(alloc, height, width)?,
        })
    }

    /// The number of columns.
    pub fn width(&self) -> usize
        ensures width { result ≡ self.now.width }
        ensures octets { HasOctets self.now }
    {
        self.octets.width()
    }

    /// Sets the entry of a row in a column to 1.
    #[inline(always)]
    pub fn set_one(&mut self, row: usize, column: usize)
        requires row { row < length self.old.rows }
        requires column { column < self.old.width }
        ensures { self.new ≡ with_row self.old row (slice_set (row_at self.old row) column 1) }
    {
        if self.octets.is_bits(row) {
            set_bit(self.bits.row_mut(row), column);
        } else {
            self.octets.set_one(row, column);
        }
    }

    /// Sets the first entries of a row, which gets octets, to what the row `from` of a matrix has in
    /// some columns, in their order.
    pub fn fill(
        &mut self,
        row: usize,
        octets: &DenseOctetMatrix,
        from: usize,
        columns: &[u16],
    ) -> Result<(), AllocError>
        requires row { row < length self.old.rows }
        requires from { from < length octets.now.rows }
        requires columns { All (λ column. column < octets.now.width) columns.now }
        requires room { length columns.now ≤ self.old.width }
        ensures ok { OnOk result (self.new ≡ with_row self.old row (with_column_octets (row_at octets.now from) columns.now (row_at self.old row))) }
        ensures octets { HasOctets self.new }
        ensures height { OnErr result (length self.new.rows ≡ length self.old.rows) }
    {
        self.octets.unpack_row(row, &self.bits)?;
        self.octets.fill(row, octets, from, columns);
        Ok(())
    }

    /// What a row has in a column.
    #[inline(always)]
    pub fn get(&self, row: usize, column: usize) -> Octet
        requires row { row < length self.now.rows }
        requires column { column < self.now.width }
        ensures { result ≡ entry_of self.now row column }
    {
        match self.row(row) {
            EntryRow::Octets(octets) => Octet::new(octets[column]),
            EntryRow::Bits(bits) => get_bit(bits, column),
        }
    }

    /// The first column, from one on and before another, where a row isn't 0, and what it has there.
    #[inline(always)]
    pub fn next_entry(&self, row: usize, from: usize, end: usize) -> Option<(usize, Octet)>
        requires row { row < length self.now.rows }
        requires end { end ≤ self.now.width }
        ensures { IsNextOctet (entry_of self.now row) from end result }
    {
        match self.row(row) {
            EntryRow::Octets(octets) => next_octet(octets, from, end),
            EntryRow::Bits(bits) => match next_one(bits, from, end) {
                Some(column) => Some((column, Octet::one())),
                None => None,
            },
        }
    }

    /// What a row has in the columns of a word, 64 of them or as many as there are, as its bits, the
    /// first lowest. `None` where the row has octets of its own.
    #[inline(always)]
    pub fn word_of(&self, row: usize, word: usize) -> Option<u64>
        requires row { row < length self.now.rows }
        requires word { 64 * word < self.now.width }
        ensures { IfSome result (AreBitsOfWord (entry_of self.now row) word self.now.width) }
    {
        match self.row(row) {
            EntryRow::Octets(_) => None,
            EntryRow::Bits(bits) => Some(bits[word]),
        }
    }

    /// How many of the first `count` entries of a row aren't 0.
    pub fn count_entries(&self, row: usize, count: usize) -> usize
        requires row { row < length self.now.rows }
        requires count { count ≤ self.now.width }
        ensures { result ≤ count }
    {
        match self.row(row) {
            EntryRow::Octets(octets) => count_octets(octets, count),
            EntryRow::Bits(bits) => count_ones(bits, 0, count),
        }
    }

    /// Multiplies a row by an octet.
    #[inline(always)]
    pub fn multiply_row(&mut self, row: usize, scalar: &Octet) -> Result<(), AllocError>
        requires row { row < length self.old.rows }
        ensures ok { OnOk result (self.new ≡ with_row self.old row (row_multiple scalar.now (row_at self.old row))) }
        ensures octets { HasOctets self.new }
        ensures height { OnErr result (length self.new.rows ≡ length self.old.rows) }
    {
        self.octets.unpack_row(row, &self.bits)?;
        self.octets.multiply(row, scalar);
        Ok(())
    }

    /// Adds a multiple of a row to another one. This one gets octets, unless both are rows of bits and
    /// the scalar is 1.
    #[inline(always)]
    pub fn add_multiple(
        &mut self,
        dest: usize,
        src: usize,
        scalar: &Octet,
    ) -> Result<(), AllocError>
        requires two { dest ≢ src }
        requires dest { dest < length self.old.rows }
        requires src { src < length self.old.rows }
        ensures ok { OnOk result (self.new ≡ with_row self.old dest (row_sum (row_at self.old dest) (row_multiple scalar.now (row_at self.old src)))) }
        ensures octets { HasOctets self.new }
        ensures height { OnErr result (length self.new.rows ≡ length self.old.rows) }
    {
        if scalar.byte() == 1 && self.octets.is_bits(dest) && self.octets.is_bits(src) {
            self.bits.add(dest, src);
            return Ok(());
        }
        self.octets.unpack_row(dest, &self.bits)?;
        if self.octets.is_bits(src) {
            self.octets.add_bits(dest, self.bits.row(src), scalar);
        } else {
            self.octets.add_multiple(dest, src, scalar);
        }
        Ok(())
    }

    // A row, to be read.
    #[inline(always)]
    fn row(&self, row: usize) -> EntryRow<'_>
        requires { row < length self.now.rows }
        ensures octets { octets_of self.now.width result ≡ row_at self.now row }
        ensures width { HasWidth self.now.width result }
        ensures narrow { self.now.width < 2 ^ 17 }
    {
        if self.octets.is_bits(row) {
            EntryRow::Bits(self.bits.row(row))
        } else {
            EntryRow::Octets(self.octets.row(row))
        }
    }
}

impl OctetRows for InactiveEntries {
    ghost table = { λ entries. entries };

    fn entry(&self, row: usize, column: usize) -> Octet {
        self.get(row, column)
    }
}

/// The least number from `octets` on that fills whole vectors: rows of that many octets are added
/// without any left over.
pub fn whole_vectors(octets: usize) -> usize
    requires { octets < 2 ^ 63 }
    ensures whole { result % 32 ≡ 0 }
    ensures from { octets ≤ result }
    ensures near { result < octets + 32 }
{
    octets + (LANES - octets % LANES) % LANES
}
