//! `OwnOctets`: one buffer for all rows of the matrix U (RFC 6330, section 5.4.2.2) that are
//! octets, and the place of each row in it.
ghost use Rattle.std.specs.Prelude.{◌≡◌, ◌≢◌, ◌*◌, ◌%◌, ◌^◌, ◌<◌, ◌≤◌, ◌++◌, ◌∷◌, [], true, false, None, All, length, replicate, slice_index_or, slice_set, IfOk, OnOk, OnErr};
ghost use Rattle.rq_algebra.specs.Systems.{at};
ghost use Rattle.rq_bytes.specs.BinaryOctetVec.{octets_of_bits};
ghost use Rattle.rq_parts.specs.DenseOctetMatrix.{IsOctetRow, row_at, with_row};
ghost use Rattle.rq_elimination.specs.InactiveEntries.{place_before, entry_row, with_column_octets};
ghost use Rattle.rq_standard.specs.Rows.{row_sum, row_multiple};

use rq_bytes::octet::Octet;
use rq_bytes::octets::{add_bit_multiples, are_octets};
use rq_bytes::row_multiples::{add_row_multiple, multiply_row};
use rq_bytes::symbol_slab::SymbolSlab;
use rq_parts::bit_rows::BitRows;
use rq_parts::octet_matrix::DenseOctetMatrix;
use std::alloc::{AllocError, Global};
use std::marker::Model;

// For how many rows room is made with the first. The standard's tables have no more HDPC rows; where
// one's own have more, the buffer grows.
const FIRST_ROWS: usize = 16;

/// The octets that rows have of their own, none where a row is bits. They stand in one buffer, in the
/// order in which the rows got them. Contracts see the lists of all rows.
#[derive(Drop)]
pub(super) struct OwnOctets {
    rows: SymbolSlab,
    // The place of each row in the buffer, counted from 1, and 0 where the row has none. Rows are asked
    // in any order, and these stay in a near cache.
    places: Vec<u32>,
}

impl Model for OwnOctets {
    ghost use Rattle.rq_parts.specs.DenseOctetMatrix.{OctetTable};
    ghost use Rattle.rq_elimination.specs.InactiveEntries.{ArePlaced, own_rows};

    ghost Value = { OctetTable };

    ghost view = { λ own. record { width = own.rows.symbol_size; rows = own_rows own.rows.values own.places.items } };

    ghost invariant = { λ own. ArePlaced own.rows own.places.items };
}

impl OwnOctets {
    /// `height` rows that have none, and that each get `width` of them where they get some.
    pub(super) fn new(alloc: Global, height: usize, width: usize) -> Result<OwnOctets, AllocError>
        requires few { height < 2 ^ 31 }
        requires narrow { width < 2 ^ 17 }
        requires whole { width % 32 ≡ 0 }
        ensures { IfOk result (λ own. own ≡ record { width = width; rows = replicate height [] }) }
    {
        Ok(OwnOctets {
            rows: SymbolSlab::from_bytes(Vec::new(alloc), 0, width),
            places: vec![in alloc; 0; height]?,
        })
    }

    /// How many octets a row of octets has.
    #[inline(always)]
    pub(super) fn width(&self) -> usize
        ensures { result ≡ self.now.width }
    {
        self.rows.symbol_size()
    }

    /// Whether a row has no octets, as it is one of bits.
    #[inline(always)]
    pub(super) fn is_bits(&self, row: usize) -> bool
        requires { row < length self.now.rows }
        ensures none { result ≡ true → length (row_at self.now row) ≡ 0 }
        ensures own { result ≡ false → length (row_at self.now row) ≡ self.now.width }
    {
        self.places[row] == 0
    }

    /// The octets of a row of octets.
    #[inline(always)]
    pub(super) fn row(&self, row: usize) -> &[u8]
        requires row { row < length self.now.rows }
        requires own { length (row_at self.now row) ≡ self.now.width }
        ensures { result.now ≡ row_at self.now row }
    {
        match place_of(self.places.as_slice(), row) {
            Some(place) => self.rows.get(place),
            None => &[],
        }
    }

    /// Makes octets of a row's bits, where it has none.
    #[inline(always)]
    pub(super) fn unpack_row(&mut self, row: usize, bits: &BitRows) -> Result<(), AllocError>
        requires row { row < length self.old.rows }
        requires bits { row < length bits.now }
        requires room { self.old.width ≤ 64 * length (slice_index_or bits.now row []) }
        ensures row { OnOk result (self.new ≡ with_row self.old row (entry_row self.old.width (slice_index_or bits.now row []) (row_at self.old row))) }
        ensures refused { OnErr result (self.new ≡ self.old) }
    {
        if self.places[row] == 0 {
            push_bits(&mut self.rows, bits.row(row))?;
            self.places[row] = self.rows.len() as u32;
        }
        Ok(())
    }

    /// Sets the first octets of a row to those of another matrix's row in columns.
    pub(super) fn fill(
        &mut self,
        row: usize,
        octets: &DenseOctetMatrix,
        from: usize,
        columns: &[u16],
    )
        requires row { row < length self.old.rows }
        requires own { length (row_at self.old row) ≡ self.old.width }
        requires from { from < length octets.now.rows }
        requires columns { All (λ column. column < octets.now.width) columns.now }
        requires room { length columns.now ≤ self.old.width }
        ensures filled { self.new ≡ with_row self.old row (with_column_octets (row_at octets.now from) columns.now (row_at self.old row)) }
        ensures octets { IsOctetRow self.old.width (row_at self.new row) }
    {
        if let Some(place) = place_of(self.places.as_slice(), row) {
            let own = self.rows.get_mut(place);
            copy_columns(own, octets, from, columns);
            are_octets(own);
        }
    }

    /// Sets an octet of a row to 1.
    pub(super) fn set_one(&mut self, row: usize, column: usize)
        requires row { row < length self.old.rows }
        requires own { length (row_at self.old row) ≡ self.old.width }
        requires column { column < self.old.width }
        ensures set { self.new ≡ with_row self.old row (slice_set (row_at self.old row) column 1) }
        ensures octets { IsOctetRow self.old.width (row_at self.new row) }
    {
        if let Some(place) = place_of(self.places.as_slice(), row) {
            let octets = self.rows.get_mut(place);
            octets[column] = 1;
            are_octets(octets);
        }
    }

    /// Multiplies the octets of a row.
    pub(super) fn multiply(&mut self, row: usize, scalar: &Octet)
        requires row { row < length self.old.rows }
        requires own { length (row_at self.old row) ≡ self.old.width }
        ensures multiple { self.new ≡ with_row self.old row (row_multiple scalar.now (row_at self.old row)) }
        ensures octets { IsOctetRow self.old.width (row_at self.new row) }
    {
        if let Some(place) = place_of(self.places.as_slice(), row) {
            let octets = self.rows.get_mut(place);
            multiply_row(octets, scalar);
            are_octets(octets);
        }
    }

    /// Adds a multiple of a row of bits to a row's octets.
    pub(super) fn add_bits(&mut self, row: usize, bits: &[u64], scalar: &Octet)
        requires row { row < length self.old.rows }
        requires own { length (row_at self.old row) ≡ self.old.width }
        requires room { self.old.width ≤ 64 * length bits.now }
        ensures sum { self.new ≡ with_row self.old row (row_sum (row_at self.old row) (row_multiple scalar.now (octets_of_bits self.old.width bits.now))) }
        ensures octets { IsOctetRow self.old.width (row_at self.new row) }
    {
        if let Some(place) = place_of(self.places.as_slice(), row) {
            let octets = self.rows.get_mut(place);
            add_bit_multiples(octets, bits, scalar.byte());
            are_octets(octets);
        }
    }

    /// Adds a multiple of a row's octets to those of another one.
    pub(super) fn add_multiple(&mut self, dest: usize, src: usize, scalar: &Octet)
        requires two { dest ≢ src }
        requires dest { dest < length self.old.rows }
        requires src { src < length self.old.rows }
        requires own { length (row_at self.old dest) ≡ self.old.width }
        requires other { length (row_at self.old src) ≡ self.old.width }
        ensures sum { self.new ≡ with_row self.old dest (row_sum (row_at self.old dest) (row_multiple scalar.now (row_at self.old src))) }
        ensures octets { IsOctetRow self.old.width (row_at self.new dest) }
    {
        let places = self.places.as_slice();
        if let (Some(to), Some(from)) = (place_of(places, dest), place_of(places, src)) {
            let (sum, other) = self.rows.get_pair_mut(to, from);
            add_row_multiple(sum, other, scalar);
            are_octets(sum);
        }
    }
}

// Where in the buffer the octets of a row stand, counted in rows from 0. A row of bits has no place.
#[inline(always)]
fn place_of(places: &[u32], row: usize) -> Option<usize>
    requires { row < length places.now }
    ensures { result ≡ place_before (at places.now row) }
{
    match places[row] {
        0 => None,
        place => Some(place as usize - 1),
    }
}

// Sets the first octets to those of a matrix's row in columns.
fn copy_columns(own: &mut [u8], octets: &DenseOctetMatrix, from: usize, columns: &[u16])
    requires from { from < length octets.now.rows }
    requires columns { All (λ column. column < octets.now.width) columns.now }
    requires room { length columns.now ≤ length own.old }
    ensures { own.new ≡ with_column_octets (row_at octets.now from) columns.now own.old }
{
    for (f, column) in columns.iter().enumerate() {
        own[f] = octets.get(from, *column as usize).byte();
    }
}

// Appends a row of bits as octets.
fn push_bits(rows: &mut SymbolSlab, bits: &[u64]) -> Result<(), AllocError>
    requires no_order { rows.old.order ≡ None }
    requires few { length rows.old.values < 2 ^ 31 }
    requires room { rows.old.symbol_size ≤ 64 * length bits.now }
    requires narrow { rows.old.symbol_size < 2 ^ 17 }
    requires whole { rows.old.symbol_size % 32 ≡ 0 }
    ensures ok { OnOk result (rows.new ≡ record rows.old { values = rows.old.values ++ octets_of_bits rows.old.symbol_size bits.now ∷ [] }) }
    ensures refused { OnErr result (rows.new ≡ rows.old) }
{
    let place = rows.len();
    if place == 0 {
        rows.reserve(FIRST_ROWS)?;
    }
    rows.push_zeros()?;
    add_bit_multiples(rows.get_mut(place), bits, 1);
    Ok(())
}
