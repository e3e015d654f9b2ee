//! A dense matrix of octets.
ghost use Rattle.std.specs.Prelude.{◌≡◌, ◌≢◌, ◌+◌, ◌<◌, ◌≤◌, length, replicate, slice_index, slice_set, Ok, []};
ghost use Rattle.std.specs.List.{swap};
ghost use Rattle.rq_standard.specs.Rows.{row_sum, row_multiple};
ghost use Rattle.rq_bytes.specs.Refusals.{IsAnswer};
ghost use Rattle.rq_parts.specs.DenseOctetMatrix.{HasOctets, row_at, with_row, sum_from, columns_swapped};

use rq_bytes::error::Error;
use rq_bytes::octet::Octet;
use rq_bytes::octets;
use rq_bytes::octets::BinaryOctetVec;
use rq_bytes::row_multiples::{add_row_multiple, multiply_row};
use rq_bytes::symbol_slab::SymbolSlab;
use std::alloc::{AllocError, Global};
use std::marker::Model;

/// A matrix of octets, each of which is stored, in one buffer for all rows. Contracts see its width
/// and its rows.
#[derive(Debug, Drop)]
pub struct DenseOctetMatrix {
    rows: SymbolSlab,
}

impl Model for DenseOctetMatrix {
    ghost use Rattle.std.specs.Prelude.{◌≡◌, None};
    ghost use Rattle.rq_parts.specs.DenseOctetMatrix.{OctetTable};

    ghost Value = { OctetTable };

    ghost view = { λ m. record { width = m.rows.symbol_size; rows = m.rows.values } };

    ghost invariant = { λ m. m.rows.order ≡ None };
}

impl DenseOctetMatrix {
    /// A matrix of zeros with `height` rows and `width` columns. The last argument, how many columns
    /// are dense, does nothing here: all are.
    pub fn new(alloc: Global, height: usize, width: usize, _: usize) -> Result<Self, Error>
        ensures { IsAnswer (λ matrix. matrix) result (Ok (record { width = width; rows = replicate height (replicate width 0) })) }
    {
        // No memory holds more octets than can be counted.
        if height.checked_mul(width).is_none() {
            return Err(Error::OutOfMemory);
        }
        Ok(DenseOctetMatrix {
            rows: SymbolSlab::with_zeros(alloc, height, width)?,
        })
    }

    /// A matrix of no rows, `width` columns wide.
    pub fn without_rows(alloc: Global, width: usize) -> Self
        ensures { result ≡ record { width = width; rows = [] } }
    {
        DenseOctetMatrix {
            rows: SymbolSlab::from_bytes(Vec::new(alloc), 0, width),
        }
    }

    /// Adds `scalar` times bits to the octets of a row, the first bit to the one in column
    /// `start_col`. The last bit stands in the last column at most.
    ///
    /// Kept for the surface of `raptorq`; no coder calls it.
    pub fn fma_sub_row(
        &mut self,
        row: usize,
        start_col: usize,
        scalar: &Octet,
        other: &BinaryOctetVec,
    )
        requires row { row < length self.old.rows }
        requires fits { start_col + length other.now ≤ self.old.width }
        ensures { self.new ≡ with_row self.old row (sum_from (row_at self.old row) start_col scalar.now other.now) }
    {
        let octets = self.rows.get_mut(row);
        let end = start_col + other.len();
        octets::fused_addassign_mul_scalar_binary(&mut octets[start_col..end], other, scalar);
    }

    /// Sets the octet in row i and column j.
    pub fn set(&mut self, i: usize, j: usize, value: Octet)
        requires row { i < length self.old.rows }
        requires column { j < self.old.width }
        ensures { self.new ≡ with_row self.old i (slice_set (row_at self.old i) j value) }
    {
        self.rows.get_mut(i)[j] = value.byte();
    }

    /// The number of rows.
    pub fn height(&self) -> usize
        ensures { result ≡ length self.now.rows }
    {
        self.rows.len()
    }

    /// The number of columns.
    pub fn width(&self) -> usize
        ensures width { result ≡ self.now.width }
        ensures octets { HasOctets self.now }
    {
        self.rows.symbol_size()
    }

    /// Multiplies a row by an octet.
    pub fn mul_assign_row(&mut self, row: usize, value: &Octet)
        requires { row < length self.old.rows }
        ensures { self.new ≡ with_row self.old row (row_multiple value.now (row_at self.old row)) }
    {
        multiply_row(self.rows.get_mut(row), value);
    }

    /// The octet in row i and column j.
    #[inline(always)]
    pub fn get(&self, i: usize, j: usize) -> Octet
        requires row { i < length self.now.rows }
        requires column { j < self.now.width }
        ensures { result ≡ slice_index (row_at self.now i) j }
    {
        Octet::new(self.rows.get(i)[j])
    }

    /// Exchanges the octets of two rows.
    ///
    /// Kept for the surface of `raptorq`; no coder calls it.
    pub fn swap_rows(&mut self, i: usize, j: usize)
        requires first { i < length self.old.rows }
        requires second { j < length self.old.rows }
        ensures { self.new ≡ record self.old { rows = swap self.old.rows i j } }
    {
        self.rows.swap(i, j);
    }

    /// Exchanges two columns in the rows from `start_row_hint` on; the rows above stay.
    ///
    /// Kept for the surface of `raptorq`; no coder calls it.
    pub fn swap_columns(&mut self, i: usize, j: usize, start_row_hint: usize)
        requires first { i < self.old.width }
        requires second { j < self.old.width }
        ensures { self.new ≡ record self.old { rows = columns_swapped start_row_hint i j self.old.rows } }
    {
        for row in start_row_hint..self.rows.len() {
            self.rows.get_mut(row).swap(i, j);
        }
    }

    /// Adds `scalar` times the row `multiplicand` to the row `dest`, which is another one.
    pub fn fma_rows(&mut self, dest: usize, multiplicand: usize, scalar: &Octet)
        requires two { dest ≢ multiplicand }
        requires dest { dest < length self.old.rows }
        requires multiplicand { multiplicand < length self.old.rows }
        ensures { self.new ≡ with_row self.old dest (row_sum (row_at self.old dest) (row_multiple scalar.now (row_at self.old multiplicand))) }
    {
        let (sum, other) = self.rows.get_pair_mut(dest, multiplicand);
        add_row_multiple(sum, other, scalar);
    }
}

impl Clone for DenseOctetMatrix {
    ghost is_clone = { λ a b. b ≡ a };

    fn clone(&self) -> Result<Self, AllocError> {
        Ok(DenseOctetMatrix {
            rows: self.rows.clone()?,
        })
    }
}
