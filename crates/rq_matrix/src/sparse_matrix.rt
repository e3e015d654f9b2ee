//! The sparse matrix of bits.
ghost use Rattle.std.specs.Prelude.{◌≡◌, ◌-◌, ◌^◌, ◌<◌, ◌≤◌, All, length, slice_index};
ghost use Rattle.std.specs.Option.{ForSome};
ghost use Rattle.rq_matrix.specs.Orders.{IsPlacedOrder};
ghost use Rattle.rq_matrix.specs.SparseRows.{IsSparseRow, IsColumnIndex};

mod column_index;
mod dense_tail;
mod orders;
mod rows;

use crate::bit_row::part_of;
use crate::matrix::BinaryMatrix;
use column_index::{column_index, indexed_rows, places_between};
use dense_tail::DenseTail;
use orders::Order;
use rows::{add_row, count_between, empty_rows};
use rq_bytes::error::Error;
use rq_bytes::octet::Octet;
use rq_bytes::octets::BinaryOctetVec;
use rq_parts::arraymap::ImmutableListMap;
use rq_parts::iterators::OctetIter;
use rq_parts::sparse_vec::SparseBinaryVec;
use std::alloc::{AllocError, Global};

/// A matrix of bits of whose columns before the boundary the ones alone are stored; its dense columns
/// are stored whole, 64 to a word. Rows and columns are exchanged in their orders alone.
#[derive(Debug, Drop)]
pub struct SparseBinaryMatrix {
    height: usize,
    width: usize,
    boundary: usize,
    rows: Vec<SparseBinaryVec>,
    tail: DenseTail,
    row_order: Order<u32>,
    column_order: Order<u16>,
    index: Option<ImmutableListMap>,
    ghost rows_fit: { length rows.items < 2 ^ 31 },
    ghost columns_fit: { length column_order.order < 65536 },
    ghost height_within: { height ≤ length rows.items },
    ghost width_within: { width ≤ length column_order.order },
    ghost boundary_within: { boundary ≤ width },
    ghost ordered: { length row_order.order ≡ length rows.items },
    ghost rows_in_order: { IsPlacedOrder row_order },
    ghost columns_in_order: { IsPlacedOrder column_order },
    ghost sparse: { All (IsSparseRow (length column_order.order)) rows.items },
    ghost tail_rows: { tail.rows ≡ length rows.items },
    ghost tail_columns: { tail.columns ≡ width - boundary },
    ghost index_is: { ForSome index (IsColumnIndex (length column_order.order) rows.items) },
}

impl SparseBinaryMatrix {
    // The stored row that is the i-th.
    fn stored_row(&self, i: usize) -> usize
        requires { i < length self.now.row_order.order }
        ensures value { result ≡ slice_index self.now.row_order.order i }
        ensures below { result < length self.now.rows.items }
    {
        self.row_order.stored(i) as usize
    }

    // The stored column that is the k-th.
    fn stored_column(&self, k: usize) -> u16
        requires { k < length self.now.column_order.order }
        ensures value { result ≡ slice_index self.now.column_order.order k }
        ensures below { result < length self.now.column_order.order }
    {
        self.column_order.stored(k)
    }
}

impl Clone for SparseBinaryMatrix {
    ghost use Rattle.rq_matrix.specs.SparseBinaryMatrix.{IsSparseCopy};

    ghost is_clone = { IsSparseCopy };

    fn clone(&self) -> Result<Self, AllocError> {
        let index = match &self.index {
            Some(index) => Some(index.clone()?),
            None => None,
        };
        Ok(SparseBinaryMatrix {
            height: self.height,
            width: self.width,
            boundary: self.boundary,
            rows: self.rows.clone()?,
            tail: self.tail.clone()?,
            row_order: self.row_order.clone()?,
            column_order: self.column_order.clone()?,
            index,
        })
    }
}

impl BinaryMatrix for SparseBinaryMatrix {
    ghost use Rattle.rq_matrix.specs.SparseBinaryMatrix.{sparse_content};
    ghost use Rattle.rq_matrix.specs.SparseTables.{is_sparse_table, sparse_copy_is_same};

    ghost content = { sparse_content };

    ghost is_table = { is_sparse_table };

    ghost clone_is_same = { sparse_copy_is_same };

    fn new(
        alloc: Global,
        height: usize,
        width: usize,
        trailing_dense_column_hint: usize,
    ) -> Result<Self, Error> {
        Ok(SparseBinaryMatrix {
            height,
            width,
            boundary: width - trailing_dense_column_hint,
            rows: empty_rows(alloc, height)?,
            tail: DenseTail::new(alloc, height, trailing_dense_column_hint)?,
            // Made here, since swaps answer nothing and so can't be refused memory.
            row_order: Order::new((0..height as u32).collect(alloc)?)?,
            column_order: Order::new((0..width as u16).collect(alloc)?)?,
            index: None,
        })
    }

    fn allocator(&self) -> Global {
        *self.rows.allocator()
    }

    #[inline(always)]
    fn set(&mut self, i: usize, j: usize, value: Octet) -> Result<(), Error> {
        let row = self.stored_row(i);
        if j < self.boundary {
            let column = usize::from(self.stored_column(j));
            self.rows[row].insert(column, value)?;
        } else {
            self.tail.set(row, self.width - 1 - j, value);
        }
        Ok(())
    }

    fn flip(&mut self, i: usize, j: usize) -> Result<(), Error> {
        let row = self.stored_row(i);
        if j < self.boundary {
            let column = usize::from(self.stored_column(j));
            self.rows[row].flip(column)?;
        } else {
            self.tail.flip(row, self.width - 1 - j);
        }
        Ok(())
    }

    fn height(&self) -> usize {
        self.height
    }

    fn width(&self) -> usize {
        self.width
    }

    fn count_ones(&self, row: usize, start_col: usize, end_col: usize) -> usize {
        let row = self.stored_row(row);
        let columns = self.column_order.places();
        count_between(&self.rows[row], columns, start_col, end_col)
    }

    fn get_row_iter(&self, row: usize, start_col: usize, end_col: usize) -> OctetIter<'_> {
        let row = self.stored_row(row);
        let columns = self.column_order.places();
        OctetIter::new_sparse(start_col, end_col, &self.rows[row], columns)
    }

    fn get_ones_in_column_into(
        &self,
        col: usize,
        start_row: usize,
        end_row: usize,
        out: &mut Vec<u32>,
    ) -> Result<(), Error> {
        if let Some(index) = &self.index {
            let stored = index.get(self.stored_column(col));
            places_between(stored, self.row_order.places(), start_row, end_row, out)?;
        }
        Ok(())
    }

    fn get_sub_row_as_octets(&self, row: usize, _: usize) -> Result<BinaryOctetVec, Error> {
        let bits = self.tail.row(self.allocator(), self.stored_row(row))?;
        let columns = self.width - self.boundary;
        Ok(part_of(self.allocator(), bits.as_slice(), 0, columns)?)
    }

    fn query_non_zero_columns_into(
        &self,
        row: usize,
        start_col: usize,
        out: &mut Vec<usize>,
    ) -> Result<(), Error> {
        let row = self.stored_row(row);
        out.reserve(self.width - start_col)?;
        out.clear();
        let mut end = self.width - start_col;
        while let Some(column) = self.tail.last_one(row, end) {
            out.push_reserved(self.width - 1 - column);
            end = column;
        }
        Ok(())
    }

    fn get(&self, i: usize, j: usize) -> Octet {
        let row = self.stored_row(i);
        if j < self.boundary {
            let column = usize::from(self.stored_column(j));
            self.rows[row].get(column).unwrap_or(Octet::zero())
        } else {
            self.tail.get(row, self.width - 1 - j)
        }
    }

    fn swap_rows(&mut self, i: usize, j: usize) {
        let first = self.stored_row(i);
        let second = self.stored_row(j);
        self.row_order.swap(i, j, first, second);
    }

    fn swap_columns(&mut self, i: usize, j: usize, _: usize) {
        let first = usize::from(self.stored_column(i));
        let second = usize::from(self.stored_column(j));
        self.column_order.swap(i, j, first, second);
    }

    fn enable_column_access_acceleration(&mut self) -> Result<(), Error> {
        self.index = Some(column_index(&self.rows, self.column_order.len())?);
        Ok(())
    }

    fn disable_column_access_acceleration(&mut self) {
        self.index = None;
    }

    fn hint_column_dense_and_frozen(&mut self, i: usize) -> Result<(), Error> {
        let column = self.stored_column(i);
        let rows = indexed_rows(&self.index, column);
        self.tail.push_column(*self.rows.allocator())?;
        self.tail.set_ones(rows, self.width - 1 - i);
        self.boundary = i;
        Ok(())
    }

    fn add_assign_rows(&mut self, dest: usize, src: usize, start_col: usize) -> Result<(), Error> {
        let dest = self.stored_row(dest);
        let src = self.stored_row(src);
        if start_col == self.boundary {
            self.tail.add(dest, src);
            return Ok(());
        }
        add_row(self.rows.as_mut_slice(), dest, src)?;
        self.tail.add(dest, src);
        Ok(())
    }

    fn resize(&mut self, new_height: usize, new_width: usize) -> Result<(), Error> {
        if new_width == self.width {
            self.height = new_height;
            return Ok(());
        }
        self.tail = DenseTail::new(self.allocator(), self.rows.len(), 0)?;
        self.height = new_height;
        self.width = new_width;
        self.boundary = new_width;
        Ok(())
    }
}
