//! Matrices of bits, and the dense one.
ghost use Rattle.std.specs.Prelude.{◌≡◌, ◌≢◌, ◌+◌, ◌*◌, ◌^◌, ◌<◌, ◌≤◌, ◌⊎◌, All, length, true, false, IfOk, IfErr, OnOk, OnErr};
ghost use Rattle.std.specs.List.Sorted.{IsStrictlyIncreasing};
ghost use Rattle.std.specs.Int.Bits.{bit_xor};
ghost use Rattle.rq_bytes.specs.declared.error.Error.TheVariants.{OutOfMemory};
ghost use Rattle.rq_parts.specs.PackedBits.{word_count};
ghost use Rattle.rq_matrix.specs.DenseRows.{AreSwappedFrom};
ghost use Rattle.rq_standard.specs.BitTable.{BitTable, IsBitTable};
ghost use Rattle.rq_standard.specs.BitTableSteps.{ones_between, ArePlacesOfOnes, AreOnesOf, AreBitsOf, CanSet, CanAdd, IsUnchanged, IsZeroTable, SetsBit, SwapsRows, SwapsColumns, SetsIndexed, SetsBoundary, AddsRowFrom, KeepsLeading};

use crate::bit_row::part_of;
use rq_bytes::error::Error;
use rq_bytes::octet::Octet;
use rq_bytes::octets::BinaryOctetVec;
use rq_parts::bit_rows::BitRows;
use rq_parts::iterators::OctetIter;
use rq_parts::packed_bits::{count_ones, flip_bit, get_bit, swap_bits, write_bit};
use std::alloc::{AllocError, Global};

/// A matrix of bits. Its last columns, those from the boundary on, are dense, and its columns before
/// may be indexed, which some calls ask for and others forbid. A matrix keeps the allocator that
/// `new` was handed. A call that is refused memory, the only refusal, leaves the content as it was.
///
/// Coders call `new`, `set`, `flip`, `height`, `width`, `get_row_iter` and
/// `query_non_zero_columns_into`. The others are kept for the surface of `raptorq`; no coder calls
/// them.
pub trait BinaryMatrix: Clone {
    ghost content: { Self → BitTable };

    /// A matrix of zeros with `height` rows and `width` columns, of which the last
    /// `trailing_dense_column_hint` are dense. Its columns aren't indexed.
    fn new(
        alloc: Global,
        height: usize,
        width: usize,
        trailing_dense_column_hint: usize,
    ) -> Result<Self, Error>
        requires height { height < 2 ^ 31 }
        requires width { width < 65536 }
        requires dense { trailing_dense_column_hint ≤ width }
        ensures ok { IfOk result (λ matrix. IsZeroTable height width trailing_dense_column_hint (content matrix)) }
        ensures err { IfErr result (λ e. e ≡ OutOfMemory) };

    /// The allocator that `new` was handed.
    fn allocator(&self) -> Global;

    /// Sets the bit in row i and column j to 0 for the octet 0, and else to 1.
    fn set(&mut self, i: usize, j: usize, value: Octet) -> Result<(), Error>
        requires row { i < (content self.old).height }
        requires column { j < (content self.old).width }
        requires settable { CanSet (content self.old) j }
        ensures ok { OnOk result (SetsBit (content self.old) i j value (content self.new)) }
        ensures refused { OnErr result (IsUnchanged (content self.old) (content self.new)) }
        ensures err { IfErr result (λ e. e ≡ OutOfMemory) };

    /// Sets the bit in row i and column j to 1 where it was 0, and to 0 where it was 1.
    fn flip(&mut self, i: usize, j: usize) -> Result<(), Error>
        requires row { i < (content self.old).height }
        requires column { j < (content self.old).width }
        requires settable { CanSet (content self.old) j }
        ensures ok { OnOk result (SetsBit (content self.old) i j (bit_xor ((content self.old).bit i j) 1) (content self.new)) }
        ensures refused { OnErr result (IsUnchanged (content self.old) (content self.new)) }
        ensures err { IfErr result (λ e. e ≡ OutOfMemory) }
    {
        let flipped = self.get(i, j) + Octet::one();
        self.set(i, j, flipped)
    }

    /// The number of rows.
    fn height(&self) -> usize
        ensures height { result ≡ (content self.now).height }
        ensures fits { result < 2 ^ 31 };

    /// The number of columns.
    fn width(&self) -> usize
        ensures width { result ≡ (content self.now).width }
        ensures fits { result < 65536 };

    /// The number of ones in a row, in the columns from `start_col` on and before `end_col`, none
    /// of them dense.
    fn count_ones(&self, row: usize, start_col: usize, end_col: usize) -> usize
        requires row { row < (content self.now).height }
        requires range { start_col ≤ end_col }
        requires before { end_col ≤ (content self.now).boundary }
        ensures { result ≡ ones_between ((content self.now).bit row) start_col end_col };

    /// The ones of a row in the columns from `start_col` on and before `end_col`, none of them
    /// dense: each once, in any order, with zeros among them or not.
    fn get_row_iter(&self, row: usize, start_col: usize, end_col: usize) -> OctetIter<'_>
        requires row { row < (content self.now).height }
        requires range { start_col ≤ end_col }
        requires before { end_col ≤ (content self.now).boundary }
        ensures { AreOnesOf ((content self.now).bit row) start_col end_col result };

    /// The rows from `start_row` on and before `end_row` that have a one in a column that isn't
    /// dense: each once, in any order. The columns are indexed.
    fn get_ones_in_column(
        &self,
        col: usize,
        start_row: usize,
        end_row: usize,
    ) -> Result<Vec<u32>, Error>
        requires indexed { (content self.now).indexed ≡ true }
        requires before { col < (content self.now).boundary }
        requires range { start_row ≤ end_row }
        requires rows { end_row ≤ (content self.now).height }
        ensures ok { IfOk result (λ rows. ArePlacesOfOnes (λ row. (content self.now).bit row col) start_row end_row rows.items) }
        ensures err { IfErr result (λ e. e ≡ OutOfMemory) }
    {
        let mut rows = Vec::new(self.allocator());
        self.get_ones_in_column_into(col, start_row, end_row, &mut rows)?;
        Ok(rows)
    }

    /// Replaces a list by the rows from `start_row` on and before `end_row` that have a one in a
    /// column that isn't dense: each once, in any order. The columns are indexed. A refusal leaves
    /// the list as it was.
    fn get_ones_in_column_into(
        &self,
        col: usize,
        start_row: usize,
        end_row: usize,
        out: &mut Vec<u32>,
    ) -> Result<(), Error>
        requires indexed { (content self.now).indexed ≡ true }
        requires before { col < (content self.now).boundary }
        requires range { start_row ≤ end_row }
        requires rows { end_row ≤ (content self.now).height }
        ensures ok { OnOk result (ArePlacesOfOnes (λ row. (content self.now).bit row col) start_row end_row out.new.items) }
        ensures refused { OnErr result (out.new.items ≡ out.old.items) }
        ensures err { IfErr result (λ e. e ≡ OutOfMemory) };

    /// The dense columns of a row, of which `start_col` is the first.
    fn get_sub_row_as_octets(&self, row: usize, start_col: usize) -> Result<BinaryOctetVec, Error>
        requires row { row < (content self.now).height }
        requires dense { start_col ≡ (content self.now).boundary }
        ensures ok { IfOk result (λ octets. AreBitsOf ((content self.now).bit row) start_col (content self.now).width octets) }
        ensures err { IfErr result (λ e. e ≡ OutOfMemory) };

    /// The dense columns in which a row has a one, in ascending order; `start_col` is the first
    /// dense column.
    fn query_non_zero_columns(&self, row: usize, start_col: usize) -> Result<Vec<usize>, Error>
        requires row { row < (content self.now).height }
        requires dense { start_col ≡ (content self.now).boundary }
        ensures ok { IfOk result (λ columns. ArePlacesOfOnes ((content self.now).bit row) start_col (content self.now).width columns.items) }
        ensures ascending { IfOk result (λ columns. IsStrictlyIncreasing columns.items) }
        ensures err { IfErr result (λ e. e ≡ OutOfMemory) }
    {
        let mut columns = Vec::new(self.allocator());
        self.query_non_zero_columns_into(row, start_col, &mut columns)?;
        Ok(columns)
    }

    /// Replaces a list by the dense columns in which a row has a one, in ascending order;
    /// `start_col` is the first dense column. A refusal leaves the list as it was.
    fn query_non_zero_columns_into(
        &self,
        row: usize,
        start_col: usize,
        out: &mut Vec<usize>,
    ) -> Result<(), Error>
        requires row { row < (content self.now).height }
        requires dense { start_col ≡ (content self.now).boundary }
        ensures ok { OnOk result (ArePlacesOfOnes ((content self.now).bit row) start_col (content self.now).width out.new.items) }
        ensures ascending { OnOk result (IsStrictlyIncreasing out.new.items) }
        ensures refused { OnErr result (out.new.items ≡ out.old.items) }
        ensures err { IfErr result (λ e. e ≡ OutOfMemory) };

    /// The bit in row i and column j, as the octet 0 or 1.
    fn get(&self, i: usize, j: usize) -> Octet
        requires row { i < (content self.now).height }
        requires column { j < (content self.now).width }
        ensures { result ≡ (content self.now).bit i j };

    /// Exchanges two rows.
    fn swap_rows(&mut self, i: usize, j: usize)
        requires first { i < (content self.old).height }
        requires second { j < (content self.old).height }
        ensures { SwapsRows (content self.old) i j (content self.new) };

    /// Exchanges two columns that aren't dense, in the rows from `start_row_hint` on. In each row
    /// above they are exchanged or not.
    fn swap_columns(&mut self, i: usize, j: usize, start_row_hint: usize)
        requires first { i < (content self.old).boundary }
        requires second { j < (content self.old).boundary }
        ensures { SwapsColumns (content self.old) i j start_row_hint (content self.new) };

    /// Indexes the columns that aren't dense.
    fn enable_column_access_acceleration(&mut self) -> Result<(), Error>
        ensures ok { OnOk result (SetsIndexed (content self.old) true (content self.new)) }
        ensures refused { OnErr result (IsUnchanged (content self.old) (content self.new)) }
        ensures err { IfErr result (λ e. e ≡ OutOfMemory) };

    /// Drops the index of the columns.
    fn disable_column_access_acceleration(&mut self)
        ensures { SetsIndexed (content self.old) false (content self.new) };

    /// Makes the last column that isn't dense the first dense one. The columns are indexed.
    fn hint_column_dense_and_frozen(&mut self, i: usize) -> Result<(), Error>
        requires indexed { (content self.old).indexed ≡ true }
        requires last { i + 1 ≡ (content self.old).boundary }
        ensures ok { OnOk result (SetsBoundary (content self.old) i (content self.new)) }
        ensures refused { OnErr result (IsUnchanged (content self.old) (content self.new)) }
        ensures err { IfErr result (λ e. e ≡ OutOfMemory) };

    /// Adds a row to another one, from the first dense column on, or from column 0 on while the
    /// columns aren't indexed. In each column before `start_col` it adds or doesn't.
    fn add_assign_rows(&mut self, dest: usize, src: usize, start_col: usize) -> Result<(), Error>
        requires two { dest ≢ src }
        requires dest { dest < (content self.old).height }
        requires src { src < (content self.old).height }
        requires start { CanAdd (content self.old) start_col }
        ensures ok { OnOk result (AddsRowFrom (content self.old) dest src start_col (content self.new)) }
        ensures refused { OnErr result (IsUnchanged (content self.old) (content self.new)) }
        ensures err { IfErr result (λ e. e ≡ OutOfMemory) };

    /// Keeps the first rows and columns. The columns aren't indexed, and either all are kept or
    /// none of those kept is dense.
    fn resize(&mut self, new_height: usize, new_width: usize) -> Result<(), Error>
        requires height { new_height ≤ (content self.old).height }
        requires width { new_width ≤ (content self.old).width }
        requires indexed { (content self.old).indexed ≡ false }
        requires columns { (new_width ≡ (content self.old).width) ⊎ (new_width ≤ (content self.old).boundary) }
        ensures ok { OnOk result (KeepsLeading (content self.old) new_height new_width (content self.new)) }
        ensures refused { OnErr result (IsUnchanged (content self.old) (content self.new)) }
        ensures err { IfErr result (λ e. e ≡ OutOfMemory) };

    // What holds of each content, and that a clone has the same.
    ghost is_table: { (matrix : Self) → IsBitTable (content matrix) };

    ghost clone_is_same: { (old new : Self) → Self.is_clone old new → IsUnchanged (content old) (content new) };
}

/// A matrix of bits each of which is stored, 64 to a word.
#[derive(Debug, PartialEq, Eq, Drop)]
pub struct DenseBinaryMatrix {
    width: usize,
    boundary: usize,
    indexed: bool,
    rows: BitRows,
    ghost height_fits: { length rows < 2 ^ 31 },
    ghost width_fits: { width < 65536 },
    ghost within: { boundary ≤ width },
    ghost full: { All (λ row. length row ≡ word_count width) rows },
}

impl DenseBinaryMatrix {
    /// The word in which one bit alone is set.
    pub fn select_mask(bit: usize) -> u64
        requires { bit < 64 }
        ensures { result ≡ 2 ^ bit }
    {
        BinaryOctetVec::select_mask(bit)
    }
}

impl Clone for DenseBinaryMatrix {
    ghost use Rattle.rq_matrix.specs.DenseBinaryMatrix.{IsDenseCopy};

    ghost is_clone = { IsDenseCopy };

    fn clone(&self) -> Result<Self, AllocError> {
        Ok(DenseBinaryMatrix {
            width: self.width,
            boundary: self.boundary,
            indexed: self.indexed,
            rows: self.rows.clone()?,
        })
    }
}

impl BinaryMatrix for DenseBinaryMatrix {
    ghost use Rattle.rq_matrix.specs.DenseBinaryMatrix.{dense_content, is_dense_table, dense_copy_is_same};

    ghost content = { dense_content };

    ghost is_table = { is_dense_table };

    ghost clone_is_same = { dense_copy_is_same };

    fn new(
        alloc: Global,
        height: usize,
        width: usize,
        trailing_dense_column_hint: usize,
    ) -> Result<Self, Error> {
        Ok(DenseBinaryMatrix {
            width,
            boundary: width - trailing_dense_column_hint,
            indexed: false,
            rows: BitRows::zeros(alloc, height, width)?,
        })
    }

    fn allocator(&self) -> Global {
        self.rows.allocator()
    }

    fn set(&mut self, i: usize, j: usize, value: Octet) -> Result<(), Error> {
        write_bit(self.rows.row_mut(i), j, value);
        Ok(())
    }

    fn flip(&mut self, i: usize, j: usize) -> Result<(), Error> {
        flip_bit(self.rows.row_mut(i), j);
        Ok(())
    }

    fn height(&self) -> usize {
        self.rows.len()
    }

    fn width(&self) -> usize {
        self.width
    }

    fn count_ones(&self, row: usize, start_col: usize, end_col: usize) -> usize {
        count_ones(self.rows.row(row), start_col, end_col)
    }

    fn get_row_iter(&self, row: usize, start_col: usize, end_col: usize) -> OctetIter<'_> {
        OctetIter::new_dense_ones(start_col, end_col, self.rows.row(row))
    }

    fn get_ones_in_column_into(
        &self,
        col: usize,
        start_row: usize,
        end_row: usize,
        out: &mut Vec<u32>,
    ) -> Result<(), Error> {
        out.reserve(end_row - start_row)?;
        out.clear();
        for row in start_row..end_row {
            if self.get(row, col) == Octet::one() {
                out.push_reserved(row as u32);
            }
        }
        Ok(())
    }

    fn get_sub_row_as_octets(&self, row: usize, start_col: usize) -> Result<BinaryOctetVec, Error> {
        let row = self.rows.row(row);
        Ok(part_of(self.allocator(), row, start_col, self.width)?)
    }

    fn query_non_zero_columns_into(
        &self,
        row: usize,
        start_col: usize,
        out: &mut Vec<usize>,
    ) -> Result<(), Error> {
        out.reserve(self.width - start_col)?;
        out.clear();
        for (column, _) in OctetIter::new_dense_ones(start_col, self.width, self.rows.row(row)) {
            out.push_reserved(column);
        }
        Ok(())
    }

    fn get(&self, i: usize, j: usize) -> Octet {
        get_bit(self.rows.row(i), j)
    }

    fn swap_rows(&mut self, i: usize, j: usize) {
        self.rows.swap(i, j);
    }

    fn swap_columns(&mut self, i: usize, j: usize, start_row_hint: usize) {
        swap_columns_from(&mut self.rows, i, j, start_row_hint);
    }

    fn enable_column_access_acceleration(&mut self) -> Result<(), Error> {
        self.indexed = true;
        Ok(())
    }

    fn disable_column_access_acceleration(&mut self) {
        self.indexed = false;
    }

    fn hint_column_dense_and_frozen(&mut self, i: usize) -> Result<(), Error> {
        self.boundary = i;
        Ok(())
    }

    fn add_assign_rows(&mut self, dest: usize, src: usize, _: usize) -> Result<(), Error> {
        self.rows.add(dest, src);
        Ok(())
    }

    fn resize(&mut self, new_height: usize, new_width: usize) -> Result<(), Error> {
        self.rows.truncate(new_height);
        self.rows.narrow(new_width);
        self.width = new_width;
        self.boundary = self.boundary.min(new_width);
        Ok(())
    }
}

// Exchanges two columns in the rows from one on.
fn swap_columns_from(rows: &mut BitRows, i: usize, j: usize, start: usize)
    requires first { All (λ row. i < 64 * length row) rows.old }
    requires second { All (λ row. j < 64 * length row) rows.old }
    ensures { AreSwappedFrom i j start (length rows.old) rows.old rows.new }
{
    for row in start..rows.len() {
        swap_bits(rows.row_mut(row), i, j);
    }
}
