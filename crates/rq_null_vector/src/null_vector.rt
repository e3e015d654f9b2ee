//! The elimination that finds a null vector of a block's equations (RFC 6330, section 5.4.2.1),
//! which is a homogeneous column. It records nothing.
ghost use Rattle.std.specs.Prelude.{◌≡◌, ◌≢◌, ◌<◌, All, length, MatchOption, IfOk, IfErr};
ghost use Rattle.rq_bytes.specs.declared.error.Error.TheVariants.{OutOfMemory};
ghost use Rattle.rq_parts.specs.DenseOctetMatrix.{entry_of, HasOctets};
ghost use Rattle.rq_null_vector.specs.Homogeneous.{ShowsHomogeneousRows, KeepsZeros, LacksPivot};
ghost use Rattle.rq_elimination.specs.RowSteps.{AreRows, ClearsEntry, ScalesToOne};
ghost use Rattle.rq_null_vector.specs.Reduced.{ClearsOthers, IsPivotColumn, IsReduced};

use crate::octet_rows::octet_rows;
use rq_bytes::error::Error;
use rq_bytes::octet::Octet;
use rq_elimination::pivot_search::find_pivot;
use rq_matrix::matrix::BinaryMatrix;
use rq_parts::octet_matrix::DenseOctetMatrix;
use std::alloc::{AllocError, Global};

/// A column that isn't all zeros and solves the rows with all values zero. `None` where only zeros
/// do: then the rows determine a column.
///
/// The rows are those of a matrix of bits, whose first `lt_columns` columns are those of LT symbols,
/// but those of a matrix of octets in the places from `first_hdpc` on.
pub fn null_vector<T: BinaryMatrix>(
    alloc: Global,
    bits: &T,
    lt_columns: usize,
    hdpc: &DenseOctetMatrix,
    first_hdpc: usize,
) -> Result<Option<Vec<u8>>, Error>
    requires lt_columns { lt_columns ≡ (T.content bits.now).boundary }
    requires hdpc_width { hdpc.now.width ≡ (T.content bits.now).width }
    ensures shown { IfOk result (ShowsHomogeneousRows (T.content bits.now) hdpc.now first_hdpc) }
    ensures memory { IfErr result (λ e. e ≡ OutOfMemory) }
{
    let mut matrix = octet_rows(alloc, bits, lt_columns, hdpc, first_hdpc)?;
    let mut rows: Vec<usize> = (0..matrix.height()).collect(alloc)?;
    let Some(free) = reduce(&mut matrix, rows.as_mut_slice(), bits.width()) else {
        return Ok(None);
    };
    let column = column_of_pivots(alloc, &matrix, &rows[..free], bits.width())?;
    Ok(Some(column))
}

// Gives each column a pivot, the leftmost first: a row with 1 there, where the others have 0. The
// list of the rows is put in the order of the pivots. Answers the column where no row that is
// left can be one.
fn reduce(matrix: &mut DenseOctetMatrix, rows: &mut [usize], width: usize) -> Option<usize>
    requires width { width ≡ matrix.old.width }
    requires rows { AreRows rows.old matrix.old }
    requires octets { HasOctets matrix.old }
    ensures rows { AreRows rows.new matrix.new }
    ensures keeps { KeepsZeros matrix.old matrix.new }
    ensures pivots { MatchOption result (IsReduced rows.new 0 width matrix.new) (λ column. LacksPivot rows.new column matrix.new) }
{
    for column in 0..width {
        let Some(pivot) = find_pivot(matrix, rows, column, column) else {
            return Some(column);
        };
        rows.swap(column, pivot);
        scale_row(matrix, rows[column], column);
        clear_column(matrix, rows, column);
    }
    None
}

// Multiplies a row so that it has 1 in the column, where it isn't 0.
fn scale_row(matrix: &mut DenseOctetMatrix, row: usize, column: usize)
    requires row { row < length matrix.old.rows }
    requires column { column < matrix.old.width }
    requires octets { HasOctets matrix.old }
    requires nonzero { entry_of matrix.old row column ≢ 0 }
    ensures keeps { KeepsZeros matrix.old matrix.new }
    ensures scaled { ScalesToOne row column matrix.old matrix.new }
{
    let scalar = Octet::one() / matrix.get(row, column);
    matrix.mul_assign_row(row, &scalar);
}

// Adds multiples of a column's pivot, which has 1 there and stands at its number in the list, to
// the other rows, so that they have 0 there.
fn clear_column(matrix: &mut DenseOctetMatrix, rows: &[usize], column: usize)
    requires rows { AreRows rows.now matrix.old }
    requires pivot { column < length rows.now }
    requires column { column < matrix.old.width }
    requires octets { HasOctets matrix.old }
    ensures keeps { KeepsZeros matrix.old matrix.new }
    ensures cleared { ClearsOthers rows.now column matrix.old matrix.new }
{
    for i in 0..rows.len() {
        if i != column {
            clear_entry(matrix, rows[i], rows[column], column);
        }
    }
}

// Adds to a row what it has in the column times another row.
fn clear_entry(matrix: &mut DenseOctetMatrix, dest: usize, src: usize, column: usize)
    requires two { dest ≢ src }
    requires dest { dest < length matrix.old.rows }
    requires src { src < length matrix.old.rows }
    requires column { column < matrix.old.width }
    requires octets { HasOctets matrix.old }
    ensures keeps { KeepsZeros matrix.old matrix.new }
    ensures added { ClearsEntry dest src column matrix.old matrix.new }
{
    let scalar = matrix.get(dest, column);
    if scalar.byte() != 0 {
        matrix.fma_rows(dest, src, &scalar);
    }
}

// The column with 1 in the first place without a pivot: before it stands what the pivots' rows
// have there, and behind it are zeros.
fn column_of_pivots(
    alloc: Global,
    matrix: &DenseOctetMatrix,
    pivots: &[usize],
    width: usize,
) -> Result<Vec<u8>, AllocError>
    requires width { width ≡ matrix.now.width }
    requires free { length pivots.now < matrix.now.width }
    requires rows { All (λ row. row < length matrix.now.rows) pivots.now }
    ensures { IfOk result (λ column. IsPivotColumn pivots.now width matrix.now column.items) }
{
    let free = pivots.len();
    let mut column = Vec::with_capacity(alloc, width)?;
    for row in pivots {
        column.push(matrix.get(*row, free).byte())?;
    }
    column.push(1)?;
    column.resize(width, 0)?;
    Ok(column)
}
