//! The matrix A of RFC 6330 (section 5.4.2.1) as one matrix of octets, for `null_vector` alone.
ghost use Rattle.std.specs.Prelude.{◌≡◌, ℕ, ◌<◌, ◌≤◌, length, IfOk, OnOk, IfErr};
ghost use Rattle.rq_bytes.specs.declared.error.Error.TheVariants.{OutOfMemory};
ghost use Rattle.rq_parts.specs.DenseOctetMatrix.{entry_of, HasOctets};
ghost use Rattle.rq_elimination.specs.LeadingRows.{WritesRow};
ghost use Rattle.rq_null_vector.specs.RowWrites.{CanCopyRow, HoldsEquations};

use rq_bytes::error::Error;
use rq_bytes::octet::Octet;
use rq_matrix::matrix::BinaryMatrix;
use rq_parts::octet_matrix::DenseOctetMatrix;
use std::alloc::Global;

/// The rows of a matrix of bits, but those of a matrix of octets in the places from `first_hdpc`
/// on.
pub fn octet_rows<T: BinaryMatrix>(
    alloc: Global,
    bits: &T,
    lt_columns: usize,
    hdpc: &DenseOctetMatrix,
    first_hdpc: usize,
) -> Result<DenseOctetMatrix, Error>
    requires lt_columns { lt_columns ≡ (T.content bits.now).boundary }
    requires hdpc_width { hdpc.now.width ≡ (T.content bits.now).width }
    ensures rows { IfOk result (HoldsEquations (T.content bits.now) hdpc.now first_hdpc) }
    ensures width { IfOk result (λ made. made.width ≡ (T.content bits.now).width) }
    ensures err { IfErr result (λ e. e ≡ OutOfMemory) }
{
    let width = bits.width();
    let mut rows = DenseOctetMatrix::new(alloc, bits.height(), width, 0)?;
    let mut dense_ones = Vec::new(alloc);
    for row in 0..bits.height() {
        if row >= first_hdpc && row - first_hdpc < hdpc.height() {
            copy_octets(hdpc, row - first_hdpc, width, &mut rows, row);
        } else {
            copy_leading_bits(bits, row, lt_columns, &mut rows);
            copy_dense_bits(bits, row, lt_columns, &mut dense_ones, &mut rows)?;
        }
    }
    Ok(rows)
}

// Copies a row of octets to a row.
fn copy_octets(
    octets: &DenseOctetMatrix,
    from: usize,
    width: usize,
    rows: &mut DenseOctetMatrix,
    to: usize,
)
    requires from { from < length octets.now.rows }
    requires width { octets.now.width ≡ width }
    requires to { to < length rows.old.rows }
    requires same { rows.old.width ≡ width }
    requires octets { HasOctets rows.old }
    ensures { WritesRow to 0 width (entry_of octets.now from) rows.old rows.new }
{
    for column in 0..width {
        let octet = Octet::new(octets.get(from, column).byte());
        rows.set(to, column, octet);
    }
}

// Copies the columns of LT symbols of a row of bits to a row of zeros.
fn copy_leading_bits<T: BinaryMatrix>(
    bits: &T,
    row: usize,
    lt_columns: usize,
    rows: &mut DenseOctetMatrix,
)
    requires row { CanCopyRow (T.content bits.now) row lt_columns rows.old }
    requires zeros { (k : ℕ) → k < lt_columns → entry_of rows.old row k ≡ 0 }
    ensures { WritesRow row 0 lt_columns ((T.content bits.now).bit row) rows.old rows.new }
{
    for (column, octet) in bits.get_row_iter(row, 0, lt_columns) {
        rows.set(row, column, octet);
    }
}

// Copies the dense columns of a row of bits to a row of zeros.
fn copy_dense_bits<T: BinaryMatrix>(
    bits: &T,
    row: usize,
    lt_columns: usize,
    ones: &mut Vec<usize>,
    rows: &mut DenseOctetMatrix,
) -> Result<(), Error>
    requires row { CanCopyRow (T.content bits.now) row lt_columns rows.old }
    requires zeros { (k : ℕ) → lt_columns ≤ k → k < rows.old.width → entry_of rows.old row k ≡ 0 }
    ensures ok { OnOk result (WritesRow row lt_columns rows.old.width ((T.content bits.now).bit row) rows.old rows.new) }
    ensures err { IfErr result (λ e. e ≡ OutOfMemory) }
{
    bits.query_non_zero_columns_into(row, lt_columns, ones)?;
    for column in ones.as_slice() {
        rows.set(row, *column, Octet::one());
    }
    Ok(())
}
