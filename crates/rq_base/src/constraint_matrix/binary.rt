//! The binary rows of the constraint matrix (RFC 6330, sections 5.3.3.3 and 5.3.5.3).
ghost use Rattle.std.specs.Prelude.{◌≡◌, ℕ, ◌+◌, ◌^◌, ◌<◌, ◌≤◌, All, length, false, IfOk, OnOk, IfErr};
ghost use Rattle.rq_bytes.specs.declared.error.Error.TheVariants.{OutOfMemory};
ghost use Rattle.rq_standard.specs.TableRows.{b_of};
ghost use Rattle.rq_standard.specs.ConstraintMatrix.{HasBinaryRows, HasRows};
ghost use Rattle.rq_base.specs.BinaryRows.{HasLdpc1Columns, HasLdpcRows, SetsParityRow, IsZeroFrom};

use crate::indices::{Indices, sum_modulo};
use rq_bytes::error::Error;
use rq_bytes::octet::Octet;
use rq_matrix::matrix::BinaryMatrix;
use rq_tables::systematic_constants::CheckedRow;
use std::alloc::Global;

/// The LDPC rows, then zeros up to row `first_symbol_row`, and from there on a row for each
/// internal symbol id.
pub(crate) fn binary_rows<T: BinaryMatrix>(
    alloc: Global,
    row: &CheckedRow,
    first_symbol_row: usize,
    internal_symbol_ids: &[u32],
) -> Result<T, Error>
    requires after_ldpc { row.now.numbers.ldpc_symbols ≤ first_symbol_row }
    requires fits { first_symbol_row + length internal_symbol_ids.now < 2 ^ 31 }
    ensures rows { IfOk result (λ m. HasBinaryRows row.now.numbers first_symbol_row internal_symbol_ids.now (T.content m)) }
    ensures memory { IfErr result (λ e. e ≡ OutOfMemory) }
{
    let mut matrix = zero_rows(alloc, row, first_symbol_row + internal_symbol_ids.len())?;
    set_ldpc_1_columns(&mut matrix, row)?;
    set_ldpc_rows(&mut matrix, row)?;
    for (i, id) in internal_symbol_ids.iter().enumerate() {
        flip_indices(&mut matrix, first_symbol_row + i, Indices::of_id(row, *id))?;
    }
    Ok(matrix)
}

// `height` rows of L zeros each.
fn zero_rows<T: BinaryMatrix>(alloc: Global, row: &CheckedRow, height: usize) -> Result<T, Error>
    requires fits { height < 2 ^ 31 }
    ensures shape { IfOk result (λ matrix. HasRows row.now.numbers height (T.content matrix)) }
    ensures zeros { IfOk result (λ matrix. IsZeroFrom row.now.numbers 0 (T.content matrix)) }
    ensures memory { IfErr result (λ e. e ≡ OutOfMemory) }
{
    T::new(alloc, height, row.intermediate_symbols(), row.pi_symbols())
}

// G_LDPC,1: the columns of the first B symbols, with three ones each.
fn set_ldpc_1_columns<T: BinaryMatrix>(matrix: &mut T, row: &CheckedRow) -> Result<(), Error>
    requires room { row.now.numbers.ldpc_symbols ≤ (T.content matrix.old).height }
    requires zeros { HasLdpc1Columns row.now.numbers (T.content matrix.old).height 0 (T.content matrix.old) }
    ensures done { OnOk result (HasLdpc1Columns row.now.numbers (T.content matrix.old).height (b_of row.now.numbers) (T.content matrix.new)) }
    ensures memory { IfErr result (λ e. e ≡ OutOfMemory) }
{
    for column in 0..row.b() {
        set_ldpc_1_column(matrix, row, column)?;
    }
    Ok(())
}

// A column of G_LDPC,1: its ones are in three rows, each a step behind the one before.
fn set_ldpc_1_column<T: BinaryMatrix>(
    matrix: &mut T,
    row: &CheckedRow,
    column: usize,
) -> Result<(), Error>
    requires room { row.now.numbers.ldpc_symbols ≤ (T.content matrix.old).height }
    requires first { column < b_of row.now.numbers }
    requires before { HasLdpc1Columns row.now.numbers (T.content matrix.old).height column (T.content matrix.old) }
    ensures done { OnOk result (HasLdpc1Columns row.now.numbers (T.content matrix.old).height (column + 1) (T.content matrix.new)) }
    ensures memory { IfErr result (λ e. e ≡ OutOfMemory) }
{
    let height = row.numbers.ldpc_symbols;
    let step = 1 + column as u32 / height;
    let first = column as u32 % height;
    let second = sum_modulo(first, step, height);
    let third = sum_modulo(second, step, height);
    matrix.set(first as usize, column, Octet::one())?;
    matrix.set(second as usize, column, Octet::one())?;
    matrix.set(third as usize, column, Octet::one())?;
    Ok(())
}

// What is left of the LDPC rows, I_S and G_LDPC,2: each row's own LDPC symbol, and two PI symbols.
fn set_ldpc_rows<T: BinaryMatrix>(matrix: &mut T, row: &CheckedRow) -> Result<(), Error>
    requires room { row.now.numbers.ldpc_symbols ≤ (T.content matrix.old).height }
    requires before { HasLdpcRows row.now.numbers (T.content matrix.old).height 0 (T.content matrix.old) }
    ensures done { OnOk result (HasLdpcRows row.now.numbers (T.content matrix.old).height row.now.numbers.ldpc_symbols (T.content matrix.new)) }
    ensures memory { IfErr result (λ e. e ≡ OutOfMemory) }
{
    for i in 0..row.ldpc_symbols() {
        set_ldpc_row(matrix, row, i)?;
    }
    Ok(())
}

// One of these rows. The two PI symbols follow one another.
fn set_ldpc_row<T: BinaryMatrix>(matrix: &mut T, row: &CheckedRow, i: usize) -> Result<(), Error>
    requires room { row.now.numbers.ldpc_symbols ≤ (T.content matrix.old).height }
    requires ldpc { i < row.now.numbers.ldpc_symbols }
    requires before { HasLdpcRows row.now.numbers (T.content matrix.old).height i (T.content matrix.old) }
    ensures done { OnOk result (HasLdpcRows row.now.numbers (T.content matrix.old).height (i + 1) (T.content matrix.new)) }
    ensures memory { IfErr result (λ e. e ≡ OutOfMemory) }
{
    let lt_symbols = row.lt_symbols();
    let pi_symbols = row.pi_symbols();
    matrix.set(i, row.b() + i, Octet::one())?;
    matrix.set(i, lt_symbols + i % pi_symbols, Octet::one())?;
    matrix.set(i, lt_symbols + (i + 1) % pi_symbols, Octet::one())?;
    Ok(())
}

// Flips the bit of a row at each index, so that an index that comes twice cancels.
fn flip_indices<T: BinaryMatrix>(
    matrix: &mut T,
    i: usize,
    mut indices: Indices,
) -> Result<(), Error>
    requires row { i < (T.content matrix.old).height }
    requires below { All (λ index. index < (T.content matrix.old).width) indices }
    requires settable { (T.content matrix.old).indexed ≡ false }
    requires zeros { (k : ℕ) → k < (T.content matrix.old).width → (T.content matrix.old).bit i k ≡ 0 }
    ensures filled { OnOk result (SetsParityRow (T.content matrix.old) i indices (T.content matrix.new)) }
    ensures memory { IfErr result (λ e. e ≡ OutOfMemory) }
{
    while let Some(index) = indices.next_index() {
        matrix.flip(i, index)?;
    }
    Ok(())
}
