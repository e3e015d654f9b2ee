//! The HDPC rows of the constraint matrix (RFC 6330, section 5.3.3.3).
ghost use Rattle.std.specs.Prelude.{◌≡◌, ◌≢◌, ℕ, ◌+◌, ◌-◌, ◌<◌, ◌≤◌, ◌==◌, ◌||◌, length, IfOk, IfErr};
ghost use Rattle.rq_bytes.specs.declared.error.Error.TheVariants.{OutOfMemory};
ghost use Rattle.rq_standard.specs.Equations.{before_hdpc, mt, one_if};
ghost use Rattle.rq_base.specs.HdpcPart.{IsHdpcPart, IsHdpcColumn, IsFilledFrom};

use crate::indices::sum_modulo;
use rq_bytes::error::Error;
use rq_bytes::octet::Octet;
use rq_bytes::row_multiples::multiply_row;
use rq_parts::octet_matrix::DenseOctetMatrix;
use rq_tables::rng::rand;
use rq_tables::systematic_constants::CheckedRow;
use std::alloc::Global;

/// The H rows of octets of the HDPC equations, over a row of a table (RFC 6330, section 5.3.3.3).
pub fn generate_hdpc_rows(alloc: Global, row: &CheckedRow) -> Result<DenseOctetMatrix, Error>
    ensures part { IfOk result (IsHdpcPart row.now.numbers) }
    ensures memory { IfErr result (λ e. e ≡ OutOfMemory) }
{
    let last = row.before_hdpc() - 1;
    let mut matrix = last_columns(alloc, row)?;
    let mut store = [0; 256];
    let octets = &mut store[..whole_lanes(row)];
    fill_powers(octets, row);
    for column in (0..last).rev() {
        step_back(octets, row, column);
        fill_column(&mut matrix, row, column, octets);
    }
    Ok(matrix)
}

// How many octets are kept of a column: its own and zeros after them, so that all are doubled in
// whole vectors of 32.
fn whole_lanes(row: &CheckedRow) -> usize
    ensures all { row.now.numbers.hdpc_symbols ≤ result }
    ensures few { result ≤ 256 }
{
    row.hdpc_symbols().div_ceil(32) * 32
}

// The rows with the columns from K'+S-1 on: the powers of alpha, and each HDPC symbol in its own
// row.
fn last_columns(alloc: Global, row: &CheckedRow) -> Result<DenseOctetMatrix, Error>
    ensures filled { IfOk result (IsFilledFrom row.now.numbers (before_hdpc row.now.numbers - 1)) }
    ensures memory { IfErr result (λ e. e ≡ OutOfMemory) }
{
    let height = row.hdpc_symbols();
    let before_hdpc = row.before_hdpc();
    let mut matrix = DenseOctetMatrix::new(alloc, height, row.intermediate_symbols(), 0)?;
    for i in 0..height {
        matrix.set(i, before_hdpc - 1, Octet::alpha(i));
        matrix.set(i, before_hdpc + i, Octet::one());
    }
    Ok(matrix)
}

// The octets of column K'+S-1, the powers of alpha.
fn fill_powers(octets: &mut [u8], row: &CheckedRow)
    requires long { row.now.numbers.hdpc_symbols ≤ length octets.old }
    ensures { IsHdpcColumn row.now.numbers (before_hdpc row.now.numbers - 1) octets.new }
{
    for i in 0..row.hdpc_symbols() {
        octets[i] = Octet::alpha(i).byte();
    }
}

// From a column of the product of MT and GAMMA to the one before it: alpha times that, and one more
// in the two rows where MT's own column has a one.
fn step_back(octets: &mut [u8], row: &CheckedRow, column: usize)
    requires column { column + 1 < before_hdpc row.now.numbers }
    requires next { IsHdpcColumn row.now.numbers (column + 1) octets.old }
    ensures { IsHdpcColumn row.now.numbers column octets.new }
{
    let (first, second) = ones_of_mt(row, column);
    multiply_row(octets, &Octet::new(2));
    octets[first] ^= 1;
    octets[second] ^= 1;
}

// Writes a column into the matrix that has the columns after it.
fn fill_column(matrix: &mut DenseOctetMatrix, row: &CheckedRow, column: usize, octets: &[u8])
    requires column { column + 1 < before_hdpc row.now.numbers }
    requires octets { IsHdpcColumn row.now.numbers column octets.now }
    requires next { IsFilledFrom row.now.numbers (column + 1) matrix.old }
    ensures { IsFilledFrom row.now.numbers column matrix.new }
{
    for i in 0..row.hdpc_symbols() {
        matrix.set(i, column, Octet::new(octets[i]));
    }
}

/// The two rows in which a column of MT but its last one has ones; it has zeros in all others (RFC
/// 6330, section 5.3.3.3).
pub fn ones_of_mt(row: &CheckedRow, column: usize) -> (usize, usize)
    requires column { column + 1 < before_hdpc row.now.numbers }
    ensures first { result.0 < row.now.numbers.hdpc_symbols }
    ensures second { result.1 < row.now.numbers.hdpc_symbols }
    ensures apart { result.0 ≢ result.1 }
    ensures ones { (i : ℕ) → mt row.now.numbers i column ≡ one_if (i == result.0 || i == result.1) }
{
    let height = row.numbers.hdpc_symbols;
    let seed = column as u32 + 1;
    let first = rand(seed, 6, height);
    let second = sum_modulo(first, rand(seed, 7, height - 1) + 1, height);
    (first as usize, second as usize)
}
