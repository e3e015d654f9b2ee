//! The equations of a block as matrices, and the indices of the intermediate symbols that make up an
//! encoding symbol (RFC 6330, sections 5.3.3.3 and 5.3.5.3).
ghost use Rattle.std.specs.Prelude.{◌≡◌, ◌+◌, ◌^◌, ◌<◌, ◌≤◌, All, length, IfOk, IfErr};
ghost use Rattle.std.specs.List.{FoldsTo};
ghost use Rattle.rq_standard.specs.Tuple.{IsTupleOver, enc_indices};
ghost use Rattle.rq_bytes.specs.declared.error.Error.TheVariants.{OutOfMemory};
ghost use Rattle.rq_standard.specs.TableRows.{greatest_size, row_of};
ghost use Rattle.rq_standard.specs.Equations.{equation_count};
ghost use Rattle.rq_standard.specs.ConstraintMatrix.{IsBinaryPart, IsBinaryPartWithoutHdpc};
ghost use Rattle.rq_base.specs.Calls.{CallableAlong};
ghost use Rattle.rq_base.specs.HdpcPart.{IsHdpcPart};

mod binary;
pub mod hdpc;

use crate::indices::Indices;
use binary::binary_rows;
use hdpc::generate_hdpc_rows;
use rq_bytes::error::Error;
use rq_matrix::matrix::BinaryMatrix;
use rq_parts::octet_matrix::DenseOctetMatrix;
use rq_tables::systematic_constants::{CheckedRow, SystematicTable};
use std::alloc::Global;

/// Calls `f` with each index of a tuple (d, a, b, d1, a1, b1) in order, over a row of the table with
/// W `lt_symbols`, P `pi_symbols` and P1 `p1`: the indices of the intermediate symbols whose sum is
/// the encoding symbol. An index may come twice; it then cancels in the sum.
///
/// Kept for the surface of `raptorq`; no coder calls it.
pub fn enc_indices<F: FnMut(usize)>(
    source_tuple: (u32, u32, u32, u32, u32, u32),
    lt_symbols: u32,
    pi_symbols: u32,
    p1: u32,
    mut f: F,
)
    requires tuple { IsTupleOver lt_symbols pi_symbols p1 source_tuple }
    requires callable { CallableAlong (λ p x. F.pre p x) (λ p x q. F.step p x tt q) f (enc_indices lt_symbols pi_symbols p1 source_tuple) }
    ensures calls { (last : F) × FoldsTo (λ p x q. F.step p x tt q) f (enc_indices lt_symbols pi_symbols p1 source_tuple) last }
    ensures below { All (λ index. index < lt_symbols + pi_symbols) (enc_indices lt_symbols pi_symbols p1 source_tuple) }
{
    let mut indices = Indices::new(source_tuple, lt_symbols, pi_symbols, p1);
    while let Some(index) = indices.next_index() {
        f(index);
    }
}

/// The matrix of the equations of a block of `source_block_symbols` symbols, over a table: the S
/// LDPC rows, H rows of zeros, and a row for each internal symbol id; and beside it the H rows of
/// octets of the HDPC equations (RFC 6330, section 5.3.3.4.2).
pub fn generate_constraint_matrix<T: BinaryMatrix>(
    alloc: Global,
    table: &SystematicTable,
    source_block_symbols: u32,
    encoded_symbol_indices: &[u32],
) -> Result<(T, DenseOctetMatrix), Error>
    requires block { source_block_symbols ≤ greatest_size table.now }
    requires fits { equation_count (row_of table.now source_block_symbols) encoded_symbol_indices.now < 2 ^ 31 }
    ensures bits { IfOk result (λ parts. IsBinaryPart (row_of table.now source_block_symbols) encoded_symbol_indices.now (T.content parts.0)) }
    ensures hdpc { IfOk result (λ parts. IsHdpcPart (row_of table.now source_block_symbols) parts.1) }
    ensures memory { IfErr result (λ e. e ≡ OutOfMemory) }
{
    let row = table.checked_row(source_block_symbols);
    generate_constraint_matrix_of_row(alloc, &row, encoded_symbol_indices)
}

/// The matrix of the equations of a block over a row of a table: the S LDPC rows, H rows of zeros,
/// and a row for each internal symbol id; and beside it the H rows of octets of the HDPC equations
/// (RFC 6330, section 5.3.3.4.2).
pub fn generate_constraint_matrix_of_row<T: BinaryMatrix>(
    alloc: Global,
    row: &CheckedRow,
    encoded_symbol_indices: &[u32],
) -> Result<(T, DenseOctetMatrix), Error>
    requires fits { equation_count row.now.numbers encoded_symbol_indices.now < 2 ^ 31 }
    ensures bits { IfOk result (λ parts. IsBinaryPart row.now.numbers encoded_symbol_indices.now (T.content parts.0)) }
    ensures hdpc { IfOk result (λ parts. IsHdpcPart row.now.numbers parts.1) }
    ensures memory { IfErr result (λ e. e ≡ OutOfMemory) }
{
    let matrix = binary_rows(alloc, row, row.precode_rows(), encoded_symbol_indices)?;
    let hdpc_rows = generate_hdpc_rows(alloc, row)?;
    Ok((matrix, hdpc_rows))
}

/// The matrix of the equations of a block of `source_block_symbols` symbols, over a table, without
/// the HDPC equations: the S LDPC rows, and a row for each internal symbol id (RFC 6330, section
/// 5.3.3.4.2).
pub fn generate_constraint_matrix_no_hdpc<T: BinaryMatrix>(
    alloc: Global,
    table: &SystematicTable,
    source_block_symbols: u32,
    encoded_symbol_indices: &[u32],
) -> Result<T, Error>
    requires block { source_block_symbols ≤ greatest_size table.now }
    requires fits { (row_of table.now source_block_symbols).ldpc_symbols + length encoded_symbol_indices.now < 2 ^ 31 }
    ensures bits { IfOk result (λ matrix. IsBinaryPartWithoutHdpc (row_of table.now source_block_symbols) encoded_symbol_indices.now (T.content matrix)) }
    ensures memory { IfErr result (λ e. e ≡ OutOfMemory) }
{
    let row = table.checked_row(source_block_symbols);
    generate_constraint_matrix_no_hdpc_of_row(alloc, &row, encoded_symbol_indices)
}

/// The matrix of the equations of a block over a row of a table, without the HDPC equations: the S
/// LDPC rows, and a row for each internal symbol id (RFC 6330, section 5.3.3.4.2).
pub fn generate_constraint_matrix_no_hdpc_of_row<T: BinaryMatrix>(
    alloc: Global,
    row: &CheckedRow,
    encoded_symbol_indices: &[u32],
) -> Result<T, Error>
    requires fits { row.now.numbers.ldpc_symbols + length encoded_symbol_indices.now < 2 ^ 31 }
    ensures bits { IfOk result (λ matrix. IsBinaryPartWithoutHdpc row.now.numbers encoded_symbol_indices.now (T.content matrix)) }
    ensures memory { IfErr result (λ e. e ≡ OutOfMemory) }
{
    binary_rows(alloc, row, row.ldpc_symbols(), encoded_symbol_indices)
}
