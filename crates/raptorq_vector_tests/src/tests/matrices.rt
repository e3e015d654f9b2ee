//! The constraint matrices of blocks, against the Rust crate `raptorq` 2.0.1.
//!
//! A script asked that crate for the matrices of blocks of 1 to 110 symbols, took their entries, row
//! by row and one after another, into a digest that starts at 0 by
//! `digest * 1099511628211 + entry + 1` modulo 2^64, and wrote the digests here.
ghost use Rattle.std.specs.Prelude.{◌≡◌, ◌≤◌, IfOk, vec_len};
ghost use Rattle.rq_standard.specs.TableRows.{greatest_size};

use crate::compare::holds;
use raptorq::constraint_matrix::{generate_constraint_matrix, generate_constraint_matrix_no_hdpc};
use raptorq::error::Error;
use raptorq::matrix::{BinaryMatrix, DenseBinaryMatrix};
use raptorq::octet_matrix::DenseOctetMatrix;
use raptorq::systematic_constants::SystematicTable;
use raptorq_test_kit::digests::mixed;
use std::alloc::Global;
use std::test::Fail;

fn bits_digest<T: BinaryMatrix>(matrix: &T, digest: u64) -> u64 {
    let mut digest = digest;
    for i in 0..matrix.height() {
        for j in 0..matrix.width() {
            digest = mixed(digest, u64::from(matrix.get(i, j).byte()));
        }
    }
    digest
}

fn octets_digest(matrix: &DenseOctetMatrix, width: usize, digest: u64) -> u64
    requires { width ≤ matrix.now.width }
{
    let mut digest = digest;
    for i in 0..matrix.height() {
        for j in 0..width {
            digest = mixed(digest, u64::from(matrix.get(i, j).byte()));
        }
    }
    digest
}

pub(super) fn first_ids(alloc: Global, count: u32) -> Result<Vec<u32>, Error>
    ensures { IfOk result (λ ids. vec_len ids ≡ count) }
{
    Ok((0..count).collect(alloc)?)
}

// The matrices of a block of the ids below K'+2, with HDPC rows, taken into a digest.
fn whole_digest(alloc: Global, table: &SystematicTable, k: u32) -> Result<u64, Error>
    requires { k ≤ greatest_size table.now }
{
    let ids = first_ids(alloc, table.row(k).extended_symbols + 2)?;
    let (matrix, hdpc_rows) = generate_constraint_matrix::<DenseBinaryMatrix>(
        alloc,
        table,
        k,
        ids.as_slice(),
    )?;
    let digest = bits_digest(&matrix, 0);
    Ok(octets_digest(&hdpc_rows, matrix.width(), digest))
}

// Behind it that of the ids below K'+H, without HDPC rows.
fn block_digest(alloc: Global, table: &SystematicTable, k: u32) -> Result<u64, Error>
    requires { k ≤ greatest_size table.now }
{
    let digest = whole_digest(alloc, table, k)?;
    let row = table.row(k);
    let ids = first_ids(alloc, row.extended_symbols + row.hdpc_symbols)?;
    let plain = generate_constraint_matrix_no_hdpc::<DenseBinaryMatrix>(
        alloc,
        table,
        k,
        ids.as_slice(),
    )?;
    Ok(bits_digest(&plain, digest))
}

#[test]
fn matrices_of_blocks(rt: HostRuntime) -> Result<(), Fail> {
    let table = SystematicTable::built_in(rt.alloc())?;
    for k in 1..111 {
        assert!(rt; k <= table.greatest());
        let digest = block_digest(rt.alloc(), &table, k)?;
        let size = table.row(k).extended_symbols;
        holds!(rt; MATRIX_DIGESTS.contains(&(size, digest)), k);
    }
    Ok(())
}

// K', and the digest of the matrices of a block of that size.
const MATRIX_DIGESTS: [(u32, u64); 24] = [
    (10, 5988454077602790694),
    (12, 14476877674585820355),
    (18, 8707278504310703916),
    (20, 3163305618145497645),
    (26, 14437207343240780163),
    (30, 6767907217345971013),
    (32, 4978943540895585043),
    (36, 6589053064544046596),
    (42, 597703063584753266),
    (46, 12929617355059261421),
    (48, 5999029034951117921),
    (49, 4332804981345754603),
    (55, 8662932154545362006),
    (60, 9745633102450804174),
    (62, 14105453295545483146),
    (69, 17810960832022761866),
    (75, 4750571753049052482),
    (84, 8079484827894795804),
    (88, 14730412854172485182),
    (91, 4390011764402613500),
    (95, 13667050389089358132),
    (97, 9161993500371347326),
    (101, 779539199891615607),
    (114, 8065164219585865961),
];
