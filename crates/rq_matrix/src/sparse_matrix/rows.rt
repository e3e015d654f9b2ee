//! The stored rows of a sparse matrix.
ghost use Rattle.std.specs.Prelude.{◌≡◌, ◌≢◌, ◌<◌, [], All, length, replicate, slice_index_or, slice_set, IfOk, OnOk, OnErr};
ghost use Rattle.std.specs.List.Sorted.{IsStrictlyIncreasing};
ghost use Rattle.rq_parts.specs.BitPairs.{sparse_pairs};
ghost use Rattle.rq_parts.specs.SparseBinaryVec.{IsListedSum};

use rq_bytes::util::get_both_indices;
use rq_parts::memory::want_of_memory;
use rq_parts::sparse_vec::{INLINE_ONES, SparseBinaryVec};
use std::alloc::{AllocError, Global};

/// `count` rows without ones, each with room for the ones that most rows get.
pub(super) fn empty_rows(alloc: Global, count: usize) -> Result<Vec<SparseBinaryVec>, AllocError>
    ensures { IfOk result (λ rows. rows.items ≡ replicate count []) }
{
    let mut rows = Vec::with_capacity(alloc, count)?;
    for _ in 0..count {
        rows.push(SparseBinaryVec::with_capacity(alloc, INLINE_ONES).map_err(want_of_memory)?)?;
    }
    Ok(rows)
}

/// Adds a row to another one. A refusal leaves the rows as they were.
pub(super) fn add_row(
    rows: &mut [SparseBinaryVec],
    dest: usize,
    src: usize,
) -> Result<(), AllocError>
    requires two { dest ≢ src }
    requires dest { dest < length rows.old }
    requires src { src < length rows.old }
    ensures others { rows.new ≡ slice_set rows.old dest (slice_index_or rows.new dest []) }
    ensures sum { OnOk result (IsListedSum (slice_index_or rows.old dest []) (slice_index_or rows.old src []) (slice_index_or rows.new dest [])) }
    ensures increasing { IsStrictlyIncreasing (slice_index_or rows.new dest []) }
    ensures refused { OnErr result (rows.new ≡ rows.old) }
{
    let (to, from) = get_both_indices(rows, dest, src);
    to.add_assign(from).map_err(want_of_memory)?;
    Ok(())
}

/// The number of ones that stand from column `start` on and before `end`, `columns` having for each
/// index the column in which it stands.
pub(super) fn count_between(
    row: &SparseBinaryVec,
    columns: &[u16],
    start: usize,
    end: usize,
) -> usize
    requires { All (λ one. one < length columns.now) row.now }
    ensures { result ≡ length (sparse_pairs row.now columns.now start end) }
{
    let mut count = 0;
    for i in 0..row.len() {
        let (one, _) = row.get_by_raw_index(i);
        let column = usize::from(columns[one]);
        if start <= column && column < end {
            count += 1;
        }
    }
    count
}
