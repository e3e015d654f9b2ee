//! The stored rows that have a one in each stored column.
ghost use Rattle.std.specs.Prelude.{◌≡◌, ◌^◌, ◌<◌, [], All, length, slice_index_or, IfOk, OnOk, OnErr};
ghost use Rattle.std.specs.Option.{ForSome};
ghost use Rattle.rq_matrix.specs.SparseRows.{IsSparseRow, IsColumnIndex, AddsRowPairs, places_between};

use rq_parts::arraymap::{ImmutableListMap, ImmutableListMapBuilder};
use rq_parts::memory::want_of_memory;
use rq_parts::sparse_vec::SparseBinaryVec;
use std::alloc::AllocError;

/// For each column below `columns` the rows that have a one there.
pub(super) fn column_index(
    rows: &Vec<SparseBinaryVec>,
    columns: usize,
) -> Result<ImmutableListMap, AllocError>
    requires columns { columns < 65536 }
    requires count { length rows.now.items < 2 ^ 31 }
    requires rows { All (IsSparseRow columns) rows.now.items }
    ensures { IfOk result (IsColumnIndex columns rows.now.items) }
{
    let mut builder = ImmutableListMapBuilder::new(*rows.allocator(), columns);
    for row in 0..rows.len() {
        add_ones(&mut builder, &rows[row], row as u32)?;
    }
    let index = builder.build().map_err(want_of_memory)?;
    Ok(index)
}

// Adds a row at each column in which it has a one.
fn add_ones(
    builder: &mut ImmutableListMapBuilder,
    ones: &SparseBinaryVec,
    row: u32,
) -> Result<(), AllocError>
    requires columns { All (λ one. one < builder.old.keys) ones.now }
    requires keys { builder.old.keys < 65536 }
    ensures { OnOk result (AddsRowPairs builder.old row ones.now builder.new) }
{
    for i in 0..ones.len() {
        let (column, _) = ones.get_by_raw_index(i);
        builder.add(column as u16, row).map_err(want_of_memory)?;
    }
    Ok(())
}

/// The rows that an index has for a column, and none without an index.
pub(super) fn indexed_rows(index: &Option<ImmutableListMap>, column: u16) -> &[u32]
    requires { ForSome index.now (λ lists. column < length lists) }
    ensures { ForSome index.now (λ lists. result.now ≡ slice_index_or lists column []) }
{
    match index {
        Some(index) => index.get(column),
        None => &[],
    }
}

/// Replaces a list by the places from `start` on and before `end` at which some rows stand. A refusal
/// leaves the list as it was.
pub(super) fn places_between(
    rows: &[u32],
    places: &[u32],
    start: usize,
    end: usize,
    out: &mut Vec<u32>,
) -> Result<(), AllocError>
    requires { All (λ row. row < length places.now) rows.now }
    ensures ok { OnOk result (out.new.items ≡ places_between rows.now places.now start end) }
    ensures refused { OnErr result (out.new.items ≡ out.old.items) }
{
    out.reserve(rows.len())?;
    out.clear();
    for row in rows {
        let place = places[*row as usize];
        if start <= place as usize && (place as usize) < end {
            out.push_reserved(place);
        }
    }
    Ok(())
}
