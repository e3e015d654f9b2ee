//! The second phase (RFC 6330, section 5.4.2.3): elimination over the inactive columns among the rows
//! that have no pivot yet (`eliminate`) and, after `sparsify`, substitution back (`back_substitute`).
ghost use Rattle.std.specs.Prelude.{◌≢◌, ◌+◌, ◌<◌, ◌≤◌, ◌∷◌, [], length, OnOk, IfOk, IsPermutation};
ghost use Rattle.rq_algebra.specs.Systems.{at};
ghost use Rattle.rq_parts.specs.DenseOctetMatrix.{entry_of};
ghost use Rattle.rq_elimination.specs.OperationCounts.{additions, multiples, triangle};
ghost use Rattle.rq_elimination.specs.RecordedRows.{AddsAtMost, ChangesRows};
ghost use Rattle.rq_elimination.specs.RowSteps.{AreRows, ClearsBelow, ClearsEntry, IsEchelon, ScalesToOne};
ghost use Rattle.rq_solver.specs.SecondPhase.{AddsForward, AddsOnes, EndsForward, GivesMultiples, SubstitutesBack, TakesOnesBehind};

use rq_bytes::octet::Octet;
use rq_elimination::pivot_search::find_pivot;
use rq_elimination::recorded::RecordedRows;
use std::alloc::AllocError;

/// Gives each of the first `count` inactive columns a pivot: a row with 1 there, where the rows behind
/// it have 0. Works on these rows alone. The list is put in the order of the pivots' columns. Where a
/// column is left without a pivot the answer is false: those before it have theirs.
pub(super) fn eliminate(
    recorded: &mut RecordedRows,
    rows: &mut [usize],
    count: usize,
) -> Result<bool, AllocError>
    requires rows { AreRows rows.old recorded.old.table }
    requires columns { count ≤ recorded.old.table.width }
    ensures permuted { IsPermutation rows.old rows.new }
    ensures rows { OnOk result (AreRows rows.new recorded.old.table) }
    ensures steps { OnOk result (ChangesRows rows.old recorded.old recorded.new) }
    ensures pivots { IfOk result (EndsForward rows.new count recorded.new) }
    ensures few { IfOk result (AddsForward (length rows.old) count recorded.old recorded.new) }
{
    for done in 0..count {
        let Some(pivot) = find_pivot(&recorded.table, rows, done, done) else {
            return Ok(false);
        };
        rows.swap(done, pivot);
        scale_row(recorded, rows[done], done)?;
        clear_below(recorded, rows, done)?;
    }
    Ok(true)
}

/// Adds to each row in echelon form, the last first, multiples of those behind it, so that it has 0
/// in the columns of their pivots. That is recorded alone: stored rows stay as they are, so that a
/// row of bits stays one, and most of what is recorded are plain additions.
///
/// A row takes the rows behind it one after another where it has 1, and then is given, as a multiple,
/// to one row after another that has any other octet: replay does each such run in one pass.
pub(super) fn back_substitute(
    recorded: &mut RecordedRows,
    rows: &[usize],
    count: usize,
) -> Result<(), AllocError>
    requires rows { AreRows rows.now recorded.old.table }
    requires columns { count ≤ recorded.old.table.width }
    requires echelon { IsEchelon rows.now count recorded.old.table }
    ensures reduced { OnOk result (SubstitutesBack rows.now count 0 recorded.old recorded.new) }
    ensures few { OnOk result (AddsAtMost (triangle count) recorded.old recorded.new) }
{
    for done in 0..count {
        let place = count - 1 - done;
        take_ones(recorded, rows, place, count)?;
        give_multiples(recorded, rows, place)?;
    }
    Ok(())
}

// Records that the row at a place takes those behind it in whose columns it has 1.
fn take_ones(
    recorded: &mut RecordedRows,
    rows: &[usize],
    place: usize,
    count: usize,
) -> Result<(), AllocError>
    requires rows { AreRows rows.now recorded.old.table }
    requires place { place < count }
    requires many { count ≤ length rows.now }
    requires columns { count ≤ recorded.old.table.width }
    ensures taken { OnOk result (TakesOnesBehind rows.now place count recorded.old recorded.new) }
    ensures few { OnOk result (AddsOnes rows.now place count recorded.old recorded.new) }
{
    let row = rows[place];
    let mut from = place + 1;
    while let Some((f, scalar)) = recorded.table.next_entry(row, from, count) {
        if scalar.byte() == 1 {
            recorded.record_multiple(row, rows[f], scalar)?;
        }
        from = f + 1;
    }
    Ok(())
}

// Records that multiples of the row at a place are added to those before it that have another octet
// than 0 and 1 in its column.
fn give_multiples(
    recorded: &mut RecordedRows,
    rows: &[usize],
    place: usize,
) -> Result<(), AllocError>
    requires rows { AreRows rows.now recorded.old.table }
    requires place { place < length rows.now }
    requires column { place < recorded.old.table.width }
    ensures given { OnOk result (GivesMultiples rows.now place place recorded.old recorded.new) }
    ensures few { OnOk result (AddsAtMost (multiples (λ i. entry_of recorded.old.table (at rows.now i) place) 0 place) recorded.old recorded.new) }
{
    for i in 0..place {
        let scalar = recorded.table.get(rows[i], place);
        if scalar.byte() > 1 {
            recorded.record_multiple(rows[i], rows[place], scalar)?;
        }
    }
    Ok(())
}

// Multiplies a row so that it has 1 in the column, where it isn't 0.
fn scale_row(recorded: &mut RecordedRows, row: usize, column: usize) -> Result<(), AllocError>
    requires row { row < length recorded.old.table.rows }
    requires column { column < recorded.old.table.width }
    requires nonzero { entry_of recorded.old.table row column ≢ 0 }
    ensures steps { OnOk result (ChangesRows (row ∷ []) recorded.old recorded.new) }
    ensures scaled { OnOk result (ScalesToOne row column recorded.old.table recorded.new.table) }
    ensures few { OnOk result (AddsAtMost 0 recorded.old recorded.new) }
{
    let entry = recorded.table.get(row, column);
    if entry.byte() == 1 {
        return Ok(());
    }
    let scalar = Octet::one() / entry;
    recorded.multiply_row(row, scalar)?;
    Ok(())
}

// Adds multiples of the pivot's row, which has 1 in its column, to the rows behind it, so that
// they have 0 there.
fn clear_below(recorded: &mut RecordedRows, rows: &[usize], pivot: usize) -> Result<(), AllocError>
    requires rows { AreRows rows.now recorded.old.table }
    requires pivot { pivot < length rows.now }
    requires column { pivot < recorded.old.table.width }
    ensures steps { OnOk result (ChangesRows rows.now recorded.old recorded.new) }
    ensures cleared { OnOk result (ClearsBelow rows.now pivot (length rows.now) recorded.old.table recorded.new.table) }
    ensures few { OnOk result (additions recorded.new.operations + (pivot + 1) ≤ additions recorded.old.operations + length rows.now) }
{
    for i in pivot + 1..rows.len() {
        clear_entry(recorded, rows[i], rows[pivot], pivot)?;
    }
    Ok(())
}

// Adds to a row what it has in the column times another row.
fn clear_entry(
    recorded: &mut RecordedRows,
    dest: usize,
    src: usize,
    column: usize,
) -> Result<(), AllocError>
    requires two { dest ≢ src }
    requires dest { dest < length recorded.old.table.rows }
    requires src { src < length recorded.old.table.rows }
    requires column { column < recorded.old.table.width }
    ensures steps { OnOk result (ChangesRows (dest ∷ src ∷ []) recorded.old recorded.new) }
    ensures added { OnOk result (ClearsEntry dest src column recorded.old.table recorded.new.table) }
    ensures few { OnOk result (AddsAtMost 1 recorded.old recorded.new) }
{
    let scalar = recorded.table.get(dest, column);
    if scalar.byte() == 0 {
        return Ok(());
    }
    recorded.add_multiple(dest, src, scalar)?;
    Ok(())
}
