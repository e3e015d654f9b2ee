//! The fourth phase (RFC 6330, section 5.4.2.5): the pivots' rows get zeros in the inactive columns. Rows
//! of bits take the rows with the inactive columns' pivots a word of them at a time. In turn, those that
//! the third phase made sparse take again what they gave back, which is the fifth (section 5.4.2.6).
ghost use Rattle.std.specs.Prelude.{◌≡◌, ◌+◌, ◌-◌, ◌*◌, ◌<◌, ◌≤◌, length, OnOk};
ghost use Rattle.rq_parts.specs.DenseOctetMatrix.{entry_of};
ghost use Rattle.rq_elimination.specs.RecordedRows.{AddsAtMost};
ghost use Rattle.rq_elimination.specs.RowSteps.{CanTake};
ghost use Rattle.rq_solver.specs.FourthPhase.{finish_bound, FinishesAllPivots};
ghost use Rattle.rq_solver.specs.ThirdPhase.{TookAtMost};
ghost use Rattle.rq_solver.specs.Peeled.{inactive_count, IsUnderWay};
ghost use Rattle.rq_solver.specs.SecondPhase.{TakesAll, TakesBetween};

use super::peeled::Peeled;
use super::redo_additions::{OnSymbols, redo_additions};
use rq_bytes::octet::Octet;
use rq_bytes::octets::WORD_BITS;
use rq_elimination::recorded::RecordedRows;
use std::alloc::AllocError;

/// Adds to the pivots' rows, the first first, multiples of the rows with the inactive columns' pivots,
/// each of which has 1 in its own inactive column and 0 in the others, so that they get 0 there. Those
/// that were made sparse take the rows of earlier pivots again, which have only their own 1 left. That
/// is recorded alone: stored rows stay as they are.
pub(super) fn clear_inactive(
    peeled: &Peeled,
    left: &[usize],
    sparse: &[bool],
    recorded: &mut RecordedRows,
) -> Result<(), AllocError>
    requires under_way { IsUnderWay peeled.now left.now recorded.old }
    requires many { inactive_count peeled.now.peeling ≤ length left.now }
    requires long { length sparse.now ≡ length peeled.now.peeling.rows }
    requires short { TookAtMost peeled.now.sparsify_limit sparse.now peeled.now.bounds.items }
    ensures finished { OnOk result (FinishesAllPivots peeled.now left.now sparse.now recorded.old recorded.new) }
    ensures few { OnOk result (AddsAtMost (finish_bound peeled.now) recorded.old recorded.new) }
{
    let peeling = &peeled.peeling;
    let bounds = &peeled.bounds;
    let inactive = peeling.width() - peeling.pivots();
    for place in 0..peeling.pivots() {
        let row = peeling.row_of(place);
        clear_inactive_of_row(row, left, inactive, recorded)?;
        if sparse[place] {
            redo_additions(&OnSymbols, row, bounds[place], bounds[place + 1], recorded)?;
        }
    }
    Ok(())
}

// Adds to a row multiples of the rows with the inactive columns' pivots, so that it gets 0 in these
// columns. What it has there is not read again, and stays stored.
#[inline(always)]
fn clear_inactive_of_row(
    row: usize,
    inactive_rows: &[usize],
    inactive: usize,
    recorded: &mut RecordedRows,
) -> Result<(), AllocError>
    requires rows { CanTake row inactive_rows.now recorded.old.table }
    requires many { inactive ≤ length inactive_rows.now }
    requires width { inactive ≤ recorded.old.table.width }
    ensures taken { OnOk result (TakesAll inactive_rows.now inactive row (entry_of recorded.old.table row) recorded.old recorded.new) }
    ensures few { OnOk result (AddsAtMost inactive recorded.old recorded.new) }
{
    for word in 0..inactive.div_ceil(WORD_BITS) {
        let start = WORD_BITS * word;
        take_word(
            row,
            inactive_rows,
            word,
            inactive.min(start + WORD_BITS),
            recorded,
        )?;
    }
    Ok(())
}

// Adds to a row multiples of the rows whose columns have bits in one word, those before column `end`:
// to a row of bits those for which the word has ones, its lowest bit for the first of them.
#[inline(always)]
fn take_word(
    row: usize,
    inactive_rows: &[usize],
    word: usize,
    end: usize,
    recorded: &mut RecordedRows,
) -> Result<(), AllocError>
    requires rows { CanTake row inactive_rows.now recorded.old.table }
    requires some { 64 * word < end }
    requires few { end ≤ 64 * word + 64 }
    requires many { end ≤ length inactive_rows.now }
    requires width { end ≤ recorded.old.table.width }
    ensures taken { OnOk result (TakesBetween inactive_rows.now row (64 * word) end recorded.old recorded.new) }
    ensures few { OnOk result (AddsAtMost (end - 64 * word) recorded.old recorded.new) }
{
    let start = WORD_BITS * word;
    let Some(bits) = recorded.table.word_of(row, word) else {
        return take_octets(row, inactive_rows, start, end, recorded);
    };
    let mut rest = bits & (u64::MAX >> (WORD_BITS - (end - start)));
    while rest != 0 {
        let f = rest.trailing_zeros() as usize;
        recorded.record_multiple(row, inactive_rows[start + f], Octet::one())?;
        rest &= rest - 1;
    }
    Ok(())
}

// Adds multiples of rows to a row for the columns from one on and before another, one that isn't 0
// after another.
fn take_octets(
    row: usize,
    inactive_rows: &[usize],
    start: usize,
    end: usize,
    recorded: &mut RecordedRows,
) -> Result<(), AllocError>
    requires rows { CanTake row inactive_rows.now recorded.old.table }
    requires ordered { start ≤ end }
    requires many { end ≤ length inactive_rows.now }
    requires width { end ≤ recorded.old.table.width }
    ensures taken { OnOk result (TakesBetween inactive_rows.now row start end recorded.old recorded.new) }
    ensures few { OnOk result (AddsAtMost (end - start) recorded.old recorded.new) }
{
    let mut from = start;
    while let Some((column, scalar)) = recorded.table.next_entry(row, from, end) {
        recorded.record_multiple(row, inactive_rows[column], scalar)?;
        from = column + 1;
    }
    Ok(())
}
