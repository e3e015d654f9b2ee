//! The rows of a system that have no pivot, in the order in which they are worked on (RFC 6330, section
//! 5.4.2.2).
ghost use Rattle.std.specs.Prelude.{◌≡◌, ℕ, ◌+◌, ◌<◌, ◌≤◌, false, length, slice_index_or, IfOk};
ghost use Rattle.rq_algebra.specs.Arrangements.{ArePlaces};
ghost use Rattle.rq_algebra.specs.Systems.{at};
ghost use Rattle.rq_solver.specs.LeftRows.{row_in_turn, ListsRows, MarksRows};

use std::alloc::{AllocError, Global};

/// All rows but those of the pivots, each once, and last the HDPC rows.
pub(super) fn left_rows(
    alloc: Global,
    height: usize,
    first_hdpc: usize,
    hdpc_count: usize,
    pivots: &[u32],
) -> Result<Vec<usize>, AllocError>
    requires pivots { ArePlaces (length pivots.now) height (at pivots.now) }
    requires hdpc { first_hdpc + hdpc_count ≤ height }
    ensures { IfOk result (λ left. ListsRows height pivots.now left.items) }
{
    let mut marks = vec![in alloc; false; height]?;
    let has_pivot = marks.as_mut_slice();
    mark_rows(pivots, has_pivot);
    let mut left = Vec::with_capacity(alloc, height.saturating_sub(pivots.len()))?;
    for turn in 0..height {
        let row = row_in_turn(turn, height, first_hdpc, hdpc_count);
        if !has_pivot[row] {
            left.push(row)?;
        }
    }
    Ok(left)
}

// Marks rows.
fn mark_rows(rows: &[u32], marks: &mut [bool])
    requires rows { ArePlaces (length rows.now) (length marks.old) (at rows.now) }
    requires none { (r : ℕ) → r < length marks.old → slice_index_or marks.old r false ≡ false }
    ensures { MarksRows rows.now marks.new }
{
    for row in rows {
        marks[*row as usize] = true;
    }
}

// The row in a turn: the HDPC rows, which stand from row `first_hdpc` on, have theirs last.
fn row_in_turn(turn: usize, height: usize, first_hdpc: usize, hdpc_count: usize) -> usize
    requires turn { turn < height }
    requires hdpc { first_hdpc + hdpc_count ≤ height }
    ensures { result ≡ row_in_turn height first_hdpc hdpc_count turn }
{
    let others = height - hdpc_count;
    if turn < first_hdpc {
        turn
    } else if turn < others {
        turn + hdpc_count
    } else {
        turn - others + first_hdpc
    }
}
