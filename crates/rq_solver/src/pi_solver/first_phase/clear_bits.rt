//! The first phase clears the pivots' columns in the rows of bits (RFC 6330, section 5.4.2.2).
ghost use Rattle.std.specs.Prelude.{◌≡◌, ◌*◌, ◌<◌, length, IfOk, OnOk};
ghost use Rattle.rq_elimination.specs.RecordedRows.{AddsAtMost};
ghost use Rattle.rq_peeling.specs.RowOnes.{ones_of};
ghost use Rattle.rq_solver.specs.LeftRows.{ListsRows};
ghost use Rattle.rq_solver.specs.PivotAdditions.{ClearsAllRows, PeelsRows, PivotsHaveTaken, TakesPivots};

use crate::pi_solver::peeled::row_at;
use rq_bytes::octet::Octet;
use rq_elimination::recorded::RecordedRows;
use rq_peeling::ones::RowOnes;
use rq_peeling::peeling::Peeling;
use std::alloc::AllocError;

/// Adds to each row, those of the pivots first and then those that are left, the rows of the other
/// pivots in whose columns it has ones. Says where in the operations those of each row begin, and
/// where the last end.
pub(super) fn clear_rows(
    ones: &RowOnes,
    peeling: &Peeling,
    left: &[usize],
    recorded: &mut RecordedRows,
) -> Result<Vec<usize>, AllocError>
    requires peeled { PeelsRows ones.now peeling.now }
    requires listed { ListsRows (length ones.now) peeling.now.rows left.now }
    requires height { length recorded.old.table.rows ≡ length ones.now }
    ensures cleared { OnOk result (ClearsAllRows ones.now peeling.now left.now recorded.old recorded.new) }
    ensures taken { IfOk result (λ bounds. PivotsHaveTaken ones.now peeling.now bounds.items recorded.new) }
    ensures few { OnOk result (AddsAtMost (length ones.now * length peeling.now.rows) recorded.old recorded.new) }
{
    let count = peeling.pivots() + left.len();
    let mut bounds = Vec::with_capacity(recorded.operations.allocator(), count.saturating_add(1))?;
    for place in 0..count {
        bounds.push(recorded.operations.len())?;
        take_pivots(ones, row_at(peeling, left, place), peeling, recorded)?;
    }
    bounds.push(recorded.operations.len())?;
    Ok(bounds)
}

// Adds to a row the rows of the other pivots in whose columns it has ones.
#[inline(always)]
fn take_pivots(
    ones: &RowOnes,
    row: usize,
    peeling: &Peeling,
    recorded: &mut RecordedRows,
) -> Result<(), AllocError>
    requires peeled { PeelsRows ones.now peeling.now }
    requires row { row < length ones.now }
    requires height { length recorded.old.table.rows ≡ length ones.now }
    ensures taken { OnOk result (TakesPivots peeling.now.rows peeling.now.order row (ones_of ones.now row) recorded.old recorded.new) }
    ensures few { OnOk result (AddsAtMost (length peeling.now.rows) recorded.old recorded.new) }
{
    for column in ones.row(row) {
        let place = peeling.place_of(*column as usize);
        if place < peeling.pivots() && peeling.row_of(place) != row {
            recorded.add_multiple(row, peeling.row_of(place), Octet::one())?;
        }
    }
    Ok(())
}
