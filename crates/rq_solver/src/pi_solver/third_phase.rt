//! The third phase (RFC 6330, section 5.4.2.4), for some rows only: those of pivots that took
//! `Peeled::sparsify_limit` rows at most are made sparse again, where that saves additions.
ghost use Rattle.std.specs.Prelude.{◌≡◌, ◌+◌, ◌-◌, ◌*◌, ◌<◌, ◌≤◌, length, IsTrue, IfOk, OnOk};
ghost use Rattle.rq_algebra.specs.Systems.{at};
ghost use Rattle.rq_elimination.specs.RecordedRows.{AddsAtMost};
ghost use Rattle.rq_solver.specs.ThirdPhase.{Sparsifies, TookAtMost};
ghost use Rattle.rq_solver.specs.Peeled.{HasTakenPivots};

use super::peeled::Peeled;
use super::redo_additions::{OnRows, redo_additions};
use rq_elimination::recorded::RecordedRows;
use std::alloc::{AllocError, Global};

/// Adds to some of the pivots' rows, the last first, the pivots' rows again that they took in the first
/// phase. So they are as they were handed in, and have few ones, where they came to have many in the
/// inactive columns. Says which rows these are: each took `sparsify_limit` rows at most.
pub(super) fn sparsify(
    alloc: Global,
    peeled: &Peeled,
    recorded: &mut RecordedRows,
) -> Result<Vec<bool>, AllocError>
    requires { HasTakenPivots peeled.now recorded.old }
    ensures taken { IfOk result (λ sparse. Sparsifies peeled.now sparse.items 0 recorded.old recorded.new) }
    ensures long { IfOk result (λ sparse. length sparse.items ≡ length peeled.now.peeling.rows) }
    ensures short { IfOk result (λ sparse. TookAtMost peeled.now.sparsify_limit sparse.items peeled.now.bounds.items) }
    ensures few { OnOk result (AddsAtMost (length peeled.now.peeling.rows * peeled.now.sparsify_limit) recorded.old recorded.new) }
{
    let mut sparse = vec![in alloc; false; peeled.peeling.pivots()]?;
    sparsify_rows(peeled, sparse.as_mut_slice(), recorded)?;
    Ok(sparse)
}

// Makes the rows of pivots sparse that took `sparsify_limit` rows at most, where that saves additions,
// and marks them.
fn sparsify_rows(
    peeled: &Peeled,
    sparse: &mut [bool],
    recorded: &mut RecordedRows,
) -> Result<(), AllocError>
    requires taken { HasTakenPivots peeled.now recorded.old }
    requires long { length sparse.old ≡ length peeled.now.peeling.rows }
    ensures taken { OnOk result (Sparsifies peeled.now sparse.new 0 recorded.old recorded.new) }
    ensures short { OnOk result (TookAtMost peeled.now.sparsify_limit sparse.new peeled.now.bounds.items) }
    ensures few { OnOk result (AddsAtMost (length peeled.now.peeling.rows * peeled.now.sparsify_limit) recorded.old recorded.new) }
{
    let bounds = &peeled.bounds;
    for done in 0..sparse.len() {
        let place = sparse.len() - 1 - done;
        let saves = saves_additions(peeled, place, recorded);
        sparse[place] = saves;
        if saves {
            let row = peeled.peeling.row_of(place);
            redo_additions(&OnRows, row, bounds[place], bounds[place + 1], recorded)?;
        }
    }
    Ok(())
}

// Whether the row of the pivot at a place took `sparsify_limit` rows at most, and it saves additions to
// take them back: fewer than its entries in the inactive columns, which cost one addition each. Where
// it took n rows and has m ones, n + m - 1 are spent on it then: n to take them back, and in the fourth
// phase and the fifth one for each of its ones but the pivot's.
fn saves_additions(peeled: &Peeled, place: usize, recorded: &RecordedRows) -> bool
    requires taken { HasTakenPivots peeled.now recorded.now }
    requires place { place < length peeled.now.peeling.rows }
    ensures { IsTrue result → at peeled.now.bounds.items (place + 1) - at peeled.now.bounds.items place ≤ peeled.now.sparsify_limit }
{
    let peeling = &peeled.peeling;
    let row = peeling.row_of(place);
    let ones = peeled.ones.row(row).len();
    let taken = peeled.bounds[place + 1] - peeled.bounds[place];
    let inactive = peeling.width() - peeling.pivots();
    taken <= peeled.sparsify_limit
        && recorded.table.count_entries(row, inactive) >= ones.saturating_add(taken)
}
