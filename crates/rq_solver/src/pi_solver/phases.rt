//! `run_phases`, which goes through the phases in this order (RFC 6330, section 5.4.2): the first (`peel`
//! of `rq_peeling`, then `first_phase`); the second, forward (`eliminate`); the third (`sparsify`); the
//! second, back (`back_substitute`); the fourth (`clear_inactive`), and in it the fifth, by
//! `redo_additions`. The third and the fifth are done for some rows only, and counted as the fourth's.
ghost use Rattle.std.specs.Prelude.{◌≡◌, ℕ, ◌+◌, ◌*◌, ◌<◌, ◌≤◌, ◌++◌, length, map, IfNone, IfSome, IfOk, OnOk};
ghost use Rattle.rq_algebra.specs.Systems.{at};
ghost use Rattle.rq_elimination.specs.OperationCounts.{additions};
ghost use Rattle.rq_solver.specs.LeftRows.{ListsRows};
ghost use Rattle.rq_solver.specs.PhaseOutcome.{in_row_order, RunsPhases};
ghost use Rattle.rq_solver.specs.Peeled.{IsUnderWay};
ghost use Rattle.rq_solver.specs.Phases.{AddsLater, FindsOrder, RunsLater, ShowsSystem, SolvesSystem};
ghost use Rattle.rq_solver.specs.Solved.{shown_of};

use super::first_phase::first_phase;
use super::homogeneous_column::homogeneous_column;
use super::peeled::{Peeled, row_at};
use super::phase_outcome::PhaseOutcome;
use super::solved::Solved;
use super::{fourth_phase, second_phase, third_phase};
use rq_elimination::counts::PhaseEnds;
use rq_elimination::recorded::RecordedRows;
use rq_peeling::peeling::{Peeling, peel};
use rq_peeling::system::System;
use std::alloc::{AllocError, Global};

/// Looks for the operations that solve a system, and where there are none for a column that shows it.
pub(super) fn run_phases(alloc: Global, system: System) -> Result<PhaseOutcome, AllocError>
    ensures found { IfOk result (λ outcome. SolvesSystem system (in_row_order outcome)) }
    ensures shown { IfOk result (λ outcome. IfSome (shown_of outcome.order) (λ column. ShowsSystem system column.items)) }
    ensures phases { IfOk result (RunsPhases system) }
    ensures few { IfOk result (λ outcome. additions outcome.operations ≤ 2 * system.width * length system.ones) }
{
    let peeling = peel(alloc, &system)?;
    let (peeled, mut left, mut recorded) = first_phase(alloc, system, peeling)?;
    let (ends, order) = later_phases(alloc, &peeled, left.as_mut_slice(), &mut recorded)?;
    let Some(order) = order else {
        let column = homogeneous_column(alloc, &peeled, left.as_slice(), &recorded);
        return Ok(PhaseOutcome {
            operations: recorded.operations,
            ends,
            order: Solved::Undetermined(column.ok()),
        });
    };
    Ok(PhaseOutcome {
        operations: recorded.operations,
        ends,
        order: Solved::Determined(order),
    })
}

/// The phases behind the first: where each ends, and for each column the row that has its pivot. `None`
/// where a column is left without one. Rows are made sparse again before others are substituted back,
/// so that the second phase stands in two parts round the third.
fn later_phases(
    alloc: Global,
    peeled: &Peeled,
    left: &mut [usize],
    recorded: &mut RecordedRows,
) -> Result<(PhaseEnds, Option<Vec<usize>>), AllocError>
    requires under_way { IsUnderWay peeled.now left.old recorded.old }
    requires listed { ListsRows (length peeled.now.ones) peeled.now.peeling.rows left.old }
    ensures left { IfOk result (λ made. IfNone made.1 (IsUnderWay peeled.now left.new recorded.new)) }
    ensures found { IfOk result (λ made. FindsOrder peeled.now left.old recorded.old recorded.new made.1) }
    ensures phases { IfOk result (RunsLater peeled.now left.old left.new recorded.old recorded.new) }
    ensures few { OnOk result (AddsLater peeled.now left.old recorded.old recorded.new) }
{
    let inactive = peeled.peeling.width() - peeled.peeling.pivots();
    let cleared = recorded.operations.len();
    let found = second_phase::eliminate(recorded, left, inactive)?;
    let eliminated = recorded.operations.len();
    if !found {
        let ends = PhaseEnds {
            cleared,
            eliminated,
            sparsified: eliminated,
            substituted: eliminated,
        };
        return Ok((ends, None));
    }
    let sparse = third_phase::sparsify(alloc, peeled, recorded)?;
    let sparsified = recorded.operations.len();
    second_phase::back_substitute(recorded, left, inactive)?;
    let substituted = recorded.operations.len();
    fourth_phase::clear_inactive(peeled, left, sparse.as_slice(), recorded)?;
    let order = rows_in_order(alloc, &peeled.peeling, left)?;
    let ends = PhaseEnds {
        cleared,
        eliminated,
        sparsified,
        substituted,
    };
    Ok((ends, Some(order)))
}

// For each column the row that has its pivot.
fn rows_in_order(alloc: Global, peeling: &Peeling, left: &[usize]) -> Result<Vec<usize>, AllocError>
    requires { (k : ℕ) → k < length peeling.now.places → at peeling.now.places k < length peeling.now.rows + length left.now }
    ensures { IfOk result (λ rows. rows.items ≡ map (at (peeling.now.rows ++ left.now)) peeling.now.places) }
{
    let places = peeling.places();
    let mut rows = Vec::with_capacity(alloc, places.len())?;
    for place in places {
        rows.push(row_at(peeling, left, *place as usize))?;
    }
    Ok(rows)
}
