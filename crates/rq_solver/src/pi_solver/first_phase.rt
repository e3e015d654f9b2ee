//! The first phase after the choice of pivots (RFC 6330, section 5.4.2.2): the pivots' columns are
//! cleared in all rows, in those of bits and in the HDPC rows.
ghost use Rattle.std.specs.Prelude.{◌≡◌, ◌-◌, ◌/◌, length, IfOk};
ghost use Rattle.rq_peeling.specs.Peeling.{IsPeeled};
ghost use Rattle.rq_solver.specs.FirstPhase.{AddsFirst, ClearsPivots, TakesPivotsAlone};
ghost use Rattle.rq_solver.specs.LeftRows.{ListsRows};
ghost use Rattle.rq_solver.specs.Peeled.{IsUnderWay};
ghost use Rattle.rq_solver.specs.PivotAdditions.{PivotsHaveTaken};

mod clear_bits;
mod clear_hdpc;
mod inactive;
mod left_rows;

use super::peeled::Peeled;
use clear_bits::clear_rows;
use clear_hdpc::clear_octets;
use inactive::fill_inactive;
use left_rows::left_rows;
use rq_elimination::recorded::RecordedRows;
use rq_peeling::ones::RowOnes;
use rq_peeling::peeling::Peeling;
use rq_peeling::system::System;
use std::alloc::{AllocError, Global};

/// Clears the columns that have the pivots of a peeling in the rows of a system: what no later phase
/// changes, the rows that are left for them, and all rows with their entries in the inactive columns.
pub(super) fn first_phase(
    alloc: Global,
    system: System,
    peeling: Peeling,
) -> Result<(Peeled, Vec<usize>, RecordedRows), AllocError>
    requires { IsPeeled system.width system.ones peeling }
    ensures peeling { IfOk result (λ made. made.0.peeling ≡ peeling) }
    ensures ones { IfOk result (λ made. made.0.ones ≡ system.ones) }
    ensures limit { IfOk result (λ made. made.0.sparsify_limit ≡ (system.width - length system.hdpc.rows) / 2) }
    ensures under_way { IfOk result (λ made. IsUnderWay made.0 made.1.items made.2) }
    ensures listed { IfOk result (λ made. ListsRows (length system.ones) peeling.rows made.1.items) }
    ensures cleared { IfOk result (λ made. ClearsPivots system peeling made.1.items made.2) }
    ensures alone { IfOk result (λ made. TakesPivotsAlone system peeling.rows made.2.operations) }
    ensures few { IfOk result (λ made. AddsFirst system peeling made.2) }
{
    let height = system.ones.height();
    let hdpc_count = system.hdpc.height();
    let sparsify_limit = (system.width - hdpc_count) / 2;
    let left = left_rows(alloc, height, system.first_hdpc, hdpc_count, peeling.rows())?;
    let ClearedRows {
        ones,
        bounds,
        recorded,
    } = clear_pivots(alloc, system, &peeling, left.as_slice())?;
    let peeled = Peeled {
        peeling,
        ones,
        bounds,
        sparsify_limit,
    };
    Ok((peeled, left, recorded))
}

// The ones of the rows of bits, where the operations begin by which each row took others, and the
// entries of all rows in the inactive columns.
#[derive(Drop)]
struct ClearedRows {
    ones: RowOnes,
    bounds: Vec<usize>,
    recorded: RecordedRows,
}

// Clears the pivots' columns in all rows, in their order.
fn clear_pivots(
    alloc: Global,
    system: System,
    peeling: &Peeling,
    left: &[usize],
) -> Result<ClearedRows, AllocError>
    requires peeled { IsPeeled system.width system.ones peeling.now }
    requires listed { ListsRows (length system.ones) peeling.now.rows left.now }
    ensures ones { IfOk result (λ rows. rows.ones ≡ system.ones) }
    ensures cleared { IfOk result (λ rows. ClearsPivots system peeling.now left.now rows.recorded) }
    ensures alone { IfOk result (λ rows. TakesPivotsAlone system peeling.now.rows rows.recorded.operations) }
    ensures taken { IfOk result (λ rows. PivotsHaveTaken system.ones peeling.now rows.bounds.items rows.recorded) }
    ensures few { IfOk result (λ rows. AddsFirst system peeling.now rows.recorded) }
{
    let table = fill_inactive(alloc, &system, peeling)?;
    let System {
        ones,
        column_rows,
        hdpc,
        first_hdpc,
        ..
    } = system;
    // Nothing asks for a column's rows any more, and room for operations comes next.
    drop(column_rows);
    // Blocks of all sizes take two to three operations for each one.
    let room = ones.len().saturating_mul(3);
    let mut recorded = RecordedRows::new(alloc, table, room)?;
    let bounds = clear_rows(&ones, peeling, left, &mut recorded)?;
    clear_octets(hdpc, first_hdpc, peeling, &mut recorded)?;
    Ok(ClearedRows {
        ones,
        bounds,
        recorded,
    })
}
