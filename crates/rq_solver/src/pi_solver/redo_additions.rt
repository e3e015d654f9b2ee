//! Pivots' rows take again what they took: to be sparse for a while (the third phase, RFC 6330, section
//! 5.4.2.4), and for good (the fifth, section 5.4.2.6).
ghost use Rattle.std.specs.Prelude.{◌≡◌, ◌≢◌, ◌+◌, ◌-◌, ◌<◌, ◌≤◌, ◌∷◌, [], ◌++◌, All, List, length, slice_range, OnOk};
ghost use Rattle.std.proofs.Common.{ap};
ghost use Rattle.rq_algebra.specs.Operations.{Operation, AddAssign};
ghost use Rattle.rq_parts.specs.DenseOctetMatrix.{OctetTable};
ghost use Rattle.rq_elimination.specs.OperationCounts.{additions};
ghost use Rattle.rq_elimination.specs.RecordedRows.{AddsAtMost, Performs, Records};
ghost use Rattle.rq_elimination.specs.declared.recorded.RecordedRows.{RecordedRows};
ghost use Rattle.rq_elimination.proofs.Performing.{performs_none, performs_more, records_none, records_more};
ghost use Rattle.rq_solver.specs.PivotAdditions.{IsSumOf};

use rq_bytes::octet::Octet;
use rq_elimination::recorded::RecordedRows;
use std::alloc::AllocError;

/// How a row takes another one again.
pub(super) trait Redo {
    ghost done: { List Operation → RecordedRows → RecordedRows → Type 0 };

    /// Adds a row to another one.
    fn redo(&self, row: usize, source: usize, recorded: &mut RecordedRows) -> Result<(), AllocError>
        requires two { row ≢ source }
        requires row { row < length recorded.old.table.rows }
        requires source { source < length recorded.old.table.rows }
        ensures added { OnOk result (done (AddAssign row source ∷ []) recorded.old recorded.new) }
        ensures counted { OnOk result (additions recorded.new.operations ≡ additions recorded.old.operations + 1) };

    ghost none: { (state : RecordedRows) → done [] state state };

    ghost more: { (a b : List Operation) (first mid last : RecordedRows) → done a first mid → done b mid last → done (a ++ b) first last };

    ghost recorded: { (steps : List Operation) (old new : RecordedRows) → done steps old new → new.operations ≡ old.operations ++ steps };

    ghost height: { (steps : List Operation) (old new : RecordedRows) → done steps old new → length new.table.rows ≡ length old.table.rows };
}

/// An addition changes what a row has in the inactive columns, and is recorded for its symbol.
#[derive(Drop)]
pub(super) struct OnRows;

impl Redo for OnRows {
    ghost done = { λ steps old new. Performs steps old new };

    #[inline(always)]
    fn redo(
        &self,
        row: usize,
        source: usize,
        recorded: &mut RecordedRows,
    ) -> Result<(), AllocError> {
        recorded.add_multiple(row, source, Octet::one())
    }

    ghost none = { λ state. performs_none state };

    ghost more = { λ steps later first second third done next. performs_more steps later first second third done next };

    ghost recorded = { λ steps old new done. done.recorded };

    ghost height = { λ steps old new done. done.height };
}

/// An addition is recorded for the symbols alone: the row's stored entries stay as they are.
#[derive(Drop)]
pub(super) struct OnSymbols;

impl Redo for OnSymbols {
    ghost done = { λ steps old new. Records steps old new };

    #[inline(always)]
    fn redo(
        &self,
        row: usize,
        source: usize,
        recorded: &mut RecordedRows,
    ) -> Result<(), AllocError> {
        recorded.record_multiple(row, source, Octet::one())
    }

    ghost none = { λ state. records_none state };

    ghost more = { λ steps later first second third done next. records_more steps later first second third done next };

    ghost recorded = { λ steps old new done. done.recorded };

    ghost height = { λ steps old new done. ap (λ (table : OctetTable). length table.rows) done.table };
}

/// Adds to a row again the rows that it took by the operations from one place on and before another.
pub(super) fn redo_additions<R: Redo>(
    how: &R,
    row: usize,
    start: usize,
    end: usize,
    recorded: &mut RecordedRows,
) -> Result<(), AllocError>
    requires row { row < length recorded.old.table.rows }
    requires ordered { start ≤ end }
    requires within { end ≤ length recorded.old.operations }
    requires sums { All (IsSumOf row (length recorded.old.table.rows)) (slice_range recorded.old.operations start end) }
    ensures done { OnOk result (R.done (slice_range recorded.old.operations start end) recorded.old recorded.new) }
    ensures few { OnOk result (AddsAtMost (end - start) recorded.old recorded.new) }
{
    for place in start..end {
        if let Some(source) = recorded.operations.source(place) {
            how.redo(row, source, recorded)?;
        }
    }
    Ok(())
}
