//! A homogeneous column, which shows what equations leave open; the RFC has no phase for it: where an
//! inactive column is left without a pivot, the rows that are left, as the second phase left them (RFC
//! 6330, section 5.4.2.3), and then the pivots' rows, as they were handed in, are solved with zeros as
//! values.
ghost use Rattle.std.specs.Prelude.{◌≡◌, ℕ, ◌<◌, ◌≤◌, All, length, IfOk};
ghost use Rattle.rq_algebra.specs.Operations.{plain};
ghost use Rattle.rq_algebra.specs.Parities.{sum_listed};
ghost use Rattle.rq_algebra.specs.Systems.{at, IsColumn};
ghost use Rattle.rq_standard.specs.OctetField.{octets};
ghost use Rattle.rq_elimination.specs.RowSteps.{AreRows, IsStuck};
ghost use Rattle.rq_solver.specs.HomogeneousColumns.{inactive_dot, inactive_entry, HasZerosAtPivots, IsZeroColumn, SolvesLeftRows, SolvesPivotRows};
ghost use Rattle.rq_solver.specs.Peeled.{inactive_count, IsUnderWay};

use super::peeled::Peeled;
use rq_bytes::octet::Octet;
use rq_elimination::entries::InactiveEntries;
use rq_elimination::recorded::RecordedRows;
use std::alloc::{AllocError, Global};

/// A column that isn't all zeros and solves the rows with zeros as values. It has 1 in the first
/// inactive column without a pivot, and zeros in those behind it. Those before it and then the pivots'
/// columns are found by substitution.
pub(super) fn homogeneous_column(
    alloc: Global,
    peeled: &Peeled,
    left: &[usize],
    recorded: &RecordedRows,
) -> Result<Vec<u8>, AllocError>
    requires under_way { IsUnderWay peeled.now left.now recorded.now }
    requires stuck { IsStuck left.now (inactive_count peeled.now.peeling) recorded.now.table }
    ensures elements { IfOk result (λ column. IsColumn octets (length peeled.now.peeling.places) (at column.items)) }
    ensures left { IfOk result (λ column. SolvesLeftRows peeled.now.peeling left.now recorded.now.table column.items) }
    ensures pivots { IfOk result (λ column. SolvesPivotRows peeled.now (length peeled.now.peeling.rows) column.items) }
{
    let mut column = vec![in alloc; 0u8; peeled.peeling.width()]?;
    solve_left_rows(peeled, left, recorded, column.as_mut_slice());
    solve_pivot_rows(peeled, left, recorded, column.as_mut_slice());
    Ok(column)
}

// Sets a column of zeros in the inactive columns, the last first, so that the rows that are left
// solve to zero.
fn solve_left_rows(peeled: &Peeled, left: &[usize], recorded: &RecordedRows, column: &mut [u8])
    requires under_way { IsUnderWay peeled.now left.now recorded.now }
    requires stuck { IsStuck left.now (inactive_count peeled.now.peeling) recorded.now.table }
    requires count { length column.old ≡ length peeled.now.peeling.places }
    requires zeros { IsZeroColumn column.old }
    ensures elements { IsColumn octets (length peeled.now.peeling.places) (at column.new) }
    ensures left { SolvesLeftRows peeled.now.peeling left.now recorded.now.table column.new }
    ensures zeros { HasZerosAtPivots peeled.now.peeling 0 column.new }
{
    let peeling = &peeled.peeling;
    let free = free_column(&recorded.table, left, peeling.width() - peeling.pivots());
    column[peeling.inactive_column(free)] = 1;
    for done in 0..free {
        let place = free - 1 - done;
        column[peeling.inactive_column(place)] = sum_behind(peeled, left, recorded, place, column);
    }
}

// What the row that is left at a place says of a column, which has zeros in the inactive columns as
// far as that place.
fn sum_behind(
    peeled: &Peeled,
    left: &[usize],
    recorded: &RecordedRows,
    place: usize,
    column: &[u8],
) -> u8
    requires under_way { IsUnderWay peeled.now left.now recorded.now }
    requires row { place < length left.now }
    requires column { place < inactive_count peeled.now.peeling }
    requires count { length column.now ≡ length peeled.now.peeling.places }
    requires zeros { (f : ℕ) → f ≤ place → inactive_entry peeled.now.peeling column.now f ≡ 0 }
    ensures { result ≡ inactive_dot peeled.now.peeling recorded.now.table column.now (at left.now place) }
{
    let peeling = &peeled.peeling;
    let row = left[place];
    let mut sum = Octet::zero();
    for f in place + 1..peeling.width() - peeling.pivots() {
        let octet = Octet::new(column[peeling.inactive_column(f)]);
        sum += recorded.table.get(row, f) * octet;
    }
    sum.byte()
}

// Sets a column in the pivots' columns, in which it has zeros, so that their rows solve to zero. What
// it says of the rows that are left stays.
fn solve_pivot_rows(peeled: &Peeled, left: &[usize], recorded: &RecordedRows, column: &mut [u8])
    requires under_way { IsUnderWay peeled.now left.now recorded.now }
    requires count { length column.old ≡ length peeled.now.peeling.places }
    requires elements { IsColumn octets (length peeled.now.peeling.places) (at column.old) }
    requires left { SolvesLeftRows peeled.now.peeling left.now recorded.now.table column.old }
    requires zeros { HasZerosAtPivots peeled.now.peeling 0 column.old }
    ensures elements { IsColumn octets (length peeled.now.peeling.places) (at column.new) }
    ensures left { SolvesLeftRows peeled.now.peeling left.now recorded.now.table column.new }
    ensures pivots { SolvesPivotRows peeled.now (length peeled.now.peeling.rows) column.new }
{
    let peeling = &peeled.peeling;
    for pivot in 0..peeling.pivots() {
        let ones = peeled.ones.row(peeling.row_of(pivot));
        column[peeling.column_at(pivot)] = sum_at(column, ones);
    }
}

// The first of `count` columns without a pivot: a row in echelon form that has one has 1 there.
fn free_column(table: &InactiveEntries, rows: &[usize], count: usize) -> usize
    requires rows { AreRows rows.now table.now }
    requires columns { count ≤ table.now.width }
    requires stuck { IsStuck rows.now count table.now }
    ensures { (stuck : IsStuck rows.now count table.now) → result ≡ stuck.done }
{
    let end = count.min(rows.len());
    for column in 0..end {
        if table.get(rows[column], column).byte() == 0 {
            return column;
        }
    }
    end
}

// The sum of a column's octets at indices.
fn sum_at(column: &[u8], indices: &[u16]) -> u8
    requires { All (λ index. index < length column.now) indices.now }
    ensures { result ≡ sum_listed (plain octets) indices.now (at column.now) }
{
    let mut sum = 0;
    for index in indices {
        sum ^= column[*index as usize];
    }
    sum
}
