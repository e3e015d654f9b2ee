//! The rows that have ones in a column: a row loses an active column where one gets a pivot or is
//! inactive (RFC 6330, section 5.4.2.2).
ghost use Rattle.std.specs.Prelude.{◌≡◌, ℕ, ◌+◌, ◌^◌, ◌<◌, ◌≤◌, ◌==◌, [], List, length, count_by, sum, sum_by, take, All, IfSome, IfOk, OnOk, slice_index_or};
ghost use Rattle.rq_algebra.specs.Systems.{at};
ghost use Rattle.rq_peeling.specs.ColumnRows.{AreEnds, ListsColumns, PlacesRow};
ghost use Rattle.rq_peeling.specs.RowDegrees.{LowersRows};

use crate::degrees::RowDegrees;
use crate::ones::RowOnes;
use rq_bytes::slices::part;
use std::alloc::{AllocError, Global};
use std::marker::Model;

/// The rows of all ones, column by column, and where those of each column start. They tell which
/// degrees fall, and which rows have ones in an inactive column. Contracts see the number of rows,
/// and for each column the rows of its ones.
#[derive(Drop)]
pub struct ColumnRows {
    height: usize,
    starts: Vec<usize>,
    rows: Vec<u32>,
}

impl Model for ColumnRows {
    ghost use Rattle.std.specs.Prelude.{length, map, All, ◌<◌};
    ghost use Rattle.std.specs.List.{range_with_len};
    ghost use Rattle.rq_peeling.specs.ColumnRows.{ColumnLists, rows_of_column};

    ghost Value = { ColumnLists };

    ghost view = { λ c. record { height = c.height; lists = map (rows_of_column c.starts.items c.rows.items) (range_with_len 0 (length c.starts.items)) } };

    ghost invariant = { λ c. All (λ row. row < c.height) c.rows.items };
}

impl ColumnRows {
    /// The ones of rows, column by column.
    pub fn of_rows(alloc: Global, ones: &RowOnes, width: usize) -> Result<ColumnRows, AllocError>
        requires columns { All (λ row. All (λ column. column < width) row) ones.now }
        requires few_rows { length ones.now < 2 ^ 31 }
        ensures height { IfOk result (λ columns. columns.height ≡ length ones.now) }
        ensures width { IfOk result (λ columns. length columns.lists ≡ width) }
        ensures lists { IfOk result (ListsColumns ones.now) }
    {
        let count = ones.len();
        let mut starts = column_ends(alloc, ones, width)?;
        let mut rows = vec![in alloc; 0; count]?;
        for row in 0..ones.height() {
            place_row(
                row as u32,
                ones.row(row),
                starts.as_mut_slice(),
                rows.as_mut_slice(),
            );
        }
        Ok(ColumnRows {
            height: ones.height(),
            starts,
            rows,
        })
    }

    /// The rows of a column's ones, the last first.
    #[inline(always)]
    pub fn rows_in(&self, column: usize) -> &[u32]
        requires { column < length self.now.lists }
        ensures rows { result.now ≡ slice_index_or self.now.lists column [] }
        ensures below { All (λ row. row < self.now.height) result.now }
    {
        let end = match self.starts.get(column + 1) {
            Some(next) => (*next).min(self.rows.len()),
            None => self.rows.len(),
        };
        let start = self.starts[column].min(end);
        part(self.rows.as_slice(), start, end)
    }

    /// Each row has one active column less for each one that it has in a column.
    #[inline(always)]
    pub fn lower_rows(&self, column: usize, degrees: &mut RowDegrees) -> Result<(), AllocError>
        requires column { column < length self.now.lists }
        requires rows { self.now.height ≡ length degrees.old }
        ensures rows { length degrees.new ≡ length degrees.old }
        ensures lowered { OnOk result (LowersRows (slice_index_or self.now.lists column []) degrees.old degrees.new) }
    {
        degrees.lower(self.rows_in(column))
    }

    /// A row that has a one in a column and has two active columns.
    pub fn row_of_two(&self, column: usize, degrees: &RowDegrees) -> Option<usize>
        requires column { column < length self.now.lists }
        requires rows { self.now.height ≡ length degrees.now }
        ensures { IfSome result (λ row. (row < length degrees.now) × (at degrees.now row ≡ 2)) }
    {
        for row in self.rows_in(column) {
            if degrees.degree(*row as usize) == 2 {
                return Some(*row as usize);
            }
        }
        None
    }
}

// Lists a row in each of its columns, before the rows that are listed there.
fn place_row(row: u32, columns: &[u16], starts: &mut [usize], rows: &mut [u32])
    requires columns { All (λ column. column < length starts.old) columns.now }
    requires room { (k : ℕ) → k < length starts.old → count_by (λ column. column == k) columns.now ≤ at starts.old k }
    requires within { (k : ℕ) → k < length starts.old → at starts.old k ≤ length rows.old }
    ensures long { length starts.new ≡ length starts.old }
    ensures wide { length rows.new ≡ length rows.old }
    ensures below { (height : ℕ) → row < height → All (λ r. r < height) rows.old → All (λ r. r < height) rows.new }
    ensures placed { PlacesRow row columns.now starts.old rows.old starts.new rows.new }
{
    for column in columns {
        let place = starts[*column as usize] - 1;
        starts[*column as usize] = place;
        rows[place] = row;
    }
}

// Where the ones of each column end, where all stand column by column.
fn column_ends(alloc: Global, ones: &RowOnes, width: usize) -> Result<Vec<usize>, AllocError>
    requires columns { All (λ row. All (λ column. column < width) row) ones.now }
    requires few { sum_by length ones.now < 2 ^ 64 }
    ensures len { IfOk result (λ ends. length ends.items ≡ width) }
    ensures ends { IfOk result (λ ends. (counts : List ℕ) × AreEnds ones.now counts ends.items) }
{
    let mut ends = vec![in alloc; 0; width]?;
    count_columns(ones.columns(), ends.as_mut_slice());
    add_up(ends.as_mut_slice());
    Ok(ends)
}

// Counts one more one in each of some columns.
fn count_columns(columns: &[u16], counts: &mut [usize])
    requires columns { All (λ column. column < length counts.old) columns.now }
    requires few { sum counts.old + length columns.now < 2 ^ 64 }
    ensures long { length counts.new ≡ length counts.old }
    ensures counted { (k : ℕ) → k < length counts.old → at counts.new k ≡ at counts.old k + count_by (λ column. column == k) columns.now }
    ensures sum { sum counts.new ≡ sum counts.old + length columns.now }
{
    for column in columns {
        counts[*column as usize] += 1;
    }
}

// Makes each number the sum of those up to it.
fn add_up(numbers: &mut [usize])
    requires { sum numbers.old < 2 ^ 64 }
    ensures long { length numbers.new ≡ length numbers.old }
    ensures sums { (k : ℕ) → k < length numbers.old → at numbers.new k ≡ sum (take (k + 1) numbers.old) }
{
    let mut sum = 0;
    for place in 0..numbers.len() {
        sum += numbers[place];
        numbers[place] = sum;
    }
}
