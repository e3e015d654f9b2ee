//! The counts by which the Rust crate takes rows in its first phase (RFC 6330, section 5.4.2.2).
//! Kept for the surface of `raptorq`; no coder calls it, and the solver goes by `degrees`.
ghost use Rattle.std.specs.Prelude.{◌≡◌, ℕ, ◌+◌, ◌<◌, ◌≤◌, length, IfNone, IfOk, IfSome, IfErr};
ghost use Rattle.rq_bytes.specs.declared.error.Error.TheVariants.{OutOfMemory};
ghost use Rattle.rq_standard.specs.BitTableSteps.{SwapsColumns, SwapsRows};
ghost use Rattle.rq_peeling.specs.FirstPhaseRowSelectionStats.{CountsFrom};

use rq_bytes::error::Error;
use rq_matrix::matrix::BinaryMatrix;
use std::alloc::Global;
use std::marker::Model;

/// How many ones each row of a matrix of bits has in the columns that are left, of which none is
/// dense. Contracts see the rows and columns that are left, and the counts.
#[derive(Debug, Drop)]
pub struct FirstPhaseRowSelectionStats {
    start_row: usize,
    start_col: usize,
    end_col: usize,
    ones_per_row: Vec<usize>,
}

impl Model for FirstPhaseRowSelectionStats {
    ghost use Rattle.rq_peeling.specs.FirstPhaseRowSelectionStats.{RowCounts};

    ghost Value = { RowCounts };

    ghost view = { λ s. record { start_row = s.start_row; start_col = s.start_col; end_col = s.end_col; ones = s.ones_per_row.items } };
}

impl FirstPhaseRowSelectionStats {
    ghost use Rattle.rq_peeling.specs.FirstPhaseRowSelectionStats.{ChangesRow, CountsOnes, HasLeft, IsLeftOf, KeepsCounts, ones_in_range};
    ghost use Rattle.rq_peeling.specs.RowDegrees.{HasLeastOnes};

    /// The counts of a matrix of which all columns before `end_col`, and all rows before `end_row`,
    /// are left.
    pub fn new<T: BinaryMatrix>(
        alloc: Global,
        matrix: &T,
        end_col: usize,
        end_row: usize,
    ) -> Result<Self, Error>
        requires columns { end_col ≤ (T.content matrix.now).boundary }
        requires rows { end_row ≤ (T.content matrix.now).height }
        ensures counted { IfOk result (CountsOnes (T.content matrix.now)) }
        ensures left { IfOk result (HasLeft 0 end_row 0 end_col) }
        ensures err { IfErr result (λ e. e ≡ OutOfMemory) }
    {
        let mut ones_per_row = vec![in alloc; 0; end_row]?;
        count_rows(ones_per_row.as_mut_slice(), 0, matrix, 0, end_col);
        Ok(FirstPhaseRowSelectionStats {
            start_row: 0,
            start_col: 0,
            end_col,
            ones_per_row,
        })
    }

    /// Follows the matrix, of which two rows that are left are exchanged.
    pub fn swap_rows(&mut self, i: usize, j: usize)
        requires first { (self.old.start_row ≤ i) × (i < length self.old.ones) }
        requires second { (self.old.start_row ≤ j) × (j < length self.old.ones) }
        ensures counted { KeepsCounts (λ m n. SwapsRows m i j n) self.old self.new }
        ensures left { HasLeft self.old.start_row (length self.old.ones) self.old.start_col self.old.end_col self.new }
    {
        self.ones_per_row.swap(i, j);
    }

    /// Follows the matrix, of which two columns that are left are exchanged in the rows that are
    /// left. No count changes by that.
    pub fn swap_columns(&mut self, i: usize, j: usize)
        requires first { (self.old.start_col ≤ i) × (i < self.old.end_col) }
        requires second { (self.old.start_col ≤ j) × (j < self.old.end_col) }
        ensures counted { KeepsCounts (λ m n. SwapsColumns m i j self.old.start_row n) self.old self.new }
        ensures left { HasLeft self.old.start_row (length self.old.ones) self.old.start_col self.old.end_col self.new }
    {}

    /// Counts the ones of a row anew, after it was changed in the matrix: those in the columns that
    /// are left. The counts are of this matrix.
    pub fn recompute_row<T: BinaryMatrix>(&mut self, row: usize, matrix: &T)
        requires matrix { IsLeftOf (T.content matrix.now) self.old }
        requires row { row < length self.old.ones }
        ensures counted { KeepsCounts (λ m n. ChangesRow row m n × (n ≡ T.content matrix.now)) self.old self.new }
        ensures left { HasLeft self.old.start_row (length self.old.ones) self.old.start_col self.old.end_col self.new }
    {
        self.ones_per_row[row] = matrix.count_ones(row, self.start_col, self.end_col);
    }

    /// Leaves the first row and the first column out, and those from new ends on. What is left of each
    /// row is counted anew, so the argument that lists rows with a one in that column isn't read.
    pub fn resize<T: BinaryMatrix>(
        &mut self,
        start_row: usize,
        end_row: usize,
        start_col: usize,
        end_col: usize,
        _: &[u32],
        matrix: &T,
    )
        requires matrix { IsLeftOf (T.content matrix.now) self.old }
        requires first_row { start_row ≡ self.old.start_row + 1 }
        requires rows { end_row ≤ length self.old.ones }
        requires first_column { start_col ≡ self.old.start_col + 1 }
        requires columns { (start_col ≤ end_col) × (end_col ≤ self.old.end_col) }
        ensures counted { CountsOnes (T.content matrix.now) self.new }
        ensures left { HasLeft start_row end_row start_col end_col self.new }
    {
        self.start_row = start_row;
        self.start_col = start_col;
        self.end_col = end_col;
        self.ones_per_row.truncate(end_row);
        count_rows(
            self.ones_per_row.as_mut_slice(),
            start_row,
            matrix,
            start_col,
            end_col,
        );
    }

    /// A row with the least number of ones that isn't 0, and this number, among the rows from
    /// `start_row` on and before `end_row`. `None` where each of them has zeros alone.
    pub fn first_phase_selection<T: BinaryMatrix>(
        &self,
        start_row: usize,
        end_row: usize,
        matrix: &T,
        _: &mut Vec<u32>,
    ) -> Option<(usize, usize)>
        requires counted { CountsOnes (T.content matrix.now) self.now }
        requires from { self.now.start_row ≤ start_row }
        requires range { start_row ≤ end_row }
        requires rows { end_row ≤ length self.now.ones }
        ensures found { IfSome result (HasLeastOnes (ones_in_range (T.content matrix.now) self.now) start_row end_row) }
        ensures none { IfNone result ((i : ℕ) → start_row ≤ i → i < end_row → ones_in_range (T.content matrix.now) self.now i ≡ 0) }
    {
        let mut row_found = 0;
        let mut least = 0;
        for row in start_row..end_row {
            let ones = self.ones_per_row[row];
            if ones != 0 && (least == 0 || ones < least) {
                row_found = row;
                least = ones;
            }
        }
        if least == 0 {
            None
        } else {
            Some((row_found, least))
        }
    }
}

// Counts the ones of the rows from a first one on.
fn count_rows<T: BinaryMatrix>(
    ones_per_row: &mut [usize],
    first: usize,
    matrix: &T,
    start_col: usize,
    end_col: usize,
)
    requires rows { length ones_per_row.old ≤ (T.content matrix.now).height }
    requires range { start_col ≤ end_col }
    requires before { end_col ≤ (T.content matrix.now).boundary }
    ensures { CountsFrom (T.content matrix.now) start_col end_col first (length ones_per_row.old) ones_per_row.new }
{
    for row in first..ones_per_row.len() {
        ones_per_row[row] = matrix.count_ones(row, start_col, end_col);
    }
}
