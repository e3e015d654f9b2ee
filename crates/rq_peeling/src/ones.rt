//! The ones of a matrix of bits, row by row, as the phases read them (RFC 6330, section 5.4.2.1).
ghost use Rattle.std.specs.Prelude.{◌≡◌, ℕ, ◌^◌, ◌<◌, ◌++◌, All, count_by, drop, length, nat_lt, IfOk, OnOk};
ghost use Rattle.std.specs.List.{concat, sum_by};
ghost use Rattle.rq_peeling.specs.RowDegrees.{CountsBefore};
ghost use Rattle.rq_peeling.specs.RowOnes.{ones_of, AreOnesOfRows, AddsOneColumns};

use rq_bytes::slices::part;
use rq_matrix::matrix::BinaryMatrix;
use rq_parts::memory::want_of_memory;
use std::alloc::{AllocError, Global};
use std::marker::Model;

// How many ones there is room for a row: in blocks of all sizes rows have ten on average, or fewer.
const USUAL_ONES: usize = 12;

/// The columns of the ones of each row. Contracts see a list for each row.
#[derive(Drop)]
pub struct RowOnes {
    starts: Vec<usize>,
    // Rows are read in any order: of narrow columns more stay in a near cache.
    columns: Vec<u16>,
}

impl Model for RowOnes {
    ghost use Rattle.std.specs.Prelude.{ℕ, List};
    ghost use Rattle.rq_parts.specs.ImmutableListMap.{lists_between};
    ghost use Rattle.rq_peeling.specs.RowDegrees.{CountsBefore};
    ghost use Rattle.rq_peeling.specs.RowOnes.{AreAllBetween};

    ghost Value = { List (List ℕ) };

    ghost view = { λ ones. lists_between ones.starts.items ones.columns.items };

    ghost invariant = { λ ones. AreAllBetween ones.starts.items ones.columns.items };
}

impl RowOnes {
    /// The ones of a matrix, and how many of them each row has in the first `lt_columns` columns,
    /// those of LT symbols.
    pub fn of_matrix<T: BinaryMatrix>(
        alloc: Global,
        bits: &T,
        lt_columns: usize,
    ) -> Result<(RowOnes, Vec<u16>), AllocError>
        requires lt_columns { lt_columns ≡ (T.content bits.now).boundary }
        ensures ones { IfOk result (λ listed. AreOnesOfRows (T.content bits.now).height (T.content bits.now).width (T.content bits.now).bit listed.0) }
        ensures few { IfOk result (λ listed. length listed.0 < 2 ^ 31) }
        ensures rows { IfOk result (λ listed. length listed.1.items ≡ length listed.0) }
        ensures counted { IfOk result (λ listed. CountsBefore lt_columns listed.0 listed.1.items) }
    {
        let mut starts = Vec::with_capacity(alloc, bits.height() + 1)?;
        let mut columns = Vec::with_capacity(alloc, USUAL_ONES * bits.height())?;
        let mut counts = Vec::with_capacity(alloc, bits.height())?;
        let mut dense = Vec::new(alloc);
        starts.push(0)?;
        for row in 0..bits.height() {
            counts.push(push_ones(bits, row, lt_columns, &mut dense, &mut columns)?)?;
            starts.push(columns.len())?;
        }
        Ok((RowOnes { starts, columns }, counts))
    }

    /// The number of rows.
    pub fn height(&self) -> usize
        ensures { result ≡ length self.now }
    {
        self.starts.len() - 1
    }

    /// The columns of all ones, row by row.
    pub fn columns(&self) -> &[u16]
        ensures { result.now ≡ concat self.now }
    {
        self.columns.as_slice()
    }

    /// The number of ones.
    pub fn len(&self) -> usize
        ensures { result ≡ sum_by length self.now }
    {
        self.columns.len()
    }

    /// The columns of the ones of a row.
    #[inline(always)]
    pub fn row(&self, row: usize) -> &[u16]
        requires { row < length self.now }
        ensures { result.now ≡ ones_of self.now row }
    {
        let starts = self.starts.as_slice();
        part(self.columns.as_slice(), starts[row], starts[row + 1])
    }
}

// The columns of the ones of a row behind other columns. Says how many of them are among the first
// `lt_columns`.
fn push_ones<T: BinaryMatrix>(
    bits: &T,
    row: usize,
    lt_columns: usize,
    dense: &mut Vec<usize>,
    columns: &mut Vec<u16>,
) -> Result<u16, AllocError>
    requires lt_columns { lt_columns ≡ (T.content bits.now).boundary }
    requires row { row < (T.content bits.now).height }
    ensures counted { IfOk result (λ count. count ≡ count_by (λ column. nat_lt column lt_columns) (drop (length columns.old.items) columns.new.items)) }
    ensures ones { OnOk result (AddsOneColumns ((T.content bits.now).bit row) (T.content bits.now).width columns.old.items columns.new.items) }
{
    let start = columns.len();
    for (column, octet) in bits.get_row_iter(row, 0, lt_columns) {
        if octet.byte() == 1 {
            columns.push(column as u16)?;
        }
    }
    let count = columns.len() - start;
    bits.query_non_zero_columns_into(row, lt_columns, dense)
        .map_err(want_of_memory)?;
    push_columns(dense.as_slice(), columns)?;
    Ok(count as u16)
}

// Appends columns to a list of them.
fn push_columns(more: &[usize], columns: &mut Vec<u16>) -> Result<(), AllocError>
    requires { All (λ column. column < 65536) more.now }
    ensures { OnOk result (columns.new.items ≡ columns.old.items ++ more.now) }
{
    for column in more {
        columns.push(*column as u16)?;
    }
    Ok(())
}
