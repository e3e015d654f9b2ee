//! The equations of a block as the phases take them, which is the matrix A of RFC 6330 (section
//! 5.4.2.1).
ghost use Rattle.std.specs.Prelude.{◌≡◌, ℕ, ◌+◌, ◌^◌, ◌<◌, ◌≤◌, length, IfOk};
ghost use Rattle.rq_parts.specs.DenseOctetMatrix.{HasOctets};
ghost use Rattle.rq_peeling.specs.SystemRows.{AreOctetRows, AreRowsOfBits};
ghost use Rattle.rq_peeling.specs.ColumnRows.{ListsColumns};
ghost use Rattle.rq_peeling.specs.RowDegrees.{CountsBefore};

use crate::column_rows::ColumnRows;
use crate::ones::RowOnes;
use rq_matrix::matrix::BinaryMatrix;
use rq_parts::octet_matrix::DenseOctetMatrix;
use std::alloc::{AllocError, Global};

/// The equations of a block, row by row: the ones of rows of bits, but octets in the HDPC rows, which
/// have the places from `first_hdpc` on. The ones are listed column by column too. The first
/// `lt_columns` columns are those of LT symbols, the others are dense. A row's degree is the number of
/// its ones in columns of LT symbols.
#[derive(Drop)]
pub struct System {
    pub ones: RowOnes,
    pub column_rows: ColumnRows,
    pub hdpc: DenseOctetMatrix,
    pub first_hdpc: usize,
    pub width: usize,
    pub lt_columns: usize,
    pub degrees: Vec<u16>,
    pub ghost bits: { AreRowsOfBits width ones },
    pub ghost column_lists: { ListsColumns ones column_rows },
    pub ghost column_count: { length column_rows.lists ≡ width },
    pub ghost row_count: { column_rows.height ≡ length ones },
    pub ghost octet_rows: { AreOctetRows ones first_hdpc width hdpc },
    pub ghost octets: { HasOctets hdpc },
    pub ghost few_hdpc: { length hdpc.rows ≤ width },
    pub ghost few_rows: { length ones < 2 ^ 31 },
    pub ghost narrow: { width < 65536 },
    pub ghost dense_columns: { lt_columns ≤ width },
    pub ghost degree_count: { length degrees.items ≡ length ones },
    pub ghost counted: { CountsBefore lt_columns ones degrees.items },
}

impl System {
    ghost use Rattle.rq_peeling.specs.System.{IsSystemOf};

    /// The equations of a matrix of bits, whose first `lt_columns` columns are those of LT symbols,
    /// and of the HDPC rows from row `first_hdpc` on, where the matrix has zeros.
    pub fn of_matrix<T: BinaryMatrix>(
        alloc: Global,
        bits: &T,
        hdpc: DenseOctetMatrix,
        first_hdpc: usize,
        lt_columns: usize,
    ) -> Result<System, AllocError>
        requires lt_columns { lt_columns ≡ (T.content bits.now).boundary }
        requires width { hdpc.width ≡ (T.content bits.now).width }
        requires few_hdpc { length hdpc.rows ≤ (T.content bits.now).width }
        requires within { first_hdpc + length hdpc.rows ≤ (T.content bits.now).height }
        requires zeros { (i k : ℕ) → i < length hdpc.rows → k < (T.content bits.now).width → (T.content bits.now).bit (first_hdpc + i) k ≡ 0 }
        ensures { IfOk result (IsSystemOf (T.content bits.now) hdpc first_hdpc) }
    {
        let width = hdpc.width();
        let (ones, degrees) = RowOnes::of_matrix(alloc, bits, lt_columns)?;
        let column_rows = ColumnRows::of_rows(alloc, &ones, width)?;
        Ok(System {
            ones,
            column_rows,
            hdpc,
            first_hdpc,
            width,
            lt_columns,
            degrees,
        })
    }
}
