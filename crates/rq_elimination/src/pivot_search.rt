//! The search for the row of a pivot, for the second phase (RFC 6330, section 5.4.2.3) and for
//! `rq_null_vector`.
ghost use Rattle.std.specs.Prelude.{◌≡◌, ◌≢◌, ℕ, ◌<◌, ◌≤◌, length, IfSome, IfNone};
ghost use Rattle.rq_algebra.specs.Systems.{at};
ghost use Rattle.rq_parts.specs.DenseOctetMatrix.{OctetTable, entry_of};
ghost use Rattle.rq_elimination.specs.RowSteps.{AreRows};

use rq_bytes::octet::Octet;
use rq_parts::octet_matrix::DenseOctetMatrix;

/// Rows of octets.
pub trait OctetRows {
    ghost table: { Self → OctetTable };

    /// What a row has in a column.
    fn entry(&self, row: usize, column: usize) -> Octet
        requires row { row < length (table self.now).rows }
        requires column { column < (table self.now).width }
        ensures { result ≡ entry_of (table self.now) row column };
}

impl OctetRows for DenseOctetMatrix {
    ghost table = { λ matrix. matrix };

    fn entry(&self, row: usize, column: usize) -> Octet {
        self.get(row, column)
    }
}

/// Where a row stands that isn't 0 in the column, from `start` on.
pub fn find_pivot<M: OctetRows>(
    matrix: &M,
    rows: &[usize],
    start: usize,
    column: usize,
) -> Option<usize>
    requires rows { AreRows rows.now (M.table matrix.now) }
    requires column { column < (M.table matrix.now).width }
    ensures found { IfSome result (λ i. (start ≤ i) × (i < length rows.now) × (entry_of (M.table matrix.now) (at rows.now i) column ≢ 0)) }
    ensures none { IfNone result ((i : ℕ) → start ≤ i → i < length rows.now → entry_of (M.table matrix.now) (at rows.now i) column ≡ 0) }
{
    for i in start..rows.len() {
        if matrix.entry(rows[i], column).byte() != 0 {
            return Some(i);
        }
    }
    None
}
