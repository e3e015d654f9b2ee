//! `Peeled`: what the first phase leaves and no phase behind it changes (RFC 6330, section 5.4.2), and
//! which row stands at a place (`row_at`). What the others change stands beside it: the list of the rows
//! that got no pivot in the first, and `RecordedRows` (of `rq_elimination`).
ghost use Rattle.std.specs.Prelude.{◌≡◌, ◌+◌, ◌<◌, ◌≤◌, ◌++◌, length};
ghost use Rattle.rq_algebra.specs.Systems.{at};

use rq_peeling::ones::RowOnes;
use rq_peeling::peeling::Peeling;

/// The pivots of the first phase, and what it added to their rows: the ones of each row of bits as they
/// were handed in, and for each row, those of the pivots first, the place in the list of operations
/// where those begin by which `clear_rows` added others to it. They end where the next row's begin, and
/// last stands the end of all of them. What HDPC rows took comes behind it.
#[derive(Drop)]
pub(super) struct Peeled {
    pub peeling: Peeling,
    pub ones: RowOnes,
    pub bounds: Vec<usize>,
    /// How many rows a pivot's row may have taken if it is to be made sparse again.
    pub sparsify_limit: usize,
    pub ghost few_pivots: { length peeling.rows ≤ length peeling.places },
}

/// The row at a place, where those of the pivots stand first, and then those that are left.
#[inline(always)]
pub(super) fn row_at(peeling: &Peeling, left: &[usize], place: usize) -> usize
    requires { place < length peeling.now.rows + length left.now }
    ensures { result ≡ at (peeling.now.rows ++ left.now) place }
{
    let pivots = peeling.pivots();
    if place < pivots {
        peeling.row_of(place)
    } else {
        left[place - pivots]
    }
}
