//! Sums of several rows, in one pass over them.
ghost use Rattle.std.specs.Prelude.{◌≡◌, ◌+◌, ◌≤◌, ◌++◌, length, get_or, fold, All};
ghost use Rattle.std.specs.Int.Bits.{bit_xor};
ghost use Rattle.rq_standard.specs.Rows.{row_sum};
ghost use Rattle.rq_bytes.specs.Ranges.{with_range};
ghost use Rattle.rq_bytes.specs.RangeSums.{sum_of_ranges, with_ranges_added, IsRangeBeside};

use crate::lanes::{LaneOperation, change_row};
use crate::slices::range;
use std::simd::prelude::*;

/// How many symbols [`SymbolSlab::add_all`](crate::symbol_slab::SymbolSlab::add_all) and
/// [`SymbolSlab::add_symbols_to`](crate::symbol_slab::SymbolSlab::add_symbols_to) add at most in one
/// pass. Not in the Rust crate.
pub const ADDED_AT_ONCE: usize = 8;

/// Adds several rows to a row, in one pass over it. It is compiled anew for each known number of them.
#[inline(always)]
pub(crate) fn add_rows(octets: &mut [u8], rows: &[&[u8]])
    requires { All (λ row. length octets.old ≤ length row.now) rows.now }
    ensures { octets.new ≡ fold (λ sum row. row_sum sum row.now) octets.old rows.now }
{
    let len = octets.len();
    change_row(octets, &RowSum { rows, len });
}

// Adds several other rows.
#[derive(Clone, Copy)]
struct RowSum<'a> {
    rows: &'a [&'a [u8]],
    len: usize,
    ghost long: { All (λ row. len ≤ length row.now) rows.now },
}

impl<'a> LaneOperation for RowSum<'a> {
    ghost made = { λ s x i. fold (λ sum row. bit_xor sum (get_or row.now i 0)) x s.rows.now };

    ghost places = { λ s. s.len };

    #[inline(always)]
    fn lanes(&self, octets: u8x32, place: usize) -> u8x32 {
        let rows = self.rows;
        let mut sum = octets;
        for row in rows {
            sum ^= u8x32::from_slice(&row[place..]);
        }
        sum
    }

    #[inline(always)]
    fn octet(&self, octet: u8, place: usize) -> u8 {
        let rows = self.rows;
        let mut sum = octet;
        for row in rows {
            sum ^= row[place];
        }
        sum
    }
}

/// Adds the `len` octets from each of C starts on to those from `dest` on, in one pass over them.
#[inline(always)]
pub(crate) fn add_ranges<const C: usize>(
    bytes: &mut [u8],
    dest: usize,
    starts: &[usize],
    len: usize,
)
    requires few { C ≤ 8 }
    requires count { length starts.now ≡ C }
    requires dest { dest + len ≤ length bytes.old }
    requires starts { All (IsRangeBeside (length bytes.old) dest len) starts.now }
    ensures { bytes.new ≡ with_range bytes.old dest (sum_of_ranges bytes.old dest starts.now len) }
{
    let (head, back) = bytes.split_at_mut(dest + len);
    let (front, row) = head.split_at_mut(dest);
    add_rows_beside::<C>(row, front, back, starts);
}

// Adds the octets from each of C starts on to a row that stands between two parts.
#[inline(always)]
fn add_rows_beside<'a, const C: usize>(
    row: &mut [u8],
    front: &'a [u8],
    back: &'a [u8],
    starts: &[usize],
)
    requires few { C ≤ 8 }
    requires count { length starts.now ≡ C }
    requires starts { All (IsRangeBeside (length front.now + length row.old + length back.now) (length front.now) (length row.old)) starts.now }
    ensures { row.new ≡ with_ranges_added row.old (front.now ++ (row.old ++ back.now)) starts.now (length row.old) }
{
    let len = row.len();
    // A start behind the row is counted from `end` in one step, as that part was cut off, so that the
    // compiler sees that both branches find one address, and makes no choice between them.
    let end = front.len() + len;
    let mut rows = [front; ADDED_AT_ONCE];
    for i in 0..C {
        rows[i] = if starts[i] < front.len() {
            range(front, starts[i], len)
        } else {
            range(back, starts[i] - end, len)
        };
    }
    add_rows(row, &rows[..C]);
}
