//! The seven checks of a row, in 64 bits, so that no number that is handed in wraps.
ghost use Rattle.std.specs.Prelude.{◌≡◌, slice_get};
ghost use Rattle.rq_standard.specs.TableRows.{row_of_numbers, has_size, fits_ldpc, fits_hdpc, fits_pi, first_failing_check};

use rq_standard::p1_table::P1_TABLE;
use rq_standard::row::TableRow;

/// The row that numbers make at a place of a table, which decides its P1.
pub(crate) fn row_at(place: usize, numbers: &(u32, u32, u32, u32, u32)) -> TableRow
    ensures { result ≡ row_of_numbers place numbers.now }
{
    let p1 = size_at(place).map_or(0, |(_, p1)| p1);
    let (extended_symbols, systematic_index, ldpc_symbols, hdpc_symbols, lt_symbols) = *numbers;
    TableRow {
        extended_symbols,
        systematic_index,
        ldpc_symbols,
        hdpc_symbols,
        lt_symbols,
        p1,
    }
}

/// The first of the checks that a row fails at a place of a table.
#[tactic(auto, unfolding(rq_standard::specs::TableRows::first_failing_check))]
pub(crate) fn first_failing_check(place: usize, row: &TableRow) -> Option<u8>
    ensures { result ≡ first_failing_check place row.now }
{
    if !has_size(place, row) {
        Some(1)
    } else if row.ldpc_symbols % 2 != 1 {
        Some(2)
    } else if !fits_ldpc(row) {
        Some(3)
    } else if !fits_hdpc(row) {
        Some(4)
    } else if !fits_pi(row) {
        Some(5)
    } else if row.intermediate_symbols() >= 65536 {
        Some(6)
    } else if row.systematic_index > 1000 {
        Some(7)
    } else {
        None
    }
}

// The size of the rows at a place of a table, and its P1.
fn size_at(place: usize) -> Option<(u32, u32)>
    ensures { result ≡ slice_get P1_TABLE place }
{
    P1_TABLE.get(place).copied()
}

// The first check: a row has the K' and the P1 of its place.
fn has_size(place: usize, row: &TableRow) -> bool
    ensures { result ≡ has_size (slice_get P1_TABLE place) row.now }
{
    match size_at(place) {
        Some((size, p1)) => row.extended_symbols == size && row.p1 == p1,
        None => false,
    }
}

// The third check: 1 <= B <= S (S - 1), which keeps a symbol's three LDPC equations apart, and B <= K'.
fn fits_ldpc(row: &TableRow) -> bool
    ensures { result ≡ fits_ldpc row.now }
{
    let ldpc = u64::from(row.ldpc_symbols);
    let b = row.b();
    1 <= b && u64::from(b) <= ldpc * ldpc.saturating_sub(1) && b <= row.extended_symbols
}

// The fourth check: 2 <= H <= K', and alpha has H different powers, which is H <= 255.
fn fits_hdpc(row: &TableRow) -> bool
    ensures { result ≡ fits_hdpc row.now }
{
    2 <= row.hdpc_symbols && row.hdpc_symbols <= row.extended_symbols.min(255)
}

// The fifth check: 3 <= P <= P1 <= 2P, so that a walk modulo P1 soon meets a number below P.
fn fits_pi(row: &TableRow) -> bool
    ensures { result ≡ fits_pi row.now }
{
    let pi = row.pi_symbols();
    let p1 = u64::from(row.p1);
    3 <= pi && pi <= p1 && p1 <= 2 * pi
}
