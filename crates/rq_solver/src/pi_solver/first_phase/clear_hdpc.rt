//! The first phase clears the pivots' columns in the HDPC rows (RFC 6330, section 5.4.2.2).
ghost use Rattle.std.specs.Prelude.{◌≡◌, ◌≢◌, ℕ, ◌+◌, ◌-◌, ◌<◌, ◌≤◌, length, IsTrue, OnOk};
ghost use Rattle.rq_algebra.specs.Systems.{at};
ghost use Rattle.rq_parts.specs.DenseOctetMatrix.{entry_of, HasOctets};
ghost use Rattle.rq_elimination.specs.RecordedRows.{AddsAtMost};
ghost use Rattle.rq_solver.specs.HdpcOctets.{hdpc_bound, AreOctetsIn, AreReadable, ClearsOctets, ClearsOwnColumn, ClearsPivotColumn, CombinesFrom};
ghost use Rattle.rq_solver.specs.HdpcOctets.{CombinesTables, HasNoPivot, HasZeros, IsFirstAlone, StandsBeside, SumsRows};
ghost use Rattle.rq_elimination.specs.HdpcRows.{octet_in};
ghost use Rattle.rq_matrix.specs.Orders.{IsOrderOf};

use rq_bytes::octet::Octet;
use rq_elimination::entries::{next_in_vectors, nonzero_after_first};
use rq_elimination::hdpc_rows::HdpcRows;
use rq_elimination::recorded::RecordedRows;
use rq_parts::octet_matrix::DenseOctetMatrix;
use rq_peeling::peeling::Peeling;
use std::alloc::AllocError;

// Where the HDPC rows stand, from row `first` on, and the pivots of other rows.
#[derive(Drop)]
struct HdpcPlaces<'a> {
    first: usize,
    peeling: &'a Peeling,
}

/// Gives the HDPC rows 0 in the pivots' columns. The first row takes all others, so that it is their
/// sum. Then, column by column, unless the sum has 0 there, it is multiplied to have 1, and the others
/// take multiples of it, so that they have 0. Where the column has a pivot, each HDPC row that isn't 0
/// there, mostly the first alone, takes a multiple of the pivot's row. This serves any octets, and takes
/// few products for those of RFC 6330 (section 5.3.3.3): each of their columns is alpha times the next,
/// but for ones in two rows. So once a column is cleared, two rows at most have to take the sum to clear
/// the next. Where the HDPC rows have 0 in all of the pivots' columns from the start, nothing is done.
pub(super) fn clear_octets(
    hdpc: DenseOctetMatrix,
    first_hdpc: usize,
    peeling: &Peeling,
    recorded: &mut RecordedRows,
) -> Result<(), AllocError>
    requires rows { AreOctetsIn first_hdpc (length hdpc.rows) recorded.old }
    requires few { length hdpc.rows < 65536 }
    requires octets { HasOctets hdpc }
    requires pivots { StandsBeside peeling.now first_hdpc hdpc recorded.old }
    ensures cleared { OnOk result (ClearsOctets peeling.now.rows peeling.now.order (entry_of hdpc) first_hdpc (length hdpc.rows) recorded.old recorded.new) }
    ensures few { OnOk result (AddsAtMost (hdpc_bound (length hdpc.rows) hdpc.width (length peeling.now.rows)) recorded.old recorded.new) }
{
    if hdpc.height() == 0 || are_zeros_at_pivots(&hdpc, peeling) {
        return Ok(());
    }
    let mut sums = hdpc;
    sum_rows(&mut sums, first_hdpc, recorded)?;
    let mut hdpc_rows = HdpcRows::new(recorded.operations.allocator(), sums)?;
    let mut octets = vec![in recorded.operations.allocator(); 0; hdpc_rows.lanes()]?;
    let column_octets = octets.as_mut_slice();
    let places = HdpcPlaces {
        first: first_hdpc,
        peeling,
    };
    for column in 0..end_of_pivots(peeling) {
        clear_column(&mut hdpc_rows, column, column_octets, &places, recorded)?;
    }
    Ok(())
}

// Whether all rows have 0 in the pivots' columns.
fn are_zeros_at_pivots(hdpc: &DenseOctetMatrix, peeling: &Peeling) -> bool
    requires order { IsOrderOf hdpc.now.width peeling.now.order peeling.now.places }
    requires few { length peeling.now.rows ≤ hdpc.now.width }
    ensures { IsTrue result → (p : ℕ) → p < length peeling.now.rows → HasZeros (at peeling.now.order p) (length hdpc.now.rows) hdpc.now }
{
    for place in 0..peeling.pivots() {
        if !is_zero_column(hdpc, peeling.column_at(place)) {
            return false;
        }
    }
    true
}

// Whether all rows have 0 in a column.
fn is_zero_column(octets: &DenseOctetMatrix, column: usize) -> bool
    requires { column < octets.now.width }
    ensures { IsTrue result → HasZeros column (length octets.now.rows) octets.now }
{
    for row in 0..octets.height() {
        if octets.get(row, column).byte() != 0 {
            return false;
        }
    }
    true
}

// One more than the greatest column that has a pivot, and 0 where none has.
fn end_of_pivots(peeling: &Peeling) -> usize
    ensures within { result ≤ length peeling.now.places }
    ensures last { (k : ℕ) → result ≤ k → k < length peeling.now.places → length peeling.now.rows ≤ at peeling.now.places k }
{
    let mut end = 0;
    for column in 0..peeling.width() {
        if peeling.place_of(column) < peeling.pivots() {
            end = column + 1;
        }
    }
    end
}

// Adds the other HDPC rows to the first.
fn sum_rows(
    rows: &mut DenseOctetMatrix,
    first_hdpc: usize,
    recorded: &mut RecordedRows,
) -> Result<(), AllocError>
    requires rows { AreOctetsIn first_hdpc (length rows.old.rows) recorded.old }
    requires octets { HasOctets rows.old }
    requires some { 0 < length rows.old.rows }
    ensures width { OnOk result (rows.new.width ≡ rows.old.width) }
    ensures height { OnOk result (length rows.new.rows ≡ length rows.old.rows) }
    ensures octets { OnOk result (HasOctets rows.new) }
    ensures sum { OnOk result (SumsRows rows.old rows.new) }
    ensures summed { OnOk result (CombinesTables first_hdpc rows.old rows.new recorded.old recorded.new) }
    ensures few { OnOk result (AddsAtMost (length rows.old.rows - 1) recorded.old recorded.new) }
{
    for row in 1..rows.height() {
        let one = Octet::one();
        rows.fma_rows(0, row, &one);
        recorded.add_multiple(first_hdpc, first_hdpc + row, one)?;
    }
    Ok(())
}

// Gives the HDPC rows 0 in a column, if it has a pivot. They have 0 in the pivots' columns before
// it, and keep that. What they have in the column is read into `column_octets`.
fn clear_column(
    hdpc_rows: &mut HdpcRows,
    column: usize,
    column_octets: &mut [u8],
    places: &HdpcPlaces,
    recorded: &mut RecordedRows,
) -> Result<(), AllocError>
    requires hdpc { AreReadable places.now.first column hdpc_rows.old column_octets.old recorded.old }
    requires pivots { StandsBeside places.now.peeling.now places.now.first hdpc_rows.old.table recorded.old }
    ensures table { hdpc_rows.new.table ≡ hdpc_rows.old.table }
    ensures lanes { length column_octets.new ≡ length hdpc_rows.new.factors }
    ensures changed { OnOk result (ClearsPivotColumn places.now.peeling.now column places.now.first hdpc_rows.old hdpc_rows.new recorded.old recorded.new) }
    ensures few { OnOk result (AddsAtMost ((length hdpc_rows.old.table.rows - 1) + length hdpc_rows.old.table.rows) recorded.old recorded.new) }
    ensures idle { OnOk result (HasNoPivot places.now.peeling.now column → AddsAtMost (length hdpc_rows.old.table.rows - 1) recorded.old recorded.new) }
{
    let lead = hdpc_rows.get(0, column);
    add_first_row(hdpc_rows, column, column_octets, places.first, recorded)?;
    let place = places.peeling.place_of(column);
    if place < places.peeling.pivots() {
        // Where the first row wasn't 0 in the column, the others are now.
        let count = if lead.byte() == 0 {
            hdpc_rows.height()
        } else {
            1
        };
        add_pivot(places, place, hdpc_rows, count, recorded)?;
    }
    Ok(())
}

// Adds multiples of the first HDPC row to the others, so that these have 0 in the column, and
// multiplies it so that it has 1 there. Where it has 0, nothing is done.
fn add_first_row(
    hdpc_rows: &mut HdpcRows,
    column: usize,
    column_octets: &mut [u8],
    first_hdpc: usize,
    recorded: &mut RecordedRows,
) -> Result<(), AllocError>
    requires { AreReadable first_hdpc column hdpc_rows.old column_octets.old recorded.old }
    ensures table { hdpc_rows.new.table ≡ hdpc_rows.old.table }
    ensures lanes { length column_octets.new ≡ length hdpc_rows.new.factors }
    ensures alone { OnOk result (octet_in hdpc_rows.old 0 column ≢ 0 → IsFirstAlone column hdpc_rows.new) }
    ensures added { OnOk result (CombinesFrom column first_hdpc hdpc_rows.old hdpc_rows.new recorded.old recorded.new) }
    ensures few { OnOk result (AddsAtMost (length hdpc_rows.old.table.rows - 1) recorded.old recorded.new) }
{
    let lead = hdpc_rows.get(0, column);
    if lead.byte() == 0 {
        return Ok(());
    }
    hdpc_rows.read_column(column, column_octets);
    let mut last = 0;
    let mut rest = nonzero_after_first(column_octets);
    while let Some((row, octet)) = next_in_vectors(
        column_octets,
        last,
        hdpc_rows.height(),
        &mut rest,
    ) {
        let scalar = &octet / &lead;
        let factor = scalar.byte();
        hdpc_rows.add_first(row, factor);
        recorded.add_multiple(first_hdpc + row, first_hdpc, scalar)?;
        last = row;
    }
    if lead.byte() != 1 {
        let scalar = Octet::one() / lead;
        let factor = scalar.byte();
        hdpc_rows.multiply_first(factor);
        recorded.multiply_row(first_hdpc, scalar)?;
    }
    Ok(())
}

// Adds multiples of a pivot's row to the first HDPC rows, so that they have 0 in its column, as the
// others do.
fn add_pivot(
    places: &HdpcPlaces,
    place: usize,
    hdpc_rows: &HdpcRows,
    count: usize,
    recorded: &mut RecordedRows,
) -> Result<(), AllocError>
    requires rows { AreOctetsIn places.now.first (length hdpc_rows.now.table.rows) recorded.old }
    requires pivots { StandsBeside places.now.peeling.now places.now.first hdpc_rows.now.table recorded.old }
    requires place { place < length places.now.peeling.now.rows }
    requires count { count ≤ length hdpc_rows.now.table.rows }
    requires zeros { (i : ℕ) → count ≤ i → i < length hdpc_rows.now.table.rows → octet_in hdpc_rows.now i (at places.now.peeling.now.order place) ≡ 0 }
    ensures changed { OnOk result (ClearsOwnColumn places.now.peeling.now place places.now.first hdpc_rows.now recorded.old recorded.new) }
    ensures few { OnOk result (AddsAtMost (length hdpc_rows.now.table.rows) recorded.old recorded.new) }
{
    let column = places.peeling.column_at(place);
    for row in 0..count {
        let scalar = hdpc_rows.get(row, column);
        if scalar.byte() != 0 {
            recorded.add_multiple(places.first + row, places.peeling.row_of(place), scalar)?;
        }
    }
    Ok(())
}
