//! The first phase fills the matrix U of RFC 6330 (section 5.4.2.2) from the system: the entries of
//! rows in the inactive columns.
ghost use Rattle.std.specs.Prelude.{◌≡◌, ◌<◌, ◌≤◌, ◌+◌, ℕ, All, length, IfOk, OnOk};
ghost use Rattle.rq_parts.specs.DenseOctetMatrix.{entry_of, HasOctets};
ghost use Rattle.rq_solver.specs.InactiveColumns.{AreFilled, FillsColumn, FillsHdpcRow, HasInactive};
ghost use Rattle.rq_matrix.specs.Orders.{IsOrderOf};
ghost use Rattle.rq_peeling.specs.Peeling.{IsPeeled};
ghost use Rattle.rq_peeling.specs.System.{rows_of_system};

use rq_elimination::entries::{InactiveEntries, whole_vectors};
use rq_peeling::peeling::Peeling;
use rq_peeling::system::System;
use std::alloc::{AllocError, Global};

/// The entries of the rows in the inactive columns, in their order.
pub(super) fn fill_inactive(
    alloc: Global,
    system: &System,
    peeling: &Peeling,
) -> Result<InactiveEntries, AllocError>
    requires { IsPeeled system.now.width system.now.ones peeling.now }
    ensures { IfOk result (HasInactive (length system.now.ones) system.now.width (rows_of_system system.now) peeling.now) }
{
    let inactive = system.width - peeling.pivots();
    let mut entries = InactiveEntries::new(alloc, system.ones.height(), whole_vectors(inactive))?;
    fill_columns(system, peeling, inactive, &mut entries);
    for from in 0..system.hdpc.height() {
        fill_octets(system, from, peeling, inactive, &mut entries)?;
    }
    Ok(entries)
}

// Sets the entries to 1 where rows have ones in the `inactive` inactive columns: column by column, so
// that of no single 1 it has to be asked whether its column is inactive.
fn fill_columns(system: &System, peeling: &Peeling, inactive: usize, entries: &mut InactiveEntries)
    requires peeled { IsPeeled system.now.width system.now.ones peeling.now }
    requires inactive { length peeling.now.rows + inactive ≡ system.now.width }
    requires zeros { AreFilled system.now.ones peeling.now inactive 0 entries.old }
    ensures { AreFilled system.now.ones peeling.now inactive (length system.now.ones) entries.new }
{
    for f in 0..inactive {
        let column = peeling.inactive_column(f);
        fill_column(system.column_rows.rows_in(column), f, entries);
    }
}

// Sets the entries of rows in a column of zeros to 1.
fn fill_column(rows: &[u32], column: usize, entries: &mut InactiveEntries)
    requires rows { All (λ row. row < length entries.old.rows) rows.now }
    requires column { column < entries.old.width }
    requires octets { HasOctets entries.old }
    requires zeros { (i : ℕ) → i < length entries.old.rows → entry_of entries.old i column ≡ 0 }
    ensures { FillsColumn rows.now column entries.old entries.new }
{
    for row in rows {
        entries.set_one(*row as usize, column);
    }
}

// Sets the entries of an HDPC row to its octets in the `inactive` inactive columns.
fn fill_octets(
    system: &System,
    from: usize,
    peeling: &Peeling,
    inactive: usize,
    entries: &mut InactiveEntries,
) -> Result<(), AllocError>
    requires order { IsOrderOf system.now.hdpc.width peeling.now.order peeling.now.places }
    requires inactive { length peeling.now.rows + inactive ≡ system.now.hdpc.width }
    requires from { from < length system.now.hdpc.rows }
    requires row { system.now.first_hdpc + from < length entries.old.rows }
    requires width { inactive ≤ entries.old.width }
    requires octets { HasOctets entries.old }
    ensures { OnOk result (FillsHdpcRow system.now from peeling.now inactive entries.old entries.new) }
{
    let row = system.first_hdpc + from;
    entries.fill(row, &system.hdpc, from, peeling.inactive_columns())
}
