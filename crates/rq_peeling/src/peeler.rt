//! `Peeler`: the state of the choice of pivots, and one turn of it (RFC 6330, section 5.4.2.2).
//! Where the least is two active columns, a graph of components decides.
ghost use Rattle.std.specs.Prelude.{◌≡◌, false, ◌<◌, ◌≤◌, [], length, slice_index_or, All, Contains, IsTrue, IfSome, IfNone, OnOk, IfOk};
ghost use Rattle.rq_algebra.specs.Systems.{at};
ghost use Rattle.rq_peeling.specs.RowDegrees.{AllHaveNone, CountsActive, HasLeastDegree, KeepsDegrees, LowersRows, TakesColumnsLeft, TakesFewest, active_ones};
ghost use Rattle.rq_matrix.specs.Orders.{IsOrderOf};
ghost use Rattle.rq_peeling.specs.ColumnState.{IsActive, HasNoActive, TakesRow, InactivatesRow};
ghost use Rattle.rq_peeling.specs.RowOnes.{ones_of};
ghost use Rattle.rq_peeling.specs.Chosen.{HasChosen, IsPeeledSo};

use crate::columns::ColumnOrder;
use crate::degrees::RowDegrees;
use crate::system::System;
use rq_parts::graph::ConnectedComponentGraph;
use rq_parts::memory::want_of_memory;
use std::alloc::{AllocError, Global};

/// What is worked on while columns of a system get pivots: how many active columns each row has, the
/// columns in their order, and which columns rows of two join.
#[derive(Drop)]
pub struct Peeler<'a> {
    system: &'a System,
    degrees: RowDegrees,
    columns: ColumnOrder,
    graph: ConnectedComponentGraph,
    ghost row_count: { length degrees ≡ length system.now.ones },
    ghost column_count: { length columns.order ≡ system.now.width },
    ghost node_count: { length graph.labels ≡ system.now.lt_columns },
}

impl<'a> Peeler<'a> {
    /// No column has a pivot, and the dense columns are inactive.
    pub fn new(alloc: Global, system: &'a System) -> Result<Peeler<'a>, AllocError>
        ensures system { IfOk result (λ peeler. peeler.system.now ≡ system.now) }
        ensures chosen { IfOk result (λ peeler. HasChosen system.now.width system.now.lt_columns system.now.ones [] peeler.columns peeler.degrees) }
    {
        let degrees = RowDegrees::new(alloc, system.degrees.clone()?)?;
        let columns = ColumnOrder::new(alloc, system.width, system.lt_columns)?;
        let graph = ConnectedComponentGraph::new(alloc, system.lt_columns).map_err(want_of_memory)?;
        Ok(Peeler {
            system,
            degrees,
            columns,
            graph,
        })
    }

    /// Gives columns pivots in row after row, while rows have active columns. The rows that have them.
    pub fn choose_rows(&mut self, alloc: Global) -> Result<Vec<u32>, AllocError>
        requires { HasChosen self.old.system.now.width self.old.system.now.lt_columns self.old.system.now.ones [] self.old.columns self.old.degrees }
        ensures peeled { IfOk result (λ rows. IsPeeledSo self.old.system.now.ones rows.items self.new.columns) }
        ensures fewest { IfOk result (λ rows. TakesFewest self.old.system.now.ones self.old.system.now.lt_columns rows.items) }
        ensures columns { IfOk result (λ rows. TakesColumnsLeft self.old.system.now.ones self.old.system.now.lt_columns rows.items self.new.columns.order) }
        ensures system { self.new.system ≡ self.old.system }
    {
        let lt_columns = self.system.lt_columns;
        let mut rows = Vec::with_capacity(alloc, lt_columns)?;
        for turn in 0..lt_columns {
            let Some(row) = self.take_next()? else {
                break;
            };
            rows.push(row as u32)?;
        }
        Ok(rows)
    }

    /// The columns in their order, and the place of each.
    pub fn into_columns(self) -> (Vec<u16>, Vec<u16>)
        ensures order { result.0.items ≡ self.entry.columns.order }
        ensures places { result.1.items ≡ self.entry.columns.places }
        ensures columns { IsOrderOf self.entry.system.now.width self.entry.columns.order self.entry.columns.places }
        ensures few { self.entry.columns.pivots ≤ self.entry.system.now.width }
    {
        self.columns.into_arrays()
    }

    // Peels the next row. `None` where no row has an active column.
    fn take_next(&mut self) -> Result<Option<usize>, AllocError>
        requires { CountsActive self.old.system.now.ones self.old.columns self.old.degrees }
        ensures row { IfOk result (λ taken. IfSome taken (HasLeastDegree self.old.degrees)) }
        ensures taken { IfOk result (λ taken. IfSome taken (λ row. TakesRow (ones_of self.old.system.now.ones row) self.old.columns self.new.columns)) }
        ensures counted { IfOk result (λ taken. IfSome taken (λ _. CountsActive self.old.system.now.ones self.new.columns self.new.degrees)) }
        ensures none { IfOk result (λ taken. IfNone taken (AllHaveNone self.old.degrees)) }
        ensures left { IfOk result (λ taken. IfNone taken (self.new.columns ≡ self.old.columns)) }
        ensures system { self.new.system ≡ self.old.system }
    {
        let Some(row) = self.next_row() else {
            return Ok(None);
        };
        if self.take_row(row)? {
            Ok(Some(row))
        } else {
            Ok(None)
        }
    }

    // A row that has least active columns but has some. Where the least is two, it is one of
    // the rows of two that join most columns (RFC 6330, section 5.4.2.2): with one of these inactive
    // all the others get pivots.
    fn next_row(&mut self) -> Option<usize>
        ensures least { IfSome result (HasLeastDegree self.old.degrees) }
        ensures none { IfNone result (AllHaveNone self.old.degrees) }
        ensures degrees { self.new.degrees ≡ self.old.degrees }
        ensures columns { self.new.columns ≡ self.old.columns }
        ensures system { self.new.system ≡ self.old.system }
    {
        if let Some(row) = self.degrees.next_single() {
            return Some(row);
        }
        self.join_columns();
        let lt_columns = self.system.lt_columns;
        if let Some(column) = self
            .graph
            .get_node_in_largest_connected_component(0, lt_columns)
        {
            let column_rows = &self.system.column_rows;
            if let Some(row) = column_rows.row_of_two(column, &self.degrees) {
                return Some(row);
            }
        }
        self.degrees.least()
    }

    // Joins the columns of each row that came to have two active ones. They stay joined until they
    // aren't active any more: where one of joined columns gets a pivot or is inactive, rows are left
    // with one active column, until all the others have pivots.
    fn join_columns(&mut self)
        ensures degrees { self.new.degrees ≡ self.old.degrees }
        ensures columns { self.new.columns ≡ self.old.columns }
        ensures system { self.new.system ≡ self.old.system }
    {
        for _ in 0..self.system.ones.height() {
            let Some(row) = self.degrees.next_pair() else {
                break;
            };
            self.join_pair(row);
        }
    }

    // Joins the first two active columns of a row, if both are those of LT symbols.
    fn join_pair(&mut self, row: usize)
        requires { row < length self.old.degrees }
        ensures degrees { self.new.degrees ≡ self.old.degrees }
        ensures columns { self.new.columns ≡ self.old.columns }
        ensures system { self.new.system ≡ self.old.system }
    {
        let system = self.system;
        let mut first = None;
        for column in system.ones.row(row) {
            let column = *column as usize;
            if self.columns.is_active(column) && column < system.lt_columns {
                if let Some(other) = first {
                    self.graph.add_edge(other, column);
                    return;
                }
                first = Some(column);
            }
        }
    }

    // Gives the first active column of a row the next pivot, and makes the others inactive. Says
    // whether there is one.
    fn take_row(&mut self, row: usize) -> Result<bool, AllocError>
        requires row { row < length self.old.degrees }
        requires degree { at self.old.degrees row ≡ active_ones self.old.columns (ones_of self.old.system.now.ones row) }
        ensures taken { IfOk result (λ taken. IsTrue taken → TakesRow (ones_of self.old.system.now.ones row) self.old.columns self.new.columns) }
        ensures none { IfOk result (λ taken. (taken ≡ false) → HasNoActive (ones_of self.old.system.now.ones row) self.old.columns) }
        ensures counted { OnOk result (KeepsDegrees self.old.system.now.ones self.old.columns self.new.columns self.old.degrees self.new.degrees) }
        ensures system { self.new.system ≡ self.old.system }
    {
        let system = self.system;
        let degree = self.degrees.degree(row);
        let row = system.ones.row(row);
        let Some(pivot) = first_active(row, &self.columns) else {
            return Ok(false);
        };
        self.columns.take_pivot(pivot);
        self.leave_column(pivot)?;
        // Nearly all rows have no other one.
        if degree > 1 {
            self.inactivate_columns(row)?;
        }
        Ok(true)
    }

    // Makes the active columns of a row inactive.
    fn inactivate_columns(&mut self, row: &[u16]) -> Result<(), AllocError>
        requires { All (λ column. column < self.old.system.now.width) row.now }
        ensures inactive { OnOk result (InactivatesRow row.now self.old.columns self.new.columns) }
        ensures counted { OnOk result (KeepsDegrees self.old.system.now.ones self.old.columns self.new.columns self.old.degrees self.new.degrees) }
        ensures system { self.new.system ≡ self.old.system }
    {
        for column in row {
            if self.columns.is_active(*column as usize) {
                self.columns.inactivate(*column as usize);
                self.leave_column(*column as usize)?;
            }
        }
        Ok(())
    }

    // Takes a column that isn't active any more out of its component, and counts one active column
    // less for each one that a row has there.
    #[inline(always)]
    fn leave_column(&mut self, column: usize) -> Result<(), AllocError>
        requires { column < self.old.system.now.width }
        ensures lowered { OnOk result (LowersRows (slice_index_or self.old.system.now.column_rows.lists column []) self.old.degrees self.new.degrees) }
        ensures columns { self.new.columns ≡ self.old.columns }
        ensures system { self.new.system ≡ self.old.system }
    {
        if column < self.system.lt_columns {
            self.graph.remove_node(column);
        }
        self.system
            .column_rows
            .lower_rows(column, &mut self.degrees)
    }
}

// The first active column of a row.
fn first_active(row: &[u16], columns: &ColumnOrder) -> Option<usize>
    requires { All (λ column. column < length columns.now.order) row.now }
    ensures column { IfSome result (Contains row.now) }
    ensures active { IfSome result (IsActive columns.now) }
    ensures none { IfNone result (HasNoActive row.now columns.now) }
{
    for column in row {
        if columns.is_active(*column as usize) {
            return Some(*column as usize);
        }
    }
    None
}
