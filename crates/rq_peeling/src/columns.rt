//! The columns in an order: those with pivots, the active ones and the inactive ones, which are I,
//! V and U of RFC 6330 (section 5.4.2.2).
ghost use Rattle.std.specs.Prelude.{◌≡◌, ◌+◌, ◌<◌, ◌≤◌, ◌↔◌, length, IsTrue, IfOk};
ghost use Rattle.rq_matrix.specs.Orders.{IsOrderOf};
ghost use Rattle.rq_peeling.specs.ColumnState.{IsActive, first_columns, ExchangesColumns, EndsActive};
ghost use Rattle.rq_algebra.specs.Systems.{at};

use std::alloc::{AllocError, Global};
use std::marker::Model;

/// The columns in an order, and the place of each column in it: first those that have pivots, from
/// place `end` on those that are inactive, and between them the active ones.
#[derive(Drop)]
pub struct ColumnOrder {
    order: Vec<u16>,
    places: Vec<u16>,
    pivots: u16,
    end: u16,
}

impl Model for ColumnOrder {
    ghost use Rattle.rq_peeling.specs.ColumnState.{ColumnState, IsColumnState};

    ghost Value = { ColumnState };

    ghost view = { λ c. record { order = c.order.items; places = c.places.items; pivots = c.pivots; end = c.end } };

    ghost invariant = { λ c. IsColumnState (record { order = c.order.items; places = c.places.items; pivots = c.pivots; end = c.end }) };
}

impl ColumnOrder {
    /// `width` columns in their own order, the first `lt_columns` active and the others inactive.
    pub fn new(alloc: Global, width: usize, lt_columns: usize) -> Result<ColumnOrder, AllocError>
        requires lt_columns { lt_columns ≤ width }
        requires narrow { width < 65536 }
        ensures { IfOk result (λ columns. columns ≡ first_columns width lt_columns) }
    {
        Ok(ColumnOrder {
            order: (0..width as u16).collect(alloc)?,
            places: (0..width as u16).collect(alloc)?,
            pivots: 0,
            end: lt_columns as u16,
        })
    }

    /// Whether a column is active.
    pub fn is_active(&self, column: usize) -> bool
        requires { column < length self.now.order }
        ensures { IsTrue result ↔ IsActive self.now column }
    {
        let place = self.places[column];
        self.pivots <= place && place < self.end
    }

    /// Gives an active column the next pivot.
    pub fn take_pivot(&mut self, column: usize)
        requires column { column < length self.old.order }
        requires active { IsActive self.old column }
        ensures ended { EndsActive column self.old self.new }
        ensures pivots { self.new.pivots ≡ self.old.pivots + 1 }
        ensures here { at self.new.order self.old.pivots ≡ column }
    {
        let place = self.places[column];
        let next = self.pivots;
        self.exchange(place, next);
        self.pivots += 1;
    }

    /// Makes an active column inactive.
    pub fn inactivate(&mut self, column: usize)
        requires column { column < length self.old.order }
        requires active { IsActive self.old column }
        ensures ended { EndsActive column self.old self.new }
        ensures pivots { self.new.pivots ≡ self.old.pivots }
    {
        let place = self.places[column];
        let last = self.end - 1;
        self.exchange(place, last);
        self.end -= 1;
    }

    // Exchanges the columns at two places.
    fn exchange(&mut self, p: u16, q: u16)
        requires first { p < length self.old.order }
        requires second { q < length self.old.order }
        ensures { ExchangesColumns p q self.old self.new }
    {
        let first = self.order[p as usize];
        let second = self.order[q as usize];
        self.order[p as usize] = second;
        self.order[q as usize] = first;
        self.places[first as usize] = q;
        self.places[second as usize] = p;
    }

    /// The columns in their order, and the place of each.
    pub fn into_arrays(self) -> (Vec<u16>, Vec<u16>)
        ensures order { result.0.items ≡ self.order }
        ensures places { result.1.items ≡ self.places }
        ensures columns { IsOrderOf (length self.order) self.order self.places }
        ensures few { self.pivots ≤ length self.order }
    {
        let ColumnOrder { order, places, .. } = self;
        (order, places)
    }
}
