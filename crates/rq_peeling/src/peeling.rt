//! `peel`: the whole choice of pivots (RFC 6330, section 5.4.2.2), turn after turn of a `Peeler`. And
//! `Peeling`, its result: which column has its pivot in which row, and the order of the columns.
ghost use Rattle.std.specs.Prelude.{◌≡◌, ◌+◌, ◌<◌, ◌≤◌, drop, length, IfOk};
ghost use Rattle.rq_algebra.specs.Systems.{at};
ghost use Rattle.rq_peeling.specs.RowDegrees.{TakesColumnsLeft, TakesFewest};
ghost use Rattle.rq_peeling.specs.Peeling.{IsPeeled};

use crate::peeler::Peeler;
use crate::system::System;
use std::alloc::{AllocError, Global};
use std::marker::Model;

/// Columns with pivots among rows of bits, and the order of all columns: pivots' first, in the
/// order in which they were chosen, then all others, which are inactive from then on. Contracts see
/// the rows that have pivots, that order, and the place of each column in it.
#[derive(Drop)]
pub struct Peeling {
    // All are read in any order: of narrow numbers more stay in a near cache.
    rows: Vec<u32>,
    order: Vec<u16>,
    places: Vec<u16>,
}

impl Model for Peeling {
    ghost use Rattle.rq_peeling.specs.Peeling.{Pivots};

    ghost Value = { Pivots };

    ghost view = { λ p. record { rows = p.rows.items; order = p.order.items; places = p.places.items } };
}

impl Peeling {
    /// How many columns have pivots.
    #[inline(always)]
    pub fn pivots(&self) -> usize
        ensures { result ≡ length self.now.rows }
    {
        self.rows.len()
    }

    /// How many columns there are.
    #[inline(always)]
    pub fn width(&self) -> usize
        ensures { result ≡ length self.now.places }
    {
        self.places.len()
    }

    /// The row of a pivot.
    #[inline(always)]
    pub fn row_of(&self, pivot: usize) -> usize
        requires { pivot < length self.now.rows }
        ensures { result ≡ at self.now.rows pivot }
    {
        self.rows[pivot] as usize
    }

    /// The column at a place of the order.
    #[inline(always)]
    pub fn column_at(&self, place: usize) -> usize
        requires { place < length self.now.order }
        ensures { result ≡ at self.now.order place }
    {
        self.order[place] as usize
    }

    /// An inactive column, by its number among them.
    #[inline(always)]
    pub fn inactive_column(&self, f: usize) -> usize
        requires { length self.now.rows + f < length self.now.order }
        ensures { result ≡ at self.now.order (length self.now.rows + f) }
    {
        self.order[self.rows.len() + f] as usize
    }

    /// The inactive columns, in their order.
    pub fn inactive_columns(&self) -> &[u16]
        requires { length self.now.rows ≤ length self.now.order }
        ensures { result.now ≡ drop (length self.now.rows) self.now.order }
    {
        &self.order[self.rows.len()..]
    }

    /// The place of a column in the order.
    #[inline(always)]
    pub fn place_of(&self, column: usize) -> usize
        requires { column < length self.now.places }
        ensures { result ≡ at self.now.places column }
    {
        self.places[column] as usize
    }

    /// The rows of the pivots.
    pub fn rows(&self) -> &[u32]
        ensures { result.now ≡ self.now.rows }
    {
        self.rows.as_slice()
    }

    /// The places of the columns.
    pub fn places(&self) -> &[u16]
        ensures { result.now ≡ self.now.places }
    {
        self.places.as_slice()
    }
}

/// Chooses pivots among rows of bits, of which the dense columns are inactive from the start (RFC
/// 6330, section 5.4.2.2): again and again a row with least active columns has one of them as its
/// pivot, and the others are inactive.
pub fn peel(alloc: Global, system: &System) -> Result<Peeling, AllocError>
    ensures peeled { IfOk result (IsPeeled system.now.width system.now.ones) }
    ensures fewest { IfOk result (λ peeling. TakesFewest system.now.ones system.now.lt_columns peeling.rows) }
    ensures columns { IfOk result (λ peeling. TakesColumnsLeft system.now.ones system.now.lt_columns peeling.rows peeling.order) }
{
    let mut peeler = Peeler::new(alloc, system)?;
    let rows = peeler.choose_rows(alloc)?;
    let (order, places) = peeler.into_columns();
    Ok(Peeling {
        rows,
        order,
        places,
    })
}
