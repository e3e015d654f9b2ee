//! `HdpcRows`: HDPC rows as multiples of their sum beside their own octets, while they are cleared
//! together in the first phase (RFC 6330, section 5.4.2.2).
ghost use Rattle.std.specs.Prelude.{◌≡◌, ℕ, ◌%◌, ◌^◌, ◌<◌, ◌≤◌, length, IfOk};
ghost use Rattle.rq_algebra.specs.Steps.{AddsRow, ScalesRow};
ghost use Rattle.rq_algebra.specs.Systems.{at};
ghost use Rattle.rq_parts.specs.DenseOctetMatrix.{entry_of, HasOctets};
ghost use Rattle.rq_standard.specs.OctetField.{octets};
ghost use Rattle.rq_elimination.specs.HdpcRows.{octet_in, AreInColumn};

use crate::entries::whole_vectors;
use rq_bytes::octet::Octet;
use rq_bytes::octets::are_octets;
use rq_bytes::row_multiples::add_row_multiple;
use rq_parts::octet_matrix::DenseOctetMatrix;
use std::alloc::{AllocError, Global};
use std::marker::Model;

/// What HDPC rows have in the columns that weren't worked on yet: of their sum, which the first row
/// of a table has, each row has a multiple, and each but the first has its own octets besides. So a
/// step among the rows changes one factor, and not a row of as many octets as there are columns.
#[derive(Drop)]
pub struct HdpcRows {
    table: DenseOctetMatrix,
    factors: Vec<u8>,
}

impl Model for HdpcRows {
    ghost use Rattle.rq_elimination.specs.HdpcRows.{HdpcTable, IsHdpcTable};

    ghost Value = { HdpcTable };

    ghost view = { λ hdpc. record { table = hdpc.table; factors = hdpc.factors.items } };

    ghost invariant = { λ hdpc. IsHdpcTable (record { table = hdpc.table; factors = hdpc.factors.items }) };
}

impl HdpcRows {
    /// The rows of a table, the first of which is the sum of what the rows were.
    pub fn new(alloc: Global, table: DenseOctetMatrix) -> Result<HdpcRows, AllocError>
        requires some { 0 < length table.rows }
        requires few { length table.rows < 2 ^ 63 }
        requires octets { HasOctets table }
        ensures table { IfOk result (λ hdpc. hdpc.table ≡ table) }
        ensures octets { IfOk result (λ hdpc. (i k : ℕ) → i < length table.rows → k < table.width → octet_in hdpc i k ≡ entry_of table i k) }
    {
        let mut factors = vec![in alloc; 0; whole_vectors(table.height())]?;
        factors[0] = 1;
        Ok(HdpcRows { table, factors })
    }

    /// The number of rows.
    pub fn height(&self) -> usize
        ensures height { result ≡ length self.now.table.rows }
        ensures lanes { result ≤ length self.now.factors }
        ensures octets { HasOctets self.now.table }
    {
        self.table.height()
    }

    /// What a row has in a column.
    pub fn get(&self, row: usize, column: usize) -> Octet
        requires row { row < length self.now.table.rows }
        requires column { column < self.now.table.width }
        ensures { result ≡ octet_in self.now row column }
    {
        let own = if row == 0 {
            Octet::zero()
        } else {
            self.table.get(row, column)
        };
        own + Octet::new(self.factors[row]) * self.table.get(0, column)
    }

    /// How many octets a column is read into: one a row, and some more, which fill whole vectors.
    pub fn lanes(&self) -> usize
        ensures { result ≡ length self.now.factors }
    {
        self.factors.len()
    }

    /// Reads what each row but the first has in a column.
    #[inline(always)]
    pub fn read_column(&self, column: usize, column_octets: &mut [u8])
        requires some { 0 < length self.now.table.rows }
        requires column { column < self.now.table.width }
        requires lanes { length column_octets.old ≡ length self.now.factors }
        ensures in_column { AreInColumn self.now column 1 column_octets.new }
        ensures lanes { length column_octets.new ≡ length column_octets.old }
        ensures count { length self.now.table.rows ≤ length column_octets.new }
        ensures whole { length column_octets.new % 32 ≡ 0 }
        ensures octets { HasOctets self.now.table }
    {
        copy_column(&self.table, column, column_octets);
        let sum = self.table.get(0, column);
        let factors = self.factors.as_slice();
        are_octets(factors);
        add_row_multiple(column_octets, factors, &sum);
    }

    /// Adds a multiple of the first row to another one.
    pub fn add_first(&mut self, dest: usize, scalar: u8)
        requires other { 0 < dest }
        requires dest { dest < length self.old.table.rows }
        ensures table { self.new.table ≡ self.old.table }
        ensures lanes { length self.new.factors ≡ length self.old.factors }
        ensures sum { AddsRow octets (length self.old.table.rows) self.old.table.width dest 0 scalar (octet_in self.old) (octet_in self.new) }
    {
        self.factors[dest] ^= self.first_multiple(scalar);
    }

    /// Multiplies the first row.
    pub fn multiply_first(&mut self, scalar: u8)
        requires { 0 < length self.old.table.rows }
        ensures table { self.new.table ≡ self.old.table }
        ensures lanes { length self.new.factors ≡ length self.old.factors }
        ensures multiple { ScalesRow octets (length self.old.table.rows) self.old.table.width 0 scalar (octet_in self.old) (octet_in self.new) }
    {
        self.factors[0] = self.first_multiple(scalar);
    }

    // The first row's factor, multiplied.
    fn first_multiple(&self, scalar: u8) -> u8
        requires { 0 < length self.now.table.rows }
        ensures { result ≡ octets.mul scalar (at self.now.factors 0) }
    {
        (Octet::new(scalar) * Octet::new(self.factors[0])).byte()
    }
}

// Copies what the rows of a table but the first have in a column.
#[inline(always)]
fn copy_column(table: &DenseOctetMatrix, column: usize, octets: &mut [u8])
    requires column { column < table.now.width }
    requires room { length table.now.rows ≤ length octets.old }
    ensures copied { (i : ℕ) → 0 < i → i < length table.now.rows → at octets.new i ≡ entry_of table.now i column }
    ensures len { length octets.new ≡ length octets.old }
{
    for row in 1..table.height() {
        octets[row] = table.get(row, column).byte();
    }
}
