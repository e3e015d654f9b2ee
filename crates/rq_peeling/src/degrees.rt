//! `RowDegrees`: how many active columns each row has, the least of which is r of RFC 6330 (section
//! 5.4.2.2), and which row to take next.
ghost use Rattle.std.specs.Prelude.{◌≡◌, ◌+◌, ◌-◌, ◌^◌, ◌<◌, ◌≤◌, [], All, Contains, length, take, IfSome, IfNone, IfOk, OnOk};
ghost use Rattle.rq_algebra.specs.Systems.{at};
ghost use Rattle.rq_peeling.specs.RowDegrees.{AllHaveNone, AreListed, HasLeastDegree, LowersRows, MayAdd, NoneHas};

use std::alloc::{AllocError, Global};
use std::marker::Model;

/// How many active columns each row has, the rows that came to have one alone, and those that came
/// to have two, the first of which were asked for. This says which row to take next. Contracts see
/// the degrees.
#[derive(Drop)]
pub struct RowDegrees {
    // Rows are asked in any order: of narrow degrees more stay in a near cache.
    degrees: Vec<u16>,
    singles: RowList,
    pairs: RowList,
    asked_pairs: usize,
}

impl Model for RowDegrees {
    ghost use Rattle.std.specs.Prelude.{ℕ, List};
    ghost use Rattle.rq_peeling.specs.RowDegrees.{AreListed};

    ghost Value = { List ℕ };

    ghost view = { λ d. d.degrees.items };

    ghost invariant = { λ d. AreListed d.degrees.items d.singles.rows d.pairs.rows };
}

impl RowDegrees {
    /// These degrees, one a row.
    pub fn new(alloc: Global, degrees: Vec<u16>) -> Result<RowDegrees, AllocError>
        requires few_rows { length degrees.items < 2 ^ 31 }
        ensures { IfOk result (λ made. made ≡ degrees.items) }
    {
        // Each row is listed once at most, and a column has at most all rows: this is always enough.
        let room = 2 * degrees.len();
        let mut singles = RowList::with_room(alloc, room)?;
        let mut pairs = RowList::with_room(alloc, room)?;
        list_rows(degrees.as_slice(), &mut singles, &mut pairs);
        Ok(RowDegrees {
            degrees,
            singles,
            pairs,
            asked_pairs: 0,
        })
    }

    /// Each row has one active column less for each time that it is among these.
    pub fn lower(&mut self, rows: &[u32]) -> Result<(), AllocError>
        requires { All (λ row. row < length self.old) rows.now }
        ensures rows { length self.new ≡ length self.old }
        ensures lowered { OnOk result (LowersRows rows.now self.old self.new) }
    {
        self.singles.make_room(rows.len())?;
        self.pairs.make_room(rows.len())?;
        lower_rows(
            rows,
            self.degrees.as_mut_slice(),
            &mut self.singles,
            &mut self.pairs,
        );
        Ok(())
    }

    /// How many active columns a row has.
    pub fn degree(&self, row: usize) -> u16
        requires { row < length self.now }
        ensures { result ≡ at self.now row }
    {
        self.degrees[row]
    }

    /// A row that has one active column. It stays listed until it has none.
    pub fn next_single(&mut self) -> Option<usize>
        ensures row { IfSome result (λ row. (row < length self.old) × (at self.old row ≡ 1)) }
        ensures none { IfNone result (NoneHas 1 self.old) }
        ensures degrees { self.new ≡ self.old }
    {
        while let Some(row) = self.singles.as_slice().last() {
            let row = *row as usize;
            if self.degrees[row] == 1 {
                return Some(row);
            }
            self.singles.drop_last();
        }
        None
    }

    /// A row that came to have two active columns and still has them. Each is answered once.
    pub fn next_pair(&mut self) -> Option<usize>
        ensures row { IfSome result (λ row. row < length self.old) }
        ensures degrees { self.new ≡ self.old }
    {
        while let Some(row) = self.pairs.as_slice().get(self.asked_pairs) {
            let row = *row as usize;
            self.asked_pairs += 1;
            if self.degrees[row] == 2 {
                return Some(row);
            }
        }
        None
    }

    /// A row of least positive degree, where no row has degree 1.
    pub fn least(&self) -> Option<usize>
        requires { NoneHas 1 self.now }
        ensures least { IfSome result (HasLeastDegree self.now) }
        ensures none { IfNone result (AllHaveNone self.now) }
    {
        let mut row_found = 0;
        let mut least = 0;
        for row in 0..self.degrees.len() {
            let degree = self.degrees[row];
            if degree == 2 {
                return Some(row);
            }
            if degree != 0 && (least == 0 || degree < least) {
                row_found = row;
                least = degree;
            }
        }
        if least == 0 { None } else { Some(row_found) }
    }
}

// Lists the rows that have one active column, and those that have two.
fn list_rows(degrees: &[u16], singles: &mut RowList, pairs: &mut RowList)
    requires few_rows { length degrees.now < 2 ^ 31 }
    requires no_singles { singles.old.rows ≡ [] }
    requires no_pairs { pairs.old.rows ≡ [] }
    requires single_room { length degrees.now ≤ singles.old.room }
    requires pair_room { length degrees.now ≤ pairs.old.room }
    ensures { AreListed degrees.now singles.new.rows pairs.new.rows }
{
    for row in 0..degrees.len() {
        let degree = degrees[row];
        singles.push_of_degree(1, row as u32, degree);
        pairs.push_of_degree(2, row as u32, degree);
    }
}

// Lowers the degree of each row by one, and lists the rows that come to have one active column behind
// others, and those that come to have two.
fn lower_rows(rows: &[u32], degrees: &mut [u16], singles: &mut RowList, pairs: &mut RowList)
    requires rows { All (λ row. row < length degrees.old) rows.now }
    requires single_room { length rows.now ≤ singles.old.room }
    requires pair_room { length rows.now ≤ pairs.old.room }
    requires listed { AreListed degrees.old singles.old.rows pairs.old.rows }
    ensures degrees { length degrees.new ≡ length degrees.old }
    ensures lowered { LowersRows rows.now degrees.old degrees.new }
    ensures listed { AreListed degrees.new singles.new.rows pairs.new.rows }
{
    for row in rows {
        let degree = degrees[*row as usize].saturating_sub(1);
        degrees[*row as usize] = degree;
        singles.push_of_degree(1, *row, degree);
        pairs.push_of_degree(2, *row, degree);
    }
}

// Rows that are listed one behind the other. Contracts see these, and for how many more there is room.
#[derive(Drop)]
struct RowList {
    // The first `count` are listed, and behind them is room for more.
    rows: Vec<u32>,
    count: usize,
}

impl Model for RowList {
    ghost use Rattle.std.specs.Prelude.{◌-◌, ◌≤◌, length, take};
    ghost use Rattle.rq_peeling.specs.RowDegrees.{ListedRows};

    ghost Value = { ListedRows };

    ghost view = { λ l. record { rows = take l.count l.rows.items; room = length l.rows.items - l.count } };

    ghost invariant = { λ l. l.count ≤ length l.rows.items };
}

impl RowList {
    // No rows, and room for `room` of them.
    fn with_room(alloc: Global, room: usize) -> Result<RowList, AllocError>
        ensures rows { IfOk result (λ made. made.rows ≡ []) }
        ensures room { IfOk result (λ made. made.room ≡ room) }
    {
        Ok(RowList {
            rows: vec![in alloc; 0; room]?,
            count: 0,
        })
    }

    // The rows that are listed.
    #[inline(always)]
    fn as_slice(&self) -> &[u32]
        ensures { result.now ≡ self.now.rows }
    {
        &self.rows[..self.count]
    }

    // Makes room for `more` rows behind the listed ones, where there is less.
    fn make_room(&mut self, more: usize) -> Result<(), AllocError>
        requires { more < 2 ^ 62 }
        ensures rows { self.new.rows ≡ self.old.rows }
        ensures room { OnOk result (more ≤ self.new.room) }
    {
        let needed = self.count + more;
        if self.rows.len() < needed {
            self.rows.resize(needed, 0)?;
        }
        Ok(())
    }

    // Lists a row behind the others if it has the wanted degree. No branch could foresee that, so
    // there is none: the row is written in any case, and where it isn't listed the next one is
    // written over it.
    #[inline(always)]
    fn push_of_degree(&mut self, wanted: u16, row: u32, degree: u16)
        requires { 0 < self.old.room }
        ensures added { MayAdd row self.old.rows self.new.rows }
        ensures there { degree ≡ wanted → Contains self.new.rows row }
        ensures room { self.old.room ≤ self.new.room + 1 }
    {
        self.rows[self.count] = row;
        self.count += (degree == wanted) as usize;
    }

    // The last row is listed no more.
    #[inline(always)]
    fn drop_last(&mut self)
        requires { 0 < length self.old.rows }
        ensures { self.new.rows ≡ take (length self.old.rows - 1) self.old.rows }
    {
        self.count -= 1;
    }
}
