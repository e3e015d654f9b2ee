//! The table of systematic indices and parameters (RFC 6330, section 5.6).
ghost use Rattle.std.specs.Prelude.{◌≡◌, ◌≤◌, ◌+◌, ◌++◌, ◌↔◌, List, length, vec_len, Ok, IsOk, IfOk};
ghost use Rattle.rq_bytes.specs.Refusals.{IsAnswer};
ghost use Rattle.rq_standard.specs.declared.row.TableRow.{TableRow};
ghost use Rattle.rq_standard.specs.TableRows.{IsTable, IsChecked, greatest_size, row_of, rows_from, built_in_rows, first_size, intermediate_symbols, pi_symbols};
ghost use Rattle.rq_standard.specs.Parameters.{greatest_within};
ghost use Rattle.rq_tables.specs.SystematicTable.{wanted_size, wanted_table, wanted_rows};

pub use crate::checked_row::CheckedRow;
use crate::checks::{first_failing_check, row_at};
use rq_bytes::error::Error;
pub use rq_standard::p1_table::P1_TABLE;
use rq_standard::row::TableRow;
pub use rq_standard::systematic_indices::{
    MAX_SOURCE_SYMBOLS_PER_BLOCK, SYSTEMATIC_INDICES_AND_PARAMETERS,
};
use std::alloc::{AllocError, Global};
use std::marker::Model;

/// The least size of a source block, in symbols, that holds `source_symbols` symbols: the number K'
/// of its source and padding symbols (RFC 6330, section 5.3.1).
///
/// Refuses [`Error::TooManySymbols`] past 56403 symbols.
pub fn extended_source_block_symbols(source_symbols: u32) -> Result<u32, Error>
    ensures size { result ≡ wanted_size source_symbols }
    ensures limit { IsOk result ↔ (source_symbols ≤ MAX_SOURCE_SYMBOLS_PER_BLOCK) }
{
    first_size(source_symbols, &P1_TABLE).ok_or(Error::TooManySymbols)
}

// The first size that is at least this number.
fn first_size(least: u32, sizes: &[(u32, u32)]) -> Option<u32>
    ensures { result ≡ first_size least sizes.now }
{
    for (size, _) in sizes {
        if least <= *size {
            return Some(*size);
        }
    }
    None
}

/// A table of rows that pass the seven checks of a row, the 74 built-in ones first (RFC 6330,
/// section 5.6). A row has the numbers of blocks of a size. Contracts see the table as the list of
/// its rows.
///
/// ```
/// let table = SystematicTable::built_in(alloc)?;
/// let larger = SystematicTable::with_rows(alloc, &[(511, 800, 37, 10, 523)])?; // (K', J, S, H, W)
/// Ok((table.greatest(), larger.greatest())) // (497, 511)
/// ```
#[derive(Debug, Drop)]
pub struct SystematicTable {
    rows: Vec<TableRow>,
}

impl Model for SystematicTable {
    ghost Value = { List TableRow };

    ghost view = { λ table. table.rows.items };

    ghost invariant = { λ table. IsTable table.rows.items };
}

impl SystematicTable {
    /// The table of the 74 built-in rows, for blocks of up to 497 symbols.
    pub fn built_in(alloc: Global) -> Result<SystematicTable, Error>
        ensures { IsAnswer (λ table. table) result (Ok built_in_rows) }
    {
        let mut rows = Vec::with_capacity(alloc, SYSTEMATIC_INDICES_AND_PARAMETERS.len())?;
        push_rows(&mut rows, &SYSTEMATIC_INDICES_AND_PARAMETERS)?;
        Ok(SystematicTable { rows })
    }

    /// The table of the built-in rows and further ones, handed in as (K', J, S, H, W).
    ///
    /// Refuses `RowRefused` with the place, from 0, of the first row that fails a check, and the
    /// number of its first failing check:
    /// 1. K' is the size in `P1_TABLE` that follows the size of the row before; P1 is the one
    ///    beside it.
    /// 2. S is odd.
    /// 3. B = W - S is at least 1, at most S*(S-1) and at most K'.
    /// 4. H is at least 2, at most K' and at most 255.
    /// 5. P = L - W is at least 3, at most P1 and at least half of P1.
    /// 6. L = K' + S + H is below 65536.
    /// 7. J is at most 1000.
    pub fn with_rows(
        alloc: Global,
        rows: &[(u32, u32, u32, u32, u32)],
    ) -> Result<SystematicTable, Error>
        ensures { IsAnswer (λ table. table) result (wanted_table rows.now) }
    {
        check_rows(rows)?;
        SystematicTable::with_passing_rows(alloc, rows)
    }

    /// The table of the built-in rows and further ones, none of which fails a check: they aren't tested
    /// again. Not in the Rust crate.
    pub fn with_passing_rows(
        alloc: Global,
        rows: &[(u32, u32, u32, u32, u32)],
    ) -> Result<SystematicTable, Error>
        requires { wanted_rows rows.now ≡ Ok tt }
        ensures { IsAnswer (λ table. table) result (Ok (built_in_rows ++ rows_from 74 rows.now)) }
    {
        let count = SYSTEMATIC_INDICES_AND_PARAMETERS.len() + rows.len();
        let mut all = Vec::with_capacity(alloc, count)?;
        push_rows(&mut all, &SYSTEMATIC_INDICES_AND_PARAMETERS)?;
        push_rows(&mut all, rows)?;
        Ok(SystematicTable { rows: all })
    }

    /// The greatest number of source symbols that a block can have: 497 with the built-in rows.
    pub fn greatest(&self) -> u32
        ensures size { result ≡ greatest_size self.now }
        ensures checked { IsTable self.now }
    {
        match self.rows.last() {
            Some(row) => row.extended_symbols,
            None => 0,
        }
    }

    /// The greatest number of source symbols of a block that is at most `limit`, or 0 where no row
    /// is that small.
    pub fn greatest_within(&self, limit: u64) -> u32
        ensures { result ≡ greatest_within limit self.now }
    {
        let mut greatest: u32 = 0;
        for row in &self.rows {
            if u64::from(row.extended_symbols) <= limit {
                greatest = greatest.max(row.extended_symbols);
            }
        }
        greatest
    }

    /// The row of a block of `source_symbols` symbols: the first whose size is at least that. A
    /// block of no symbols has the row of 10.
    pub fn row(&self, source_symbols: u32) -> TableRow
        requires { source_symbols ≤ greatest_size self.now }
        ensures row { result ≡ row_of self.now source_symbols }
        ensures checked { IsChecked result }
        ensures holds { source_symbols ≤ result.extended_symbols }
    {
        for row in &self.rows {
            if source_symbols <= row.extended_symbols {
                return *row;
            }
        }
        unreachable!()
    }

    /// The row of a block of `source_symbols` symbols, as [`row`](Self::row) answers it, with what its
    /// checks say of it. Not in the Rust crate.
    pub fn checked_row(&self, source_symbols: u32) -> CheckedRow
        requires { source_symbols ≤ greatest_size self.now }
        ensures row { result.numbers ≡ row_of self.now source_symbols }
        ensures holds { source_symbols ≤ result.numbers.extended_symbols }
    {
        CheckedRow {
            numbers: self.row(source_symbols),
        }
    }

    /// J, the systematic index of a block of `source_symbols` symbols (RFC 6330, section 5.6). At
    /// most [`greatest`](Self::greatest) symbols are asked for.
    pub fn systematic_index(&self, source_symbols: u32) -> u32
        requires { source_symbols ≤ greatest_size self.now }
        ensures { result ≡ (row_of self.now source_symbols).systematic_index }
    {
        self.row(source_symbols).systematic_index
    }

    /// H, the number of HDPC symbols of a block of `source_symbols` symbols (RFC 6330, section
    /// 5.6). At most [`greatest`](Self::greatest) symbols are asked for.
    pub fn num_hdpc_symbols(&self, source_symbols: u32) -> u32
        requires { source_symbols ≤ greatest_size self.now }
        ensures { result ≡ (row_of self.now source_symbols).hdpc_symbols }
    {
        self.row(source_symbols).hdpc_symbols
    }

    /// S, the number of LDPC symbols of a block of `source_symbols` symbols (RFC 6330, section
    /// 5.6). At most [`greatest`](Self::greatest) symbols are asked for.
    pub fn num_ldpc_symbols(&self, source_symbols: u32) -> u32
        requires { source_symbols ≤ greatest_size self.now }
        ensures { result ≡ (row_of self.now source_symbols).ldpc_symbols }
    {
        self.row(source_symbols).ldpc_symbols
    }

    /// W, the number of LT symbols of a block of `source_symbols` symbols (RFC 6330, section 5.6).
    /// At most [`greatest`](Self::greatest) symbols are asked for.
    pub fn num_lt_symbols(&self, source_symbols: u32) -> u32
        requires { source_symbols ≤ greatest_size self.now }
        ensures { result ≡ (row_of self.now source_symbols).lt_symbols }
    {
        self.row(source_symbols).lt_symbols
    }

    /// L, the number of intermediate symbols of a block of `source_symbols` symbols (RFC 6330,
    /// section 5.3.3.3). At most [`greatest`](Self::greatest) symbols are asked for.
    pub fn num_intermediate_symbols(&self, source_symbols: u32) -> u32
        requires { source_symbols ≤ greatest_size self.now }
        ensures { result ≡ intermediate_symbols (row_of self.now source_symbols) }
    {
        self.row(source_symbols).intermediate_symbols() as u32
    }

    /// P, the number of PI symbols of a block of `source_symbols` symbols (RFC 6330, section
    /// 5.3.3.3). At most [`greatest`](Self::greatest) symbols are asked for.
    pub fn num_pi_symbols(&self, source_symbols: u32) -> u32
        requires { source_symbols ≤ greatest_size self.now }
        ensures { result ≡ pi_symbols (row_of self.now source_symbols) }
    {
        self.row(source_symbols).pi_symbols() as u32
    }

    /// P1 of a block of `source_symbols` symbols: the number beside K' in `P1_TABLE`, the smallest
    /// prime from P on (RFC 6330, section 5.3.3.3). At most [`greatest`](Self::greatest) symbols
    /// are asked for.
    pub fn calculate_p1(&self, source_symbols: u32) -> u32
        requires { source_symbols ≤ greatest_size self.now }
        ensures { result ≡ (row_of self.now source_symbols).p1 }
    {
        self.row(source_symbols).p1
    }
}

impl Clone for SystematicTable {
    ghost is_clone = { λ table copy. copy ≡ table };

    fn clone(&self) -> Result<SystematicTable, AllocError> {
        let rows = Vec::from_slice(*self.rows.allocator(), &self.rows)?;
        Ok(SystematicTable { rows })
    }
}

// Tests rows that are to follow the built-in ones.
fn check_rows(rows: &[(u32, u32, u32, u32, u32)]) -> Result<(), Error>
    ensures { result ≡ wanted_rows rows.now }
{
    for (place, numbers) in rows.iter().enumerate() {
        let place_in_table = SYSTEMATIC_INDICES_AND_PARAMETERS.len() + place;
        let row = row_at(place_in_table, numbers);
        if let Some(check) = first_failing_check(place_in_table, &row) {
            return Err(Error::RowRefused { place, check });
        }
    }
    Ok(())
}

// Appends the rows that numbers make at the places that follow.
fn push_rows(
    rows: &mut Vec<TableRow>,
    numbers: &[(u32, u32, u32, u32, u32)],
) -> Result<(), AllocError>
    ensures rows { IfOk result (λ _. rows.new.items ≡ rows.old.items ++ rows_from (vec_len rows.old) numbers.now) }
    ensures len { IfOk result (λ _. vec_len rows.new ≡ vec_len rows.old + length numbers.now) }
{
    for numbers_of_row in numbers {
        rows.push(row_at(rows.len(), numbers_of_row))?;
    }
    Ok(())
}
