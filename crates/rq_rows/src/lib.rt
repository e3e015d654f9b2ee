//! The rows of RFC 6330, section 5.6, that follow the built-in ones, and the table of all.
#![tactic(auto)]

ghost use Rattle.std.specs.Prelude.{◌≡◌, Ok};
ghost use Rattle.rq_bytes.specs.Refusals.{IsAnswer};
ghost use Rattle.rq_standard.specs.TableRows.{greatest_size};
ghost use Rattle.rq_tables.specs.SystematicTable.{wanted_table};
ghost use Rattle.rq_rows.specs.FullTable.{full_rows};

mod further_rows;

pub use further_rows::FURTHER_ROWS;
use rq_bytes::error::Error;
use rq_tables::systematic_constants::SystematicTable;
use std::alloc::Global;

/// A law: none of these rows fails a check, and the greatest is that of 56403 symbols. So
/// [`full_table`] refuses nothing but want of memory.
pub fn no_row_fails()
    ensures table { wanted_table FURTHER_ROWS ≡ Ok full_rows }
    ensures greatest { greatest_size full_rows ≡ 56403 }
{}

/// The table of all 477 rows, for blocks of up to 56403 symbols (RFC 6330, 5.6).
pub fn full_table(alloc: Global) -> Result<SystematicTable, Error>
    ensures { IsAnswer (λ table. table) result (wanted_table FURTHER_ROWS) }
{
    SystematicTable::with_passing_rows(alloc, &FURTHER_ROWS)
}

#[cfg(test)]
mod tests;
