//! The table that all calls work over.
ghost use Rattle.std.specs.Prelude.{◌≡◌, IfOk, IfErr};
ghost use Rattle.rq_rows.specs.FullTable.{full_rows};

use raptorq::error::Error;
use raptorq::systematic_constants::SystematicTable;
use rq_rows::{full_table, no_row_fails};
use std::alloc::Global;

/// The table of all rows of RFC 6330, 5.6.
pub(crate) fn table(alloc: Global) -> Result<SystematicTable, Error>
    ensures rows { IfOk result (λ table. table ≡ full_rows) }
    ensures memory { IfErr result (λ e. e ≡ Error.OutOfMemory) }
{
    // For the proof: nothing but memory is refused.
    no_row_fails();
    full_table(alloc)
}
