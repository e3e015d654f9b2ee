//! Internal symbol ids.
ghost use Rattle.std.specs.Prelude.{◌≡◌, ◌-◌, ◌^◌, ◌<◌, ◌≤◌, IfOk};
ghost use Rattle.std.specs.List.{range_with_len};
ghost use Rattle.rq_standard.specs.Equations.{internal_id};

use rq_tables::systematic_constants::CheckedRow;
use std::alloc::{AllocError, Global};

/// The internal symbol id of an encoding symbol id, in a block of `source_symbols` symbols (K):
/// padding symbols have no encoding symbol id (RFC 6330, section 5.3.1).
pub(crate) fn internal_symbol_id(row: &CheckedRow, source_symbols: u32, esi: u32) -> u32
    requires fits { source_symbols ≤ row.now.numbers.extended_symbols }
    requires esi { esi < 2 ^ 24 }
    ensures { result ≡ internal_id row.now.numbers source_symbols esi }
{
    if esi < source_symbols {
        esi
    } else {
        esi + (row.numbers.extended_symbols - source_symbols)
    }
}

/// The internal symbol ids of the padding: those from `source_symbols` on below K', in a list with
/// room for `count`.
pub(crate) fn padding_ids(
    alloc: Global,
    row: &CheckedRow,
    source_symbols: u32,
    count: usize,
) -> Result<Vec<u32>, AllocError>
    requires { source_symbols ≤ row.now.numbers.extended_symbols }
    ensures { IfOk result (λ ids. ids.items ≡ range_with_len source_symbols (row.now.numbers.extended_symbols - source_symbols)) }
{
    let mut ids = Vec::with_capacity(alloc, count)?;
    for id in source_symbols..row.numbers.extended_symbols {
        ids.push(id)?;
    }
    Ok(ids)
}
