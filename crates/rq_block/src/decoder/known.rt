//! The equations that the decoder of a block knows.
ghost use Rattle.std.specs.Prelude.{◌≡◌, ℕ, ◌+◌, ◌^◌, ◌<◌, ◌≤◌, true, length, IfOk};
ghost use Rattle.std.specs.Option.{ForSome};
ghost use Rattle.rq_bytes.specs.SymbolSlab.{slab_of};
ghost use Rattle.rq_standard.specs.Headline.{known_ids};
ghost use Rattle.rq_standard.specs.Equations.{equation_count};
ghost use Rattle.rq_standard.specs.IdLists.{IsListOf};
ghost use Rattle.rq_block.specs.Known.{known_list, values_after};
ghost use Rattle.rq_block.specs.Payloads.{payload_of, has_payload};

use crate::buffer::symbol_buffer;
use crate::ids::{internal_symbol_id, padding_ids};
use rq_bytes::symbol_slab::SymbolSlab;
use rq_tables::systematic_constants::CheckedRow;
use std::alloc::{AllocError, Global};
use std::collections::BTreeMap;

/// The internal symbol ids that are known: those of the padding, and then of what was received.
pub(crate) fn known_symbol_ids(
    alloc: Global,
    row: &CheckedRow,
    source_symbols: u32,
    received: &BTreeMap<u32, Vec<u8>>,
) -> Result<Vec<u32>, AllocError>
    requires fits { source_symbols ≤ row.now.numbers.extended_symbols }
    requires few { (e : ℕ) → has_payload received.now e ≡ true → e < 2 ^ 24 }
    ensures ids { IfOk result (λ ids. ids.items ≡ known_list row.now.numbers source_symbols received.now.entries) }
    ensures listed { IfOk result (λ ids. IsListOf (known_ids row.now.numbers source_symbols (has_payload received.now)) ids.items) }
    ensures few { IfOk result (λ ids. equation_count row.now.numbers ids.items < 2 ^ 31) }
{
    let count = (row.numbers.extended_symbols - source_symbols) as usize + received.len();
    let mut ids = padding_ids(alloc, row, source_symbols, count)?;
    for esi in received.keys() {
        ids.push(internal_symbol_id(row, source_symbols, *esi))?;
    }
    Ok(ids)
}

/// The values of the equations: `zeros` zeros, for those of LDPC and HDPC and for the padding, and
/// then what was received. There is room for the `source_symbols` symbols (K) of the block too.
pub(crate) fn known_symbol_values(
    alloc: Global,
    zeros: usize,
    source_symbols: u32,
    size: usize,
    received: &BTreeMap<u32, Vec<u8>>,
) -> Result<SymbolSlab, AllocError>
    requires few_symbols { zeros + source_symbols ≤ 2 ^ 25 }
    requires positive { 0 < size }
    requires small { size < 65536 }
    requires few { (e : ℕ) → has_payload received.now e ≡ true → e < 2 ^ 24 }
    requires sized { (e : ℕ) → ForSome (payload_of received.now e) (λ payload. length payload ≡ size) }
    ensures { IfOk result (λ values. values ≡ slab_of size (values_after zeros size received.now.entries)) }
{
    let count = zeros + received.len();
    let mut bytes = symbol_buffer(alloc, count, source_symbols, size)?;
    bytes.resize(zeros * size, 0)?;
    for payload in received.values() {
        bytes.extend_from_slice(payload.as_slice())?;
    }
    Ok(SymbolSlab::from_bytes(bytes, count, size))
}
