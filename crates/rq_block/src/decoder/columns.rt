//! Columns of octets that show that a block isn't determined.
ghost use Rattle.std.specs.Prelude.{◌≡◌, ◌↔◌, ◌^◌, ◌<◌, ◌≤◌, [], ◌∷◌, length, map, Some, IsTrue, IfOk};
ghost use Rattle.std.specs.Option.{ForSome};
ghost use Rattle.rq_algebra.specs.Systems.{at, dot};
ghost use Rattle.rq_bytes.specs.SymbolSlab.{slab_of};
ghost use Rattle.rq_standard.specs.Equations.{symbol_coefficient};
ghost use Rattle.rq_standard.specs.OctetField.{octets};
ghost use Rattle.rq_standard.specs.TableRows.{intermediate_symbols};
ghost use Rattle.rq_block.specs.Known.{SolvesEsi};

use crate::ids::internal_symbol_id;
use rq_base::indices::Indices;
use rq_bytes::octets;
use rq_bytes::symbol_slab::SymbolSlab;
use rq_parts::memory::want_of_memory;
use rq_tables::systematic_constants::CheckedRow;
use std::alloc::{AllocError, Global};

/// Lets a column go that doesn't solve the equation of an encoding symbol id with zero as its value.
pub(crate) fn keep_where_it_solves(
    row: &CheckedRow,
    source_symbols: u32,
    column: &mut Option<Vec<u8>>,
    esi: u32,
)
    requires fits { source_symbols ≤ row.now.numbers.extended_symbols }
    requires count { ForSome column.old (λ octets. length octets.items ≡ intermediate_symbols row.now.numbers) }
    requires few { esi < 2 ^ 24 }
    ensures solves { ForSome column.new (λ octets. SolvesEsi row.now.numbers source_symbols esi octets.items) }
    ensures same { ForSome column.new (λ octets. column.old ≡ Some octets) }
    ensures kept { ForSome column.old (λ octets. SolvesEsi row.now.numbers source_symbols esi octets.items → column.new ≡ Some octets) }
{
    let Some(octets) = column.as_deref() else {
        return;
    };
    let id = internal_symbol_id(row, source_symbols, esi);
    if !solves_id(row, octets, id) {
        *column = None;
    }
}

// Whether a column solves the equation of an internal symbol id with zero as its value: its octets
// at the indices of the id add up to zero.
fn solves_id(row: &CheckedRow, column: &[u8], internal_symbol_id: u32) -> bool
    requires count { length column.now ≡ intermediate_symbols row.now.numbers }
    ensures { IsTrue result ↔ dot octets (intermediate_symbols row.now.numbers) (symbol_coefficient row.now.numbers internal_symbol_id) (at column.now) ≡ 0 }
{
    // For the proof: the octets are elements of the field.
    octets::are_octets(column);
    let mut indices = Indices::of_id(row, internal_symbol_id);
    let mut sum = 0;
    while let Some(index) = indices.next_index() {
        sum ^= column[index];
    }
    sum == 0
}

/// Symbols of one octet each.
pub(crate) fn octet_symbols(alloc: Global, column: &[u8]) -> Result<SymbolSlab, AllocError>
    ensures { IfOk result (λ slab. slab ≡ slab_of 1 (map (λ octet. octet ∷ []) column.now)) }
{
    let mut symbols = SymbolSlab::with_zeros(alloc, column.len(), 1).map_err(want_of_memory)?;
    symbols.copy_block_from(0, column);
    Ok(symbols)
}
