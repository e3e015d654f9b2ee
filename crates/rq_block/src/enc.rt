//! The sum at the indices of an internal symbol id.
ghost use Rattle.std.specs.Prelude.{◌≡◌, ◌<◌, ◌≤◌, [], ◌++◌, length, replicate, take, IfOk};
ghost use Rattle.rq_bytes.specs.SymbolSlab.{symbol_in};
ghost use Rattle.rq_standard.specs.Equations.{tuple_sum};
ghost use Rattle.rq_block.specs.BlockSolutions.{HasIntermediate};

use rq_base::indices::Indices;
use rq_bytes::symbol_slab::{ADDED_AT_ONCE, SymbolSlab};
use rq_tables::systematic_constants::CheckedRow;
use std::alloc::{AllocError, Global};

/// The encoding symbol of an internal symbol id: the sum of the intermediate symbols at its indices
/// (RFC 6330, section 5.3.5.3).
pub(crate) fn encoding_symbol(
    alloc: Global,
    row: &CheckedRow,
    intermediate: &SymbolSlab,
    internal_symbol_id: u32,
) -> Result<Vec<u8>, AllocError>
    requires { HasIntermediate row.now.numbers intermediate.now }
    ensures sum { IfOk result (λ v. v.items ≡ tuple_sum row.now.numbers (symbol_in intermediate.now) internal_symbol_id) }
{
    let mut symbol = vec![in alloc; 0u8; intermediate.symbol_size()]?;
    add_encoding_symbol(row, intermediate, internal_symbol_id, symbol.as_mut_slice());
    Ok(symbol)
}

/// Writes the encoding symbol of an internal symbol id over zeros.
pub(crate) fn add_encoding_symbol(
    row: &CheckedRow,
    intermediate: &SymbolSlab,
    internal_symbol_id: u32,
    symbol: &mut [u8],
)
    requires has { HasIntermediate row.now.numbers intermediate.now }
    requires zeros { symbol.old ≡ replicate intermediate.now.symbol_size 0 }
    ensures { symbol.new ≡ tuple_sum row.now.numbers (symbol_in intermediate.now) internal_symbol_id }
{
    let mut indices = Indices::of_id(row, internal_symbol_id);
    // As many are listed as one pass adds.
    let mut terms = [0; ADDED_AT_ONCE];
    let mut count = next_terms(&mut indices, &mut terms);
    while count > 0 {
        intermediate.add_symbols_to(&terms[..count], symbol);
        count = next_terms(&mut indices, &mut terms);
    }
}

// Writes the indices that come next, as far as there is room. Returns how many these are.
fn next_terms(indices: &mut Indices, terms: &mut [usize]) -> usize
    requires some { 0 < length terms.old }
    ensures room { result ≤ length terms.new }
    ensures listed { indices.old ≡ take result terms.new ++ indices.new }
    ensures all { (result ≡ 0) → indices.new ≡ [] }
{
    for count in 0..terms.len() {
        match indices.next_index() {
            Some(index) => terms[count] = index,
            None => return count,
        }
    }
    terms.len()
}
