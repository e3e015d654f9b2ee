//! Which heads are cells: their symbols are hashed side by side.
ghost use Rattle.std.specs.Prelude.{◌≡◌, ℕ, ◌+◌, ◌≤◌, length, map, count_by, filter_map, All, IfOk, IfErr};
ghost use Rattle.sha2.specs.Sha512.{sha512};
ghost use Rattle.rq_cells.specs.Scans.{HasDigest};
ghost use Rattle.rq_cells.specs.LongHeads.{IsLong, IsHeaded, symbol_at, cell_there, is_damaged_there};

use crate::cell::{FoundCell, SYMBOL_PLACE, read_behind};
use crate::key::Key;
use crate::long_heads::LongHead;
use crate::parts::part;
use rq_bytes::error::Error;
use rq_digests::all_digests;
use std::alloc::Global;

/// The cells among heads.
#[derive(Debug, PartialEq, Eq, Drop)]
pub(crate) struct Checked {
    /// Those that are cells.
    pub cells: Vec<FoundCell>,
    /// How many are none.
    pub damaged: usize,
}

// The SHA-512 of the bytes where each head's symbol stands, which all have one length.
fn hash_symbols(
    alloc: Global,
    heads: &[LongHead],
    symbol_size: usize,
    bytes: &[u8],
) -> Result<Vec<[u8; 64]>, Error>
    requires { All (IsLong symbol_size bytes.now) heads.now }
    ensures hashes { IfOk result (λ hashes. hashes.items ≡ map (λ h. sha512 (symbol_at symbol_size bytes.now h)) heads.now) }
    ensures memory { IfErr result (λ e. e ≡ Error.OutOfMemory) }
{
    let mut symbols = Vec::with_capacity(alloc, heads.len())?;
    for head in heads {
        let symbol = head.at + SYMBOL_PLACE;
        symbols.push(&bytes[symbol..symbol + symbol_size])?;
    }
    let mut hashes = vec![in alloc; [0; 64]; heads.len()]?;
    all_digests(symbols.as_slice(), hashes.as_mut_slice());
    Ok(hashes)
}

/// Looks at each head, behind which as many bytes stand as a cell with symbols of this length has.
pub(crate) fn check_cells(
    alloc: Global,
    key: &Key,
    heads: &[LongHead],
    symbol_size: usize,
    bytes: &[u8],
) -> Result<Checked, Error>
    requires { All (IsHeaded key.now symbol_size bytes.now) heads.now }
    ensures cells { IfOk result (λ checked. map (λ found. found.cell) checked.cells.items ≡ filter_map (cell_there key.now bytes.now) heads.now) }
    ensures digests { IfOk result (λ checked. All HasDigest checked.cells.items) }
    ensures damaged { IfOk result (λ checked. checked.damaged ≡ count_by (is_damaged_there key.now bytes.now) heads.now) }
    ensures memory { IfErr result (λ e. e ≡ Error.OutOfMemory) }
{
    let hashes = hash_symbols(alloc, heads, symbol_size, bytes)?;
    let mut checked = Checked {
        cells: Vec::with_capacity(alloc, heads.len())?,
        damaged: 0,
    };
    for i in 0..heads.len() {
        let LongHead { at, head } = heads[i];
        let digest = part(&hashes[i], 0);
        match read_behind(alloc, key, head, &bytes[at..], &digest)? {
            Some(cell) => checked.cells.push(FoundCell { cell, digest })?,
            None => checked.damaged += 1,
        }
    }
    Ok(checked)
}
