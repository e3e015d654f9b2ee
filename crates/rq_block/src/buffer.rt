//! What suits the GNU C library's way with the memory of a block: results are the same without it.
ghost use Rattle.std.specs.Prelude.{◌≡◌, ◌^◌, ◌<◌, ◌≤◌, [], IfOk};

use std::alloc::{AllocError, Global};

/// From how many bytes on a block takes over the buffer of its intermediate symbols: one of 32 MiB or
/// more goes back to the system, and a smaller one is kept for the next block.
pub(crate) const LARGE_BLOCK: usize = 1 << 25;

/// How many bytes one call copies at most: in longer ones the C library's copy for x86-64 uses an
/// instruction that is slower.
pub(crate) const PIECE: usize = 2048;

/// An empty buffer with room for `count` symbols of `size` bytes, and for a block's source symbols
/// beside them: once such a buffer was taken from the system and handed back, as much is kept for the
/// next block, whose pages aren't asked for anew.
pub(crate) fn symbol_buffer(
    alloc: Global,
    count: usize,
    source_symbols: u32,
    size: usize,
) -> Result<Vec<u8>, AllocError>
    requires few { count ≤ 2 ^ 32 }
    requires small { size < 2 ^ 16 }
    ensures { IfOk result (λ buffer. buffer.items ≡ []) }
{
    Vec::with_capacity(alloc, (count + source_symbols as usize) * size)
}
