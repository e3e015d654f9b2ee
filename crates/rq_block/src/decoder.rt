//! The decoder of a block: packets in, the block out.
mod block;
mod columns;
mod fitting;
mod known;
mod last_outcome;
mod payloads;
pub(crate) mod source_symbols;

pub use block::SourceBlockDecoder;
pub use payloads::check_size;
