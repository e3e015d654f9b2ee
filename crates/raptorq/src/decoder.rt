//! Decoders: packets in, blocks and objects out.
mod block;
mod object;

pub use block::ObjectBlock;
pub use object::{Decoder, decode_all};
pub use rq_block::decoder::SourceBlockDecoder;
