//! A RaptorQ erasure codec (RFC 6330): objects in packets, and back.
//!
//! Its modules are those of the Rust crate of this name. Most stand in crates of their own below this
//! one and are named again here, so that a user's line of `crates.txt` names `raptorq` alone.
//!
//! Beside what its own lines say, a call that takes memory refuses `Error::OutOfMemory` where there is
//! none.
#![tactic(auto)]

mod blocks;
pub mod decoder;
pub mod encoder;
pub mod laws;

pub use blocks::{block_symbols, calculate_block_offsets, symbols_before};
pub use decoder::{Decoder, SourceBlockDecoder};
pub use encoder::{
    Encoder, EncoderBuilder, SourceBlockEncoder, SourceBlockEncodingPlan,
    SourceBlockEncodingPlanCache,
};
pub use rq_base::base::{EncodingPacket, ObjectTransmissionInformation, PayloadId, partition};
pub use rq_base::{base, constraint_matrix};
pub use rq_block::BlockLayout;
pub use rq_bytes::{error, gf2, octet, octets, operation_vector, symbol, symbol_slab, util};
pub use rq_matrix::{matrix, sparse_matrix};
pub use rq_operations::{recorded, steps};
pub use rq_parts::{arraymap, graph, iterators, octet_matrix, sparse_vec};
pub use rq_solver::pi_solver;
pub use rq_tables::systematic_constants::extended_source_block_symbols;
pub use rq_tables::{rng, systematic_constants};
