//! One source block (RFC 6330, sections 5.3 and 5.4): plans, its encoder and its decoder.
#![tactic(auto)]

mod buffer;
pub mod decoder;
mod enc;
pub mod encoder;
mod ids;
mod solving;
mod sub_blocks;

pub use sub_blocks::BlockLayout;
