//! Rows of packed bits, iterators over rows, the matrix of octets, graphs, and maps kept in arrays.
#![tactic(auto)]

pub mod arraymap;
pub mod bit_rows;
pub mod graph;
pub mod iterators;
pub mod memory;
pub mod octet_matrix;
pub mod packed_bits;
pub mod sparse_vec;
