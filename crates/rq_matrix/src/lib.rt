//! Matrices of bits.
#![tactic(auto)]

mod bit_row;
pub mod matrix;
pub mod sparse_matrix;
