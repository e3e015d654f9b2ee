//! Octets, rows of octets, symbols and the refusals of all calls.
#![tactic(auto)]

pub mod error;
pub mod gf2;
mod half_products;
mod lane_multiples;
mod lanes;
mod logarithms;
mod marks;
pub mod octet;
pub mod octets;
pub mod operation_vector;
pub mod products;
mod range_multiples;
pub mod row_multiples;
mod row_sums;
pub mod slices;
pub mod symbol;
pub mod symbol_slab;
pub mod util;
