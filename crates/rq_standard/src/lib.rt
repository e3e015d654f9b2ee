//! RFC 6330 as definitions: its tables, and the laws about it, each the contract of a function that
//! does nothing.
#![tactic(auto)]

pub mod degrees;
pub mod octets;
pub mod p1_table;
pub mod random_numbers;
pub mod row;
pub mod systematic_indices;
pub mod tables;
