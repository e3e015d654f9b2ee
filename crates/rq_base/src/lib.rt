//! Packets, configurations and the formulas of RFC 6330 that coders share.
#![tactic(auto)]

pub mod base;
pub mod constraint_matrix;
pub mod indices;
