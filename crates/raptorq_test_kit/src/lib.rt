//! What several crates of tests need: configurations, packets, pseudorandom objects, digests, and a
//! rank count.
#![tactic(auto)]

pub mod answers;
pub mod configurations;
pub mod digests;
pub mod packets;
pub mod sequence;
pub mod ten_symbols;
