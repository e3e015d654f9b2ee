//! The table of systematic indices and parameters, and the random generator.
#![tactic(auto)]

mod checked_row;
mod checks;
pub mod rng;
pub mod systematic_constants;
