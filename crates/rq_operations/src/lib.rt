//! Recorded operations as plans keep them, and how they are done to symbols.
#![tactic(auto)]

pub mod recorded;
mod replay;
mod runs;
pub mod steps;
