//! Systems of linear equations over a field of characteristic two: definitions, in `specs/`, and
//! the laws that other crates rest on.
//!
//! A law is the contract of a function that does nothing. `systems` holds those of rows and
//! columns, `operations` those of recorded operations, `symbols` those of symbols and of equations
//! as lists of indices; `examples` shows what the definitions mean.
#![tactic(auto)]

pub mod examples;
pub mod operations;
pub mod symbols;
pub mod systems;
