//! Tests of the solver by its public calls.
#![tactic(auto)]

#[cfg(test)]
mod compare;
#[cfg(test)]
mod operations;
#[cfg(test)]
mod refused;
#[cfg(test)]
mod solved;
#[cfg(test)]
mod solver;
