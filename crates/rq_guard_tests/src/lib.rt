//! Tests of guards.
#![tactic(auto)]

#[cfg(test)]
mod compare;
#[cfg(test)]
mod tests;
