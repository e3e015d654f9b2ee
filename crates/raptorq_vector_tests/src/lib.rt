//! Tests against the numbers of RFC 6330 and against the Rust crate `raptorq` 2.0.1.
#![tactic(auto)]

#[cfg(test)]
mod compare;
#[cfg(test)]
mod tests;
