//! Any packets and any streams, by a seeded generator, beside a plain model of what is refused and
//! answered.
#![tactic(auto)]

#[cfg(test)]
mod compare;
#[cfg(test)]
mod tests;
