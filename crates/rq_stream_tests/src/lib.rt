//! Runs over streams: what they write, refuse and say, where calls fail and where memory is refused.
#![tactic(auto)]

#[cfg(test)]
mod compare;
#[cfg(test)]
mod tests;
