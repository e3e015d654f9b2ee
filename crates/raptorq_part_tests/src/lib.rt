//! Worked examples of the parts that coders are made of, and each of their public calls once.
#![tactic(auto)]

#[cfg(test)]
mod compare;
#[cfg(test)]
mod tests;
