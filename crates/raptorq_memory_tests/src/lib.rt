//! Coders and slabs where memory is refused.
#![tactic(auto)]

#[cfg(test)]
mod attempts;
#[cfg(test)]
mod compare;
#[cfg(test)]
mod tests;
