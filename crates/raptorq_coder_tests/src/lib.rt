//! Worked examples of coders: of blocks and plans, of objects, and of what packets determine.
#![tactic(auto)]

#[cfg(test)]
mod compare;
#[cfg(test)]
mod tests;
