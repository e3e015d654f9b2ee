//! Tests of cells, of what sends and receives them, and of the program `rqcast` over memory.
#![tactic(auto)]

#[cfg(test)]
mod compare;
#[cfg(test)]
mod tests;
