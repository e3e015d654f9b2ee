//! The tests, by what they are of.

mod builder;
mod contradictions;
mod cutting;
mod decoding;
mod determined;
mod differences;
mod plans;
mod refusals;
mod several_blocks;
mod singular;
mod sub_blocks;
mod thresholds;
mod written;
