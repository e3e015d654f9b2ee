//! The tests, by what they are of.

mod block_vectors;
mod blocks;
mod counts;
mod indices;
mod matrices;
mod object_vectors;
mod objects;
