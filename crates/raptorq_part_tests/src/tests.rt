//! The tests, by what they are of.

mod hashes;
mod maps;
mod matrices;
mod missing;
mod octets;
mod packets;
mod parameters;
mod records;
mod sparse_rows;
mod symbols;
mod tables;
mod tuples;
