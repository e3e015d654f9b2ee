//! The tests, by what they are of.

mod devices;
mod headers;
mod runs;
mod streams;
