//! The tests, by what they hand in.

mod forged;
mod greatest;
mod lists;
mod model;
mod sent;
mod streams;
