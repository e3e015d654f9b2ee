//! The tests, by what they are of.

mod coders;
mod slabs;
