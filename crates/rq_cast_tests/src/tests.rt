//! The tests, by what they are of.

mod cells;
mod loss;
mod messages;
mod program;
mod receiving;
mod runs;
mod searching;
mod sending;
mod stored_cells;
mod stored_parts;
mod stored_runs;
mod watch;
mod words;
