//! Objects on streams: an object in and its packets out, packets in and their object out.
#![tactic(auto)]

mod counted;
mod ending;
mod jobs;
pub mod laws;
mod program;
mod receive;
mod run;
mod send;
mod words;

pub use counted::Counted;
pub use ending::report;
pub use jobs::Job;
pub use program::run_words;
pub use receive::run_receive;
pub use run::{Outcome, Stop, finish, flush, read_all, write_bytes};
pub use send::run_send;
pub use words::job;
