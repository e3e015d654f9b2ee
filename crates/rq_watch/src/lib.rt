//! What `rqcast` tells while it runs, and the pace at which its cells leave.
#![tactic(auto)]

mod amounts;
mod line;
mod pace;
mod pulse;
mod sending;
mod silence;
mod watch;

pub use amounts::{Amount, Time};
pub use line::{COLUMNS, Course};
pub use watch::Watch;
