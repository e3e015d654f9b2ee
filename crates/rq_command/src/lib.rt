//! The program `rqcast` from its words to its end, over any devices: the run that the words ask for, and
//! what is said of it.
#![tactic(auto)]

mod ending;
mod following;
mod guarded;
mod messages;
mod program;
mod protecting;
mod rounds;
mod splitting;

pub use ending::{End, Streams};
pub use messages::{announce, write_end, write_standings};
pub use program::run;
pub use rq_devices::{Devices, Place, Teller};
pub use rq_guard_runs::{Findings, write_findings};
pub use rq_words::{InfoJob, Job, ReceiveJob, Rounds, SendJob, SplitJob, Telling, job};
