//! What the words of `rqcast` ask for.
#![tactic(auto)]

mod guarding;
mod jobs;
mod numbers;
mod receiving;
mod splitting;
mod values;
mod words;

pub use jobs::{
    CheckJob, FollowJob, InfoJob, Job, ProtectJob, ReceiveJob, RepairJob, Rounds, SendJob,
    SplitJob, Telling,
};
pub use values::WIDEST_WINDOW;
pub use words::job;
