//! What a run of `rqcast` reads from, writes to and tells, and what is read of it whole.
#![tactic(auto)]

mod devices;
mod keys;
mod placing;
mod told;

pub use devices::{Devices, Teller};
pub use keys::{key_of, read_whole};
pub use placing::{Place, put};
pub use rq_words::Telling;
pub use told::Told;
