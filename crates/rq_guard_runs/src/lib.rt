//! A file beside its guard, over any devices: what is found of it, and how it is mended and put in its place.
#![tactic(auto)]

mod findings;
mod mending;
mod pair;
mod runs;

pub use findings::{Findings, write_checked, write_findings, write_repaired};
pub use pair::Pair;
