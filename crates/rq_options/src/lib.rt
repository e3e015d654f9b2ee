//! The options of `rqcast`: what clap finds of them among words, and how it says that some ask for nothing.
#![tactic(auto)]

mod definition;
mod matches;
mod misuse;
mod version;

pub use matches::{Verb, is_flagged, matches_of, text_of, text_or, texts_of, used};
pub use misuse::{Misuse, no_subcommand};
