//! Shards of a file: which of them a cell goes to, how many are enough, and how many cells of a stream one has.
#![tactic(auto)]

mod counting;
mod dealing;
pub mod laws;
mod sharing;

pub use counting::count_cells;
pub use dealing::Dealer;
pub use sharing::{ID_END, share_of};
