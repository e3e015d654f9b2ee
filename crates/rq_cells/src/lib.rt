//! Cells: packets of parts of a stream that say whose they are, with checks, so that each can be read
//! alone.
#![tactic(auto)]

mod cell;
mod checking;
mod head;
mod key;
pub mod laws;
mod long_heads;
mod name;
mod parts;
mod scanner;
mod search;
mod wanted;

pub use cell::{Cell, DIGEST_LENGTH, FoundCell, digest_of, write_check};
pub use head::{HEAD_LENGTH, Head, LAST_PART, NAME_LENGTH, STREAM_LENGTH};
pub use key::Key;
pub use name::part_name;
pub use scanner::{CellScanner, Scan};
pub use search::{CellSearch, first_wanted, remove_front};
pub use wanted::{Heads, Search, Wanted};
