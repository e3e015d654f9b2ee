//! Guards of files that stay as they are: how their parts are cut, and the digests by which damage shows.
#![tactic(auto)]

mod damage;
mod damage_check;
pub mod laws;
mod layout;
mod list;
mod mending;
mod mending_part;
mod protecting;
mod reading;
mod reading_lists;
mod reading_stream;

pub use damage::{damaged_symbols, object_there, part_length, whole_cells};
pub use damage_check::{FileDamage, PartDamage, check_file};
pub use layout::layout_of;
pub use list::{DigestList, LIST_PART, LIST_SYMBOL_SIZE, LISTED_LENGTH};
pub use mending::Mending;
pub use mending_part::{mend_part, repair_part};
pub use protecting::{GuardOrder, Guarded, protect};
pub use reading::{CellPass, Decoding};
pub use reading_lists::lists_in;
pub use reading_stream::first_head;
