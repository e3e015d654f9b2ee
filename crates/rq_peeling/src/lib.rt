//! The first phase, as far as it chooses pivots (RFC 6330, section 5.4.2.2): rows and columns are
//! peeled off while no row is changed. `rq_solver` calls it.
#![tactic(auto)]

pub mod column_rows;
pub mod columns;
pub mod degrees;
pub mod ones;
mod peeler;
pub mod peeling;
pub mod row_selection;
pub mod system;
