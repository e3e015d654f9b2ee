//! What an elimination over the inactive columns works on (RFC 6330, sections 5.4.2.2 to 5.4.2.6): the
//! entries of rows there, and the operations that are recorded for the symbols. `rq_solver` and
//! `rq_null_vector` call it.
#![tactic(auto)]

pub mod counts;
pub mod entries;
pub mod hdpc_rows;
pub mod pivot_search;
pub mod recorded;
