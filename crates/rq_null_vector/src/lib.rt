//! What the equations of a block (RFC 6330, section 5.4.2.1) leave open where they don't determine its
//! intermediate symbols: a column that isn't all zeros and solves them with zeros as values.
#![tactic(auto)]

pub mod null_vector;
mod octet_rows;
