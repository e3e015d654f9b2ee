//! The solver: a block's intermediate symbols from its equations (RFC 6330, section 5.4.2). Of its
//! first phase `rq_peeling` does the choice of pivots; rows and what is recorded for the symbols are
//! those of `rq_elimination`. What the RFC calls L, W, u and i is here the width, `lt_columns`, the
//! inactive columns and the number of pivots.
#![tactic(auto)]

pub mod pi_solver;
