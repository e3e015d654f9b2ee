//! The codec for programs in C and for those that link C: `include/reamertan.h` declares these calls.
//!
//! A configuration crosses as the twelve bytes that go before a stream's packets, an object and
//! packets as buffers of the caller's, and an answer as a number: 0, that of a refusal, or one from
//! 24 to 31, which are this library's. A call that answers another number than 0 leaves the caller's
//! buffers as they were, but `completes`. The table is that of all rows (RFC 6330, 5.6).
//!
//! Encoders, plans and decoders are kept behind pointers. C hands each to the calls of its kind alone,
//! which is what their `requires` ask: its types see to it.
#![tactic(auto)]

pub mod block_decoders;
pub mod block_encoders;
mod buffers;
mod call_end;
pub mod closing;
pub mod configurations;
pub mod decoders;
pub mod decoding;
pub mod encoders;
pub mod encoding;
mod frames;
pub mod kept;
pub mod laws;
pub mod plans;
pub mod sizes;
pub mod slot;
mod stretches;
mod tables;
pub mod twins;
pub mod version;
