//! From which size on a block is solved over a sparse matrix.
use super::written::object_decoder;
use crate::compare::{holds, same};
use raptorq::encoder::SPARSE_MATRIX_THRESHOLD;
use raptorq::error::Error;

// It is the Rust crate's.
#[test]
fn the_first_threshold(rt: HostRuntime) {
    same!(rt; SPARSE_MATRIX_THRESHOLD, 250);
}

// `==` sees the threshold of each block.
#[test]
fn a_clone_keeps_the_threshold_of_each_block(rt: HostRuntime) -> Result<(), Error> {
    let mut decoder = object_decoder(rt.alloc(), (10, 1, 2, 1, 1))?;
    decoder.set_sparse_threshold(0);
    let mut clone = decoder.clone()?;
    holds!(rt; clone == decoder);
    clone.set_sparse_threshold(SPARSE_MATRIX_THRESHOLD);
    holds!(rt; clone != decoder);
    Ok(())
}
