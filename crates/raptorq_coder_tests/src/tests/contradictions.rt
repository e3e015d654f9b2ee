//! Packets that contradict each other.
use super::written::{block_answer, block_decoder};
use crate::compare::{holds, same};
use raptorq::SourceBlockDecoder;
use raptorq::error::Error;
use std::alloc::Global;

// A decoder of ten symbols that took them: zeros.
fn ten_zeros(alloc: Global) -> Result<SourceBlockDecoder, Error> {
    let mut decoder = block_decoder(alloc, (10, 1, 1, 1, 1))?;
    for esi in 0..10 {
        block_answer(alloc, &mut decoder, (0, esi, &[0]))?;
    }
    Ok(decoder)
}

// A repair symbol of zeros is zero. Another one contradicts them, and so the block stays.
#[test]
fn a_block_of_ten_zeros(rt: HostRuntime) -> Result<(), Error> {
    let alloc = rt.alloc();
    let mut decoder = ten_zeros(alloc)?;
    let zeros = block_answer(alloc, &mut decoder.clone()?, (0, 10, &[0]))?;
    same!(rt; zeros.as_deref(), Some([0; 10].as_slice()));
    let cases: [(u8, u32, &[u8], Error); 4] = [
        (0, 10, &[1], Error::Contradiction),
        (0, 9, &[0], Error::Contradiction),
        (0, 9, &[0, 0], Error::WrongPayloadSize),
        (1, 9, &[0], Error::UnknownBlock),
    ];
    for (block, esi, payload, wanted) in cases {
        let refused = block_answer(alloc, &mut decoder, (block, esi, payload));
        holds!(rt; refused == Err(wanted), wanted);
    }
    Ok(())
}
