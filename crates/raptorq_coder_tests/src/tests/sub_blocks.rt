//! Blocks in sub-blocks: packets and answers of the Rust crate raptorq, for an object of 24 bytes
//! in symbols of six with an alignment of two.
use super::written::{block_answer, block_decoder};
use crate::compare::same;
use raptorq::SourceBlockDecoder;
use raptorq::error::Error;
use std::alloc::Global;

const OBJECT: [u8; 24] = [
    0x7e, 0xf4, 0xe8, 0x45, 0x44, 0x23, 0x67, 0x52, 0xfb, 0xb5, 0x6b, 0x8f, 0x31, 0xa2, 0x3a, 0x10,
    0xe4, 0x28, 0x14, 0xf5, 0xf5, 0x5c, 0xa0, 0x37,
];

// An id and a symbol.
type Symbol = (u32, [u8; 6]);

// How many sub-blocks there are, the symbols that come first, and the one that makes the answer: a
// sub-block of four bytes and one of two, from source packets in another order and from two packets
// for repair; and nine sub-blocks of three units, of which three have two bytes and the others none.
const CASES: [(u16, [Symbol; 3], Symbol); 3] = [
    (
        2,
        [
            (3, [0x31, 0xa2, 0x3a, 0x10, 0xa0, 0x37]),
            (0, [0x7e, 0xf4, 0xe8, 0x45, 0xe4, 0x28]),
            (2, [0xfb, 0xb5, 0x6b, 0x8f, 0xf5, 0x5c]),
        ],
        (1, [0x44, 0x23, 0x67, 0x52, 0x14, 0xf5]),
    ),
    (
        2,
        [
            (1, [0x44, 0x23, 0x67, 0x52, 0x14, 0xf5]),
            (3, [0x31, 0xa2, 0x3a, 0x10, 0xa0, 0x37]),
            (4, [0x49, 0x10, 0xd3, 0x43, 0x48, 0x3e]),
        ],
        (5, [0x16, 0xf1, 0x74, 0x24, 0xc1, 0xd7]),
    ),
    (
        9,
        [
            (1, [0xe8, 0x45, 0x6b, 0x8f, 0x14, 0xf5]),
            (3, [0x67, 0x52, 0x3a, 0x10, 0xa0, 0x37]),
            (4, [0x22, 0x90, 0xd7, 0x3e, 0x48, 0x3e]),
        ],
        (5, [0x59, 0x3c, 0xa5, 0xbe, 0xc1, 0xd7]),
    ),
];

// What a decoder answers to symbols, one after another.
fn answer(
    alloc: Global,
    decoder: &mut SourceBlockDecoder,
    symbols: &[Symbol],
) -> Result<Option<Vec<u8>>, Error> {
    let mut answer = None;
    for (esi, symbol) in symbols {
        answer = block_answer(alloc, decoder, (0, *esi, symbol))?;
    }
    Ok(answer)
}

#[test]
fn answers(rt: HostRuntime) -> Result<(), Error> {
    let alloc = rt.alloc();
    for (sub_blocks, before, last) in CASES {
        let mut decoder = block_decoder(alloc, (24, 6, 1, sub_blocks, 2))?;
        same!(rt; answer(alloc, &mut decoder, &before)?, None);
        let block = answer(alloc, &mut decoder, &[last])?;
        same!(rt; block.as_deref(), Some(OBJECT.as_slice()));
    }
    Ok(())
}
