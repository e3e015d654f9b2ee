//! What is refused, in which order. Each case removes a cause of the one before it.
use crate::compare::holds;
use raptorq::error::Error;
use raptorq::systematic_constants::SystematicTable;
use raptorq::{Decoder, ObjectTransmissionInformation};

// Configurations that only bytes can spell.
const HEADERS: [([u8; 12], Error); 5] = [
    (
        [255, 255, 255, 255, 255, 0, 0, 0, 0, 0, 1, 0],
        Error::SymbolSizeZero,
    ),
    (
        [255, 255, 255, 255, 255, 0, 0, 3, 0, 0, 1, 0],
        Error::AlignmentZero,
    ),
    (
        [255, 255, 255, 255, 255, 0, 0, 3, 0, 0, 1, 2],
        Error::Misaligned,
    ),
    (
        [255, 255, 255, 255, 255, 0, 0, 4, 0, 0, 1, 2],
        Error::SourceBlocksZero,
    ),
    (
        [255, 255, 255, 255, 255, 0, 0, 4, 255, 0, 1, 2],
        Error::BlockOverTable,
    ),
];

#[test]
fn decoders(rt: HostRuntime) -> Result<(), Error> {
    let alloc = rt.alloc();
    let table = SystematicTable::built_in(alloc)?;
    for (bytes, wanted) in HEADERS {
        let config = ObjectTransmissionInformation::deserialize(&bytes);
        holds!(rt; Decoder::new(alloc, &table, config) == Err(wanted), wanted);
    }
    Ok(())
}
