//! Packets of written bytes.
use raptorq::error::Error;
use raptorq::{EncodingPacket, PayloadId};
use std::alloc::Global;

/// The packet of a block number, an encoding symbol id and a payload.
pub fn packet(alloc: Global, block: u8, esi: u32, payload: &[u8]) -> Result<EncodingPacket, Error> {
    let payload = Vec::from_slice(alloc, payload)?;
    Ok(EncodingPacket::new(PayloadId::new(block, esi)?, payload))
}
