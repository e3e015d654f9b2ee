//! Coders of written configurations, and packets of written bytes. A test that made them itself would
//! hold a table, a packet and a list at each of its calls, and its proof would let them go at each.
use raptorq::error::Error;
use raptorq::systematic_constants::SystematicTable;
use raptorq::{Decoder, EncodingPacket, SourceBlockDecoder, SourceBlockEncodingPlanCache};
use raptorq_test_kit::configurations::configured;
use raptorq_test_kit::packets::packet;
use std::alloc::Global;

/// Transfer length, symbol size, source blocks, sub-blocks and alignment.
pub type Config = (u64, u16, u8, u16, u8);

/// Block number, encoding symbol id and payload.
pub type Written<'a> = (u8, u32, &'a [u8]);

/// Packets, one after another.
pub fn packets(alloc: Global, written: &[Written<'_>]) -> Result<Vec<EncodingPacket>, Error> {
    let mut packets = Vec::new(alloc);
    for (block, esi, payload) in written {
        packets.push(packet(alloc, *block, *esi, payload)?)?;
    }
    Ok(packets)
}

/// A decoder of objects.
pub fn object_decoder(alloc: Global, config: Config) -> Result<Decoder, Error> {
    let (table, information) = configured(alloc, config)?;
    Decoder::new(alloc, &table, information)
}

/// A decoder of the one block of an object.
pub fn block_decoder(alloc: Global, config: Config) -> Result<SourceBlockDecoder, Error> {
    let (table, information) = configured(alloc, config)?;
    SourceBlockDecoder::new(alloc, &table, 0, &information, config.0)
}

/// What a decoder of an object answers to a packet.
pub fn object_answer(
    alloc: Global,
    decoder: &mut Decoder,
    (block, esi, payload): Written<'_>,
) -> Result<Option<Vec<u8>>, Error> {
    decoder.decode(packet(alloc, block, esi, payload)?)
}

/// What a decoder of a block answers to a packet.
pub fn block_answer(
    alloc: Global,
    decoder: &mut SourceBlockDecoder,
    (block, esi, payload): Written<'_>,
) -> Result<Option<Vec<u8>>, Error> {
    decoder.decode(Some(packet(alloc, block, esi, payload)?))
}

/// An empty cache of plans over the built-in table.
pub fn cache(alloc: Global) -> Result<SourceBlockEncodingPlanCache, Error> {
    let table = SystematicTable::built_in(alloc)?;
    SourceBlockEncodingPlanCache::new(alloc, &table)
}
