//! How many packets more a block needs.
use crate::compare::same;
use raptorq::error::Error;
use raptorq::systematic_constants::SystematicTable;
use raptorq::{Decoder, ObjectTransmissionInformation, SourceBlockDecoder};
use raptorq_test_kit::packets::packet;
use std::alloc::Global;
use std::test::Fail;

// The decoder of an object of `length` bytes, each of them a symbol, in one block.
fn decoder(alloc: Global, length: u64) -> Result<Decoder, Error> {
    let table = SystematicTable::built_in(alloc)?;
    Decoder::new(
        alloc,
        &table,
        ObjectTransmissionInformation::new(length, 1, 1, 1, 1)?,
    )
}

// What a decoder answers once it took a packet of this id, a byte long.
fn missing_after(
    alloc: Global,
    decoder: &mut Decoder,
    esi: u32,
    byte: u8,
) -> Result<Option<u32>, Error> {
    decoder.add_new_packet(packet(alloc, 0, esi, &[byte])?)?;
    decoder.missing_packets(0)
}

// Packets with new ids count, whatever these are.
#[test]
fn new_ids(rt: HostRuntime) -> Result<(), Fail> {
    let mut decoder = decoder(rt.alloc(), 3)?;
    same!(rt; decoder.missing_packets(0)?, Some(3));
    same!(rt; missing_after(rt.alloc(), &mut decoder, 1, 7)?, Some(2));
    same!(rt; missing_after(rt.alloc(), &mut decoder, 1, 7)?, Some(2));
    same!(rt; missing_after(rt.alloc(), &mut decoder, 0, 8)?, Some(1));
    same!(rt; missing_after(rt.alloc(), &mut decoder, 2, 9)?, Some(0));
    same!(rt; decoder.missing_packets(1), Err(Error::UnknownBlock));
    Ok(())
}

// What the decoder of a block of three symbols answers before packets, and after one and a refused one.
fn block_missing(alloc: Global) -> Result<(Option<u32>, Option<u32>), Error> {
    let table = SystematicTable::built_in(alloc)?;
    let config = ObjectTransmissionInformation::new(3, 1, 1, 1, 1)?;
    let mut decoder = SourceBlockDecoder::new(alloc, &table, 0, &config, 3)?;
    let before = decoder.missing_packets();
    let packets = vec![in alloc; packet(alloc, 0, 5, &[1])?, packet(alloc, 1, 6, &[1])?]?;
    let _refused = decoder.decode(packets);
    Ok((before, decoder.missing_packets()))
}

#[test]
fn blocks(rt: HostRuntime) -> Result<(), Fail> {
    same!(rt; block_missing(rt.alloc())?, (Some(3), Some(2)));
    Ok(())
}
