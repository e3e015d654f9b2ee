//! A row whose equations have less rank than unknowns, 549 of 550: no block of its size is encoded.
use super::written::block_answer;
use crate::compare::{holds, same};
use raptorq::error::Error;
use raptorq::systematic_constants::SystematicTable;
use raptorq::{
    Encoder, EncodingPacket, ObjectTransmissionInformation, SourceBlockDecoder, SourceBlockEncoder,
    SourceBlockEncodingPlan, SourceBlockEncodingPlanCache,
};
use raptorq_test_kit::packets::packet;
use std::alloc::Global;

// A row of 511 symbols and two HDPC equations.
fn with_index(alloc: Global, index: u32) -> Result<SystematicTable, Error> {
    SystematicTable::with_rows(alloc, &[(511, index, 37, 2, 531)])
}

// A singular row, and an object of one block of its size.
fn singular(alloc: Global) -> Result<(SystematicTable, ObjectTransmissionInformation), Error> {
    let config = ObjectTransmissionInformation::new(511, 1, 1, 1, 1)?;
    Ok((with_index(alloc, 2)?, config))
}

// The least index whose row is singular.
fn singular_index(alloc: Global) -> Result<Option<u32>, Error> {
    for index in 0..1001u32 {
        let table = with_index(alloc, index)?;
        if SourceBlockEncodingPlan::generate(alloc, &table, 511) == Err(Error::Singular) {
            return Ok(Some(index));
        }
    }
    Ok(None)
}

#[test]
fn the_least_index(rt: HostRuntime) {
    same!(rt; singular_index(rt.alloc()), Ok(Some(2)));
}

#[test]
fn encoders(rt: HostRuntime) -> Result<(), Error> {
    let alloc = rt.alloc();
    let (table, config) = singular(alloc)?;
    let object = [7u8; 511];
    holds!(rt; Encoder::new(alloc, &table, &object, config) == Err(Error::Singular));
    let mut cache = SourceBlockEncodingPlanCache::new(alloc, &table)?;
    let _plan = cache.get_or_generate(10)?;
    let made = SourceBlockEncoder::new(alloc, 0, &config, &object, &mut cache);
    holds!(rt; made == Err(Error::Singular));
    holds!(rt; cache.len() == 1);
    holds!(rt; cache.contains(10));
    holds!(rt; !cache.contains(511));
    Ok(())
}

// A decoder of a block of that row.
fn singular_decoder(alloc: Global) -> Result<SourceBlockDecoder, Error> {
    let (table, config) = singular(alloc)?;
    SourceBlockDecoder::new(alloc, &table, 0, &config, 511)
}

// What all source symbols say determines no block.
#[test]
fn a_decoder(rt: HostRuntime) -> Result<(), Error> {
    let mut decoder = singular_decoder(rt.alloc())?;
    for esi in 0..511 {
        let _answer = block_answer(rt.alloc(), &mut decoder, (0, esi, &[7]))?;
    }
    holds!(rt; decoder.homogeneous()?.is_some());
    Ok(())
}

// A repair packet and then the source packets of an object.
fn repair_and_source(alloc: Global, object: &[u8; 511]) -> Result<Vec<EncodingPacket>, Error> {
    let mut packets = Vec::new(alloc);
    packets.push(packet(alloc, 0, 521, &[1])?)?;
    for esi in 0..511u32 {
        packets.push(packet(alloc, 0, esi, &[object[esi as usize]])?)?;
    }
    Ok(packets)
}

// A repair packet with which they still determine none leaves the source symbols the answer, whatever
// it says.
#[test]
fn a_repair_packet_too_few(rt: HostRuntime) -> Result<(), Error> {
    let mut object = [7u8; 511];
    object[3] = 8;
    let packets = repair_and_source(rt.alloc(), &object)?;
    let mut decoder = singular_decoder(rt.alloc())?;
    let answer = decoder.decode(packets)?;
    same!(rt; answer.as_deref(), Some(object.as_slice()));
    holds!(rt; decoder.homogeneous()?.is_some());
    Ok(())
}
