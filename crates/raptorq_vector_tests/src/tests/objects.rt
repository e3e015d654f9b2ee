//! The packets and answers of the Rust crate raptorq, for objects of several blocks and sub-blocks.
use crate::compare::same;
use crate::tests::object_vectors::{LOSSES, OBJECTS};
use raptorq::error::Error;
use raptorq::systematic_constants::SystematicTable;
use raptorq::{Encoder, EncodingPacket, ObjectTransmissionInformation};
use raptorq_test_kit::answers::answered;
use raptorq_test_kit::digests::digest;
use raptorq_test_kit::sequence::{bytes, next};
use std::alloc::Global;

// Transfer length, symbol size, source blocks, sub-blocks and alignment.
type Config = (u32, u16, u8, u16, u8);

fn object(alloc: Global, length: u32) -> Result<Vec<u8>, Error> {
    bytes(alloc, u64::from(length), u64::from(length))
}

fn information(config: Config) -> Result<ObjectTransmissionInformation, Error> {
    let (length, size, blocks, sub_blocks, alignment) = config;
    ObjectTransmissionInformation::new(u64::from(length), size, blocks, sub_blocks, alignment)
}

// The packets of the blocks that have symbols: the crate makes no others.
fn packets(
    alloc: Global,
    table: &SystematicTable,
    config: Config,
) -> Result<Vec<EncodingPacket>, Error> {
    let (length, size, blocks, _, _) = config;
    let symbols = length.div_ceil(u32::from(size.max(1)));
    let largest = symbols.div_ceil(u32::from(blocks.max(1)));
    let object = object(alloc, length)?;
    let encoder = Encoder::new(alloc, table, object.as_slice(), information(config)?)?;
    let mut packets = encoder.get_encoded_packets(largest / 2 + 4)?;
    packets.retain(|packet| u32::from(packet.payload_id().source_block_number()) < symbols);
    Ok(packets)
}

#[test]
fn packets_of_objects(rt: HostRuntime) -> Result<(), Error> {
    let alloc = rt.alloc();
    let table = SystematicTable::built_in(alloc)?;
    for (config, wanted) in OBJECTS {
        let packets = packets(alloc, &table, config)?;
        same!(rt; digest(packets.as_slice()), wanted, config);
    }
    Ok(())
}

// The packets that come through, in another order: `lost` of 256 are lost, and some come twice.
fn received(
    alloc: Global,
    packets: Vec<EncodingPacket>,
    seed: u64,
    lost: u64,
) -> Result<Vec<EncodingPacket>, Error> {
    let mut left = packets;
    let mut received = Vec::new(alloc);
    let mut x = seed;
    for _ in 0..left.len() {
        if left.is_empty() {
            break;
        }
        x = next(x);
        let packet = left.swap_remove((x >> 33) as usize % left.len());
        if x >> 56 >= 240 {
            received.push(packet.clone()?)?;
        }
        if x >> 56 >= lost {
            received.push(packet)?;
        }
    }
    Ok(received)
}

// How many of the packets of an object come through, and after how many of these it is answered.
fn answer_with_losses(
    alloc: Global,
    table: &SystematicTable,
    config: Config,
    seed: u64,
    lost: u64,
) -> Result<(usize, Option<usize>), Error> {
    let received = received(alloc, packets(alloc, table, config)?, seed, lost)?;
    let object = object(alloc, config.0)?;
    answered(
        alloc,
        table,
        information(config)?,
        object.as_slice(),
        received,
    )
}

#[test]
fn answers_for_objects(rt: HostRuntime) -> Result<(), Error> {
    let table = SystematicTable::built_in(rt.alloc())?;
    for (place, seed, lost, count, wanted) in LOSSES {
        let (config, _) = OBJECTS[place % 60];
        let answer = answer_with_losses(rt.alloc(), &table, config, seed, lost)?;
        same!(rt; answer, (count, Some(wanted)), (config, seed));
    }
    Ok(())
}
