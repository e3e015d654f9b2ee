//! Shards: an object is cut into blocks, and a shard holds one packet of each of them. Any two of
//! thirteen shards may be lost, and a damaged one is noticed, and found by leaving out each in turn.
#![tactic(auto)]

use anyhow::Result;
use raptorq::error::Error;
use raptorq::systematic_constants::SystematicTable;
use raptorq::{
    EncodingPacket, ObjectTransmissionInformation, PayloadId, SourceBlockDecoder,
    SourceBlockEncoder, SourceBlockEncodingPlanCache,
};
use std::alloc::Global;

// Four blocks of ten symbols of 50 bytes: ten shards are source packets, three are repair packets.
const BLOCKS: u8 = 4;

const BLOCK_LENGTH: u64 = 500;

const SHARDS: u32 = 13;

/// A packet of each block, in the order of the blocks, all of one encoding symbol id.
type Shard = Vec<EncodingPacket>;

fn main(rt: HostRuntime) -> Result<()> {
    let alloc = rt.alloc();
    let object: Vec<u8> = (0..2000u32)
        .map(|place| (place.wrapping_mul(2654435761) >> 24) as u8)
        .collect(alloc)?;
    let table = SystematicTable::built_in(alloc)?;
    let config = ObjectTransmissionInformation::new(2000, 50, BLOCKS, 1, 1)?;
    let mut shards = cut(&rt, &table, &config, &object)?;
    lose_two(&rt, &table, &config, &shards, &object)?;
    damage(alloc, &mut shards)?;
    find_damaged(&rt, &table, &config, &shards, &object)
}

// The shards of an object. The plan for the blocks' number of symbols is made once, and then lent.
fn cut(
    rt: &HostRuntime,
    table: &SystematicTable,
    config: &ObjectTransmissionInformation,
    object: &[u8],
) -> Result<Vec<Shard>> {
    let mut plans = SourceBlockEncodingPlanCache::new(rt.alloc(), table)?;
    let encoders = encode(rt.alloc(), table, config, object, &mut plans)?;
    let made = plans.len();
    println!(rt; "{BLOCKS} blocks in {SHARDS} shards, by {made} plan")?;
    let shards = (0..SHARDS)
        .map(|id| encoders
            .iter()
            .map(|encoder| encoder.packet(id))
            .try_collect(rt.alloc()))
        .try_collect(rt.alloc())?;
    Ok(shards)
}

// The encoders of an object's blocks.
fn encode(
    alloc: Global,
    table: &SystematicTable,
    config: &ObjectTransmissionInformation,
    object: &[u8],
    plans: &mut SourceBlockEncodingPlanCache,
) -> Result<Vec<SourceBlockEncoder>, Error> {
    let mut encoders = Vec::new(alloc);
    for (number, block) in (0..BLOCKS).zip(object.chunks(BLOCK_LENGTH as usize)) {
        let plan = plans.get_or_generate(10)?;
        encoders.push(SourceBlockEncoder::with_encoding_plan(
            alloc, number, config, block, table, plan,
        )?)?;
    }
    Ok(encoders)
}

// Loses each two of the shards. Each bit of a number says whether one is lost.
fn lose_two(
    rt: &HostRuntime,
    table: &SystematicTable,
    config: &ObjectTransmissionInformation,
    shards: &[Shard],
    object: &[u8],
) -> Result<()> {
    let mut whole = 0u32;
    for lost in (0u32..1 << SHARDS).filter(|lost| lost.count_ones() == 2) {
        let answer = rebuild(rt.alloc(), table, config, shards, lost)?;
        whole = whole.wrapping_add(u32::from(answer.is_some_and(|bytes| bytes.as_slice()
            == object)));
    }
    println!(rt; "two of them lost: the object came back {whole} times of 78")?;
    Ok(())
}

// Writes zeros over a packet of one shard.
fn damage(alloc: Global, shards: &mut [Shard]) -> Result<(), Error> {
    if let Some(packet) = shards.get_mut(7).and_then(|shard| shard.get_mut(2)) {
        *packet = EncodingPacket::new(PayloadId::new(2, 7)?, vec![in alloc; 0; 50]?);
    }
    Ok(())
}

// The object that the shards hold but for the lost ones, if these determine it.
fn rebuild(
    alloc: Global,
    table: &SystematicTable,
    config: &ObjectTransmissionInformation,
    shards: &[Shard],
    lost: u32,
) -> Result<Option<Vec<u8>>, Error> {
    let mut object = Vec::new(alloc);
    for number in 0..BLOCKS {
        let packets: Vec<EncodingPacket> = (0..SHARDS)
            .zip(shards)
            .filter(|(place, _)| lost.wrapping_shr(*place) & 1 == 0)
            .filter_map(|(_, shard)| shard.get(usize::from(number)))
            .map(|packet| packet.clone())
            .try_collect(alloc)?;
        let mut decoder = SourceBlockDecoder::new(alloc, table, number, config, BLOCK_LENGTH)?;
        let Some(block) = decoder.decode(packets)? else {
            return Ok(None);
        };
        object.extend(block)?;
    }
    Ok(Some(object))
}

// Says that one is damaged, and leaves out each shard in turn. Where the others agree, it is that one.
fn find_damaged(
    rt: &HostRuntime,
    table: &SystematicTable,
    config: &ObjectTransmissionInformation,
    shards: &[Shard],
    object: &[u8],
) -> Result<()> {
    if let Err(refusal) = rebuild(rt.alloc(), table, config, shards, 0) {
        println!(rt; "one is damaged: {refusal}, number {}", refusal.code())?;
    }
    for place in 0..SHARDS {
        match rebuild(rt.alloc(), table, config, shards, 1 << place) {
            Err(Error::Contradiction) => (),
            answer => {
                let equal = answer?.is_some_and(|bytes| bytes.as_slice() == object);
                println!(rt; "without shard {place} the object came back: {equal}")?;
            }
        }
    }
    Ok(())
}
