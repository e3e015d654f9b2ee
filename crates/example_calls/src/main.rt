//! One short use of each type that programs start from. The docs of these types show these lines.
#![tactic(auto)]

use anyhow::Result;
use raptorq::decoder::ObjectBlock;
use raptorq::systematic_constants::SystematicTable;
use raptorq::{
    Decoder, Encoder, EncoderBuilder, EncodingPacket, ObjectTransmissionInformation, PayloadId,
    SourceBlockDecoder, SourceBlockEncoder, SourceBlockEncodingPlan, SourceBlockEncodingPlanCache,
};
use std::alloc::Global;

const OBJECT: [u8; 5000] = [7; 5000];

fn main(rt: HostRuntime) -> Result<()> {
    let alloc = rt.alloc();
    let table = SystematicTable::built_in(alloc)?;
    let rows = table_rows(alloc)?;
    println!(rt; "SystematicTable: {rows:?}")?;
    let config = configuration(&table)?;
    println!(rt; "ObjectTransmissionInformation: {config:?}")?;
    let id = payload_id()?;
    println!(rt; "PayloadId: {id:?}")?;
    let lengths = packet(alloc)?;
    println!(rt; "EncodingPacket: {lengths:?}")?;
    objects(&rt, &table)?;
    blocks(&rt, &table)
}

// An object's packets, and the object of them.
fn objects(rt: &HostRuntime, table: &SystematicTable) -> Result<()> {
    let alloc = rt.alloc();
    let (header, packets) = encoded(alloc, table, &OBJECT)?;
    let count = packets.len();
    println!(rt; "Encoder: {count} packets")?;
    let lossy = packets.into_iter().skip(25).collect(alloc)?;
    let back = decoded(alloc, table, &header, lossy)?;
    let equal = back.is_some_and(|bytes| bytes.as_slice() == OBJECT.as_slice());
    println!(rt; "Decoder: without the first 25 of them it came back: {equal}")?;
    let built = built(alloc, table, &OBJECT)?;
    println!(rt; "EncoderBuilder: {built} symbols")?;
    Ok(())
}

// A block's packets, by a cache and by a plan, and the block of them.
fn blocks(rt: &HostRuntime, table: &SystematicTable) -> Result<()> {
    let alloc = rt.alloc();
    let config = ObjectTransmissionInformation::new(160, 16, 1, 1, 8)?;
    let block = [7; 160];
    let packets = block_packets(alloc, table, &config, &block)?;
    let count = packets.len();
    println!(rt; "SourceBlockEncoder: {count} packets")?;
    let by_plan = planned(alloc, table, &config, &block)?;
    let equal = by_plan == packets;
    println!(rt; "SourceBlockEncodingPlan: the same packets: {equal}")?;
    let answered = kept_block(alloc, table, &config, by_plan)?;
    println!(rt; "ObjectBlock: they determine it: {answered}")?;
    let lossy = packets.into_iter().skip(4).collect(alloc)?;
    let back = decoded_block(alloc, table, &config, lossy)?;
    let equal = back.is_some_and(|bytes| bytes.as_slice() == block.as_slice());
    println!(rt; "SourceBlockDecoder: without the first 4 of them it came back: {equal}")?;
    Ok(())
}

fn table_rows(alloc: Global) -> Result<(u32, u32)> {
    let table = SystematicTable::built_in(alloc)?;
    let larger = SystematicTable::with_rows(alloc, &[(511, 800, 37, 10, 523)])?; // (K', J, S, H, W)
    Ok((table.greatest(), larger.greatest())) // (497, 511)
}

fn configuration(table: &SystematicTable) -> Result<[u8; 12]> {
    // 5000 bytes, in packets of at most 100 bytes of payload.
    let config = ObjectTransmissionInformation::with_defaults(table, 5000, 100)?;
    let header = config.serialize();
    let back = ObjectTransmissionInformation::deserialize(&header);
    back.check(table)?; // whatever twelve bytes arrive
    Ok(header)
}

fn payload_id() -> Result<[u8; 4]> {
    let id = PayloadId::new(1, 258)?; // block 1, encoding symbol id 258
    Ok(id.serialize()) // [1, 0, 1, 2]
}

fn packet(alloc: Global) -> Result<(usize, usize)> {
    let payload = Vec::from_slice(alloc, &[7; 96])?;
    let packet = EncodingPacket::new(PayloadId::new(0, 60)?, payload);
    let bytes = packet.serialize(alloc)?; // 4 bytes of id, then the payload
    let back = EncodingPacket::deserialize(alloc, &bytes)?;
    Ok((bytes.len(), back.data().len())) // (100, 96)
}

fn encoded(
    alloc: Global,
    table: &SystematicTable,
    object: &[u8],
) -> Result<([u8; 12], Vec<EncodingPacket>)> {
    let encoder = Encoder::with_defaults(alloc, table, object, 100)?; // bytes of a payload at most
    let header = encoder.get_config().serialize(); // a decoder needs these 12 bytes
    let packets = encoder.get_encoded_packets(30)?; // 30 repair packets a block
    Ok((header, packets))
}

fn decoded(
    alloc: Global,
    table: &SystematicTable,
    header: &[u8; 12],
    packets: Vec<EncodingPacket>,
) -> Result<Option<Vec<u8>>> {
    let config = ObjectTransmissionInformation::deserialize(header);
    let mut decoder = Decoder::new(alloc, table, config)?;
    for packet in packets {
        if let Some(object) = decoder.decode(packet)? {
            return Ok(Some(object));
        }
    }
    Ok(None) // more packets are needed
}

fn built(alloc: Global, table: &SystematicTable, object: &[u8]) -> Result<u64> {
    let mut builder = EncoderBuilder::new();
    builder.set_max_packet_size(1280); // bytes of a payload
    builder.set_decoder_memory_requirement(1 << 20); // bytes for the symbols of a sub-block
    let encoder = builder.build(alloc, table, object)?;
    Ok(encoder.get_config().total_symbols())
}

fn block_packets(
    alloc: Global,
    table: &SystematicTable,
    config: &ObjectTransmissionInformation,
    block: &[u8],
) -> Result<Vec<EncodingPacket>> {
    let mut cache = SourceBlockEncodingPlanCache::new(alloc, table)?; // for all blocks
    let encoder = SourceBlockEncoder::new(alloc, 0, config, block, &mut cache)?;
    let mut packets = encoder.source_packets()?; // encoding symbol ids 0 to K - 1
    packets.append(&mut encoder.repair_packets(0, 5)?)?; // K to K + 4
    Ok(packets)
}

fn planned(
    alloc: Global,
    table: &SystematicTable,
    config: &ObjectTransmissionInformation,
    block: &[u8],
) -> Result<Vec<EncodingPacket>> {
    let plan = SourceBlockEncodingPlan::generate(alloc, table, 10)?; // for all blocks of 10 symbols
    let encoder = SourceBlockEncoder::with_encoding_plan(alloc, 0, config, block, table, &plan)?;
    let mut packets = encoder.source_packets()?;
    packets.append(&mut encoder.repair_packets(0, 5)?)?;
    Ok(packets)
}

fn kept_block(
    alloc: Global,
    table: &SystematicTable,
    config: &ObjectTransmissionInformation,
    packets: Vec<EncodingPacket>,
) -> Result<bool> {
    let mut block = ObjectBlock::of_length(alloc, table, 0, config, 160)?; // block 0, of 160 bytes
    for packet in packets {
        block.add_new_packet(packet)?;
    }
    Ok(block.bytes().is_some()) // `None` until its packets determine the block
}

fn decoded_block(
    alloc: Global,
    table: &SystematicTable,
    config: &ObjectTransmissionInformation,
    packets: Vec<EncodingPacket>,
) -> Result<Option<Vec<u8>>> {
    let mut decoder = SourceBlockDecoder::new(alloc, table, 0, config, 160)?; // block 0, of 160 bytes
    Ok(decoder.decode(packets)?) // `None` until its packets determine the block
}
