//! Packets of a block, of which one has another payload than was sent.
use crate::compare::holds;
use raptorq::error::Error;
use raptorq::systematic_constants::SystematicTable;
use raptorq::{
    EncodingPacket, ObjectTransmissionInformation, PayloadId, SourceBlockDecoder,
    SourceBlockEncoder, SourceBlockEncodingPlanCache,
};
use raptorq_test_kit::sequence::{Choices, bytes};
use raptorq_test_kit::ten_symbols::Basis;
use std::alloc::Global;
use std::process::Abort;
use std::test::Fail;

const LISTS: u32 = 10_000;

// A block of ten symbols, and its packets of the ids below 40.
#[derive(Drop)]
struct SentBlock {
    config: ObjectTransmissionInformation,
    block: Vec<u8>,
    packets: Vec<EncodingPacket>,
}

impl SentBlock {
    // Of symbols of `size` octets.
    fn new(alloc: Global, table: &SystematicTable, size: u16) -> Result<SentBlock, Error> {
        let length = u64::from(size).saturating_mul(10);
        let config = ObjectTransmissionInformation::new(length, size, 1, 1, 1)?;
        let block = bytes(alloc, length, 7)?;
        let mut cache = SourceBlockEncodingPlanCache::new(alloc, table)?;
        let encoder = SourceBlockEncoder::new(alloc, 0, &config, block.as_slice(), &mut cache)?;
        let mut packets = encoder.source_packets()?;
        for packet in encoder.repair_packets(0, 30)? {
            packets.push(packet)?;
        }
        Ok(SentBlock {
            config,
            block,
            packets,
        })
    }
}

// A packet with another octet somewhere in its payload.
fn forged(
    alloc: Global,
    packet: &EncodingPacket,
    choices: &mut Choices,
) -> Result<EncodingPacket, Error> {
    let id = packet.payload_id();
    let id = PayloadId::new(id.source_block_number(), id.encoding_symbol_id())?;
    let mut payload = Vec::from_slice(alloc, packet.data())?;
    let place = choices.place(payload.len());
    if let Some(octet) = payload.get_mut(place) {
        *octet ^= choices.byte().max(1);
    }
    Ok(EncodingPacket::new(id, payload))
}

// From 10 to 24 packets in any order, one of them forged.
fn list(
    alloc: Global,
    sent: &SentBlock,
    choices: &mut Choices,
) -> Result<Vec<EncodingPacket>, Error> {
    let count = choices.place(15).saturating_add(10);
    let mut packets = sent.packets.clone()?;
    for i in 0..packets.len() {
        let other = choices.place(packets.len());
        if other < packets.len() {
            packets.swap(i, other);
        }
    }
    packets.truncate(count);
    let place = choices.place(count);
    if let Some(packet) = packets.get_mut(place) {
        *packet = forged(alloc, packet, choices)?;
    }
    Ok(packets)
}

// Whether packets end as their ranks say: with a contradiction exactly where their equations determine
// the block and have a greater rank with the values than without. What is answered isn't the block that
// was sent, since one payload isn't that block's.
fn end_as_ranked(
    sent: &SentBlock,
    fixed: &Basis,
    packets: &[EncodingPacket],
    answer: &Result<Option<Vec<u8>>, Error>,
) -> bool {
    let mut basis = *fixed;
    for packet in packets {
        let esi = packet.payload_id().encoding_symbol_id();
        basis.add_with_value(10, esi, packet.data());
    }
    match answer {
        Ok(None) => !basis.is_whole(),
        Ok(Some(block)) => { basis.is_whole() && !basis.is_contradictory() && *block != sent.block }
        Err(refusal) => {
            basis.is_whole() && basis.is_contradictory() && *refusal == Error::Contradiction
        }
    }
}

// What a decoder of the block answers to packets.
fn answer(
    alloc: Global,
    table: &SystematicTable,
    sent: &SentBlock,
    threshold: u32,
    packets: Vec<EncodingPacket>,
) -> Result<Result<Option<Vec<u8>>, Error>, Error> {
    let length = sent.config.transfer_length();
    let mut decoder = SourceBlockDecoder::new(alloc, table, 0, &sent.config, length)?;
    decoder.set_sparse_threshold(threshold);
    Ok(decoder.decode(packets))
}

// Hands in a list. Answers whether it is answered, and how many packets it has.
fn list_ends(
    rt: &impl Abort,
    alloc: Global,
    table: &SystematicTable,
    sent: &SentBlock,
    choices: &mut Choices,
    number: u32,
) -> Result<(bool, usize), Fail> {
    let fixed = Basis::new(10).ok_or("equations repeat each other")?;
    let packets = list(alloc, sent, choices)?;
    let threshold = [0, u32::MAX][number as usize % 2];
    let answer = answer(alloc, table, sent, threshold, packets.clone()?)?;
    holds!(rt; end_as_ranked(sent, &fixed, &packets, &answer), number);
    Ok((answer.is_ok(), packets.len()))
}

#[test]
fn forged_payloads(rt: HostRuntime) -> Result<(), Fail> {
    let table = SystematicTable::built_in(rt.alloc())?;
    let short = SentBlock::new(rt.alloc(), &table, 1)?;
    let long = SentBlock::new(rt.alloc(), &table, 2)?;
    let mut choices = Choices::new(3);
    let mut answered: u32 = 0;
    let mut contradictory = [0u32; 2];
    for number in 0..LISTS {
        let sent = if choices.place(2) == 0 { &short } else { &long };
        let ends = list_ends(&rt, rt.alloc(), &table, sent, &mut choices, number)?;
        if ends.0 {
            answered = answered.saturating_add(1);
        } else if ends.1 >= 20 {
            let turn = number as usize % 2;
            contradictory[turn] = contradictory[turn].saturating_add(1);
        }
    }
    holds!(rt; answered > 0, answered);
    holds!(rt; contradictory[0] > 0, contradictory);
    holds!(rt; contradictory[1] > 0, contradictory);
    Ok(())
}
