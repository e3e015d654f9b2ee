//! The packets and answers of the Rust crate raptorq, for objects of symbols of four bytes.
use crate::compare::same;
use crate::tests::block_vectors::{DIGESTS, LISTS};
use raptorq::error::Error;
use raptorq::systematic_constants::SystematicTable;
use raptorq::{Encoder, EncodingPacket, ObjectTransmissionInformation};
use raptorq_test_kit::answers::answered;
use raptorq_test_kit::digests::digest;
use raptorq_test_kit::sequence::{bytes, next};
use std::alloc::Global;
use std::test::Fail;

fn object(alloc: Global, source_symbols: u32) -> Result<Vec<u8>, Error> {
    bytes(
        alloc,
        u64::from(source_symbols) * 4,
        u64::from(source_symbols),
    )
}

fn config(source_symbols: u32) -> Result<ObjectTransmissionInformation, Error> {
    ObjectTransmissionInformation::new(u64::from(source_symbols) * 4, 4, 1, 1, 1)
}

fn packets(
    alloc: Global,
    table: &SystematicTable,
    source_symbols: u32,
    repair: u32,
) -> Result<Vec<EncodingPacket>, Error> {
    let config = config(source_symbols)?;
    let object = object(alloc, source_symbols)?;
    Encoder::new(alloc, table, object.as_slice(), config)?.get_encoded_packets(repair)
}

// The first number of symbols from `start` on and before `end` whose packets are other ones.
fn first_difference(alloc: Global, start: usize, end: usize) -> Result<Option<usize>, Error> {
    let table = SystematicTable::built_in(alloc)?;
    for source_symbols in start..end.min(498) {
        let packets = packets(alloc, &table, source_symbols as u32, 5)?;
        if source_symbols == 0 || digest(packets.as_slice()) != DIGESTS[source_symbols - 1] {
            return Ok(Some(source_symbols));
        }
    }
    Ok(None)
}

#[test]
fn packets_of_small_blocks(rt: HostRuntime) -> Result<(), Fail> {
    same!(rt; first_difference(rt.alloc(), 1, 250)?, None);
    Ok(())
}

#[test]
fn packets_of_middle_blocks(rt: HostRuntime) -> Result<(), Fail> {
    same!(rt; first_difference(rt.alloc(), 250, 350)?, None);
    Ok(())
}

#[test]
fn packets_of_large_blocks(rt: HostRuntime) -> Result<(), Fail> {
    same!(rt; first_difference(rt.alloc(), 350, 430)?, None);
    Ok(())
}

#[test]
fn packets_of_the_largest_blocks(rt: HostRuntime) -> Result<(), Fail> {
    same!(rt; first_difference(rt.alloc(), 430, 498)?, None);
    Ok(())
}

// The packets that come through: three of ten are lost.
fn received(
    alloc: Global,
    packets: Vec<EncodingPacket>,
    seed: u64,
    count: u32,
) -> Result<Vec<EncodingPacket>, Error> {
    let mut received = Vec::new(alloc);
    let mut x = seed;
    for packet in packets {
        x = next(x);
        if x >> 56 >= 77 && received.len() < count as usize {
            received.push(packet)?;
        }
    }
    Ok(received)
}

// How many packets of an object come through, and after how many of these it is answered.
fn answer_with_losses(
    alloc: Global,
    table: &SystematicTable,
    source_symbols: u32,
    seed: u64,
    count: u32,
) -> Result<(usize, Option<usize>), Error> {
    let packets = packets(
        alloc,
        table,
        source_symbols,
        source_symbols.saturating_add(20),
    )?;
    let received = received(alloc, packets, seed, count)?;
    let object = object(alloc, source_symbols)?;
    answered(
        alloc,
        table,
        config(source_symbols)?,
        object.as_slice(),
        received,
    )
}

#[test]
fn answers_to_lists_with_losses(rt: HostRuntime) -> Result<(), Fail> {
    let table = SystematicTable::built_in(rt.alloc())?;
    for (source_symbols, seed, count, wanted) in LISTS {
        let answer = answer_with_losses(rt.alloc(), &table, source_symbols, seed, count)?;
        let wanted = (count as usize, Some(wanted as usize));
        same!(rt; answer, wanted, (source_symbols, seed));
    }
    Ok(())
}
