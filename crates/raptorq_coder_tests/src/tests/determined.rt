//! Whether packets determine a block of ten symbols, beside a rank count of the tests' own.
use super::written::{block_decoder, object_decoder};
use crate::compare::{holds, same};
use raptorq::error::Error;
use raptorq::{
    EncodingPacket, SourceBlockDecoder, SourceBlockEncoder, SourceBlockEncodingPlanCache,
};
use raptorq_test_kit::configurations::configured;
use raptorq_test_kit::packets::packet;
use raptorq_test_kit::ten_symbols::Basis;
use std::alloc::Global;
use std::process::Abort;
use std::test::Fail;

// Whether `count` encoding symbols from `start` on determine the block.
fn determine(fixed: &Basis, start: u32, count: u32) -> bool {
    let mut basis = *fixed;
    for i in 0..count {
        basis.add(10, start.saturating_add(i));
    }
    basis.is_whole()
}

// Whether ten packets of zeros are answered, from `start` on.
fn are_answered(alloc: Global, start: u32) -> Result<bool, Error> {
    let mut decoder = object_decoder(alloc, (10, 1, 1, 1, 1))?;
    for i in 0..10 {
        decoder.add_new_packet(packet(alloc, 0, start.saturating_add(i), &[0])?)?;
    }
    match decoder.get_result()? {
        None => Ok(false),
        Some(object) if object.as_slice() == [0; 10].as_slice() => Ok(true),
        Some(_) => Err(Error::WrongDataLength),
    }
}

// The first 100 lists, and eight in a row of which none determines the block.
#[test]
fn ten_packets_that_follow_one_another(rt: HostRuntime) -> Result<(), Fail> {
    let fixed = Basis::new(10).ok_or("equations repeat each other")?;
    for start in 0..100 {
        same!(rt; are_answered(rt.alloc(), start), Ok(determine(&fixed, start, 10)), start);
    }
    for start in 358..366 {
        same!(rt; are_answered(rt.alloc(), start), Ok(false), start);
        holds!(rt; !determine(&fixed, start, 10), start);
    }
    Ok(())
}

// The block of which repair packets come.
const BLOCK: [u8; 10] = [3, 1, 4, 1, 5, 9, 2, 6, 5, 3];

// Its encoder.
fn encoder(alloc: Global) -> Result<SourceBlockEncoder, Error> {
    let (table, config) = configured(alloc, (10, 1, 1, 1, 1))?;
    let mut cache = SourceBlockEncodingPlanCache::new(alloc, &table)?;
    SourceBlockEncoder::new(alloc, 0, &config, &BLOCK, &mut cache)
}

// A decoder answers the block exactly where packets determine it, and else knows another one.
fn is_decoded(
    rt: &impl Abort,
    decoder: &mut SourceBlockDecoder,
    packets: Vec<EncodingPacket>,
    is_determined: bool,
    start: u32,
) -> Result<(), Error> {
    let answer = decoder.decode(packets)?;
    let wanted = if is_determined {
        Some(BLOCK.as_slice())
    } else {
        None
    };
    same!(rt; answer.as_deref(), wanted, start);
    same!(rt; decoder.homogeneous()?.is_none(), is_determined, start);
    Ok(())
}

// Over a sparse matrix and over a dense one.
fn are_decoded(
    rt: &impl Abort,
    alloc: Global,
    packets: &Vec<EncodingPacket>,
    is_determined: bool,
    start: u32,
) -> Result<(), Error> {
    for threshold in [0, u32::MAX] {
        let mut decoder = block_decoder(alloc, (10, 1, 1, 1, 1))?;
        decoder.set_sparse_threshold(threshold);
        is_decoded(rt, &mut decoder, packets.clone()?, is_determined, start)?;
    }
    Ok(())
}

// Twenty repair packets, as many as the HDPC equations may be left out with, over a sparse matrix
// and over a dense one.
#[test]
fn twenty_repair_packets(rt: HostRuntime) -> Result<(), Fail> {
    let alloc = rt.alloc();
    let fixed = Basis::new(10).ok_or("equations repeat each other")?;
    let encoder = encoder(alloc)?;
    for start in 0..200u32 {
        let is_determined = determine(&fixed, start.saturating_add(10), 20);
        let packets = encoder.repair_packets(start, 20)?;
        are_decoded(&rt, alloc, &packets, is_determined, start)?;
    }
    Ok(())
}
