//! Configurations that ask for much memory, where there is little.
use crate::compare::holds;
use raptorq::error::Error;
use raptorq::systematic_constants::SystematicTable;
use raptorq::{Decoder, EncodingPacket, ObjectTransmissionInformation};
use raptorq_test_kit::packets::packet;
use rq_memory_kit::Shortage;
use rq_streams::{Counted, Outcome, Stop, run_receive};
use std::alloc::Global;
use std::test::Fail;

// What is left, in bytes: two symbols are more.
const LEFT: usize = 120_000;

// The greatest object of the built-in rows.
const LENGTH: u64 = 497 * 65535 * 255;

// The decoder, and its first packet and its last one.
fn greatest(alloc: Global) -> Result<(Decoder, EncodingPacket, EncodingPacket), Error> {
    let table = SystematicTable::built_in(alloc)?;
    let config = ObjectTransmissionInformation::new(LENGTH, 65535, 255, 1, 1)?;
    let payload = vec![in alloc; 7u8; 65535]?;
    let first = packet(alloc, 0, 0, &payload)?;
    let last = packet(alloc, 254, 16777215, &payload)?;
    Ok((Decoder::new(alloc, &table, config)?, first, last))
}

#[test]
fn a_decoder_of_the_greatest_object(rt: HostRuntime) -> Result<(), Fail> {
    let (mut decoder, first, last) = greatest(rt.alloc())?;
    let mut shortage = Shortage::new(rt.alloc(), 1, LEFT)?;
    shortage.ease(LEFT);
    holds!(rt; shortage.is_whole());
    holds!(rt; decoder.decode(first)?.is_none());
    holds!(rt; decoder.decode(last)?.is_none());
    holds!(rt; decoder.get_result()?.is_none());
    holds!(rt; decoder.difference() == Err(Error::OutOfMemory));
    drop(shortage);
    Ok(())
}

// How a run over a header ends, and how much it writes.
fn received(
    alloc: Global,
    table: &SystematicTable,
    header: [u8; 12],
) -> (Result<(Outcome, u64), Stop>, usize) {
    let mut out: Vec<u8> = Vec::new(alloc);
    let mut reader = Counted::new(header.as_slice());
    let ended = run_receive(alloc, table, &mut reader, &mut Counted::new(&mut out));
    (ended, out.len())
}

// With each byte of its configuration the greatest there is, and of the greatest object.
#[test]
fn streams_of_the_greatest_objects(rt: HostRuntime) -> Result<(), Fail> {
    let table = SystematicTable::built_in(rt.alloc())?;
    let config = ObjectTransmissionInformation::new(LENGTH, 65535, 255, 1, 1)?.serialize();
    let greatest = [219, 117, 209, 137, 83, 0, 255, 255, 255, 255, 255, 255];
    let mut shortage = Shortage::new(rt.alloc(), 1, LEFT)?;
    shortage.ease(LEFT);
    holds!(rt; shortage.is_whole());
    let refused = Err(Stop::Refused(Error::BlockOverTable));
    for (header, wanted) in [
        (config, Ok((Outcome::Incomplete, 0))),
        (greatest, refused),
        ([255; 12], refused),
    ] {
        holds!(rt; received(rt.alloc(), &table, header) == (wanted, 0), header);
    }
    drop(shortage);
    Ok(())
}
