//! Lists of packets that don't determine their object: another object makes them too.
use super::written::object_decoder;
use crate::compare::{holds, same};
use raptorq::error::Error;
use raptorq::systematic_constants::SystematicTable;
use raptorq::{Decoder, Encoder, ObjectTransmissionInformation};
use raptorq_test_kit::configurations::configured;
use raptorq_test_kit::packets::packet;
use std::alloc::Global;
use std::process::Abort;

// A decoder of ten bytes, after nine packets of zeros from an id on.
fn nine_packets(alloc: Global, start: u32) -> Result<Decoder, Error> {
    let mut decoder = object_decoder(alloc, (10, 1, 1, 1, 1))?;
    for i in 0..9 {
        decoder.add_new_packet(packet(alloc, 0, start.saturating_add(i), &[0])?)?;
    }
    Ok(decoder)
}

// Whether an object makes packets of zeros, from an id past its ten source symbols on.
fn makes_zeros(
    alloc: Global,
    table: &SystematicTable,
    information: ObjectTransmissionInformation,
    object: &[u8],
    start: u32,
) -> Result<bool, Error> {
    let encoder = Encoder::new(alloc, table, object, information)?;
    for block in encoder.get_block_encoders() {
        for packet in block.repair_packets(start.saturating_sub(10), 9)? {
            if packet.data() != [0].as_slice() {
                return Ok(false);
            }
        }
    }
    Ok(true)
}

// Where nine packets of zeros came, another object than zeros makes them too.
fn has_difference(
    rt: &impl Abort,
    alloc: Global,
    decoder: &Decoder,
    start: u32,
) -> Result<(), Error> {
    same!(rt; decoder.get_result()?, None, start);
    let (table, information) = configured(alloc, (10, 1, 1, 1, 1))?;
    let difference = decoder.difference()?;
    let other = difference.as_deref().unwrap_or(&[]);
    same!(rt; other.len(), 10, start);
    holds!(rt; other != [0; 10].as_slice(), start);
    let makes = makes_zeros(alloc, &table, information, other, start)?;
    holds!(rt; makes, start);
    Ok(())
}

// Where the source packets come behind them, none does.
fn loses_difference(
    rt: &impl Abort,
    alloc: Global,
    decoder: &mut Decoder,
    start: u32,
) -> Result<(), Error> {
    for esi in 0..10 {
        decoder.add_new_packet(packet(alloc, 0, esi, &[0])?)?;
    }
    holds!(rt; decoder.get_result()?.is_some(), start);
    holds!(rt; decoder.difference()?.is_none(), start);
    Ok(())
}

#[test]
fn nine_packets_of_ten_symbols(rt: HostRuntime) -> Result<(), Error> {
    let alloc = rt.alloc();
    for start in 10..100 {
        let mut decoder = nine_packets(alloc, start)?;
        has_difference(&rt, alloc, &decoder, start)?;
        loses_difference(&rt, alloc, &mut decoder, start)?;
    }
    Ok(())
}

// Whether these are four bytes, zeros in the first block and not in the second.
fn is_in_second_block(difference: Option<Vec<u8>>) -> bool {
    match difference {
        Some(bytes) => bytes.len() == 4 && bytes[0] == 0 && bytes[1] == 0 && bytes[2] != 0,
        None => false,
    }
}

// An object of two blocks may differ in the one that isn't answered alone.
#[test]
fn one_block_of_two(rt: HostRuntime) -> Result<(), Error> {
    let mut decoder = object_decoder(rt.alloc(), (4, 2, 2, 1, 1))?;
    decoder.add_new_packet(packet(rt.alloc(), 0, 0, &[7, 8])?)?;
    holds!(rt; is_in_second_block(decoder.difference()?));
    decoder.add_new_packet(packet(rt.alloc(), 1, 0, &[9, 10])?)?;
    holds!(rt; decoder.difference()?.is_none());
    Ok(())
}
