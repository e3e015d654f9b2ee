//! Worked examples of objects of several blocks, of blocks of no symbols, and of no bytes.
use super::written::{object_decoder, packets};
use crate::compare::{holds, same};
use raptorq::error::Error;
use raptorq::{Encoder, EncodingPacket};
use raptorq_test_kit::configurations::configured;
use raptorq_test_kit::packets::packet;
use std::alloc::Global;
use std::process::Abort;

// The source packets of three bytes in five blocks of symbols of two bytes: three blocks have none.
fn source_packets(rt: &impl Abort, alloc: Global) -> Result<Vec<EncodingPacket>, Error> {
    let (table, information) = configured(alloc, (3, 2, 5, 1, 1))?;
    let encoder = Encoder::new(alloc, &table, &[7, 8, 9], information)?;
    same!(rt; encoder.get_block_encoders().len(), 5);
    for block in encoder.get_block_encoders().iter().skip(2) {
        holds!(rt; block.source_packets()?.is_empty());
    }
    encoder.get_encoded_packets(0)
}

#[test]
fn blocks_of_no_symbols(rt: HostRuntime) -> Result<(), Error> {
    let alloc = rt.alloc();
    let source = source_packets(&rt, alloc)?;
    let wanted = packets(alloc, &[(0, 0, &[7, 8]), (1, 0, &[9, 0])])?;
    holds!(rt; source == wanted);
    let mut decoder = object_decoder(alloc, (3, 2, 5, 1, 1))?;
    let mut answer = None;
    for packet in source {
        holds!(rt; answer.is_none());
        answer = decoder.decode(packet)?;
    }
    same!(rt; answer.as_deref(), Some([7, 8, 9].as_slice()));
    Ok(())
}

// Of these five the second one ends where the object does, and those with no symbols are answered
// from the start.
#[test]
fn bytes_of_blocks(rt: HostRuntime) -> Result<(), Error> {
    let alloc = rt.alloc();
    let mut decoder = object_decoder(alloc, (3, 2, 5, 1, 1))?;
    decoder.add_new_packet(packet(alloc, 1, 0, &[9, 0])?)?;
    same!(rt; decoder.block_bytes(0), None);
    same!(rt; decoder.block_bytes(1), Some([9].as_slice()));
    same!(rt; decoder.block_bytes(4), Some([].as_slice()));
    same!(rt; decoder.block_bytes(5), None);
    holds!(rt; !decoder.is_complete());
    decoder.add_new_packet(packet(alloc, 0, 0, &[7, 8])?)?;
    same!(rt; decoder.block_bytes(0), Some([7, 8].as_slice()));
    holds!(rt; decoder.is_complete());
    Ok(())
}

// Packets may be recorded first, and blocks answered later, in any order.
#[test]
fn blocks_answered_later(rt: HostRuntime) -> Result<(), Error> {
    let alloc = rt.alloc();
    let mut decoder = object_decoder(alloc, (3, 2, 5, 1, 1))?;
    for (block, payload) in [(1, [9, 0]), (0, [7, 8])] {
        decoder.record(packet(alloc, block, 0, &payload)?)?;
    }
    holds!(rt; decoder.get_result()?.is_none());
    decoder.answer_block(0)?;
    decoder.answer_block(1)?;
    same!(rt; decoder.get_result()?.as_deref(), Some([7, 8, 9].as_slice()));
    same!(rt; decoder.answer_block(5), Err(Error::UnknownBlock));
    same!(rt; decoder.record(packet(alloc, 5, 0, &[7, 8])?), Err(Error::UnknownBlock));
    Ok(())
}

#[test]
fn an_object_of_no_bytes(rt: HostRuntime) -> Result<(), Error> {
    let alloc = rt.alloc();
    let (table, information) = configured(alloc, (0, 2, 1, 1, 1))?;
    let packets = Encoder::new(alloc, &table, &[], information)?.get_encoded_packets(0)?;
    holds!(rt; packets.is_empty());
    let object = object_decoder(alloc, (0, 2, 1, 1, 1))?.get_result()?;
    same!(rt; object.as_deref(), Some([].as_slice()));
    Ok(())
}
