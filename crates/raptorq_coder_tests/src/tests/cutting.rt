//! Worked examples of how objects are cut into source blocks, sub-blocks and symbols.
use super::written::{Config, Written, packets};
use crate::compare::{holds, same};
use raptorq::error::Error;
use raptorq::systematic_constants::SystematicTable;
use raptorq::{Encoder, ObjectTransmissionInformation, calculate_block_offsets};
use raptorq_test_kit::configurations::configured;
use std::alloc::Global;

fn encoder(alloc: Global, config: Config, object: &[u8]) -> Result<Encoder, Error> {
    let (table, information) = configured(alloc, config)?;
    Encoder::new(alloc, &table, object, information)
}

// The source symbols of objects of the bytes 0, 1, 2 and so on.
#[test]
fn source_symbols(rt: HostRuntime) -> Result<(), Error> {
    let alloc = rt.alloc();
    let bytes: [u8; 12] = [0, 1, 2, 3, 4, 5, 6, 7, 8, 9, 10, 11];
    let cases: [(Config, &[Written<'_>]); 5] = [
        (
            (10, 2, 2, 1, 1),
            &[
                (0, 0, &[0, 1]),
                (0, 1, &[2, 3]),
                (0, 2, &[4, 5]),
                (1, 0, &[6, 7]),
                (1, 1, &[8, 9]),
            ],
        ),
        (
            (12, 6, 1, 2, 2),
            &[(0, 0, &[0, 1, 2, 3, 8, 9]), (0, 1, &[4, 5, 6, 7, 10, 11])],
        ),
        (
            (12, 6, 1, 0, 2),
            &[(0, 0, &[0, 1, 2, 3, 4, 5]), (0, 1, &[6, 7, 8, 9, 10, 11])],
        ),
        ((4, 2, 1, 3, 1), &[(0, 0, &[0, 2]), (0, 1, &[1, 3])]),
        ((3, 2, 5, 1, 1), &[(0, 0, &[0, 1]), (1, 0, &[2, 0])]),
    ];
    for (config, wanted) in cases {
        let object = &bytes[..(config.0 as usize).min(12)];
        let found = encoder(alloc, config, object)?.get_encoded_packets(0)?;
        holds!(rt; found == packets(alloc, wanted)?, config);
    }
    Ok(())
}

// The bytes 0 to 250 again and again.
fn counted_bytes(alloc: Global, length: u32) -> Result<Vec<u8>, Error> {
    let mut bytes = Vec::new(alloc);
    for i in 0..length {
        bytes.push((i % 251) as u8)?;
    }
    Ok(bytes)
}

// The payloads of an object's source packets of 1024 bytes, one after another.
fn payloads(alloc: Global, object: &[u8]) -> Result<Vec<u8>, Error> {
    let table = SystematicTable::built_in(alloc)?;
    let packets = Encoder::with_defaults(alloc, &table, object, 1024)?.get_encoded_packets(0)?;
    let mut payloads = Vec::new(alloc);
    for packet in &packets {
        payloads.extend_from_slice(packet.data())?;
    }
    Ok(payloads)
}

// Where the object ends inside its last symbol, that is filled up with zeros.
#[test]
fn padding(rt: HostRuntime) -> Result<(), Error> {
    let mut object = counted_bytes(rt.alloc(), 2006)?;
    let payloads = payloads(rt.alloc(), object.as_slice())?;
    object.resize(2048, 0)?;
    same!(rt; payloads, object);
    Ok(())
}

#[test]
fn block_encoders(rt: HostRuntime) -> Result<(), Error> {
    let alloc = rt.alloc();
    let object = [7u8; 120];
    let encoder = encoder(alloc, (120, 10, 10, 0, 2), &object)?;
    same!(rt; encoder.get_block_encoders().len(), 10);
    for (number, block) in encoder.get_block_encoders().iter().enumerate() {
        let packets = block.source_packets()?;
        let symbols: usize = if number < 2 { 2 } else { 1 };
        assert_eq!(rt; packets.len(), symbols, "{number}");
        holds!(rt; usize::from(packets[0].payload_id().source_block_number()) == number);
    }
    let refused = self::encoder(alloc, (120, 10, 10, 0, 2), &object[..119]);
    holds!(rt; refused == Err(Error::WrongDataLength));
    Ok(())
}

#[test]
fn offsets(rt: HostRuntime) -> Result<(), Error> {
    let cases: [(Config, &[(usize, usize)]); 4] = [
        ((10, 2, 2, 1, 1), &[(0, 6), (6, 10)]),
        ((3, 2, 5, 1, 1), &[(0, 2), (2, 4), (4, 4), (4, 4), (4, 4)]),
        ((0, 2, 2, 1, 1), &[(0, 0), (0, 0)]),
        ((11, 3, 3, 2, 1), &[(0, 6), (6, 9), (9, 12)]),
    ];
    for (config, wanted) in cases {
        let (length, size, blocks, sub_blocks, alignment) = config;
        let information = ObjectTransmissionInformation::new(
            length, size, blocks, sub_blocks, alignment,
        )?;
        let offsets = calculate_block_offsets(rt.alloc(), &[], &information)?;
        same!(rt; offsets.as_slice(), wanted, config);
    }
    Ok(())
}
