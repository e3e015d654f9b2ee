//! Small objects and their packets.
use raptorq::error::Error;
use raptorq::systematic_constants::SystematicTable;
use raptorq::{Encoder, EncodingPacket, ObjectTransmissionInformation};
use raptorq_test_kit::sequence::bytes;
use std::alloc::Global;

// Transfer length, symbol size and source blocks: blocks of up to ten symbols, and of none.
const CONFIGURATIONS: [(u64, u16, u8); 6] = [
    (10, 1, 1),
    (7, 1, 1),
    (1, 2, 1),
    (19, 2, 1),
    (11, 2, 3),
    (3, 2, 5),
];

/// An object and its packets.
#[derive(Drop)]
pub struct Sent {
    pub config: ObjectTransmissionInformation,
    pub object: Vec<u8>,
    pub packets: Vec<EncodingPacket>,
    pub frames: Vec<Vec<u8>>,
}

impl Sent {
    fn new(
        alloc: Global,
        table: &SystematicTable,
        config: ObjectTransmissionInformation,
        seed: u64,
    ) -> Result<Sent, Error> {
        let object = bytes(alloc, config.transfer_length(), seed)?;
        let encoder = Encoder::new(alloc, table, object.as_slice(), config)?;
        let packets = encoder.get_encoded_packets(8)?;
        let mut frames = Vec::new(alloc);
        for packet in &packets {
            frames.push(packet.serialize(alloc)?)?;
        }
        Ok(Sent {
            config,
            object,
            packets,
            frames,
        })
    }
}

/// One object of each configuration.
pub fn objects(alloc: Global, table: &SystematicTable) -> Result<Vec<Sent>, Error> {
    let mut objects = Vec::new(alloc);
    for (length, size, blocks) in CONFIGURATIONS {
        let config = ObjectTransmissionInformation::new(length, size, blocks, 1, 1)?;
        objects.push(Sent::new(alloc, table, config, length)?)?;
    }
    Ok(objects)
}
