//! Worked examples of packets, configurations and refusals.
use crate::compare::{holds, same};
use raptorq::encoder::{encode_all, packets_length};
use raptorq::error::Error;
use raptorq::systematic_constants::SystematicTable;
use raptorq::{EncodingPacket, ObjectTransmissionInformation, PayloadId};
use raptorq_test_kit::configurations::configured;
use std::test::Fail;

#[test]
fn headers(rt: HostRuntime) -> Result<(), Fail> {
    let information = ObjectTransmissionInformation::new(120, 10, 10, 1, 2)?;
    let bytes = information.serialize();
    holds!(rt; bytes == [0, 0, 0, 0, 120, 0, 0, 10, 10, 0, 1, 2]);
    holds!(rt; ObjectTransmissionInformation::deserialize(&bytes) == information);
    let id = PayloadId::new(1, 66051)?;
    holds!(rt; id.clone()?.serialize() == [1, 1, 2, 3]);
    holds!(rt; PayloadId::deserialize(&[1, 1, 2, 3]) == id);
    holds!(rt; PayloadId::new(0, 16777216) == Err(Error::EsiTooLarge));
    Ok(())
}

#[test]
fn limits(rt: HostRuntime) -> Result<(), Fail> {
    let greatest = ObjectTransmissionInformation::new(942574504275, 65535, 255, 1, 1)?;
    same!(rt; greatest.transfer_length(), 942574504275);
    let longer = ObjectTransmissionInformation::new(942574504276, 65535, 255, 1, 1);
    holds!(rt; longer == Err(Error::TransferTooLong));
    let wide = ObjectTransmissionInformation::new(4294967296, 1, 1, 1, 1);
    holds!(rt; wide == Err(Error::TooManySymbols));
    let table = SystematicTable::built_in(rt.alloc())?;
    let over = ObjectTransmissionInformation::new(498, 1, 1, 1, 1)?;
    holds!(rt; over.check(&table) == Err(Error::BlockOverTable));
    Ok(())
}

#[test]
fn short_packets(rt: HostRuntime) {
    for short in [&[], [1, 1, 2].as_slice()] {
        let refused = EncodingPacket::deserialize(rt.alloc(), short);
        holds!(rt; refused == Err(Error::PacketTooShort), short);
    }
}

#[test]
fn bare_packets(rt: HostRuntime) -> Result<(), Error> {
    let id = PayloadId::new(1, 66051)?;
    let bare = EncodingPacket::deserialize(rt.alloc(), &[1, 1, 2, 3])?;
    holds!(rt; *bare.payload_id() == id);
    holds!(rt; bare.data().is_empty());
    Ok(())
}

// Ten bytes in a block of three symbols and one of two.
const OBJECT: [u8; 10] = [0, 1, 2, 3, 4, 5, 6, 7, 8, 9];

// Its source packets behind a byte.
const FRAMES: [u8; 31] = [
    77, 0, 0, 0, 0, 0, 1, 0, 0, 0, 1, 2, 3, 0, 0, 0, 2, 4, 5, 1, 0, 0, 0, 6, 7, 1, 0, 0, 1, 8, 9,
];

#[test]
fn objects_as_bytes(rt: HostRuntime) -> Result<(), Error> {
    let (table, config) = configured(rt.alloc(), (10, 2, 2, 1, 1))?;
    let mut bytes = Vec::from_slice(rt.alloc(), &[77])?;
    encode_all(rt.alloc(), &table, &OBJECT, &config, 0, &mut bytes)?;
    same!(rt; bytes.as_slice(), FRAMES.as_slice());
    Ok(())
}

#[test]
fn lengths_of_packets(rt: HostRuntime) -> Result<(), Error> {
    let (table, config) = configured(rt.alloc(), (10, 2, 2, 1, 1))?;
    config.check(&table)?;
    same!(rt; packets_length(&config, 3)?, 66);
    Ok(())
}

// The refusals in the order of their numbers, from 1, and what each prints. A row's place and check
// aren't printed.
const NAMES: [(Error, &str); 23] = [
    (Error::TransferTooLong, "TransferTooLong"),
    (Error::AlignmentZero, "AlignmentZero"),
    (Error::Misaligned, "Misaligned"),
    (Error::TooManySymbols, "TooManySymbols"),
    (Error::SymbolSizeZero, "SymbolSizeZero"),
    (Error::SourceBlocksZero, "SourceBlocksZero"),
    (Error::BlockOverTable, "BlockOverTable"),
    (Error::WrongDataLength, "WrongDataLength"),
    (Error::Singular, "Singular"),
    (Error::PlanMismatch, "PlanMismatch"),
    (Error::EsiTooLarge, "EsiTooLarge"),
    (Error::PacketTooShort, "PacketTooShort"),
    (Error::WrongPayloadSize, "WrongPayloadSize"),
    (Error::UnknownBlock, "UnknownBlock"),
    (Error::PacketSizeZero, "PacketSizeZero"),
    (Error::TransferLengthZero, "TransferLengthZero"),
    (
        Error::MemoryRequirementTooSmall,
        "MemoryRequirementTooSmall",
    ),
    (Error::TooManyBlocks, "TooManyBlocks"),
    (Error::RowRefused { place: 3, check: 2 }, "RowRefused"),
    (Error::AlreadyExecuted, "AlreadyExecuted"),
    (Error::OutOfMemory, "OutOfMemory"),
    (Error::Contradiction, "Contradiction"),
    (Error::HeaderTooShort, "HeaderTooShort"),
];

#[test]
fn names(rt: HostRuntime) -> Result<(), Fail> {
    for (number, (refusal, name)) in (1u8..).zip(NAMES) {
        same!(rt; refusal.to_string(rt.alloc())?.as_str(), name);
        same!(rt; refusal.code(), number, name);
    }
    Ok(())
}
