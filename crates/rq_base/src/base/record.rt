//! Plain records that serde reads and writes, and the values that they stand for.
ghost use Rattle.std.specs.Prelude.{◌≡◌, Ok, IfOk};
ghost use Rattle.rq_bytes.specs.Refusals.{IsAnswer};
ghost use Rattle.rq_base.specs.Records.{spelled_configuration};
ghost use Rattle.rq_base.specs.RefusedInput.{new_id, new_packet, new_configuration};

use crate::base::{EncodingPacket, ObjectTransmissionInformation, PayloadId};
use rq_bytes::error::Error;
use serde::{Deserialize, Serialize};
use std::alloc::Global;

/// What serde reads and writes for a [`PayloadId`].
#[derive(Clone, Debug, Drop, PartialEq, Eq, Serialize, Deserialize)]
pub struct PayloadIdRecord {
    pub source_block_number: u8,
    pub encoding_symbol_id: u32,
}

impl PayloadIdRecord {
    /// The record of an id.
    pub fn from_value(value: &PayloadId) -> PayloadIdRecord
        ensures block { result.source_block_number ≡ value.now.block }
        ensures esi { result.encoding_symbol_id ≡ value.now.esi }
    {
        PayloadIdRecord {
            source_block_number: value.source_block_number(),
            encoding_symbol_id: value.encoding_symbol_id(),
        }
    }

    /// The id that the record spells. Refuses [`Error::EsiTooLarge`] where the encoding symbol id
    /// doesn't fit 24 bits.
    pub fn into_value(self) -> Result<PayloadId, Error>
        ensures { result ≡ new_id self.source_block_number self.encoding_symbol_id }
    {
        PayloadId::new(self.source_block_number, self.encoding_symbol_id)
    }
}

/// What serde reads and writes for an [`EncodingPacket`].
#[derive(Debug, Drop, PartialEq, Serialize, Deserialize)]
pub struct EncodingPacketRecord {
    pub payload_id: PayloadIdRecord,
    #[serde(rename = "data")]
    pub payload: Vec<u8>,
}

impl EncodingPacketRecord {
    /// The record of a packet.
    pub fn from_value(alloc: Global, value: &EncodingPacket) -> Result<EncodingPacketRecord, Error>
        ensures block { IfOk result (λ r. r.payload_id.source_block_number ≡ value.now.id.block) }
        ensures esi { IfOk result (λ r. r.payload_id.encoding_symbol_id ≡ value.now.id.esi) }
        ensures payload { IsAnswer (λ r. r.payload.items) result (Ok value.now.payload) }
    {
        Ok(EncodingPacketRecord {
            payload_id: PayloadIdRecord::from_value(value.payload_id()),
            payload: Vec::from_slice(alloc, value.data())?,
        })
    }

    /// The packet that the record spells. Refuses [`Error::EsiTooLarge`] where the encoding symbol
    /// id doesn't fit 24 bits.
    pub fn into_value(self) -> Result<EncodingPacket, Error>
        ensures { result ≡ new_packet self.payload_id.source_block_number self.payload_id.encoding_symbol_id self.payload.items }
    {
        let EncodingPacketRecord {
            payload_id,
            payload,
        } = self;
        Ok(EncodingPacket::new(payload_id.into_value()?, payload))
    }
}

/// What serde reads and writes for an [`ObjectTransmissionInformation`].
#[derive(Clone, Debug, Drop, PartialEq, Eq, Serialize, Deserialize)]
pub struct ObjectTransmissionInformationRecord {
    pub transfer_length: u64,
    pub symbol_size: u16,
    pub num_source_blocks: u8,
    pub num_sub_blocks: u16,
    pub symbol_alignment: u8,
}

impl ObjectTransmissionInformationRecord {
    /// The record of a configuration.
    pub fn from_value(value: &ObjectTransmissionInformation) -> ObjectTransmissionInformationRecord
        ensures length { result.transfer_length ≡ value.now.transfer_length }
        ensures size { result.symbol_size ≡ value.now.symbol_size }
        ensures blocks { result.num_source_blocks ≡ value.now.source_blocks }
        ensures sub_blocks { result.num_sub_blocks ≡ value.now.sub_blocks }
        ensures alignment { result.symbol_alignment ≡ value.now.alignment }
    {
        ObjectTransmissionInformationRecord {
            transfer_length: value.transfer_length(),
            symbol_size: value.symbol_size(),
            num_source_blocks: value.source_blocks(),
            num_sub_blocks: value.sub_blocks(),
            symbol_alignment: value.symbol_alignment(),
        }
    }

    /// The configuration that the record spells. Refuses what
    /// [`ObjectTransmissionInformation::new`] does.
    pub fn into_value(self) -> Result<ObjectTransmissionInformation, Error>
        ensures { result ≡ new_configuration (spelled_configuration self) }
    {
        ObjectTransmissionInformation::new(
            self.transfer_length,
            self.symbol_size,
            self.num_source_blocks,
            self.num_sub_blocks,
            self.symbol_alignment,
        )
    }
}
