//! Encoders: an object in, its packets out.
ghost use Rattle.std.specs.Prelude.{◌≡◌, ◌^◌, ◌<◌, length, map, Ok, IfOk, IfErr, OnOk};
ghost use Rattle.std.specs.List.{range_with_len};
ghost use Rattle.rq_bytes.specs.Refusals.{IsAnswer};
ghost use Rattle.rq_standard.specs.Configuration.{IsAccepted, largest_block};
ghost use Rattle.rq_standard.specs.Cutting.{block_symbols};
ghost use Rattle.rq_standard.specs.Headline.{HasNonsingularRows};
ghost use Rattle.rq_standard.specs.Streams.{frame_size};
ghost use Rattle.rq_standard.specs.TableRows.{greatest_size};
ghost use Rattle.raptorq.specs.BlockCutting.{RefusesRows};
ghost use Rattle.rq_block.specs.SourceBlockEncoder.{block_encoded_of};
ghost use Rattle.raptorq.specs.BlocksEncoded.{blocks_encoded};

mod blockwise_encoder;
mod builder;
mod frames;

use crate::blocks::check_repair;
use blockwise_encoder::BlockwiseEncoder;
pub use builder::EncoderBuilder;
pub use frames::{encode_all, packets_length};
use rq_base::base::{EncodingPacket, ObjectTransmissionInformation, PayloadId};
pub use rq_block::encoder::{
    SPARSE_MATRIX_THRESHOLD, SourceBlockEncoder, SourceBlockEncodingPlan,
    SourceBlockEncodingPlanCache,
};
use rq_bytes::error::Error;
use rq_tables::systematic_constants::SystematicTable;
use std::alloc::{AllocError, Global};

/// Makes the packets of an object (RFC 6330, sections 4.4.2 and 5.3).
///
/// ```
/// let encoder = Encoder::with_defaults(alloc, table, object, 100)?; // bytes of a payload at most
/// let header = encoder.get_config().serialize(); // a decoder needs these 12 bytes
/// let packets = encoder.get_encoded_packets(30)?; // 30 repair packets a block
/// ```
#[derive(Debug, PartialEq, Eq, Drop)]
pub struct Encoder {
    config: ObjectTransmissionInformation,
    blocks: Vec<SourceBlockEncoder>,
    alloc: Global,
    pub ghost positive: { 0 < config.symbol_size },
    pub ghost few: { largest_block config < 65536 },
    pub ghost some: { 0 < config.source_blocks },
    pub ghost numbered: { map (λ b. (block_encoded_of b).number) blocks.items ≡ range_with_len 0 config.source_blocks },
    pub ghost sized: { map (λ b. (block_encoded_of b).size) blocks.items ≡ map (λ b. config.symbol_size) (range_with_len 0 config.source_blocks) },
    pub ghost counted: { map (λ b. length (block_encoded_of b).source) blocks.items ≡ map (block_symbols config) (range_with_len 0 config.source_blocks) },
}

impl Encoder {
    ghost use Rattle.raptorq.specs.Building.{default_settings, RefusesBuilding, IsBuilt};
    ghost use Rattle.raptorq.specs.Encoder.{encoded_of, ArePacketsOf, IsPacketIn, IsEncoderOf, IsFrameIn, id_in, packets_refusal};
    ghost use Rattle.raptorq.specs.Refused.{new_encoder, RefusesEncoder};

    /// The encoder of an object, in bytes (RFC 6330, section 4.4).
    ///
    /// Refuses what [`ObjectTransmissionInformation::check`] refuses, then
    /// [`Error::WrongDataLength`] where the object hasn't the configuration's length, and then
    /// [`Error::Singular`] where a block's row of the table doesn't determine the intermediate
    /// symbols.
    pub fn new(
        alloc: Global,
        table: &SystematicTable,
        object: &[u8],
        config: ObjectTransmissionInformation,
    ) -> Result<Encoder, Error>
        ensures refused { IfErr result (RefusesEncoder table.now config (length object.now)) }
        ensures taken { OnOk result (new_encoder (greatest_size table.now) config (length object.now) ≡ Ok tt) }
        ensures nonsingular { OnOk result (HasNonsingularRows table.now config) }
        ensures configuration { IfOk result (λ e. (encoded_of e).configuration ≡ config) }
        ensures encoder { IfOk result (λ e. IsEncoderOf table.now object.now (encoded_of e)) }
    {
        config.check(table)?;
        if object.len() as u64 != config.transfer_length() {
            return Err(Error::WrongDataLength);
        }
        let blocks = block_encoders(alloc, table, object, &config)?;
        Ok(Encoder {
            config,
            blocks,
            alloc,
        })
    }

    /// The encoder of an object, in bytes, in its default configuration for packets of at most
    /// `maximum_transmission_unit` bytes of payload (RFC 6330, section 4.3).
    ///
    /// Refuses what [`ObjectTransmissionInformation::with_defaults`] refuses, and then what
    /// [`Encoder::new`] refuses.
    pub fn with_defaults(
        alloc: Global,
        table: &SystematicTable,
        object: &[u8],
        maximum_transmission_unit: u16,
    ) -> Result<Encoder, Error>
        ensures refused { IfErr result (RefusesBuilding table.now (record default_settings { packet_size = maximum_transmission_unit }) (length object.now)) }
        ensures built { IfOk result (λ e. IsBuilt table.now (record default_settings { packet_size = maximum_transmission_unit }) object.now (encoded_of e)) }
    {
        let mut builder = EncoderBuilder::new();
        builder.set_max_packet_size(maximum_transmission_unit);
        builder.build(alloc, table, object)
    }

    /// The configuration that a decoder needs.
    pub fn get_config(&self) -> ObjectTransmissionInformation
        ensures { result ≡ (encoded_of self.now).configuration }
    {
        self.config
    }

    /// The encoders of the object's source blocks, in the order of their numbers.
    pub fn get_block_encoders(&self) -> &[SourceBlockEncoder]
        ensures { map block_encoded_of result.now ≡ map (encoded_of self.now).block (range_with_len 0 (encoded_of self.now).configuration.source_blocks) }
    {
        self.blocks.as_slice()
    }

    /// The packet of a payload id: that of any source symbol or repair symbol of any block (RFC
    /// 6330, 4.4.2 and 5.3). Not in the Rust crate.
    ///
    /// Refuses [`Error::UnknownBlock`] where the id's block is none of the object's.
    pub fn packet(&self, id: PayloadId) -> Result<EncodingPacket, Error>
        ensures id { IsAnswer (λ p. p.id) result (id_in (encoded_of self.now).configuration id) }
        ensures packet { IfOk result (IsPacketIn (encoded_of self.now)) }
    {
        let number = id.source_block_number();
        if number >= self.config.source_blocks() {
            return Err(Error::UnknownBlock);
        }
        self.blocks[usize::from(number)].packet(id.encoding_symbol_id())
    }

    /// Writes the packet of an encoding symbol id of a block over as many bytes as it takes: the one
    /// that [`Encoder::packet`] makes, without memory. Not in the Rust crate.
    pub fn write_packet(&self, source_block_number: u8, esi: u32, packet: &mut [u8])
        requires block { source_block_number < (encoded_of self.now).configuration.source_blocks }
        requires id { esi < 2 ^ 24 }
        requires len { length packet.old ≡ frame_size (encoded_of self.now).configuration }
        ensures { IsFrameIn (encoded_of self.now) source_block_number esi packet.new }
    {
        self.blocks[usize::from(source_block_number)].write_packet(esi, packet);
    }

    /// The packets of each source block in the order of their encoding symbol ids: those of its
    /// source symbols, and then of its repair symbols (RFC 6330, 4.4.2 and 5.3).
    ///
    /// Refuses [`Error::EsiTooLarge`] where a block would need encoding symbol ids above 2^24 - 1.
    pub fn get_encoded_packets(
        &self,
        repair_packets_per_block: u32,
    ) -> Result<Vec<EncodingPacket>, Error>
        ensures refused { IsAnswer (λ _. tt) result (packets_refusal (encoded_of self.now).configuration repair_packets_per_block) }
        ensures packets { IfOk result (λ v. ArePacketsOf (encoded_of self.now) repair_packets_per_block v.items) }
    {
        check_repair(&self.config, repair_packets_per_block)?;
        let mut packets = Vec::new(self.alloc);
        for block in &self.blocks {
            let end = block.source_symbol_count() + repair_packets_per_block;
            packets.extend(block.packets(0, end)?)?;
        }
        Ok(packets)
    }
}

impl Clone for Encoder {
    ghost use Rattle.raptorq.specs.Encoder.{encoded_of, block_slabs_of};

    ghost is_clone = { λ a b. (encoded_of b ≡ encoded_of a) × (block_slabs_of b ≡ block_slabs_of a) };

    fn clone(&self) -> Result<Encoder, AllocError> {
        Ok(Encoder {
            config: self.config,
            blocks: self.blocks.clone()?,
            alloc: self.alloc,
        })
    }
}

// The encoders of an object's blocks.
fn block_encoders(
    alloc: Global,
    table: &SystematicTable,
    object: &[u8],
    config: &ObjectTransmissionInformation,
) -> Result<Vec<SourceBlockEncoder>, Error>
    requires accepted { IsAccepted (greatest_size table.now) config.now }
    requires few { largest_block config.now < 65536 }
    ensures encoded { IfOk result (λ v. map block_encoded_of v.items ≡ blocks_encoded table.now config.now object.now) }
    ensures nonsingular { OnOk result (HasNonsingularRows table.now config.now) }
    ensures refused { IfErr result (RefusesRows table.now config.now) }
{
    let mut blocks = BlockwiseEncoder::new(alloc, table, object, config)?;
    let mut encoders = Vec::with_capacity(alloc, usize::from(config.source_blocks()))?;
    for number in 0..config.source_blocks() {
        let block = blocks.next_block(number)?;
        let encoder = SourceBlockEncoder::of_block(
            alloc,
            number,
            blocks.config,
            block,
            &blocks.plan,
        )?;
        encoders.push(encoder)?;
    }
    Ok(encoders)
}
