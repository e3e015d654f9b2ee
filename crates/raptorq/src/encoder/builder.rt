//! Encoders by their parameters.
ghost use Rattle.std.specs.Prelude.{◌≡◌, length, IfOk, IfErr};
ghost use Rattle.raptorq.specs.Building.{default_settings, RefusesBuilding, IsBuilt};
ghost use Rattle.raptorq.specs.Encoder.{encoded_of};

use crate::encoder::Encoder;
use rq_base::base::{DEFAULT_DECODER_MEMORY, ObjectTransmissionInformation};
use rq_bytes::error::Error;
use rq_tables::systematic_constants::SystematicTable;
use std::alloc::Global;
use std::marker::Model;

/// Builds encoders whose configurations are made for a memory of decoders and a size of packets
/// (RFC 6330, section 4.3).
///
/// ```
/// let mut builder = EncoderBuilder::new();
/// builder.set_max_packet_size(1280); // bytes of a payload
/// builder.set_decoder_memory_requirement(1 << 20); // bytes for the symbols of a sub-block
/// let encoder = builder.build(alloc, table, object)?;
/// ```
#[derive(Clone, Debug, PartialEq, Eq, Drop)]
pub struct EncoderBuilder {
    decoder_memory_requirement: u64,
    max_packet_size: u16,
}

impl Model for EncoderBuilder {
    ghost use Rattle.raptorq.specs.Building.{Settings};

    ghost Value = { Settings };

    ghost view = { λ b. record { decoder_memory = b.decoder_memory_requirement; packet_size = b.max_packet_size } };

    ghost inverse = { λ s. record { decoder_memory_requirement = s.decoder_memory; max_packet_size = s.packet_size } };
}

impl EncoderBuilder {
    /// A builder for packets of at most 1024 bytes of payload, and decoders with 10 MiB of memory.
    pub fn new() -> EncoderBuilder
        ensures { result ≡ default_settings }
    {
        EncoderBuilder {
            decoder_memory_requirement: DEFAULT_DECODER_MEMORY,
            max_packet_size: 1024,
        }
    }

    /// Sets the memory, in bytes, that each sub-block is to fit.
    pub fn set_decoder_memory_requirement(&mut self, value: u64)
        ensures { self.new ≡ record self.old { decoder_memory = value } }
    {
        self.decoder_memory_requirement = value;
    }

    /// Sets the greatest size of a packet's payload, in bytes.
    pub fn set_max_packet_size(&mut self, value: u16)
        ensures { self.new ≡ record self.old { packet_size = value } }
    {
        self.max_packet_size = value;
    }

    /// The encoder of an object, in bytes, in the parameters that RFC 6330, section 4.3 derives.
    ///
    /// Refuses what [`ObjectTransmissionInformation::generate_encoding_parameters`] refuses, and
    /// then what [`Encoder::new`] refuses.
    pub fn build(
        &self,
        alloc: Global,
        table: &SystematicTable,
        object: &[u8],
    ) -> Result<Encoder, Error>
        ensures refused { IfErr result (RefusesBuilding table.now self.now (length object.now)) }
        ensures built { IfOk result (λ e. IsBuilt table.now self.now object.now (encoded_of e)) }
    {
        let config = ObjectTransmissionInformation::generate_encoding_parameters(
            table,
            object.len() as u64,
            self.max_packet_size,
            self.decoder_memory_requirement,
        )?;
        Encoder::new(alloc, table, object, config)
    }
}

impl Default for EncoderBuilder {
    ghost use Rattle.raptorq.specs.Building.{default_settings};

    ghost is_default = { λ b. b ≡ default_settings };

    fn default() -> Self {
        Self::new()
    }
}
