//! Configurations: how an object is cut (RFC 6330, 3.3 and 4.3), as twelve bytes.
ghost use Rattle.std.specs.Prelude.{◌≡◌};
ghost use Rattle.rq_bytes.specs.Refusals.{Answers};
ghost use Rattle.rq_standard.specs.Configuration.{header_bytes, configuration_of_bytes};
ghost use Rattle.rq_base.specs.RefusedInput.{new_configuration};
ghost use Rattle.raptorq_c.specs.Numbers.{refusal_number, Fills, IsNumber};
ghost use Rattle.raptorq_c.specs.Headers.{parameters_of, checked_header, cut_configuration, derived_configuration};

use crate::call_end::refusal;
use crate::tables::table;
use raptorq::ObjectTransmissionInformation;
use raptorq::base::CONFIGURATION_LENGTH;
use raptorq::error::Error;
use std::alloc::Global;

/// The numbers of a configuration. In C it is `reamertan_parameters`.
#[repr(C)]
#[derive(Clone, Copy)]
pub struct Parameters {
    /// The length of the object, in bytes.
    pub transfer_length: u64,
    /// The size of a symbol, in bytes.
    pub symbol_size: u16,
    /// The number of sub-blocks of a source block; 0 is read as 1.
    pub sub_blocks: u16,
    /// The number of source blocks.
    pub source_blocks: u8,
    /// The symbol alignment, in bytes.
    pub alignment: u8,
}

// Writes the configuration that was made, and answers the number.
fn write(
    made: Result<ObjectTransmissionInformation, Error>,
    configuration: &mut [u8; CONFIGURATION_LENGTH],
) -> u8
    ensures number { result ≡ refusal_number made }
    ensures fills { Fills header_bytes made result configuration.old configuration.new }
{
    match made {
        Ok(config) => {
            *configuration = config.serialize();
            0
        }
        Err(refusal) => refusal.code(),
    }
}

// The configuration of an object's length that a packet size and a decoder's memory ask for.
fn derived(
    alloc: Global,
    object_length: u64,
    packet_size: u16,
    decoder_memory: u64,
) -> Result<ObjectTransmissionInformation, Error>
    ensures { Answers (λ c. c) result (derived_configuration object_length packet_size decoder_memory) }
{
    let table = table(alloc)?;
    ObjectTransmissionInformation::generate_encoding_parameters(
        &table,
        object_length,
        packet_size,
        decoder_memory,
    )
}

/// What `ObjectTransmissionInformation::generate_encoding_parameters` answers of an object's length, for
/// packets of at most `packet_size` bytes of payload, and decoders each of whose sub-blocks fits
/// `decoder_memory` bytes, by default 10485760. Refuses what that refuses.
#[unsafe(no_mangle)]
pub extern "C" fn reamertan_derive_configuration(
    alloc: Global,
    object_length: u64,
    packet_size: u16,
    decoder_memory: u64,
    configuration: &mut [u8; CONFIGURATION_LENGTH],
) -> u8
    ensures { Fills header_bytes (derived_configuration object_length packet_size decoder_memory)
        result configuration.old configuration.new }
{
    match derived(alloc, object_length, packet_size, decoder_memory) {
        Ok(derived) => {
            *configuration = derived.serialize();
            0
        }
        Err(refusal) => refusal.code(),
    }
}

// The configuration of an object in symbols of a size, in as few blocks as have at most so many of them.
fn cut(
    object_length: u64,
    symbol_size: u16,
    block_symbols: u16,
) -> Result<ObjectTransmissionInformation, Error>
    ensures { result ≡ cut_configuration object_length symbol_size block_symbols }
{
    if symbol_size == 0 {
        return Err(Error::SymbolSizeZero);
    }
    if object_length == 0 {
        return Err(Error::TransferLengthZero);
    }
    if block_symbols == 0 {
        return Err(Error::TooManyBlocks);
    }
    let symbols = object_length.div_ceil(u64::from(symbol_size));
    let blocks = symbols.div_ceil(u64::from(block_symbols));
    if blocks > 255 {
        return Err(Error::TooManyBlocks);
    }
    ObjectTransmissionInformation::new(object_length, symbol_size, blocks as u8, 1, 1)
}

/// The configuration of an object of this length, in bytes, in symbols of `symbol_size` bytes, cut into
/// as few source blocks as have at most `block_symbols` symbols, with one sub-block and an alignment of 1.
///
/// Refuses a symbol size of 0, an object of 0 bytes, more than 255 blocks, and then what
/// `ObjectTransmissionInformation::new` refuses. Takes no memory.
#[unsafe(no_mangle)]
pub extern "C" fn reamertan_cut(
    object_length: u64,
    symbol_size: u16,
    block_symbols: u16,
    configuration: &mut [u8; CONFIGURATION_LENGTH],
) -> u8
    ensures number { result ≡ refusal_number (cut_configuration object_length symbol_size block_symbols) }
    ensures fills { Fills header_bytes (cut_configuration object_length symbol_size block_symbols) result configuration.old configuration.new }
{
    write(
        cut(object_length, symbol_size, block_symbols),
        configuration,
    )
}

/// The twelve bytes of a configuration of these numbers, refused as
/// `ObjectTransmissionInformation::new` refuses.
#[unsafe(no_mangle)]
pub extern "C" fn reamertan_write_configuration(
    parameters: &Parameters,
    configuration: &mut [u8; CONFIGURATION_LENGTH],
) -> u8
    ensures number { result ≡ refusal_number (new_configuration (parameters_of parameters.now)) }
    ensures fills { Fills header_bytes (new_configuration (parameters_of parameters.now)) result configuration.old configuration.new }
{
    let asked = ObjectTransmissionInformation::new(
        parameters.transfer_length,
        parameters.symbol_size,
        parameters.source_blocks,
        parameters.sub_blocks,
        parameters.alignment,
    );
    write(asked, configuration)
}

/// The numbers of the configuration that twelve bytes spell, whether or not coders take it.
#[unsafe(no_mangle)]
pub extern "C" fn reamertan_read_configuration(
    configuration: &[u8; CONFIGURATION_LENGTH],
    parameters: &mut Parameters,
)
    ensures { parameters_of parameters.new ≡ configuration_of_bytes configuration.now }
{
    let read = ObjectTransmissionInformation::deserialize(configuration);
    *parameters = Parameters {
        transfer_length: read.transfer_length(),
        symbol_size: read.symbol_size(),
        sub_blocks: read.sub_blocks(),
        source_blocks: read.source_blocks(),
        alignment: read.symbol_alignment(),
    };
}

// Tests that coders take a configuration.
fn check(alloc: Global, configuration: &[u8; CONFIGURATION_LENGTH]) -> Result<(), Error>
    ensures { IsNumber (refusal_number result) (checked_header configuration.now) }
{
    let table = table(alloc)?;
    ObjectTransmissionInformation::deserialize(configuration).check(&table)
}

/// Whether encoders and decoders take the configuration that twelve bytes spell:
/// `ObjectTransmissionInformation::check`. Refuses what that refuses.
#[unsafe(no_mangle)]
pub extern "C" fn reamertan_check_configuration(
    alloc: Global,
    configuration: &[u8; CONFIGURATION_LENGTH],
) -> u8
    ensures { IsNumber result (checked_header configuration.now) }
{
    refusal(check(alloc, configuration))
}
