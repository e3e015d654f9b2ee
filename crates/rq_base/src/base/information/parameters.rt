//! How an object is cut by default (RFC 6330, section 4.3).
ghost use Rattle.std.specs.Prelude.{◌≡◌, ◌<◌, ◌≤◌, IfOk};
ghost use Rattle.rq_standard.specs.Parameters.{alignment_for, symbol_size_for, most_sub_blocks, fitting_block, is_fitting, first_from};

use super::{MAX_TRANSFER_LENGTH, ObjectTransmissionInformation, total_symbols};
use rq_bytes::error::Error;
use rq_tables::systematic_constants::SystematicTable;

/// The memory that a decoder is taken to have where nothing else is said, in bytes. Not in the Rust
/// crate.
pub const DEFAULT_DECODER_MEMORY: u64 = 10485760;

impl ObjectTransmissionInformation {
    ghost use Rattle.rq_base.specs.Defaults.{wanted_parameters, default_memory, HasLeastSubBlocks};

    /// A configuration for an object of `transfer_length` bytes in packets of at most
    /// `max_packet_size` bytes of payload, for decoders with 10 MiB of memory (RFC 6330, section
    /// 4.3).
    ///
    /// Refuses what [`Self::generate_encoding_parameters`] does.
    pub fn with_defaults(
        table: &SystematicTable,
        transfer_length: u64,
        max_packet_size: u16,
    ) -> Result<ObjectTransmissionInformation, Error>
        ensures { result ≡ wanted_parameters table.now transfer_length max_packet_size default_memory }
    {
        Self::generate_encoding_parameters(
            table,
            transfer_length,
            max_packet_size,
            DEFAULT_DECODER_MEMORY,
        )
    }

    /// A configuration for an object of `transfer_length` bytes in packets of at most
    /// `max_packet_size` bytes of payload, each of whose sub-blocks fits
    /// `decoder_memory_requirement` bytes (RFC 6330, section 4.3). There are as few source blocks
    /// as that allows, and then as few sub-blocks. From 64 bytes on symbols are a multiple of 8
    /// bytes.
    ///
    /// Refuses, in this order, [`Error::PacketSizeZero`], [`Error::TransferLengthZero`],
    /// [`Error::TransferTooLong`] above 942574504275 bytes, [`Error::MemoryRequirementTooSmall`]
    /// where no row of the table fits, and [`Error::TooManyBlocks`] where more than 255 source
    /// blocks are needed.
    pub fn generate_encoding_parameters(
        table: &SystematicTable,
        transfer_length: u64,
        max_packet_size: u16,
        decoder_memory_requirement: u64,
    ) -> Result<ObjectTransmissionInformation, Error>
        ensures value { result ≡ wanted_parameters table.now transfer_length max_packet_size decoder_memory_requirement }
        ensures least { IfOk result (HasLeastSubBlocks table.now transfer_length max_packet_size decoder_memory_requirement) }
    {
        if max_packet_size == 0 {
            return Err(Error::PacketSizeZero);
        }
        if transfer_length == 0 {
            return Err(Error::TransferLengthZero);
        }
        if transfer_length > MAX_TRANSFER_LENGTH {
            return Err(Error::TransferTooLong);
        }
        let most = most_sub_blocks(max_packet_size);
        let greatest = fitting_block(table, max_packet_size, decoder_memory_requirement, most);
        if greatest == 0 {
            return Err(Error::MemoryRequirementTooSmall);
        }
        let symbol_size = symbol_size(max_packet_size);
        let symbols = total_symbols(transfer_length, symbol_size);
        let blocks = symbols.div_ceil(u64::from(greatest));
        if blocks > 255 {
            return Err(Error::TooManyBlocks);
        }
        let largest = symbols.div_ceil(blocks);
        Ok(ObjectTransmissionInformation {
            transfer_length,
            symbol_size,
            num_source_blocks: blocks as u8,
            num_sub_blocks: least_sub_blocks(
                table,
                max_packet_size,
                decoder_memory_requirement,
                largest,
            ),
            symbol_alignment: alignment(max_packet_size),
        })
    }
}

// Al, in bytes.
fn alignment(packet_size: u16) -> u8
    ensures value { result ≡ alignment_for packet_size }
    ensures positive { 0 < result }
    ensures small { result ≤ 8 }
{
    if packet_size >= 64 { 8 } else { 1 }
}

// T, in bytes.
fn symbol_size(packet_size: u16) -> u16
    requires { 0 < packet_size }
    ensures value { result ≡ symbol_size_for packet_size }
    ensures positive { 0 < result }
    ensures aligned { alignment_for packet_size ≤ result }
{
    packet_size - packet_size % u16::from(alignment(packet_size))
}

// The greatest number of sub-blocks.
fn most_sub_blocks(packet_size: u16) -> u16
    requires { 0 < packet_size }
    ensures value { result ≡ most_sub_blocks packet_size }
    ensures positive { 0 < result }
    ensures small { result < 1024 }
{
    if packet_size >= 64 {
        symbol_size(packet_size) / 64
    } else {
        symbol_size(packet_size)
    }
}

// The greatest number of symbols of a block that is cut into `sub_blocks` sub-blocks which fit the
// memory; 0 where no row fits.
fn fitting_block(table: &SystematicTable, packet_size: u16, memory: u64, sub_blocks: u16) -> u32
    requires size { 0 < packet_size }
    requires some { 0 < sub_blocks }
    ensures { result ≡ fitting_block table.now packet_size memory sub_blocks }
{
    let alignment = u64::from(alignment(packet_size));
    let units = u64::from(symbol_size(packet_size)).div_ceil(alignment * u64::from(sub_blocks));
    table.greatest_within(memory / (alignment * units))
}

// The least number of sub-blocks with which a block of `source_symbols` symbols (K) fits the memory,
// or one more than the greatest number of them.
fn least_sub_blocks(
    table: &SystematicTable,
    packet_size: u16,
    memory: u64,
    source_symbols: u64,
) -> u16
    requires { 0 < packet_size }
    ensures { result ≡ first_from (is_fitting table.now packet_size memory source_symbols) 1 (most_sub_blocks packet_size) }
{
    let end = most_sub_blocks(packet_size) + 1;
    for sub_blocks in 1..end {
        if source_symbols <= u64::from(fitting_block(table, packet_size, memory, sub_blocks)) {
            return sub_blocks;
        }
    }
    end
}
