//! How many bytes the blocks and the packets of an object take.
ghost use Rattle.raptorq_c.specs.Numbers.{number_of, Fills};
ghost use Rattle.raptorq_c.specs.Sizes.{part_of_block, bytes_of_packets, range_between};

use crate::call_end::{CallEnd, number};
use crate::tables::table;
use raptorq::base::CONFIGURATION_LENGTH;
use raptorq::error::Error;
use raptorq::{ObjectTransmissionInformation, calculate_block_offsets, encoder};
use std::alloc::Global;

/// Where bytes begin, and where they end. In C it is `reamertan_range`.
#[repr(C)]
#[derive(Clone, Copy)]
pub struct Range {
    /// The place of the first byte.
    pub start: u64,
    /// The place behind the last byte.
    pub end: u64,
}

// Writes where a source block begins and where it ends.
fn block_range(
    alloc: Global,
    configuration: &[u8; CONFIGURATION_LENGTH],
    block: u8,
    range: &mut Range,
) -> Result<(), CallEnd>
    ensures { Fills range_between (part_of_block configuration.now block) (number_of result) range.old range.new }
{
    let config = ObjectTransmissionInformation::deserialize(configuration);
    let offsets = calculate_block_offsets(alloc, &[], &config)?;
    if block >= config.source_blocks() {
        return Err(CallEnd::Refused(Error::UnknownBlock));
    }
    let (start, end) = offsets[usize::from(block)];
    *range = Range {
        start: start as u64,
        end: end as u64,
    };
    Ok(())
}

/// Where a source block begins and where it ends in its object, in bytes (RFC 6330, 4.4.1.2): whole
/// symbols, so the last blocks can end past the object.
///
/// Refuses what `calculate_block_offsets` refuses, and then a number that no source block has. Want
/// of memory may come before any of them.
#[unsafe(no_mangle)]
pub extern "C" fn reamertan_block_range(
    alloc: Global,
    configuration: &[u8; CONFIGURATION_LENGTH],
    block: u8,
    range: &mut Range,
) -> u8
    ensures { Fills range_between (part_of_block configuration.now block) result range.old range.new }
{
    number(block_range(alloc, configuration, block, range))
}

// Writes how many bytes the packets of an object take.
fn packets_length(
    alloc: Global,
    configuration: &[u8; CONFIGURATION_LENGTH],
    repair: u32,
    length: &mut u64,
) -> Result<(), CallEnd>
    ensures { Fills (λ bytes. bytes) (bytes_of_packets configuration.now repair) (number_of result) length.old length.new }
{
    let table = table(alloc)?;
    let config = ObjectTransmissionInformation::deserialize(configuration);
    config.check(&table)?;
    *length = encoder::packets_length(&config, repair)?;
    Ok(())
}

/// How many bytes the packets of an object take, those of its source symbols and of `repair` repair
/// symbols a block: what `reamertan_encode` fills.
///
/// Refuses what `ObjectTransmissionInformation::check` refuses, and then what
/// `Encoder::get_encoded_packets` refuses. Want of memory may come before any of them.
#[unsafe(no_mangle)]
pub extern "C" fn reamertan_packets_length(
    alloc: Global,
    configuration: &[u8; CONFIGURATION_LENGTH],
    repair: u32,
    length: &mut u64,
) -> u8
    ensures { Fills (λ bytes. bytes) (bytes_of_packets configuration.now repair) result length.old length.new }
{
    number(packets_length(alloc, configuration, repair, length))
}
