//! An object in, its packets out.
ghost use Rattle.raptorq_c.specs.Numbers.{number_of};
ghost use Rattle.raptorq_c.specs.PacketBuffers.{FillsWithPackets};

use crate::buffers::fill;
use crate::call_end::{CallEnd, number};
use crate::tables::table;
use raptorq::ObjectTransmissionInformation;
use raptorq::base::CONFIGURATION_LENGTH;
use raptorq::encoder::encode_all;
use std::alloc::Global;

// Fills a buffer with the packets of an object. They are made beside it: memory may be refused at any
// block, and then the buffer stays as it was.
fn encode(
    alloc: Global,
    configuration: &[u8; CONFIGURATION_LENGTH],
    object: &[u8],
    repair: u32,
    packets: &mut [u8],
) -> Result<(), CallEnd>
    ensures { FillsWithPackets configuration.now object.now repair (number_of result) packets.old packets.new }
{
    let table = table(alloc)?;
    let config = ObjectTransmissionInformation::deserialize(configuration);
    let mut bytes = Vec::new(alloc);
    encode_all(alloc, &table, object, &config, repair, &mut bytes)?;
    fill(packets, bytes.as_slice())
}

/// Fills a buffer with the packets of an object, each its payload id of 4 bytes and a symbol: block by
/// block those of the source symbols, and then of `repair` repair symbols (RFC 6330, 4.4.2 and 5.3).
///
/// Refuses what `encode_all` refuses, and then a buffer that hasn't the packets' length. Want
/// of memory may come before any of them.
#[unsafe(no_mangle)]
pub extern "C" fn reamertan_encode(
    alloc: Global,
    configuration: &[u8; CONFIGURATION_LENGTH],
    object: &[u8],
    repair: u32,
    packets: &mut [u8],
) -> u8
    ensures { FillsWithPackets configuration.now object.now repair result packets.old packets.new }
{
    number(encode(alloc, configuration, object, repair, packets))
}
