//! Packets in, their object out.
ghost use Rattle.rq_rows.specs.FullTable.{full_rows};
ghost use Rattle.rq_standard.specs.Configuration.{configuration_of_bytes};
ghost use Rattle.raptorq_c.specs.ObjectBuffers.{FillsWithObject};
ghost use Rattle.raptorq_c.specs.Numbers.{number_of};

use crate::call_end::{CallEnd, number};
use crate::decoders::write_all;
use crate::frames::add_frames;
use crate::tables::table;
use raptorq::base::CONFIGURATION_LENGTH;
use raptorq::systematic_constants::SystematicTable;
use raptorq::{Decoder, ObjectTransmissionInformation};
use std::alloc::Global;

// Fills a buffer with the object of packets in a configuration, where they determine it.
fn decode_in(
    alloc: Global,
    table: &SystematicTable,
    config: ObjectTransmissionInformation,
    packets: &[u8],
    object: &mut [u8],
) -> Result<(), CallEnd>
    ensures { FillsWithObject table.now config packets.now (number_of result) object.old object.new }
{
    let mut steps = Vec::new(alloc);
    add_frames(alloc, &mut steps, config.frame_size(), packets)?;
    let decoder = Decoder::receive_all(alloc, table, config, steps)?;
    write_all(&decoder, object)
}

// The same of the configuration that twelve bytes spell, over all rows.
fn decode(
    alloc: Global,
    configuration: &[u8; CONFIGURATION_LENGTH],
    packets: &[u8],
    object: &mut [u8],
) -> Result<(), CallEnd>
    ensures { FillsWithObject full_rows (configuration_of_bytes configuration.now) packets.now (number_of result) object.old object.new }
{
    let table = table(alloc)?;
    let config = ObjectTransmissionInformation::deserialize(configuration);
    decode_in(alloc, &table, config, packets, object)
}

/// Fills a buffer with the object of packets, in any order, each any number of times, where they
/// determine it. The packets are cut at the length of a payload id and a symbol.
///
/// Refuses a last packet that is shorter than a payload id, then what `decode_all` refuses,
/// packets that contradict each other among it (22), then packets that don't determine the object, and
/// then a buffer that hasn't the object's length. Want of memory may come before any of them.
#[unsafe(no_mangle)]
pub extern "C" fn reamertan_decode(
    alloc: Global,
    configuration: &[u8; CONFIGURATION_LENGTH],
    packets: &[u8],
    object: &mut [u8],
) -> u8
    ensures { FillsWithObject full_rows (configuration_of_bytes configuration.now) packets.now result object.old object.new }
{
    number(decode(alloc, configuration, packets, object))
}
