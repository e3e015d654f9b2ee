//! When a decoder answers.
use raptorq::error::Error;
use raptorq::systematic_constants::SystematicTable;
use raptorq::{Decoder, EncodingPacket, ObjectTransmissionInformation};
use std::alloc::Global;

/// How many packets there are, and after how many of them a decoder answers the wanted object; 0 for
/// never, and `None` where it answers another one.
pub fn answered(
    alloc: Global,
    table: &SystematicTable,
    config: ObjectTransmissionInformation,
    wanted: &[u8],
    packets: Vec<EncodingPacket>,
) -> Result<(usize, Option<usize>), Error> {
    let length = packets.len();
    let mut decoder = Decoder::new(alloc, table, config)?;
    let mut count: usize = 0;
    for packet in packets {
        count = count.saturating_add(1);
        if let Some(answer) = decoder.decode(packet)? {
            let is_wanted = answer.as_slice() == wanted;
            return Ok((length, is_wanted.then_some(count)));
        }
    }
    Ok((length, Some(0)))
}
