//! An object in, its stream out.
ghost use Rattle.std.specs.Prelude.{◌^◌, ◌-◌, ◌<◌, Some};
ghost use Rattle.rq_streams.specs.Counted.{failed_count, inner};
ghost use Rattle.rq_streams.specs.Ends.{AnswersAs, EndsAtFailure};
ghost use Rattle.rq_streams.specs.Sent.{IsSent, SendsAll};

use crate::counted::Counted;
use crate::run::{Outcome, Stop, finish, read_all};
use raptorq::ObjectTransmissionInformation;
use raptorq::encoder::encode_all;
use raptorq::error::Error;
use raptorq::systematic_constants::SystematicTable;
use std::alloc::Global;
use std::io::{Read, Write};

// The stream of an object: its header, and then its packets.
fn sent_stream(
    alloc: Global,
    table: &SystematicTable,
    object: Vec<u8>,
    packet_size: u16,
    repair: u32,
) -> Result<Vec<u8>, Error>
    ensures { AnswersAs (λ stream. Some stream.items) result (IsSent table.now packet_size repair object.items) }
{
    let length = object.len() as u64;
    let config = ObjectTransmissionInformation::with_defaults(table, length, packet_size)?;
    let mut stream = Vec::from_slice(alloc, &config.serialize())?;
    encode_all(
        alloc,
        table,
        object.as_slice(),
        &config,
        repair,
        &mut stream,
    )?;
    Ok(stream)
}

/// Reads an object and writes its stream: the 12 bytes of its default configuration for packets of
/// at most `packet_size` bytes of payload, and then its packets, `repair` of them a block being
/// repair packets, each with its payload id of 4 bytes, in order.
///
/// Refuses, in this order, what [`ObjectTransmissionInformation::with_defaults`] refuses, and what
/// [`encode_all`] refuses. [`Error::OutOfMemory`] may come before any of them.
pub fn run_send<R: Read, W: Write>(
    alloc: Global,
    table: &SystematicTable,
    reader: &mut Counted<R>,
    writer: &mut Counted<W>,
    packet_size: u16,
    repair: u32,
) -> Result<Outcome, Stop>
    requires reads { failed_count reader.old < 2 ^ 64 - 1 }
    requires writes { failed_count writer.old < 2 ^ 64 - 1 }

    // The first failed call ends the run, and nothing else is a fault.
    ensures failures { EndsAtFailure reader.old writer.old result reader.new writer.new
        (W.contents (inner writer.old)) (W.contents (inner writer.new)) }

    // The stream of what is read, or the first refusal in the written order.
    ensures ends { SendsAll table.now packet_size repair result
        (R.remaining (inner reader.old)) (W.contents (inner writer.old)) (W.contents (inner writer.new)) }
{
    let object = read_all(alloc, reader)?;
    let stream = sent_stream(alloc, table, object, packet_size, repair)?;
    finish(writer, stream)
}
