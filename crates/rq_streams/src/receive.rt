//! A stream in, its object out.
ghost use Rattle.std.specs.Prelude.{◌≡◌, ℕ, ◌+◌, ◌^◌, ◌-◌, ◌<◌, ◌≤◌, length, take, Ok, OnOk, OnErr, IfOk, IfErr, IsSome};
ghost use Rattle.std.specs.Io.KnownBytes.{Appends};
ghost use Rattle.raptorq.specs.Decoder.{state_of};
ghost use Rattle.rq_streams.specs.Counted.{failed_count, inner};
ghost use Rattle.rq_standard.specs.Streams.{frame_size};
ghost use Rattle.rq_standard.specs.DecoderState.{result_of};
ghost use Rattle.rq_streams.specs.Ends.{AnswersAs, Ends, EndsAtFailure, failed_calls};
ghost use Rattle.rq_streams.specs.Frames.{header_length, kept_packet, skipped_in, skipped_in_bytes};
ghost use Rattle.rq_streams.specs.ReceivedStreams.{header_configuration, object_of, FollowsFrames, AnswersFrames, StopsHonestFrames, IsStreamAnswer, IsWantedOf, AnswersStream, RefusesStream, Receives};

use crate::counted::Counted;
use crate::run::{Outcome, Stop, flush, read_all, write_bytes};
use raptorq::base::CONFIGURATION_LENGTH;
use raptorq::error::Error;
use raptorq::systematic_constants::SystematicTable;
use raptorq::{Decoder, EncodingPacket, ObjectTransmissionInformation};
use std::alloc::Global;
use std::io::{Read, Write};

// The configuration in a stream's header, whether or not coders take it.
fn header_configuration(bytes: &[u8]) -> Result<ObjectTransmissionInformation, Error>
    ensures value { result ≡ header_configuration bytes.now }
    ensures long { OnOk result (header_length ≤ length bytes.now) }
{
    match bytes.first_chunk::<CONFIGURATION_LENGTH>() {
        Some(header) => Ok(ObjectTransmissionInformation::deserialize(header)),
        None => Err(Error::HeaderTooShort),
    }
}

// The packet of a frame of `size` bytes. A frame that is skipped has none.
fn frame_packet(
    alloc: Global,
    config: &ObjectTransmissionInformation,
    size: usize,
    frame: &[u8],
) -> Result<Option<EncodingPacket>, Error>
    requires { size ≡ frame_size config.now }
    ensures packet { IfOk result (λ packet. packet ≡ kept_packet config.now frame.now) }
    ensures memory { IfErr result (λ e. e ≡ Error.OutOfMemory) }
{
    if frame.len() < size {
        return Ok(None);
    }
    let packet = EncodingPacket::deserialize(alloc, frame)?;
    if packet.payload_id().source_block_number() < config.source_blocks() {
        Ok(Some(packet))
    } else {
        Ok(None)
    }
}

// Hands the packets of the frames to the decoder, in order, and answers how many frames are skipped.
fn add_frames(
    alloc: Global,
    decoder: &mut Decoder,
    config: &ObjectTransmissionInformation,
    frames: &[u8],
) -> Result<u64, Error>
    requires { config.now ≡ (state_of decoder.old).configuration }
    ensures skipped { IfOk result (λ n. n ≡ skipped_in_bytes config.now frames.now) }
    ensures refused { AnswersFrames config.now (state_of decoder.old) frames.now result }
    ensures honest { IfErr result (StopsHonestFrames config.now (state_of decoder.old) frames.now) }
    ensures configuration { (state_of decoder.new).configuration ≡ (state_of decoder.old).configuration }
    ensures follows { OnOk result (FollowsFrames config.now (state_of decoder.old) frames.now (state_of decoder.new)) }
{
    let size = config.frame_size();
    let mut skipped = 0;
    for frame in frames.chunks(size) {
        match frame_packet(alloc, config, size, frame)? {
            Some(packet) => decoder.add_new_packet(packet)?,
            None => skipped += 1,
        }
    }
    Ok(skipped)
}

// The decoder that took the packets of a stream, and how many frames are skipped.
fn received(alloc: Global, table: &SystematicTable, bytes: Vec<u8>) -> Result<(Decoder, u64), Error>
    ensures refused { AnswersAs (λ r. result_of (state_of r.0)) result (IsWantedOf table.now bytes.items) }
    ensures follows { IfOk result (λ r. IsStreamAnswer table.now bytes.items (result_of (state_of r.0))) }
    ensures answer { IfOk result (λ r. AnswersStream table.now bytes.items (result_of (state_of r.0))) }
    ensures memory { IfErr result (RefusesStream table.now bytes.items) }
    ensures skipped { IfOk result (λ r. r.1 ≡ skipped_in bytes.items) }
{
    let stream = bytes.as_slice();
    let config = header_configuration(stream)?;
    let mut decoder = Decoder::new(alloc, table, config)?;
    let skipped = add_frames(
        alloc,
        &mut decoder,
        &config,
        &stream[CONFIGURATION_LENGTH..],
    )?;
    Ok((decoder, skipped))
}

// Writes the blocks one after another, as they stand: the object is never put together.
fn write_blocks<W: Write>(writer: &mut Counted<W>, decoder: &Decoder) -> Result<(), Stop>
    requires room { failed_count writer.old < 2 ^ 64 - 1 }
    requires whole { IsSome (result_of (state_of decoder.now)) }
    ensures bytes { OnOk result (Appends (W.contents (inner writer.old)) (W.contents (inner writer.new)) (object_of decoder.now)) }
    ensures counts { failed_count writer.new ≡ failed_count writer.old + failed_calls result }
    ensures err { IfErr result (λ stop. stop ≡ Stop.Fault) }
    ensures beginning { OnErr result ((n : ℕ)
        × Appends (W.contents (inner writer.old)) (W.contents (inner writer.new)) (take n (object_of decoder.now))) }
{
    for number in 0..decoder.get_config().source_blocks() {
        if let Some(bytes) = decoder.block_bytes(number) {
            write_bytes(writer, bytes)?;
        }
    }
    Ok(())
}

// Writes the object that a decoder has answered, block after block, and flushes then. Where it has
// answered none nothing is written, which is [`Outcome::Incomplete`]. The first failed call ends it
// with [`Stop::Fault`], and a beginning of the object may be written.
fn write_object<W: Write>(writer: &mut Counted<W>, decoder: &Decoder) -> Result<Outcome, Stop>
    requires { failed_count writer.old < 2 ^ 64 - 1 }
    ensures counts { failed_count writer.new ≡ failed_count writer.old + failed_calls result }
    ensures ends { Ends result (W.contents (inner writer.old)) (W.contents (inner writer.new)) (Ok (result_of (state_of decoder.now))) }
{
    if !decoder.is_complete() {
        return Ok(Outcome::Incomplete);
    }
    write_blocks(writer, decoder)?;
    flush(writer)?;
    Ok(Outcome::Written)
}

/// Reads a stream and writes its object: the 12 bytes of a configuration, and then frames of a
/// payload id and a symbol. Answers how many frames it skipped beside the outcome.
///
/// A frame that can't be used is skipped and counted: one whose block is none of the object's, and
/// a last one that isn't whole. Frames are cut at the size of a payload id and a symbol, whatever
/// they hold. A packet that came before isn't skipped.
///
/// Over a stream of an object's packets, any number of times and in any order, with any such frames
/// between them and behind them, the object is written exactly where the packets determine it, and
/// else nothing. So it is for a stream of [`run_send`](crate::run_send) from which frames were
/// removed, or in which they were repeated or moved.
///
/// Refuses, in this order, [`Error::HeaderTooShort`] below 12 bytes, what
/// [`ObjectTransmissionInformation::check`] refuses, and [`Error::Contradiction`] at a frame where
/// [`Decoder::add_new_packet`] refuses its packet so, and then nothing is written.
/// [`Error::OutOfMemory`] may come before any of them, and at any frame.
pub fn run_receive<R: Read, W: Write>(
    alloc: Global,
    table: &SystematicTable,
    reader: &mut Counted<R>,
    writer: &mut Counted<W>,
) -> Result<(Outcome, u64), Stop>
    requires reads { failed_count reader.old < 2 ^ 64 - 1 }
    requires writes { failed_count writer.old < 2 ^ 64 - 1 }

    // The first failed call ends the run, and nothing else is a fault.
    ensures failures { EndsAtFailure reader.old writer.old result reader.new writer.new
        (W.contents (inner writer.old)) (W.contents (inner writer.new)) }

    // Of any bytes the first refusal, and then nothing is written; else what their packets answer, and
    // how many frames are skipped. Of an object's packets among other frames the object, exactly where
    // they determine it, and no receiver can do better.
    ensures receives { Receives table.now result
        (R.remaining (inner reader.old)) (W.contents (inner writer.old)) (W.contents (inner writer.new)) }
{
    let bytes = read_all(alloc, reader)?;
    let (decoder, skipped) = received(alloc, table, bytes)?;
    Ok((write_object(writer, &decoder)?, skipped))
}
