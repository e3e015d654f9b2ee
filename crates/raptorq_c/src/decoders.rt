//! Decoders of objects that C keeps: packets in, and the object once they determine it.
ghost use Rattle.std.specs.Prelude.{◌≡◌, ◌≢◌, None, IsSome, IsSomeAnd, OnOk, OnErr, is_some, slice_index};
ghost use Rattle.rq_bytes.specs.Refusals.{Answers};
ghost use Rattle.rq_standard.specs.DecoderState.{result_of};
ghost use Rattle.raptorq.specs.Decoder.{state_of};
ghost use Rattle.raptorq_c.specs.Coders.{kept_coder, slot_as, decoder_in, kept_as, Changes};
ghost use Rattle.raptorq_c.specs.Decoders.{gets_block, has_block as has_block_of, FillsWithBlock, FillsWithResult, IsNewDecoder, WritesMissing};
ghost use Rattle.raptorq_c.specs.Frames.{AreAdded, IsAdded};
ghost use Rattle.rq_standard.specs.Streams.{frame_size};
ghost use Rattle.raptorq_c.specs.Headers.{checked_header};
ghost use Rattle.raptorq_c.specs.Numbers.{number_of, refusal_number, IsNumber};

use crate::buffers::fill_answer;
use crate::call_end::{CallEnd, number, refusal};
use crate::frames::{Receiver, add_whole};
use crate::kept::{Coder, Kept, of_kept};
use crate::slot::Slot;
use crate::tables::table;
use raptorq::base::CONFIGURATION_LENGTH;
use raptorq::error::Error;
use raptorq::{Decoder, ObjectTransmissionInformation};
use std::alloc::Global;

// Makes the decoder of an object in this configuration, behind a null pointer.
fn open(
    alloc: Global,
    decoder: &mut Slot,
    configuration: &[u8; CONFIGURATION_LENGTH],
) -> Result<(), Error>
    requires { decoder.old.value ≡ None }
    ensures refused { Answers (λ _. tt) result (checked_header configuration.now) }
    ensures decoder { OnOk result (IsSomeAnd (slot_as decoder_in decoder.new) (IsNewDecoder configuration.now)) }
    ensures null { OnErr result (decoder.new.value ≡ None) }
{
    let table = table(alloc)?;
    let config = ObjectTransmissionInformation::deserialize(configuration);
    let made = Decoder::new(alloc, &table, config)?;
    decoder.keep(alloc, Coder::Decoder(made))
}

/// Makes the decoder of an object in this configuration, and writes a pointer to it over a null one.
///
/// Refuses what `Decoder::new` refuses, or for want of memory. The pointer stays null then.
#[unsafe(no_mangle)]
pub extern "C" fn reamertan_decoder_open(
    alloc: Global,
    decoder: &mut Slot,
    configuration: &[u8; CONFIGURATION_LENGTH],
) -> u8
    requires null { decoder.old.value ≡ None }
    ensures number { IsNumber result (checked_header configuration.now) }
    ensures decoder { result ≡ 0 → IsSomeAnd (slot_as decoder_in decoder.new) (IsNewDecoder configuration.now) }
    ensures null { result ≢ 0 → decoder.new.value ≡ None }
{
    refusal(open(alloc, decoder, configuration))
}

// Whether an object's block is answered.
fn has_block(decoder: &Decoder, block: u8) -> bool
    ensures { result ≡ has_block_of (state_of decoder.now) block }
{
    decoder.block_bytes(block).is_some()
}

// Takes the packet that bytes spell, and writes whether its block is answered by it.
fn add_telling(
    alloc: Global,
    decoder: &mut Decoder,
    packet: &[u8],
    completes: &mut bool,
) -> Result<(), Error>
    ensures added { IsAdded decoder.old packet.now (refusal_number result) decoder.new }
    ensures told { completes.new ≡ gets_block (state_of decoder.old) (state_of decoder.new) (slice_index packet.now 0) }
{
    let block = packet.first().copied().unwrap_or(0);
    let had = has_block(decoder, block);
    let ended = decoder.add_bytes(alloc, packet);
    *completes = !had && has_block(decoder, block);
    ended
}

/// Takes a packet, a payload id of 4 bytes and a symbol, and writes whether its block is complete by it.
///
/// Refuses bytes that are shorter than a payload id, and then what `Decoder::add_new_packet` refuses, a
/// contradiction (22) last: the packet is then recorded. Want of memory may come before what that call
/// refuses. The packet may then be recorded, unless it is of a block that the object hasn't, or of
/// another size.
#[unsafe(no_mangle)]
pub extern "C" fn reamertan_decoder_add_packet(
    alloc: Global,
    decoder: &mut Kept,
    packet: &[u8],
    completes: &mut bool,
) -> u8
    requires { IsSome (kept_as decoder_in decoder.old) }
    ensures added { Changes (kept_as decoder_in decoder.old) (kept_as decoder_in decoder.new) (λ old new. IsAdded old packet.now result new) }
    ensures told { Changes (kept_as decoder_in decoder.old) (kept_as decoder_in decoder.new) (λ old new. completes.new ≡ gets_block (state_of old) (state_of new) (slice_index packet.now 0)) }
{
    refusal(
        of_kept!(decoder, alloc, Decoder, inner => add_telling(alloc, inner, packet, completes)),
    )
}

/// Takes packets that lie one behind another, each a payload id of 4 bytes and a symbol, in their order.
///
/// Refuses `WrongPayloadSize`, before any packet is taken, where the bytes are no whole number of packets,
/// and then as `reamertan_decoder_add_packet` refuses the first packet that it refuses. Those before it
/// are taken, and those behind it aren't.
#[unsafe(no_mangle)]
pub extern "C" fn reamertan_decoder_add_packets(
    alloc: Global,
    decoder: &mut Kept,
    packets: &[u8],
) -> u8
    requires { IsSome (kept_as decoder_in decoder.old) }
    ensures { Changes (kept_as decoder_in decoder.old) (kept_as decoder_in decoder.new) (λ old new. AreAdded IsAdded (frame_size (state_of old).configuration) old packets.now result new) }
{
    refusal(of_kept!(decoder, alloc, Decoder, inner => {
        let size = inner.get_config().frame_size();
        add_whole(alloc, inner, size, packets)
    }))
}

/// Whether the packets that were taken determine the object.
#[unsafe(no_mangle)]
pub extern "C" fn reamertan_decoder_is_complete(alloc: Global, decoder: &mut Kept) -> bool
    requires { IsSome (kept_as decoder_in decoder.old) }
    ensures complete { IsSomeAnd (kept_as decoder_in decoder.old) (λ d. result ≡ is_some (result_of (state_of d))) }
    ensures same { kept_coder decoder.new ≡ kept_coder decoder.old }
{
    of_kept!(decoder, alloc, Decoder, inner => inner.is_complete())
}

// Writes how many packets more a block needs at least.
fn write_missing(decoder: &Decoder, block: u8, packets: &mut u32) -> Result<(), Error>
    ensures { WritesMissing decoder.now block (refusal_number result) packets.old packets.new }
{
    let Some(count) = decoder.missing_packets(block)? else {
        return Err(Error::Contradiction);
    };
    *packets = count;
    Ok(())
}

/// Writes how many packets more source block `block` needs at least, of ids that weren't taken yet:
/// what `Decoder::missing_packets` answers.
///
/// Refuses a number that no source block has, and a block whose packets were found to contradict each
/// other (22).
#[unsafe(no_mangle)]
pub extern "C" fn reamertan_decoder_missing(
    alloc: Global,
    decoder: &mut Kept,
    block: u8,
    packets: &mut u32,
) -> u8
    requires { IsSome (kept_as decoder_in decoder.old) }
    ensures writes { IsSomeAnd (kept_as decoder_in decoder.old) (λ d. WritesMissing d block result packets.old packets.new) }
    ensures same { kept_coder decoder.new ≡ kept_coder decoder.old }
{
    refusal(of_kept!(decoder, alloc, Decoder, inner => write_missing(inner, block, packets)))
}

// Fills a buffer with the object's bytes in a block.
fn write_part(decoder: &Decoder, block: u8, bytes: &mut [u8]) -> Result<(), CallEnd>
    ensures { FillsWithBlock (state_of decoder.now) block (number_of result) bytes.old bytes.new }
{
    if block >= decoder.get_config().source_blocks() {
        return Err(CallEnd::Refused(Error::UnknownBlock));
    }
    fill_answer(bytes, decoder.block_bytes(block))
}

/// Fills a buffer with the object's bytes in source block `block`, where its packets determine the
/// block: what `Decoder::block_bytes` lends. They end where the object does.
///
/// Refuses a number that no source block has, then packets that don't determine the block or contradict
/// each other (25), and then a buffer that hasn't the bytes' length (24).
#[unsafe(no_mangle)]
pub extern "C" fn reamertan_decoder_write_block(
    alloc: Global,
    decoder: &mut Kept,
    block: u8,
    bytes: &mut [u8],
) -> u8
    requires { IsSome (kept_as decoder_in decoder.old) }
    ensures fills { IsSomeAnd (kept_as decoder_in decoder.old) (λ d. FillsWithBlock (state_of d) block result bytes.old bytes.new) }
    ensures same { kept_coder decoder.new ≡ kept_coder decoder.old }
{
    number(of_kept!(decoder, alloc, Decoder, inner => write_part(inner, block, bytes)))
}

/// Fills a buffer with the object, where it is there.
pub(crate) fn write_all(decoder: &Decoder, object: &mut [u8]) -> Result<(), CallEnd>
    ensures { FillsWithResult (state_of decoder.now) (number_of result) object.old object.new }
{
    if !decoder.is_complete() {
        return Err(CallEnd::Incomplete);
    }
    if object.len() as u64 != decoder.get_config().transfer_length() {
        return Err(CallEnd::WrongBuffer);
    }
    decoder.write_result(object);
    Ok(())
}

/// Fills a buffer with the object, where its packets determine it. Takes no memory.
///
/// Refuses packets that don't determine the object or contradict each other (25), and then a buffer that
/// hasn't the object's length (24).
#[unsafe(no_mangle)]
pub extern "C" fn reamertan_decoder_write_object(
    alloc: Global,
    decoder: &mut Kept,
    object: &mut [u8],
) -> u8
    requires { IsSome (kept_as decoder_in decoder.old) }
    ensures fills { IsSomeAnd (kept_as decoder_in decoder.old) (λ d. FillsWithResult (state_of d) result object.old object.new) }
    ensures same { kept_coder decoder.new ≡ kept_coder decoder.old }
{
    number(of_kept!(decoder, alloc, Decoder, inner => write_all(inner, object)))
}
