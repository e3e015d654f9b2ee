//! Decoders of blocks that C keeps: packets in, and the block once they determine it.
ghost use Rattle.std.specs.Prelude.{◌≡◌, ◌≢◌, ◌+◌, None, IsSome, IsSomeAnd, OnOk, OnErr, is_some};
ghost use Rattle.rq_bytes.specs.Refusals.{Answers};
ghost use Rattle.raptorq.specs.InTurn.{block_of};
ghost use Rattle.raptorq_c.specs.Coders.{slot_as, block_decoder_in, kept_as, kept_coder, Changes};
ghost use Rattle.raptorq_c.specs.BlockDecoders.{checked_length, FillsWithAnswer, IsNewBlock, WritesMissingOf};
ghost use Rattle.raptorq_c.specs.Frames.{AreAdded, IsAddedHere};
ghost use Rattle.raptorq_c.specs.Numbers.{number_of, refusal_number, IsNumber};

use crate::buffers::fill_answer;
use crate::call_end::{number, refusal};
use crate::frames::add_whole;
use crate::kept::{Coder, Kept, of_kept};
use crate::slot::Slot;
use crate::tables::table;
use raptorq::ObjectTransmissionInformation;
use raptorq::base::{CONFIGURATION_LENGTH, PAYLOAD_ID_LENGTH};
use raptorq::decoder::ObjectBlock;
use raptorq::error::Error;
use std::alloc::Global;

// Makes the decoder of a block of this number and length, behind a null pointer.
fn open(
    alloc: Global,
    decoder: &mut Slot,
    configuration: &[u8; CONFIGURATION_LENGTH],
    block: u8,
    length: u64,
) -> Result<(), Error>
    requires { decoder.old.value ≡ None }
    ensures refused { Answers (λ _. tt) result (checked_length configuration.now length) }
    ensures decoder { OnOk result (IsSomeAnd (slot_as block_decoder_in decoder.new) (IsNewBlock configuration.now block length)) }
    ensures null { OnErr result (decoder.new.value ≡ None) }
{
    let table = table(alloc)?;
    let config = ObjectTransmissionInformation::deserialize(configuration);
    let made = ObjectBlock::of_length(alloc, &table, block, &config, length)?;
    decoder.keep(alloc, Coder::BlockDecoder(made))
}

/// Makes the decoder of a source block of this number, of as many source symbols as cover so many bytes,
/// and writes a pointer to it over a null one. A block of no symbols is complete from the start.
///
/// Refuses what `SourceBlockDecoder::new` refuses. Want of memory may come before any of that. Where it
/// refuses, the pointer stays null.
#[unsafe(no_mangle)]
pub extern "C" fn reamertan_block_decoder_open(
    alloc: Global,
    decoder: &mut Slot,
    configuration: &[u8; CONFIGURATION_LENGTH],
    block: u8,
    length: u64,
) -> u8
    requires null { decoder.old.value ≡ None }
    ensures number { IsNumber result (checked_length configuration.now length) }
    ensures decoder { result ≡ 0 → IsSomeAnd (slot_as block_decoder_in decoder.new) (IsNewBlock configuration.now block length) }
    ensures null { result ≢ 0 → decoder.new.value ≡ None }
{
    refusal(open(alloc, decoder, configuration, block, length))
}

/// Takes packets that lie one behind another, each a payload id of 4 bytes and a symbol, in their order.
///
/// Refuses `WrongPayloadSize`, before any packet is taken, where the bytes are no whole number of packets,
/// and then what `ObjectBlock::add_new_packet` refuses of the first packet that it refuses, a
/// contradiction (22) last: that packet is then recorded. Those before it are taken, and those behind it
/// aren't. Want of memory may come of any packet.
#[unsafe(no_mangle)]
pub extern "C" fn reamertan_block_decoder_add_packets(
    alloc: Global,
    decoder: &mut Kept,
    packets: &[u8],
) -> u8
    requires { IsSome (kept_as block_decoder_in decoder.old) }
    ensures { Changes (kept_as block_decoder_in decoder.old) (kept_as block_decoder_in decoder.new) (λ old new. AreAdded IsAddedHere (4 + old.received.configuration.symbol_size) old packets.now result new) }
{
    refusal(of_kept!(decoder, alloc, BlockDecoder, inner => {
        let size = PAYLOAD_ID_LENGTH + inner.symbol_size();
        add_whole(alloc, inner, size, packets)
    }))
}

/// Whether the packets that were taken determine the block.
#[unsafe(no_mangle)]
pub extern "C" fn reamertan_block_decoder_is_complete(alloc: Global, decoder: &mut Kept) -> bool
    requires { IsSome (kept_as block_decoder_in decoder.old) }
    ensures complete { IsSomeAnd (kept_as block_decoder_in decoder.old) (λ b. result ≡ is_some b.answer) }
    ensures same { kept_coder decoder.new ≡ kept_coder decoder.old }
{
    of_kept!(decoder, alloc, BlockDecoder, inner => inner.bytes().is_some())
}

// Writes how many packets more a block needs at least.
fn write_missing(block: &ObjectBlock, packets: &mut u32) -> Result<(), Error>
    ensures { WritesMissingOf (block_of block.now) (refusal_number result) packets.old packets.new }
{
    let Some(count) = block.missing_packets() else {
        return Err(Error::Contradiction);
    };
    *packets = count;
    Ok(())
}

/// Writes how many packets more the block needs at least, of ids that weren't taken yet: what
/// `ObjectBlock::missing_packets` answers.
///
/// Refuses a block whose packets were found to contradict each other (22).
#[unsafe(no_mangle)]
pub extern "C" fn reamertan_block_decoder_missing(
    alloc: Global,
    decoder: &mut Kept,
    packets: &mut u32,
) -> u8
    requires { IsSome (kept_as block_decoder_in decoder.old) }
    ensures writes { IsSomeAnd (kept_as block_decoder_in decoder.old) (λ b. WritesMissingOf b result packets.old packets.new) }
    ensures same { kept_coder decoder.new ≡ kept_coder decoder.old }
{
    refusal(of_kept!(decoder, alloc, BlockDecoder, inner => write_missing(inner, packets)))
}

/// Fills a buffer with the block, where its packets determine it: all its source symbols. Takes no
/// memory.
///
/// Refuses packets that don't determine the block or contradict each other (25), and then a buffer that
/// hasn't the block's length (24).
#[unsafe(no_mangle)]
pub extern "C" fn reamertan_block_decoder_write(
    alloc: Global,
    decoder: &mut Kept,
    bytes: &mut [u8],
) -> u8
    requires { IsSome (kept_as block_decoder_in decoder.old) }
    ensures fills { IsSomeAnd (kept_as block_decoder_in decoder.old) (λ b. FillsWithAnswer b.answer result bytes.old bytes.new) }
    ensures same { kept_coder decoder.new ≡ kept_coder decoder.old }
{
    number(of_kept!(decoder, alloc, BlockDecoder, inner => fill_answer(bytes, inner.bytes())))
}
