//! Encoders of blocks that C keeps, by plans.
ghost use Rattle.std.specs.Prelude.{◌≡◌, ◌≢◌, ◌<◌, length, None, IsSome, IsSomeAnd, IfOk, IfErr, OnOk, OnErr};
ghost use Rattle.rq_bytes.specs.Refusals.{Answers};
ghost use Rattle.rq_standard.specs.Configuration.{configuration_of_bytes, IsAligned};
ghost use Rattle.rq_block.specs.SourceBlockEncoder.{block_encoded_of};
ghost use Rattle.rq_block.specs.SourceBlockEncodingPlan.{plan_of};
ghost use Rattle.raptorq_c.specs.Coders.{slot_as, block_encoder_in, kept_as, kept_coder, plan_in};
ghost use Rattle.raptorq_c.specs.Encoders.{planned_refusal, stretch_of_block, FillsStretch, IsPlannedEncoder};
ghost use Rattle.raptorq_c.specs.Numbers.{number_of, IsNumber};

use crate::call_end::{CallEnd, number, refusal};
use crate::kept::{Coder, Kept, of_kept};
use crate::slot::Slot;
use crate::stretches::{Ids, fill_stretch};
use raptorq::base::CONFIGURATION_LENGTH;
use raptorq::error::Error;
use raptorq::{ObjectTransmissionInformation, SourceBlockEncoder, SourceBlockEncodingPlan};
use std::alloc::Global;
use std::ops::Deref;
use std::sync::Arc;

// A block that is to be encoded.
#[derive(Clone, Copy)]
struct Block<'a> {
    configuration: &'a [u8; CONFIGURATION_LENGTH],
    number: u8,
    bytes: &'a [u8],
}

// Tests that a block of so many bytes is as many whole symbols as a plan is for.
fn check_planned(
    config: &ObjectTransmissionInformation,
    bytes: usize,
    plan: &SourceBlockEncodingPlan,
) -> Result<(), Error>
    ensures refused { result ≡ planned_refusal config.now bytes (plan_of plan.now) }
    ensures positive { OnOk result (0 < config.now.symbol_size) }
    ensures aligned { OnOk result (IsAligned config.now) }
{
    config.check_symbols()?;
    let size = usize::from(config.symbol_size());
    if bytes % size != 0 {
        return Err(Error::WrongDataLength);
    }
    if bytes / size != usize::from(plan.source_symbol_count()) {
        return Err(Error::PlanMismatch);
    }
    Ok(())
}

// The encoder of a block, by a plan for as many symbols.
fn planned_encoder(
    alloc: Global,
    block: Block<'_>,
    plan: &SourceBlockEncodingPlan,
) -> Result<Coder, Error>
    ensures refused { Answers (λ _. tt) result
        (planned_refusal (configuration_of_bytes block.entry.configuration.now) (length block.entry.bytes.now) (plan_of plan.now)) }
    ensures encoder { IfOk result (λ made. IsSomeAnd (block_encoder_in made)
        (IsPlannedEncoder block.entry.configuration.now block.entry.number block.entry.bytes.now (plan_of plan.now))) }
{
    let config = ObjectTransmissionInformation::deserialize(block.configuration);
    check_planned(&config, block.bytes.len(), plan)?;
    let encoder = SourceBlockEncoder::of_block(alloc, block.number, &config, block.bytes, plan)?;
    Ok(Coder::BlockEncoder(Arc::new(alloc, encoder)?))
}

// Makes the encoder of a block by a plan, behind a null pointer.
fn open(alloc: Global, encoder: &mut Slot, plan: &mut Kept, block: Block<'_>) -> Result<(), Error>
    requires null { encoder.old.value ≡ None }
    requires plan { IsSome (kept_as plan_in plan.old) }
    ensures refused { IsSomeAnd (kept_as plan_in plan.old) (λ p. Answers (λ _. tt) result
        (planned_refusal (configuration_of_bytes block.entry.configuration.now) (length block.entry.bytes.now) p)) }
    ensures encoder { OnOk result (IsSomeAnd (kept_as plan_in plan.old) (λ p. IsSomeAnd (slot_as block_encoder_in encoder.new)
        (IsPlannedEncoder block.entry.configuration.now block.entry.number block.entry.bytes.now p))) }
    ensures null { OnErr result (encoder.new.value ≡ None) }
    ensures same { kept_coder plan.new ≡ kept_coder plan.old }
{
    let made = of_kept!(plan, alloc, Plan, inner => planned_encoder(alloc, block, inner.deref()));
    encoder.keep(alloc, made?)
}

/// Makes the encoder of a source block by a plan, and writes a pointer to it over a null one. The plan
/// stays where it is.
///
/// Refuses a symbol size of 0, an alignment of 0 and one that doesn't divide the symbol size, bytes that
/// aren't whole symbols, and then another number of them than the plan is for. Want of memory may come
/// before any of these. Where it refuses, the pointer stays null.
#[unsafe(no_mangle)]
pub extern "C" fn reamertan_block_encoder_open(
    alloc: Global,
    encoder: &mut Slot,
    plan: &mut Kept,
    configuration: &[u8; CONFIGURATION_LENGTH],
    block: u8,
    bytes: &[u8],
) -> u8
    requires null { encoder.old.value ≡ None }
    requires plan { IsSome (kept_as plan_in plan.old) }
    ensures number { IsSomeAnd (kept_as plan_in plan.old) (λ p. IsNumber result (planned_refusal (configuration_of_bytes configuration.now) (length bytes.now) p)) }
    ensures encoder { result ≡ 0 → IsSomeAnd (kept_as plan_in plan.old) (λ p. IsSomeAnd (slot_as block_encoder_in encoder.new) (IsPlannedEncoder configuration.now block bytes.now p)) }
    ensures null { result ≢ 0 → encoder.new.value ≡ None }
    ensures same { kept_coder plan.new ≡ kept_coder plan.old }
{
    let block = Block {
        configuration,
        number: block,
        bytes,
    };
    refusal(open(alloc, encoder, plan, block))
}

// Fills a buffer with packets of a block.
fn write(encoder: &SourceBlockEncoder, ids: Ids, packets: &mut [u8]) -> Result<(), CallEnd>
    ensures { FillsStretch (stretch_of_block ids.first ids.count (block_encoded_of encoder.now)) ids.first ids.count (number_of result) packets.old packets.new }
{
    let end = ids.end()?;
    fill_stretch(encoder, ids.first, end, packets)
}

/// Fills a buffer with `count` packets of the block, whose encoding symbol ids go from `first` on: each
/// its payload id of 4 bytes and its symbol, one behind another. Takes no memory.
///
/// Refuses ids of more than 24 bits, and then a buffer that hasn't the packets' length.
#[unsafe(no_mangle)]
pub extern "C" fn reamertan_block_encoder_write(
    alloc: Global,
    encoder: &mut Kept,
    first: u32,
    count: u32,
    packets: &mut [u8],
) -> u8
    requires { IsSome (kept_as block_encoder_in encoder.old) }
    ensures fills { IsSomeAnd (kept_as block_encoder_in encoder.old) (λ b. FillsStretch (stretch_of_block first count b) first count result packets.old packets.new) }
    ensures same { kept_coder encoder.new ≡ kept_coder encoder.old }
{
    let ids = Ids { first, count };
    number(of_kept!(encoder, alloc, BlockEncoder, inner => write(inner.deref(), ids, packets)))
}
