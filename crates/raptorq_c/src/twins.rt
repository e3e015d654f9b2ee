//! Further pointers: to one encoder or plan, or to a copy of a decoder.
ghost use Rattle.std.specs.Prelude.{◌≡◌, ◌≢◌, ◌⊎◌, None, IsSome, IfOk, IfErr, OnOk, OnErr, option_map};
ghost use Rattle.raptorq.specs.Decoder.{state_of, solving_of_blocks};
ghost use Rattle.raptorq_c.specs.Coders.{slot_as, block_decoder_in, kept_as, block_encoder_in, kept_coder, decoder_in, encoder_in, plan_in};

use crate::call_end::refusal;
use crate::kept::{Coder, Kept};
use crate::slot::Slot;
use raptorq::error::Error;
use raptorq::{Encoder, SourceBlockEncoder, SourceBlockEncodingPlan};
use std::alloc::Global;
use std::sync::Arc;

/// What pointers share may be used from several threads at a time: this hands it to a call that takes
/// values of such types alone.
pub fn crosses_threads_shared(
    encoder: &Encoder,
    plan: &SourceBlockEncodingPlan,
    block: &SourceBlockEncoder,
) {
    crosses(encoder);
    crosses(plan);
    crosses(block);
}

// Takes values of types that several threads may use at a time alone.
fn crosses<T: Send + Sync>(_value: &T) {}

// A further owner of an encoder or a plan, or a clone of a decoder.
fn twin_of(coder: &Coder) -> Result<Coder, Error>
    ensures encoder { IfOk result (λ twin. encoder_in twin ≡ encoder_in coder.now) }
    ensures plan { IfOk result (λ twin. plan_in twin ≡ plan_in coder.now) }
    ensures block_encoder { IfOk result (λ twin. block_encoder_in twin ≡ block_encoder_in coder.now) }
    ensures decoder { IfOk result (λ twin. option_map state_of (decoder_in twin) ≡ option_map state_of (decoder_in coder.now)) }
    ensures solving { IfOk result (λ twin. option_map solving_of_blocks (decoder_in twin) ≡ option_map solving_of_blocks (decoder_in coder.now)) }
    ensures block_decoder { IfOk result (λ twin. block_decoder_in twin ≡ block_decoder_in coder.now) }
    ensures memory { IfErr result (λ e. e ≡ Error.OutOfMemory) }
{
    let twin = match coder {
        Coder::Encoder(encoder) => Coder::Encoder(Arc::try_clone(encoder)?),
        Coder::Plan(plan) => Coder::Plan(Arc::try_clone(plan)?),
        Coder::BlockEncoder(encoder) => Coder::BlockEncoder(Arc::try_clone(encoder)?),
        Coder::Decoder(decoder) => Coder::Decoder(decoder.clone()?),
        Coder::BlockDecoder(block) => Coder::BlockDecoder(block.clone()?),
    };
    Ok(twin)
}

// Keeps it behind a null pointer.
fn keep_twin(alloc: Global, kept: &mut Kept, twin: &mut Slot) -> Result<(), Error>
    requires kept { IsSome (kept_coder kept.old) }
    requires null { twin.old.value ≡ None }
    ensures encoder { OnOk result (slot_as encoder_in twin.new ≡ kept_as encoder_in kept.old) }
    ensures plan { OnOk result (slot_as plan_in twin.new ≡ kept_as plan_in kept.old) }
    ensures block_encoder { OnOk result (slot_as block_encoder_in twin.new ≡ kept_as block_encoder_in kept.old) }
    ensures decoder { OnOk result (option_map state_of (slot_as decoder_in twin.new) ≡ option_map state_of (kept_as decoder_in kept.old)) }
    ensures solving { OnOk result (option_map solving_of_blocks (slot_as decoder_in twin.new) ≡ option_map solving_of_blocks (kept_as decoder_in kept.old)) }
    ensures block_decoder { OnOk result (slot_as block_decoder_in twin.new ≡ kept_as block_decoder_in kept.old) }
    ensures memory { IfErr result (λ e. e ≡ Error.OutOfMemory) }
    ensures null { OnErr result (twin.new.value ≡ None) }
    ensures same { kept_coder kept.new ≡ kept_coder kept.old }
{
    let coder = kept.take(alloc);
    let made = twin_of(coder.as_ref());
    kept.put(coder);
    twin.keep(alloc, made?)
}

/// Writes a further pointer to an encoder over a null one, without a copy. Each of the two goes on when
/// the other is closed, and either may be used while another thread uses the other.
///
/// The one refusal is want of memory: then the pointer stays null.
#[unsafe(no_mangle)]
pub extern "C" fn reamertan_encoder_share(alloc: Global, encoder: &mut Kept, twin: &mut Slot) -> u8
    requires encoder { IsSome (kept_as encoder_in encoder.old) }
    requires null { twin.old.value ≡ None }
    ensures number { (result ≡ 0) ⊎ (result ≡ 21) }
    ensures encoder { result ≡ 0 → slot_as encoder_in twin.new ≡ kept_as encoder_in encoder.old }
    ensures null { result ≢ 0 → twin.new.value ≡ None }
    ensures same { kept_coder encoder.new ≡ kept_coder encoder.old }
{
    refusal(keep_twin(alloc, encoder, twin))
}

/// Writes a further pointer to a plan over a null one, as `reamertan_encoder_share` does.
#[unsafe(no_mangle)]
pub extern "C" fn reamertan_plan_share(alloc: Global, plan: &mut Kept, twin: &mut Slot) -> u8
    requires plan { IsSome (kept_as plan_in plan.old) }
    requires null { twin.old.value ≡ None }
    ensures number { (result ≡ 0) ⊎ (result ≡ 21) }
    ensures plan { result ≡ 0 → slot_as plan_in twin.new ≡ kept_as plan_in plan.old }
    ensures null { result ≢ 0 → twin.new.value ≡ None }
    ensures same { kept_coder plan.new ≡ kept_coder plan.old }
{
    refusal(keep_twin(alloc, plan, twin))
}

/// Writes a further pointer to the encoder of a block over a null one, as `reamertan_encoder_share` does.
#[unsafe(no_mangle)]
pub extern "C" fn reamertan_block_encoder_share(
    alloc: Global,
    encoder: &mut Kept,
    twin: &mut Slot,
) -> u8
    requires encoder { IsSome (kept_as block_encoder_in encoder.old) }
    requires null { twin.old.value ≡ None }
    ensures number { (result ≡ 0) ⊎ (result ≡ 21) }
    ensures encoder { result ≡ 0 → slot_as block_encoder_in twin.new ≡ kept_as block_encoder_in encoder.old }
    ensures null { result ≢ 0 → twin.new.value ≡ None }
    ensures same { kept_coder encoder.new ≡ kept_coder encoder.old }
{
    refusal(keep_twin(alloc, encoder, twin))
}

/// Makes a further decoder that stands where this one does, and writes a pointer to it over a null one.
/// From then on each takes packets by itself.
///
/// The one refusal is want of memory: then the pointer stays null.
#[unsafe(no_mangle)]
pub extern "C" fn reamertan_decoder_copy(alloc: Global, decoder: &mut Kept, twin: &mut Slot) -> u8
    requires decoder { IsSome (kept_as decoder_in decoder.old) }
    requires null { twin.old.value ≡ None }
    ensures number { (result ≡ 0) ⊎ (result ≡ 21) }
    ensures decoder { result ≡ 0 → option_map state_of (slot_as decoder_in twin.new) ≡ option_map state_of (kept_as decoder_in decoder.old) }
    ensures solving { result ≡ 0 → option_map solving_of_blocks (slot_as decoder_in twin.new) ≡ option_map solving_of_blocks (kept_as decoder_in decoder.old) }
    ensures null { result ≢ 0 → twin.new.value ≡ None }
    ensures same { kept_coder decoder.new ≡ kept_coder decoder.old }
{
    refusal(keep_twin(alloc, decoder, twin))
}

/// Makes a further decoder of a block, as `reamertan_decoder_copy` does.
#[unsafe(no_mangle)]
pub extern "C" fn reamertan_block_decoder_copy(
    alloc: Global,
    decoder: &mut Kept,
    twin: &mut Slot,
) -> u8
    requires decoder { IsSome (kept_as block_decoder_in decoder.old) }
    requires null { twin.old.value ≡ None }
    ensures number { (result ≡ 0) ⊎ (result ≡ 21) }
    ensures decoder { result ≡ 0 → slot_as block_decoder_in twin.new ≡ kept_as block_decoder_in decoder.old }
    ensures null { result ≢ 0 → twin.new.value ≡ None }
    ensures same { kept_coder decoder.new ≡ kept_coder decoder.old }
{
    refusal(keep_twin(alloc, decoder, twin))
}
