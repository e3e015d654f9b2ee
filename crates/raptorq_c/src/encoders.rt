//! Encoders of objects that C keeps.
ghost use Rattle.std.specs.Prelude.{◌≡◌, ◌≢◌, ◌⊎◌, length, None, IsSome, IsSomeAnd, IfErr, OnOk, OnErr};
ghost use Rattle.rq_rows.specs.FullTable.{full_rows};
ghost use Rattle.rq_standard.specs.Configuration.{configuration_of_bytes};
ghost use Rattle.raptorq.specs.Encoder.{encoded_of};
ghost use Rattle.raptorq.specs.Refused.{RefusesEncoder};
ghost use Rattle.raptorq_c.specs.Coders.{kept_coder, slot_as, encoder_in, kept_as};
ghost use Rattle.raptorq_c.specs.Encoders.{IsEncoderIn, stretch_of_object, FillsStretch};
ghost use Rattle.raptorq_c.specs.Numbers.{number_of, IsCodeWhere};

use crate::call_end::{CallEnd, number, refusal};
use crate::kept::{Coder, Kept, of_kept};
use crate::slot::Slot;
use crate::stretches::{Ids, block_encoder, fill_stretch};
use crate::tables::table;
use raptorq::base::CONFIGURATION_LENGTH;
use raptorq::error::Error;
use raptorq::{Encoder, ObjectTransmissionInformation};
use std::alloc::Global;
use std::ops::Deref;
use std::sync::Arc;

// Makes the encoder of an object in this configuration, behind a null pointer.
fn open(
    alloc: Global,
    encoder: &mut Slot,
    configuration: &[u8; CONFIGURATION_LENGTH],
    object: &[u8],
) -> Result<(), Error>
    requires { encoder.old.value ≡ None }
    ensures refused { IfErr result (λ e. (e ≡ Error.OutOfMemory) ⊎ RefusesEncoder full_rows (configuration_of_bytes configuration.now) (length object.now) e) }
    ensures encoder { OnOk result (IsSomeAnd (slot_as encoder_in encoder.new) (IsEncoderIn configuration.now object.now)) }
    ensures null { OnErr result (encoder.new.value ≡ None) }
{
    let table = table(alloc)?;
    let config = ObjectTransmissionInformation::deserialize(configuration);
    let made = Encoder::new(alloc, &table, object, config)?;
    encoder.keep(alloc, Coder::Encoder(Arc::new(alloc, made)?))
}

/// Makes the encoder of an object in this configuration, and writes a pointer to it over a null one.
///
/// Refuses what `Encoder::new` refuses, or for want of memory. The pointer stays null then.
#[unsafe(no_mangle)]
pub extern "C" fn reamertan_encoder_open(
    alloc: Global,
    encoder: &mut Slot,
    configuration: &[u8; CONFIGURATION_LENGTH],
    object: &[u8],
) -> u8
    requires null { encoder.old.value ≡ None }
    ensures refused { result ≢ 0 → (result ≡ 21) ⊎ IsCodeWhere (RefusesEncoder full_rows (configuration_of_bytes configuration.now) (length object.now)) result }
    ensures encoder { result ≡ 0 → IsSomeAnd (slot_as encoder_in encoder.new) (IsEncoderIn configuration.now object.now) }
    ensures null { result ≢ 0 → encoder.new.value ≡ None }
{
    refusal(open(alloc, encoder, configuration, object))
}

// Fills a buffer with packets of a block.
fn write(encoder: &Encoder, block: u8, ids: Ids, packets: &mut [u8]) -> Result<(), CallEnd>
    ensures { FillsStretch (stretch_of_object block ids.first ids.count (encoded_of encoder.now)) ids.first ids.count (number_of result) packets.old packets.new }
{
    let end = ids.end()?;
    let found = block_encoder(encoder, block)?;
    fill_stretch(found, ids.first, end, packets)
}

/// Fills a buffer with `count` packets of a source block, whose encoding symbol ids go from `first`
/// on: each its payload id of 4 bytes and its symbol, one behind another. Takes no memory.
///
/// Refuses ids of more than 24 bits, then a number that no source block has, and then a buffer that
/// hasn't the packets' length.
#[unsafe(no_mangle)]
pub extern "C" fn reamertan_encoder_write(
    alloc: Global,
    encoder: &mut Kept,
    block: u8,
    first: u32,
    count: u32,
    packets: &mut [u8],
) -> u8
    requires { IsSome (kept_as encoder_in encoder.old) }
    ensures fills { IsSomeAnd (kept_as encoder_in encoder.old) (λ e. FillsStretch (stretch_of_object block first count e) first count result packets.old packets.new) }
    ensures same { kept_coder encoder.new ≡ kept_coder encoder.old }
{
    let ids = Ids { first, count };
    number(of_kept!(encoder, alloc, Encoder, inner => write(inner.deref(), block, ids, packets)))
}
