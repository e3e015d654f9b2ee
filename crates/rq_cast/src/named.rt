//! What was received, where it is named as its head says.
ghost use Rattle.std.specs.Prelude.{◌≡◌, ◌<◌, ◌↔◌, option_map, vec_items, IsSome, IfOk, IfErr, Some, true};
ghost use Rattle.rq_standard.specs.Configuration.{largest_block};
ghost use Rattle.rq_standard.specs.DecoderState.{result_of};
ghost use Rattle.raptorq.specs.Decoder.{state_of};
ghost use Rattle.rq_cast.specs.Digests.{KnowsDigests};
ghost use Rattle.rq_cast.specs.Parts.{name_of_part};
ghost use Rattle.rq_cast.specs.Taken.{IsNamedIn};

use crate::digests::{KnownDigests, received_digests};
use raptorq::Decoder;
use raptorq::error::Error;
use rq_cells::{Head, part_name};
use std::alloc::Global;

// Whether an object that a decoder has answered is named as a head says.
fn is_named(
    alloc: Global,
    head: &Head,
    decoder: &Decoder,
    known: &KnownDigests,
    object: &[u8],
) -> Result<bool, Error>
    requires answered { result_of (state_of decoder.now) ≡ Some object.now }
    requires same { (state_of decoder.now).configuration ≡ head.now.configuration }
    requires few { largest_block head.now.configuration < 65536 }
    requires knows { KnowsDigests (state_of decoder.now) known.now }
    ensures named { IfOk result (λ b. (b ≡ true) ↔ (name_of_part head.now.number head.now.configuration object.now ≡ head.now.name)) }
    ensures memory { IfErr result (λ e. e ≡ Error.OutOfMemory) }
{
    let digests = received_digests(alloc, decoder, object, known)?;
    Ok(part_name(head.number, &head.configuration, digests.as_slice()) == head.name)
}

/// The object that a decoder has answered, where it is named as a head says: a part has bytes. The digests
/// that are known are those of symbols that it took. Refuses [`Error::OutOfMemory`] alone.
pub(crate) fn named_object(
    alloc: Global,
    head: &Head,
    decoder: &Decoder,
    known: &KnownDigests,
) -> Result<Option<Vec<u8>>, Error>
    requires answered { IsSome (result_of (state_of decoder.now)) }
    requires same { (state_of decoder.now).configuration ≡ head.now.configuration }
    requires few { largest_block head.now.configuration < 65536 }
    requires knows { KnowsDigests (state_of decoder.now) known.now }
    ensures object { IfOk result (λ o. IsNamedIn head.now (result_of (state_of decoder.now)) (option_map vec_items o)) }
    ensures memory { IfErr result (λ e. e ≡ Error.OutOfMemory) }
{
    let Some(object) = decoder.get_result()? else {
        return Ok(None);
    };
    if object.is_empty() || !is_named(alloc, head, decoder, known, object.as_slice())? {
        return Ok(None);
    }
    Ok(Some(object))
}
