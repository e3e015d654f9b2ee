//! The end of coders that C keeps.
ghost use Rattle.std.specs.Prelude.{◌≡◌, None, IsSome, IfSome};
ghost use Rattle.raptorq_c.specs.Coders.{kept_as, block_decoder_in, block_encoder_in, decoder_in, encoder_in, plan_in};

use crate::slot::Slot;
use std::alloc::Global;

/// Frees an encoder, unless another pointer shares it, and makes the pointer null, which it may be before.
#[unsafe(no_mangle)]
pub extern "C" fn reamertan_encoder_close(alloc: Global, encoder: &mut Slot)
    requires { IfSome encoder.old.value (λ kept. IsSome (kept_as encoder_in kept)) }
    ensures { encoder.new.value ≡ None }
{
    encoder.close(alloc);
}

/// Frees a plan, unless another pointer shares it, and makes the pointer null, which it may be before.
#[unsafe(no_mangle)]
pub extern "C" fn reamertan_plan_close(alloc: Global, plan: &mut Slot)
    requires { IfSome plan.old.value (λ kept. IsSome (kept_as plan_in kept)) }
    ensures { plan.new.value ≡ None }
{
    plan.close(alloc);
}

/// Frees a block's encoder, unless another pointer shares it, and makes the pointer null, which it may be.
#[unsafe(no_mangle)]
pub extern "C" fn reamertan_block_encoder_close(alloc: Global, encoder: &mut Slot)
    requires { IfSome encoder.old.value (λ kept. IsSome (kept_as block_encoder_in kept)) }
    ensures { encoder.new.value ≡ None }
{
    encoder.close(alloc);
}

/// Frees a decoder, and makes the pointer null, which it may be before.
#[unsafe(no_mangle)]
pub extern "C" fn reamertan_decoder_close(alloc: Global, decoder: &mut Slot)
    requires { IfSome decoder.old.value (λ kept. IsSome (kept_as decoder_in kept)) }
    ensures { decoder.new.value ≡ None }
{
    decoder.close(alloc);
}

/// Frees a block's decoder, and makes the pointer null, which it may be before.
#[unsafe(no_mangle)]
pub extern "C" fn reamertan_block_decoder_close(alloc: Global, decoder: &mut Slot)
    requires { IfSome decoder.old.value (λ kept. IsSome (kept_as block_decoder_in kept)) }
    ensures { decoder.new.value ≡ None }
{
    decoder.close(alloc);
}
