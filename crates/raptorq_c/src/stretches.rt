//! Many packets of a block in one buffer.
ghost use Rattle.std.specs.Prelude.{◌≡◌, ◌-◌, ◌^◌, ◌≤◌, Ok, Err, IfOk, IfErr};
ghost use Rattle.raptorq.specs.Encoder.{encoded_of};
ghost use Rattle.rq_block.specs.SourceBlockEncoder.{block_encoded_of};
ghost use Rattle.raptorq_c.specs.Encoders.{block_in, end_of_stretch, FillsStretch};
ghost use Rattle.raptorq_c.specs.Numbers.{number_of};

use crate::call_end::CallEnd;
use raptorq::base::ENCODING_SYMBOL_IDS;
use raptorq::error::Error;
use raptorq::{Encoder, SourceBlockEncoder};

/// Encoding symbol ids that are asked for, which may be too large.
#[derive(Clone, Copy)]
pub(crate) struct Ids {
    pub(crate) first: u32,
    pub(crate) count: u32,
}

impl Ids {
    /// Where they end.
    pub(crate) fn end(&self) -> Result<u32, Error>
        ensures { result ≡ end_of_stretch self.now.first self.now.count }
    {
        let end = u64::from(self.first) + u64::from(self.count);
        if end > u64::from(ENCODING_SYMBOL_IDS) {
            return Err(Error::EsiTooLarge);
        }
        Ok(end as u32)
    }
}

/// The encoder of a block of an object.
pub(crate) fn block_encoder(encoder: &Encoder, block: u8) -> Result<&SourceBlockEncoder, Error>
    ensures found { IfOk result (λ b. block_in (encoded_of encoder.now) block ≡ Ok (block_encoded_of b.now)) }
    ensures refused { IfErr result (λ e. block_in (encoded_of encoder.now) block ≡ Err e) }
{
    match encoder.get_block_encoders().get(usize::from(block)) {
        Some(found) => Ok(found),
        None => Err(Error::UnknownBlock),
    }
}

/// Fills a buffer with the packets of a block with the ids from `first` on and before `end`, where it has
/// their length.
pub(crate) fn fill_stretch(
    encoder: &SourceBlockEncoder,
    first: u32,
    end: u32,
    packets: &mut [u8],
) -> Result<(), CallEnd>
    requires order { first ≤ end }
    requires ids { end ≤ 2 ^ 24 }
    ensures { FillsStretch (Ok (block_encoded_of encoder.now)) first (end - first) (number_of result) packets.old packets.new }
{
    let count = (end - first) as usize;
    let Some(length) = count.checked_mul(encoder.packet_length()) else {
        return Err(CallEnd::WrongBuffer);
    };
    if packets.len() != length {
        return Err(CallEnd::WrongBuffer);
    }
    encoder.write_packets(first, end, packets);
    Ok(())
}
