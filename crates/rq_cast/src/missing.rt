//! How many packets an object still needs.
ghost use Rattle.std.specs.Prelude.{◌≡◌, ◌<◌, IfSome};
ghost use Rattle.raptorq.specs.Decoder.{state_of, missing_of};
ghost use Rattle.raptorq.specs.Unanswered.{TellsMissingOf};
ghost use Rattle.rq_block.specs.MissingPackets.{NeedsMore};
ghost use Rattle.rq_cast.specs.Missing.{told_of, TellsMissingPackets};

use raptorq::Decoder;

// How many packets more a block needs at least.
fn missing_in(decoder: &Decoder, number: u8) -> u32
    requires { number < (state_of decoder.now).configuration.source_blocks }
    ensures count { result ≡ told_of decoder.now number }
    ensures told { TellsMissingOf ((state_of decoder.now).received number) ((state_of decoder.now).answer number) (missing_of decoder.now number) }
    ensures needed { IfSome (missing_of decoder.now number) (NeedsMore ((state_of decoder.now).received number)) }
{
    let Ok(packets) = decoder.missing_packets(number) else {
        return 0;
    };
    if decoder.block_bytes(number).is_some() {
        return 0;
    }
    packets.unwrap_or(0).max(1)
}

/// How many packets more an object needs at least, of ids that weren't received yet: what
/// [`Decoder::missing_packets`] answers of its blocks, together. A block that isn't answered counts one at
/// least.
pub fn missing_packets(decoder: &Decoder) -> u64
    ensures { TellsMissingPackets decoder.now result }
{
    let mut missing = 0;
    for number in 0..decoder.get_config().source_blocks() {
        missing += u64::from(missing_in(decoder, number));
    }
    missing
}
