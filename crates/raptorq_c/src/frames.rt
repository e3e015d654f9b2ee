//! Packets as bytes, one or many one behind another, that decoders take.
ghost use Rattle.std.specs.Prelude.{◌≡◌, ◌<◌, ℕ, List};
ghost use Rattle.rq_standard.specs.Streams.{frames_in};
ghost use Rattle.raptorq.specs.InTurn.{block_of};
ghost use Rattle.raptorq_c.specs.Frames.{AddsFrames, AreAdded, IsAdded, IsAddedHere, IsListed};
ghost use Rattle.raptorq_c.specs.Numbers.{refusal_number};

use raptorq::decoder::ObjectBlock;
use raptorq::encoder::SPARSE_MATRIX_THRESHOLD;
use raptorq::error::Error;
use raptorq::{Decoder, EncodingPacket};
use std::alloc::Global;

/// What takes packets.
pub(crate) trait Receiver {
    /// What the bytes of a packet do to it, and the number that is answered.
    ghost takes: { Self → List ℕ → ℕ → Self → Type 0 };

    /// Takes the packet that bytes spell.
    fn add_bytes(&mut self, alloc: Global, packet: &[u8]) -> Result<(), Error>
        ensures { takes self.old packet.now (refusal_number result) self.new };
}

impl Receiver for Decoder {
    ghost takes = { IsAdded };

    fn add_bytes(&mut self, alloc: Global, packet: &[u8]) -> Result<(), Error> {
        self.add_new_packet(EncodingPacket::deserialize(alloc, packet)?)
    }
}

impl Receiver for ObjectBlock {
    ghost takes = { λ old bytes answer new. IsAddedHere (block_of old) bytes answer (block_of new) };

    fn add_bytes(&mut self, alloc: Global, packet: &[u8]) -> Result<(), Error> {
        self.add_new_packet(EncodingPacket::deserialize(alloc, packet)?)
    }
}

/// A list of packets, each with the sparse threshold that is set before it, gets one more.
impl Receiver for Vec<(u32, EncodingPacket)> {
    ghost takes = { λ old bytes answer new. IsListed old.items bytes answer new.items };

    fn add_bytes(&mut self, alloc: Global, packet: &[u8]) -> Result<(), Error> {
        let packet = EncodingPacket::deserialize(alloc, packet)?;
        self.push((SPARSE_MATRIX_THRESHOLD, packet))?;
        Ok(())
    }
}

/// Takes the packets that frames of `size` bytes spell, until one is refused.
pub(crate) fn add_frames<R: Receiver>(
    alloc: Global,
    receiver: &mut R,
    size: usize,
    packets: &[u8],
) -> Result<(), Error>
    requires { 0 < size }
    ensures { AddsFrames R.takes (frames_in size packets.now) (refusal_number result) receiver.old receiver.new }
{
    for frame in packets.chunks(size) {
        receiver.add_bytes(alloc, frame)?;
    }
    Ok(())
}

/// Takes them where the bytes are whole frames.
pub(crate) fn add_whole<R: Receiver>(
    alloc: Global,
    receiver: &mut R,
    size: usize,
    packets: &[u8],
) -> Result<(), Error>
    requires { 0 < size }
    ensures { AreAdded R.takes size receiver.old packets.now (refusal_number result) receiver.new }
{
    if packets.len() % size != 0 {
        return Err(Error::WrongPayloadSize);
    }
    add_frames(alloc, receiver, size, packets)
}
