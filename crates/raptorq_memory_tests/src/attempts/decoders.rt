//! Decoders of ten symbols.
use super::ending;
use raptorq::error::Error;
use raptorq::systematic_constants::SystematicTable;
use raptorq::{
    Decoder, Encoder, EncodingPacket, ObjectTransmissionInformation, SourceBlockDecoder,
};
use rq_memory_kit::Ending;
use std::alloc::Global;

/// The object of all of them.
pub const OBJECT: [u8; 10] = [20, 21, 22, 23, 24, 25, 26, 27, 28, 29];

/// Its configuration.
pub fn one_block() -> Result<ObjectTransmissionInformation, Error> {
    ObjectTransmissionInformation::new(10, 1, 1, 1, 1)
}

/// Its twelve packets, two of them repair packets.
pub fn packets(alloc: Global) -> Result<Vec<EncodingPacket>, Error> {
    let table = SystematicTable::built_in(alloc)?;
    Encoder::new(alloc, &table, &OBJECT, one_block()?)?.get_encoded_packets(2)
}

/// A decoder of the object.
pub fn new_decoder(alloc: Global) -> Result<Decoder, Error> {
    let table = SystematicTable::built_in(alloc)?;
    Decoder::new(alloc, &table, one_block()?)
}

// A decoder of it that took packets.
fn object_decoder(alloc: Global, taken: Vec<EncodingPacket>) -> Result<Decoder, Error> {
    let mut decoder = new_decoder(alloc)?;
    for packet in taken {
        decoder.add_new_packet(packet)?;
    }
    Ok(decoder)
}

// A decoder of its block that took packets.
fn block_decoder(alloc: Global, taken: Vec<EncodingPacket>) -> Result<SourceBlockDecoder, Error> {
    let table = SystematicTable::built_in(alloc)?;
    let mut decoder = SourceBlockDecoder::new(alloc, &table, 0, &one_block()?, 10)?;
    decoder.decode(taken)?;
    Ok(decoder)
}

// The packets from the third on but the last, which with it determine the object, and the last one
// `times` times.
fn needed(
    alloc: Global,
    times: usize,
) -> Result<(Vec<EncodingPacket>, Vec<EncodingPacket>), Error> {
    let mut taken = packets(alloc)?;
    let mut repeats = Vec::new(alloc);
    if let Some(last) = taken.pop() {
        for _ in 0..times {
            repeats.push(last.clone()?)?;
        }
    }
    Ok((taken.into_iter().skip(2).collect(alloc)?, repeats))
}

fn is_object(answer: &Option<Vec<u8>>) -> bool {
    match answer {
        Some(object) => object.as_slice() == OBJECT.as_slice(),
        None => false,
    }
}

/// `SourceBlockDecoder::decode` of the packet that completes the block.
#[derive(Drop)]
pub struct BlockAnswers {
    decoder: SourceBlockDecoder,
    before: SourceBlockDecoder,
    recorded: SourceBlockDecoder,
    is_kept: bool,
    repeats: Vec<EncodingPacket>,
}

impl BlockAnswers {
    /// With ample memory, to be tried `times` times.
    pub fn new(alloc: Global, times: usize) -> Result<BlockAnswers, Error> {
        let (taken, mut repeats) = needed(alloc, times.saturating_add(1))?;
        let before = block_decoder(alloc, taken)?;
        let mut recorded = before.clone()?;
        recorded.decode(repeats.pop())?;
        Ok(BlockAnswers {
            decoder: before.clone()?,
            before,
            recorded,
            is_kept: false,
            repeats,
        })
    }

    /// Whether a call was refused memory that had recorded the packet.
    pub fn is_kept(&self) -> bool {
        self.is_kept
    }

    /// Hands in the packet. A refused one is recorded or not, and nothing else changes.
    pub fn attempt(&mut self) -> Ending {
        let was_recorded = self.decoder == self.recorded;
        let answer = self.decoder.decode(self.repeats.pop());
        let is_recorded = self.decoder == self.recorded;
        match answer {
            Ok(answer) if is_object(&answer) && is_recorded => Ending::Answered,
            Err(Error::OutOfMemory) if is_recorded => {
                self.is_kept = true;
                Ending::Refused
            }
            Err(Error::OutOfMemory) if !was_recorded && self.decoder == self.before => {
                Ending::Refused
            }
            _ => Ending::Other,
        }
    }
}

/// `Decoder::decode` of the packet that completes the object.
#[derive(Drop)]
pub struct ObjectAnswers {
    decoder: Decoder,
    before: Decoder,
    late: Option<Decoder>,
    is_kept: bool,
    answered: Decoder,
    repeats: Vec<EncodingPacket>,
}

impl ObjectAnswers {
    /// With ample memory, to be tried `times` times. Only want of memory leaves the packet recorded
    /// and the block late: `expect_late` takes a decoder in that state.
    pub fn new(alloc: Global, times: usize) -> Result<ObjectAnswers, Error> {
        let (taken, mut repeats) = needed(alloc, times.saturating_add(1))?;
        let before = object_decoder(alloc, taken)?;
        let mut answered = before.clone()?;
        if let Some(last) = repeats.pop() {
            answered.add_new_packet(last)?;
        }
        Ok(ObjectAnswers {
            decoder: before.clone()?,
            before,
            late: None,
            is_kept: false,
            answered,
            repeats,
        })
    }

    /// Takes a decoder that recorded the packet and whose block is late, to compare with.
    pub fn expect_late(&mut self, late: Decoder) {
        self.late = Some(late);
    }

    /// Whether a call was refused memory that had recorded the packet, and left its block late.
    pub fn is_kept(&self) -> bool {
        self.is_kept
    }

    fn is_late(&self) -> bool {
        match &self.late {
            Some(late) => self.decoder == *late,
            None => self.decoder != self.before,
        }
    }

    // How a call ended that was refused memory: the decoder is as it was, or the packet is recorded and
    // the block late, or the block is answered, which its result then says.
    fn refused(&self, was_new: bool) -> Ending {
        let is_answered = self.decoder == self.answered;
        if !is_answered && !self.is_late() && !(was_new && self.decoder == self.before) {
            return Ending::Other;
        }
        let is_right = match self.decoder.get_result() {
            Ok(object) if is_answered => is_object(&object),
            Ok(object) => object.is_none(),
            Err(error) => is_answered && error == Error::OutOfMemory,
        };
        if is_right {
            Ending::Refused
        } else {
            Ending::Other
        }
    }

    /// Hands in the packet.
    pub fn attempt(&mut self) -> Ending {
        let was_new = self.decoder == self.before;
        let Some(packet) = self.repeats.pop() else {
            return Ending::Other;
        };
        match self.decoder.decode(packet) {
            Ok(answer) if is_object(&answer) && self.decoder == self.answered => Ending::Answered,
            Err(Error::OutOfMemory) => {
                self.is_kept |= self.decoder != self.answered && self.is_late();
                self.refused(was_new)
            }
            _ => Ending::Other,
        }
    }
}

/// The answers of decoders that nothing is handed to: the object where it is answered, and else
/// what is missing.
#[derive(Drop)]
pub struct Results {
    answered: Decoder,
    object: Option<Vec<u8>>,
    unanswered: Decoder,
    difference: Option<Vec<u8>>,
}

impl Results {
    /// With ample memory.
    pub fn new(alloc: Global) -> Result<Results, Error> {
        let (taken, repeats) = needed(alloc, 1)?;
        let unanswered = object_decoder(alloc, taken)?;
        let mut answered = unanswered.clone()?;
        for packet in repeats {
            answered.add_new_packet(packet)?;
        }
        Ok(Results {
            object: Some(Vec::from_slice(alloc, &OBJECT)?),
            answered,
            difference: unanswered.difference()?,
            unanswered,
        })
    }

    /// Asks for the object.
    pub fn attempt_object(&self) -> Ending {
        ending(self.answered.get_result(), &self.object)
    }

    /// Asks for the difference.
    pub fn attempt_difference(&self) -> Ending {
        ending(self.unanswered.difference(), &self.difference)
    }
}
