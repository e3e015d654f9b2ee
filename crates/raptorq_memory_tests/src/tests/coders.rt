//! Coders where memory is refused: first all of it, then less and less of it.
use crate::attempts::decoders::{
    BlockAnswers, OBJECT, ObjectAnswers, Results, new_decoder, packets,
};
use crate::attempts::encoders::{Blocks, Objects, Plans, Rows};
use crate::compare::{holds, same};
use raptorq::error::Error;
use raptorq::systematic_constants::SystematicTable;
use raptorq::{Decoder, EncodingPacket, ObjectTransmissionInformation, SourceBlockDecoder};
use raptorq_test_kit::configurations::configured;
use raptorq_test_kit::packets::packet;
use rq_memory_kit::{Ending, Endings, ROUNDS, Shortage, add_all, is_swept};
use std::alloc::Global;
use std::process::Abort;

// Calls that make tables, encoders and plans.
#[derive(Drop)]
struct Encoders {
    rows: Rows,
    objects: Objects,
    blocks: Blocks,
    plans: Plans,
}

impl Encoders {
    fn new(alloc: Global) -> Result<Encoders, Error> {
        Ok(Encoders {
            rows: Rows::new(alloc),
            objects: Objects::new(alloc)?,
            blocks: Blocks::new(alloc)?,
            plans: Plans::new(alloc)?,
        })
    }

    // Each call once.
    fn attempts(&mut self) -> [Ending; 5] {
        [
            self.rows.attempt(),
            self.objects.attempt(),
            self.objects.attempt_packets(),
            self.blocks.attempt(),
            self.plans.attempt(),
        ]
    }
}

#[test]
fn encoders_are_refused_memory_in_turn(rt: HostRuntime) -> Result<(), Error> {
    let mut encoders = Encoders::new(rt.alloc())?;
    let mut endings = [Endings::new(); 5];
    let is_swept = is_swept(rt.alloc(), &mut endings, |endings| {
        add_all(endings, &encoders.attempts());
    })?;
    holds!(rt; is_swept, endings.as_slice());
    same!(rt; encoders.attempts(), [Ending::Answered; 5]);
    Ok(())
}

// Calls of decoders. One keeps what it took: it gets its last packet again each time.
#[derive(Drop)]
struct Decoders {
    blocks: BlockAnswers,
    objects: ObjectAnswers,
    results: Results,
}

impl Decoders {
    fn new(alloc: Global, late: Decoder) -> Result<Decoders, Error> {
        let blocks = BlockAnswers::new(alloc, ROUNDS + 1)?;
        let mut objects = ObjectAnswers::new(alloc, ROUNDS + 1)?;
        objects.expect_late(late);
        let results = Results::new(alloc)?;
        Ok(Decoders {
            blocks,
            objects,
            results,
        })
    }

    // Each call once.
    fn attempts(&mut self) -> [Ending; 4] {
        [
            self.blocks.attempt(),
            self.objects.attempt(),
            self.results.attempt_object(),
            self.results.attempt_difference(),
        ]
    }
}

#[test]
fn decoders_are_refused_memory_in_turn(rt: HostRuntime) -> Result<(), Error> {
    let packets = packets(rt.alloc())?;
    assert_eq!(rt; packets.len(), 12);
    let late = late(&rt, rt.alloc(), &packets[2..11], &packets[11])?;
    let mut decoders = Decoders::new(rt.alloc(), late)?;
    let mut endings = [Endings::new(); 4];
    let is_swept = is_swept(rt.alloc(), &mut endings, |endings| {
        add_all(endings, &decoders.attempts());
    })?;
    holds!(rt; is_swept, endings.as_slice());
    holds!(rt; decoders.blocks.is_kept());
    holds!(rt; decoders.objects.is_kept());
    same!(rt; decoders.attempts(), [Ending::Answered; 4]);
    Ok(())
}

// Takes packets up to the first that is refused.
fn take(decoder: &mut Decoder, packets: &[EncodingPacket]) -> Result<Option<Vec<u8>>, Error> {
    let mut answer = None;
    for packet in packets {
        answer = decoder.decode(packet.clone()?)?;
    }
    Ok(answer)
}

// They determine the object.
fn determine_object(
    rt: &impl Abort,
    decoder: &mut Decoder,
    packets: &[EncodingPacket],
) -> Result<(), Error> {
    let object = take(decoder, packets)?;
    same!(rt; object.as_deref(), Some(OBJECT.as_slice()));
    Ok(())
}

// Hands in a packet where there is no memory.
fn is_refused_memory(
    rt: &impl Abort,
    alloc: Global,
    decoder: &mut Decoder,
    packet: EncodingPacket,
) -> Result<(), Error> {
    let shortage = Shortage::new(alloc, 0, 0)?;
    let answer = decoder.add_new_packet(packet);
    let is_whole = shortage.is_whole();
    drop(shortage);
    holds!(rt; is_whole);
    holds!(rt; answer == Err(Error::OutOfMemory));
    Ok(())
}

// A decoder that took packets and then, without memory, the one that makes its block determined.
fn late(
    rt: &impl Abort,
    alloc: Global,
    taken: &[EncodingPacket],
    last: &EncodingPacket,
) -> Result<Decoder, Error> {
    let mut decoder = new_decoder(alloc)?;
    holds!(rt; take(&mut decoder, taken)?.is_none());
    is_refused_memory(rt, alloc, &mut decoder, last.clone()?)?;
    Ok(decoder)
}

// What is left where an object isn't joined, in bytes: a block takes less, and the object more.
const LEFT: usize = 20_000;

// An object of 200 blocks of one symbol each, of the bytes of its number.
fn long_object(alloc: Global) -> Result<Vec<u8>, Error> {
    let mut object: Vec<u8> = Vec::new(alloc);
    for block in 0..200u8 {
        object.extend_from_slice(&[block; 1000])?;
    }
    Ok(object)
}

// A decoder that took all its blocks but the last one.
fn all_but_the_last(alloc: Global) -> Result<Decoder, Error> {
    let (table, config) = configured(alloc, (200_000, 1000, 200, 1, 1))?;
    let mut decoder = Decoder::new(alloc, &table, config)?;
    for block in 0..199u8 {
        decoder.add_new_packet(packet(alloc, block, 0, &[block; 1000])?)?;
    }
    Ok(decoder)
}

// Hands in a packet where there is memory to take it, and none to join the object. It is taken as
// another decoder took it.
fn is_not_joined(
    rt: &impl Abort,
    alloc: Global,
    decoder: &mut Decoder,
    packet: EncodingPacket,
    answered: &Decoder,
) -> Result<(), Error> {
    let mut shortage = Shortage::new(alloc, 1, LEFT)?;
    shortage.ease(LEFT);
    let refused = decoder.decode(packet);
    let is_answered = *decoder == *answered;
    let is_whole = shortage.is_whole();
    drop(shortage);
    holds!(rt; is_whole);
    holds!(rt; refused == Err(Error::OutOfMemory));
    holds!(rt; is_answered);
    Ok(())
}

// Where there is no memory to join the object, the block that was the last to be answered is.
#[test]
fn an_object_not_joined(rt: HostRuntime) -> Result<(), Error> {
    let last = packet(rt.alloc(), 199, 0, &[199; 1000])?;
    let mut decoder = all_but_the_last(rt.alloc())?;
    let mut answered = decoder.clone()?;
    answered.add_new_packet(last.clone()?)?;
    is_not_joined(&rt, rt.alloc(), &mut decoder, last, &answered)?;
    let object = long_object(rt.alloc())?;
    holds!(rt; decoder.get_result() == Ok(Some(object)));
    Ok(())
}

// The packet that made its block determined is recorded, though the block couldn't be solved: a
// repeat of an older one answers it.
#[test]
fn a_packet_stays_recorded(rt: HostRuntime) -> Result<(), Error> {
    let packets = packets(rt.alloc())?;
    assert_eq!(rt; packets.len(), 12);
    let source = (&packets[..9], &packets[9]);
    let repair = (&packets[2..11], &packets[11]);
    for (taken, last) in [source, repair] {
        let mut decoder = late(&rt, rt.alloc(), taken, last)?;
        same!(rt; decoder.get_result(), Ok(None));
        determine_object(&rt, &mut decoder, taken)?;
    }
    Ok(())
}

// Nine source symbols of zeros.
fn nine_zeros(alloc: Global) -> Result<Vec<EncodingPacket>, Error> {
    let mut zeros = Vec::new(alloc);
    for esi in 0..9 {
        zeros.push(packet(alloc, 0, esi, &[0])?)?;
    }
    Ok(zeros)
}

// Where memory was refused for a block, its next packet is tested with all that came: nine source
// symbols, a repair symbol that isn't zero as they are, and the tenth source symbol, which is.
#[test]
fn a_late_contradiction(rt: HostRuntime) -> Result<(), Error> {
    let zeros = nine_zeros(rt.alloc())?;
    let repair = packet(rt.alloc(), 0, 10, &[1])?;
    let mut decoder = late(&rt, rt.alloc(), zeros.as_slice(), &repair)?;
    let refused = decoder.decode(packet(rt.alloc(), 0, 9, &[0])?);
    holds!(rt; refused == Err(Error::Contradiction));
    same!(rt; decoder.get_result(), Ok(None));
    Ok(())
}

// The decoder of an object of one symbol that was tried to answer by repair symbol 133: that is zero,
// whatever the object is, so that it decides nothing.
fn undecided(alloc: Global) -> Result<Decoder, Error> {
    let (table, config) = configured(alloc, (1, 1, 1, 1, 1))?;
    let mut decoder = Decoder::new(alloc, &table, config)?;
    decoder.add_new_packet(packet(alloc, 0, 133, &[0])?)?;
    Ok(decoder)
}

// What the decoder says of its block where there is no memory.
fn answered_without_memory(
    alloc: Global,
    decoder: &mut Decoder,
) -> Result<Result<(), Error>, Error> {
    let shortage = Shortage::new(alloc, 0, 0)?;
    let answer = decoder.answer_block(0);
    drop(shortage);
    Ok(answer)
}

// A packet that decides nothing isn't solved for: what the last attempt found shows it, without memory.
// Repair symbol 223 is zero too. The source symbol decides the block, and takes memory.
#[test]
fn a_packet_that_decides_nothing(rt: HostRuntime) -> Result<(), Error> {
    let mut decoder = undecided(rt.alloc())?;
    decoder.record(packet(rt.alloc(), 0, 223, &[0])?)?;
    same!(rt; answered_without_memory(rt.alloc(), &mut decoder)?, Ok(()));
    holds!(rt; !decoder.is_complete());
    decoder.record(packet(rt.alloc(), 0, 0, &[7])?)?;
    same!(rt; answered_without_memory(rt.alloc(), &mut decoder)?, Err(Error::OutOfMemory));
    Ok(())
}
