//! Arbitrary lists of packets.
use super::model::{Model, block_symbols};
use super::sent::{Sent, objects};
use crate::compare::{holds, same};
use raptorq::error::Error;
use raptorq::systematic_constants::SystematicTable;
use raptorq::{Decoder, EncodingPacket, PayloadId, SourceBlockDecoder};
use raptorq_test_kit::sequence::Choices;
use std::alloc::Global;
use std::process::Abort;
use std::test::Fail;

const LISTS: u32 = 100_000;

// A packet of any block and any few bytes, of an id near the source symbols or among the last.
fn forged(alloc: Global, choices: &mut Choices) -> Result<EncodingPacket, Error> {
    let esi = match choices.below(4) {
        0 => 16777215u32.saturating_sub(choices.below(4)),
        _ => choices.below(24),
    };
    let block = match choices.below(4) {
        0 => choices.byte(),
        _ => choices.byte() % 2,
    };
    let mut payload = Vec::new(alloc);
    for _ in 0..choices.below(2).saturating_add(1) {
        payload.push(choices.byte())?;
    }
    Ok(EncodingPacket::new(PayloadId::new(block, esi)?, payload))
}

// The next packet of a list, and whether it is one that was sent: most are, with repeats, and of
// some lists all.
fn next_packet(
    alloc: Global,
    sent: &Sent,
    forgeries: u32,
    choices: &mut Choices,
) -> Result<(EncodingPacket, bool), Error> {
    let place = choices.place(sent.packets.len());
    match sent.packets.get(place) {
        Some(packet) if choices.below(8) >= forgeries => Ok((packet.clone()?, true)),
        _ => Ok((forged(alloc, choices)?, false)),
    }
}

// A list of packets.
fn list(
    alloc: Global,
    sent: &Sent,
    choices: &mut Choices,
) -> Result<Vec<(EncodingPacket, bool)>, Error> {
    let forgeries = choices.below(3);
    let mut list = Vec::new(alloc);
    for _ in 0..choices.place(sent.packets.len().saturating_add(1)) {
        list.push(next_packet(alloc, sent, forgeries, choices)?)?;
    }
    Ok(list)
}

// From which size on blocks are solved over sparse matrices: all, those of more than ten symbols, as
// where nothing is set, and none.
const THRESHOLDS: [u32; 4] = [0, 11, 250, u32::MAX];

// A list of packets, each with whether it is the object's.
#[derive(Drop)]
struct Round<'a> {
    table: &'a SystematicTable,
    threshold: u32,
    sent: &'a Sent,
    list: &'a [(EncodingPacket, bool)],
}

// How a list ended: whether with an answer, or its refusal.
type Ended = Result<bool, Error>;

// How many lists ended with an answer, and how many with a contradiction.
#[derive(Debug, Drop)]
struct Counts {
    answered: u32,
    contradictory: u32,
}

impl Counts {
    fn new() -> Counts {
        Counts {
            answered: 0,
            contradictory: 0,
        }
    }

    // Counts a list: whether it ended with an answer, or its refusal.
    fn add(&mut self, ended: Ended) {
        match ended {
            Ok(true) => self.answered = self.answered.saturating_add(1),
            Ok(false) => {}
            Err(_) => self.contradictory = self.contradictory.saturating_add(1),
        }
    }

    // Whether there are lists of all kinds.
    fn are_some(&self) -> bool {
        self.answered > LISTS / 10 && self.answered < LISTS / 10 * 9 && self.contradictory > 0
    }
}

// Hands a list to a decoder of the object. Answers how it ended.
fn object_ends(rt: &impl Abort, alloc: Global, round: &Round<'_>) -> Result<Ended, Error> {
    let sent = round.sent;
    let mut decoder = Decoder::new(alloc, round.table, sent.config)?;
    decoder.set_sparse_threshold(round.threshold);
    let mut model = Model::new(alloc, sent.config, sent.config.source_blocks())?;
    for (packet, is_honest) in round.list {
        let refusal = match model.refusal(packet) {
            None => model.take(packet, *is_honest)?,
            refusal => refusal,
        };
        same!(rt; decoder.add_new_packet(packet.clone()?).err(), refusal);
    }
    let answer = decoder.get_result()?;
    same!(rt; Some(answer.is_some()), model.is_answered());
    let is_answered = answer.is_some();
    if let Some(object) = answer {
        holds!(rt; !model.is_honest() || object == sent.object);
        same!(rt; object.len(), sent.object.len());
    }
    Ok(if model.is_contradictory() == Some(true) {
        Err(Error::Contradiction)
    } else {
        Ok(is_answered)
    })
}

// What a decoder of one block answers to the packets of a list, up to the first refused one.
fn block_answer(
    rt: &impl Abort,
    alloc: Global,
    round: &Round<'_>,
    length: u64,
    model: &mut Model,
) -> Result<Result<Option<Vec<u8>>, Error>, Error> {
    let mut decoder = SourceBlockDecoder::new(alloc, round.table, 0, &round.sent.config, length)?;
    decoder.set_sparse_threshold(round.threshold);
    let mut packets = Vec::new(alloc);
    let mut refusal = None;
    for (packet, is_honest) in round.list {
        packets.push(packet.clone()?)?;
        if refusal.is_none() {
            refusal = model.refusal(packet);
            if refusal.is_none() {
                model.keep(packet, *is_honest)?;
            }
        }
    }
    let answer = decoder.decode(packets);
    let Some(refusal) = refusal else {
        return Ok(answer);
    };
    holds!(rt; answer == Err(refusal));
    Ok(decoder.decode(None))
}

// Hands the packets of a list to a decoder of one block, up to the first refused one. Answers how
// it ended.
fn block_ends(rt: &impl Abort, alloc: Global, round: &Round<'_>) -> Result<Ended, Error> {
    let sent = round.sent;
    let length = block_symbols(&sent.config, 0).saturating_mul(u64::from(
        sent.config.symbol_size(),
    ));
    let mut model = Model::new(alloc, sent.config, 1)?;
    let answer = block_answer(rt, alloc, round, length, &mut model)?;
    if model.is_contradictory() == Some(true) {
        holds!(rt; answer == Err(Error::Contradiction));
        return Ok(Err(Error::Contradiction));
    }
    let answer = answer?;
    same!(rt; Some(answer.is_some()), model.is_answered());
    let Some(block) = answer else {
        return Ok(Ok(false));
    };
    let count = block.len().min(sent.object.len());
    let is_same = block.get(..count) == sent.object.as_slice().get(..count);
    holds!(rt; !model.is_honest() || is_same);
    holds!(rt; block.len() as u64 == length);
    Ok(Ok(true))
}

#[test]
fn any_lists(rt: HostRuntime) -> Result<(), Fail> {
    let alloc = rt.alloc();
    let table = SystematicTable::built_in(alloc)?;
    let objects = objects(alloc, &table)?;
    let mut choices = Choices::new(1);
    let mut object_counts = Counts::new();
    let mut block_counts = Counts::new();
    for number in 0..LISTS {
        let place = choices.place(objects.len());
        let sent = objects.get(place).ok_or("no object")?;
        let list = list(alloc, sent, &mut choices)?;
        let round = Round {
            table: &table,
            threshold: THRESHOLDS[number as usize % 4],
            sent,
            list: list.as_slice(),
        };
        object_counts.add(object_ends(&rt, alloc, &round)?);
        block_counts.add(block_ends(&rt, alloc, &round)?);
    }
    holds!(rt; object_counts.are_some(), &object_counts);
    holds!(rt; block_counts.are_some(), &block_counts);
    Ok(())
}
