//! Damaged streams.
use super::model::{Model, configuration_refusal};
use super::sent::{Sent, objects};
use crate::compare::holds;
use raptorq::error::Error;
use raptorq::systematic_constants::SystematicTable;
use raptorq::{EncodingPacket, ObjectTransmissionInformation};
use raptorq_test_kit::sequence::Choices;
use rq_streams::{Counted, Outcome, Stop, run_receive};
use std::alloc::Global;
use std::process::Abort;
use std::test::Fail;

const STREAMS: u32 = 100_000;

// Some of an object's frames behind its header, moved and doubled.
fn stream(alloc: Global, sent: &Sent, choices: &mut Choices) -> Result<Vec<u8>, Error> {
    let mut bytes = Vec::from_slice(alloc, &sent.config.serialize())?;
    let count = sent.frames.len();
    for _ in 0..choices.place(count.saturating_mul(2)) {
        if let Some(frame) = sent.frames.get(choices.place(count)) {
            bytes.extend_from_slice(frame.as_slice())?;
        }
    }
    Ok(bytes)
}

// One way to damage a stream: a bit flipped, a byte of the header changed, all of it, the end cut
// off, or a byte more.
fn damage(bytes: &mut Vec<u8>, choices: &mut Choices) -> Result<(), Error> {
    let length = bytes.len();
    let flipped = 1u8.wrapping_shl(choices.below(8));
    match choices.below(6) {
        0 | 1 => {
            if let Some(byte) = bytes.get_mut(choices.place(length)) {
                *byte ^= flipped;
            }
        }
        2 => {
            if let Some(byte) = bytes.get_mut(choices.place(12)) {
                *byte = choices.byte();
            }
        }
        3 => {
            for byte in bytes.iter_mut().take(12) {
                *byte = choices.byte();
            }
        }
        4 => bytes.truncate(choices.place(length.saturating_add(1))),
        _ => bytes.push(choices.byte())?,
    }
    Ok(())
}

// A run over a stream: what it reads, how it ends, and what it writes.
#[derive(Drop)]
struct Run<'a> {
    bytes: &'a [u8],
    ended: Result<(Outcome, u64), Stop>,
    out: Vec<u8>,
}

impl<'a> Run<'a> {
    fn new(alloc: Global, table: &SystematicTable, bytes: &'a [u8]) -> Run<'a> {
        let mut out = Vec::new(alloc);
        let mut reader = Counted::new(bytes);
        let ended = run_receive(alloc, table, &mut reader, &mut Counted::new(&mut out));
        Run { bytes, ended, out }
    }
}

// Hands the packets of the frames to the model, up to one that is known to contradict those before
// it, and counts the frames that can't be used.
fn take_frames(
    alloc: Global,
    model: &mut Model,
    size: usize,
    frames: &[u8],
    sent: &Sent,
) -> Result<u64, Error> {
    let whole = size.saturating_add(4);
    let mut skipped = 0u64;
    for frame in frames.chunks(whole) {
        if frame.len() < whole {
            skipped = skipped.saturating_add(1);
            continue;
        }
        let packet = EncodingPacket::deserialize(alloc, frame)?;
        let is_honest = sent.packets.contains(&packet);
        if model.refusal(&packet).is_some() {
            skipped = skipped.saturating_add(1);
        } else if model.take(&packet, is_honest)?.is_some() {
            return Ok(skipped);
        }
    }
    Ok(skipped)
}

// A run over frames ends as the model says, with an outcome or a contradiction.
fn frames_end(
    rt: &impl Abort,
    alloc: Global,
    config: ObjectTransmissionInformation,
    run: &Run<'_>,
    sent: &Sent,
) -> Result<Result<Outcome, Error>, Error> {
    let bytes = run.bytes;
    let mut model = Model::new(alloc, config, config.source_blocks())?;
    let size = usize::from(config.symbol_size());
    let frames = bytes.get(12..).unwrap_or(&[]);
    let skipped = take_frames(alloc, &mut model, size, frames, sent)?;
    if run.ended == Err(Stop::Refused(Error::Contradiction)) {
        let may_be = model.is_contradictory() != Some(false);
        holds!(rt; may_be, bytes);
        holds!(rt; run.out.is_empty(), bytes);
        return Ok(Err(Error::Contradiction));
    }
    holds!(rt; model.is_contradictory() != Some(true), bytes);
    if run.ended == Ok((Outcome::Written, skipped)) {
        holds!(rt; model.is_answered() != Some(false), bytes);
        holds!(rt; run.out.len() as u64 == config.transfer_length(), bytes);
        let is_sent = model.is_honest() && config == sent.config;
        holds!(rt; !is_sent || run.out == sent.object, bytes);
        return Ok(Ok(Outcome::Written));
    }
    holds!(rt; run.ended == Ok((Outcome::Incomplete, skipped)), bytes);
    holds!(rt; run.out.is_empty(), bytes);
    holds!(rt; model.is_answered() != Some(true), bytes);
    Ok(Ok(Outcome::Incomplete))
}

// A run over a stream ends as the model says, with an outcome or a refusal.
fn ends(
    rt: &impl Abort,
    alloc: Global,
    table: &SystematicTable,
    bytes: &[u8],
    sent: &Sent,
) -> Result<Result<Outcome, Error>, Error> {
    let run = Run::new(alloc, table, bytes);
    let Some(header) = bytes.first_chunk::<12>() else {
        holds!(rt; run.ended == Err(Stop::Refused(Error::HeaderTooShort)));
        holds!(rt; run.out.is_empty());
        return Ok(Err(Error::HeaderTooShort));
    };
    let config = ObjectTransmissionInformation::deserialize(header);
    if let Some(refusal) = configuration_refusal(&config) {
        holds!(rt; run.ended == Err(Stop::Refused(refusal)), bytes);
        holds!(rt; run.out.is_empty(), bytes);
        return Ok(Err(refusal));
    }
    frames_end(rt, alloc, config, &run, sent)
}

#[test]
fn damaged_streams(rt: HostRuntime) -> Result<(), Fail> {
    let mut counts = [0u32; 4];
    let mut choices = Choices::new(2);
    let alloc = rt.alloc();
    let table = SystematicTable::built_in(alloc)?;
    let objects = objects(alloc, &table)?;
    for _ in 0..STREAMS {
        let place = choices.place(objects.len());
        let sent = objects.get(place).ok_or("no object")?;
        let mut bytes = stream(alloc, sent, &mut choices)?;
        for _ in 0..choices.below(4) {
            damage(&mut bytes, &mut choices)?;
        }
        let place = match ends(&rt, alloc, &table, bytes.as_slice(), sent)? {
            Ok(Outcome::Written) => 0,
            Ok(Outcome::Incomplete) => 1,
            Err(Error::Contradiction) => 2,
            Err(_) => 3,
        };
        counts[place] = counts[place].saturating_add(1);
    }
    for place in [0, 1, 3] {
        holds!(rt; counts[place] > STREAMS / 20, counts);
    }
    holds!(rt; counts[2] > 0, counts);
    Ok(())
}
