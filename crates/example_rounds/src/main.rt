//! A carousel: packets of an object go by in rounds, in each round of ids that weren't sent before, and
//! each is lost with a chance of one in three. A receiver takes what comes until it has the object.
#![tactic(auto)]

use anyhow::Result;
use raptorq::systematic_constants::SystematicTable;
use raptorq::{Decoder, Encoder, EncodingPacket, ObjectTransmissionInformation, PayloadId};
use std::alloc::Global;

// How many packets of each block go by in a round.
const PACKETS: u32 = 22;

/// Random bytes: the high bits of a linear congruence.
#[derive(Drop)]
struct Random {
    state: u64,
}

impl Random {
    fn byte(&mut self) -> u8 {
        let turned = self.state.wrapping_mul(6364136223846793005);
        self.state = turned.wrapping_add(1442695040888963407);
        (self.state >> 56) as u8
    }
}

/// What became of the packets of a source block.
#[derive(Clone, Copy, Default)]
struct Tally {
    came: u32,
    lost: u32,
    answered_after: Option<u8>,
}

/// What takes packets until it has the object. It knows the configuration and nothing else.
#[derive(Drop)]
struct Receiver {
    decoder: Decoder,
    tallies: Vec<Tally>,
}

impl Receiver {
    fn new(
        alloc: Global,
        table: &SystematicTable,
        config: ObjectTransmissionInformation,
    ) -> Result<Receiver> {
        let tallies = vec![in alloc; Tally::default(); usize::from(config.source_blocks())]?;
        let decoder = Decoder::new(alloc, table, config)?;
        Ok(Receiver { decoder, tallies })
    }

    // A packet comes.
    fn take(&mut self, packet: EncodingPacket) -> Result<()> {
        if let Some(tally) = self.tallies.get_mut(block_of(&packet)) {
            tally.came = tally.came.saturating_add(1);
        }
        self.decoder.add_new_packet(packet)?;
        Ok(())
    }

    // A packet is lost on its way.
    fn lose(&mut self, packet: &EncodingPacket) {
        if let Some(tally) = self.tallies.get_mut(block_of(packet)) {
            tally.lost = tally.lost.saturating_add(1);
        }
    }

    // How many packets it needs at least. Notes which blocks need none.
    fn missing_packets(&mut self, round: u8) -> Result<u32> {
        let mut missing: u32 = 0;
        for (number, tally) in (0..=255).zip(self.tallies.iter_mut()) {
            let packets = self.decoder.missing_packets(number)?.unwrap_or(0);
            if packets == 0 && tally.answered_after.is_none() {
                tally.answered_after = Some(round);
            }
            missing = missing.saturating_add(packets);
        }
        Ok(missing)
    }
}

fn block_of(packet: &EncodingPacket) -> usize {
    usize::from(packet.payload_id().source_block_number())
}

fn main(rt: HostRuntime) -> Result<()> {
    let mut random = Random { state: 1 };
    let object = random_object(rt.alloc(), &mut random)?;
    // Four blocks of 20 symbols of 50 bytes.
    let table = SystematicTable::built_in(rt.alloc())?;
    let config = ObjectTransmissionInformation::new(4000, 50, 4, 1, 1)?;
    let encoder = Encoder::new(rt.alloc(), &table, &object, config)?;
    let mut receiver = Receiver::new(rt.alloc(), &table, config)?;
    go_round(&rt, &encoder, &mut random, &mut receiver)?;
    report(&rt, &receiver, &object)
}

fn random_object(alloc: Global, random: &mut Random) -> Result<Vec<u8>> {
    let mut object = Vec::new(alloc);
    for _ in 0..4000 {
        object.push(random.byte())?;
    }
    Ok(object)
}

// Rounds go by until the receiver needs no packet.
fn go_round(
    rt: &HostRuntime,
    encoder: &Encoder,
    random: &mut Random,
    receiver: &mut Receiver,
) -> Result<()> {
    for round in 0..10 {
        send_round(encoder, round, random, receiver)?;
        let missing = receiver.missing_packets(round)?;
        println!(rt; "after round {round}, packets that are missing at least: {missing}")?;
        if missing == 0 {
            break;
        }
    }
    Ok(())
}

fn send_round(
    encoder: &Encoder,
    round: u8,
    random: &mut Random,
    receiver: &mut Receiver,
) -> Result<()> {
    for block in 0..encoder.get_config().source_blocks() {
        send_block(encoder, block, round, random, receiver)?;
    }
    Ok(())
}

// Packets of the ids that come after those of earlier rounds.
fn send_block(
    encoder: &Encoder,
    block: u8,
    round: u8,
    random: &mut Random,
    receiver: &mut Receiver,
) -> Result<()> {
    let first = u32::from(round) * PACKETS;
    for esi in first..first + PACKETS {
        let packet = encoder.packet(PayloadId::new(block, esi)?)?;
        if random.byte() < 85 {
            receiver.lose(&packet);
        } else {
            receiver.take(packet)?;
        }
    }
    Ok(())
}

fn report(rt: &HostRuntime, receiver: &Receiver, object: &[u8]) -> Result<()> {
    for tally in &receiver.tallies {
        let round = tally.answered_after.unwrap_or(0);
        println!(rt;
            "{} packets came, {} lost, answered after round {round}",
            tally.came, tally.lost
        )?;
    }
    let answer = receiver.decoder.get_result()?;
    let equal = answer.is_some_and(|bytes| bytes.as_slice() == object);
    println!(rt; "the object came: {equal}")?;
    Ok(())
}
