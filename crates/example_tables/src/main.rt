//! Blocks of more than 497 symbols: a table that has the further rows of RFC 6330, too, is handed to the
//! encoder and the decoder.
#![tactic(auto)]

use anyhow::Result;
use raptorq::systematic_constants::SystematicTable;
use raptorq::{Decoder, Encoder, ObjectTransmissionInformation};
use rq_rows::{FURTHER_ROWS, full_table};

fn main(rt: HostRuntime) -> Result<()> {
    let table = full_table(rt.alloc())?;
    let (count, greatest) = (FURTHER_ROWS.len(), table.greatest());
    println!(rt; "{count} further rows, for blocks of up to {greatest} symbols")?;
    send(&rt, &table)?;
    damage(&rt)
}

// Gives the first row an even number of LDPC symbols: no table has it.
fn damage(rt: &HostRuntime) -> Result<()> {
    let mut rows = Vec::from_slice(rt.alloc(), &FURTHER_ROWS)?;
    if let Some(row) = rows.first_mut() {
        row.2 = 36;
    }
    if let Err(refusal) = SystematicTable::with_rows(rt.alloc(), &rows) {
        let number = refusal.code();
        println!(rt; "with a damaged row: {refusal:?}, number {number}")?;
    }
    Ok(())
}

// Sends an object of 1002 symbols of 16 bytes in one block, and loses each tenth packet.
fn send(rt: &HostRuntime, table: &SystematicTable) -> Result<()> {
    let alloc = rt.alloc();
    let object: Vec<u8> = (0..16032u32)
        .map(|place| (place.wrapping_mul(2654435761) >> 24) as u8)
        .collect(alloc)?;
    let config = ObjectTransmissionInformation::new(16032, 16, 1, 1, 1)?;
    let encoder = Encoder::new(alloc, table, &object, config)?;
    let packets = encoder.get_encoded_packets(120)?;

    let mut decoder = Decoder::new(alloc, table, config)?;
    let mut answer = None;
    for (place, packet) in packets.into_iter().enumerate() {
        if place % 10 != 0 && answer.is_none() {
            answer = decoder.decode(packet)?;
        }
    }
    let equal = answer.is_some_and(|bytes| bytes == object);
    println!(rt; "1002 symbols, each tenth packet lost; it came back: {equal}")?;
    Ok(())
}
