//! Worked examples of plans, of their cache, and of the encoder of one source block.
use super::written::{Config, cache, packets};
use crate::compare::{holds, same};
use raptorq::error::Error;
use raptorq::systematic_constants::{SYSTEMATIC_INDICES_AND_PARAMETERS, SystematicTable};
use raptorq::{
    EncodingPacket, ObjectTransmissionInformation, SourceBlockEncoder, SourceBlockEncodingPlan,
};
use raptorq_test_kit::configurations::configured;
use std::alloc::Global;

// Whether packets have the encoding symbol ids from one on.
fn ids_from(packets: &[EncodingPacket], first: u32) -> bool {
    let mut esi = u64::from(first);
    for packet in packets {
        if u64::from(packet.payload_id().encoding_symbol_id()) != esi {
            return false;
        }
        esi = esi.wrapping_add(1);
    }
    true
}

// The encoder of a block of symbols of two bytes, by a cache of its own.
fn encoder(alloc: Global, block: &[u8]) -> Result<SourceBlockEncoder, Error> {
    let config = ObjectTransmissionInformation::new(0, 2, 1, 1, 1)?;
    SourceBlockEncoder::new(alloc, 0, &config, block, &mut cache(alloc)?)
}

#[test]
fn packets_of_source_symbols(rt: HostRuntime) -> Result<(), Error> {
    let source = encoder(rt.alloc(), &[0, 1, 2, 3, 4, 5])?.source_packets()?;
    let wanted = packets(
        rt.alloc(),
        &[(0, 0, &[0, 1]), (0, 1, &[2, 3]), (0, 2, &[4, 5])],
    )?;
    holds!(rt; source == wanted);
    Ok(())
}

// Some of them, and the last one.
#[test]
fn packets_of_repair_symbols(rt: HostRuntime) -> Result<(), Error> {
    let encoder = encoder(rt.alloc(), &[0, 1, 2, 3, 4, 5])?;
    for (start, count, first) in [(2, 4, 5), (16777212, 1, 16777215)] {
        let repair = encoder.repair_packets(start, count)?;
        same!(rt; repair.len(), count as usize);
        holds!(rt; ids_from(repair.as_slice(), first));
    }
    same!(rt; encoder.repair_packets(u32::MAX, 0)?.len(), 0);
    for (start, count) in [(16777212, 2), (u32::MAX, 1)] {
        let refused = encoder.repair_packets(start, count);
        holds!(rt; refused == Err(Error::EsiTooLarge), start);
    }
    Ok(())
}

// The encoder of a block of zeros, by the plan of `count` symbols.
fn encoder_by_plan(
    alloc: Global,
    count: u16,
    config: Config,
    zeros: &[u8],
) -> Result<SourceBlockEncoder, Error> {
    let (table, information) = configured(alloc, config)?;
    let plan = SourceBlockEncodingPlan::generate(alloc, &table, count)?.clone()?;
    SourceBlockEncoder::with_encoding_plan(alloc, 0, &information, zeros, &table, &plan)
}

#[test]
fn symbols_of_zeros(rt: HostRuntime) -> Result<(), Error> {
    let encoder = encoder_by_plan(rt.alloc(), 3, (6, 2, 1, 1, 1), &[0; 6])?;
    for packet in &encoder.repair_packets(0, 20)? {
        same!(rt; packet.data(), [0, 0].as_slice());
    }
    Ok(())
}

#[test]
fn a_plan_of_another_count(rt: HostRuntime) {
    let refused = encoder_by_plan(rt.alloc(), 2, (6, 2, 1, 1, 1), &[0; 6]);
    holds!(rt; refused == Err(Error::PlanMismatch));
}

#[test]
fn each_built_in_size_has_a_plan(rt: HostRuntime) -> Result<(), Error> {
    let alloc = rt.alloc();
    let table = SystematicTable::built_in(alloc)?;
    for (source_symbols, _, _, _, _) in SYSTEMATIC_INDICES_AND_PARAMETERS {
        let plan = SourceBlockEncodingPlan::generate(
            alloc,
            &table,
            u16::try_from(source_symbols).unwrap_or(u16::MAX),
        );
        holds!(rt; plan.is_ok(), source_symbols);
    }
    Ok(())
}

#[test]
fn first_in_first_out(rt: HostRuntime) -> Result<(), Error> {
    let mut cache = cache(rt.alloc())?;
    for count in 1..66u16 {
        let _plan = cache.get_or_generate(count)?;
    }
    same!(rt; cache.len(), 64);
    holds!(rt; !cache.contains(1));
    holds!(rt; cache.contains(2));
    let _held = cache.get_or_generate(2)?;
    let _made = cache.get_or_generate(1)?;
    same!(rt; cache.len(), 64);
    holds!(rt; !cache.contains(2));
    holds!(rt; cache.contains(3));
    holds!(rt; cache.contains(1));
    Ok(())
}
