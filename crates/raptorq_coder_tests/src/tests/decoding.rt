//! Worked examples of the coders.
use super::written::{object_answer, object_decoder};
use crate::compare::{holds, same};
use raptorq::decoder::decode_all;
use raptorq::error::Error;
use raptorq::systematic_constants::SystematicTable;
use raptorq::{Decoder, Encoder, EncodingPacket, ObjectTransmissionInformation};
use raptorq_test_kit::configurations::configured;
use std::alloc::Global;
use std::process::Abort;

// A payload of another size and another block are refused, the block first.
fn refuses(rt: &impl Abort, alloc: Global, decoder: &mut Decoder) -> Result<(), Error> {
    let cases: [(u8, &[u8], Error); 3] = [
        (0, &[1, 2], Error::WrongPayloadSize),
        (1, &[1], Error::UnknownBlock),
        (1, &[1, 2], Error::UnknownBlock),
    ];
    for (block, payload, wanted) in cases {
        let refused = object_answer(alloc, decoder, (block, 0, payload));
        holds!(rt; refused == Err(wanted), block);
    }
    Ok(())
}

// Repeats are ignored, and refused packets are refused before the answer and after it.
#[test]
fn a_decoder_of_ten_symbols(rt: HostRuntime) -> Result<(), Error> {
    let alloc = rt.alloc();
    let mut decoder = object_decoder(alloc, (10, 1, 1, 1, 1))?;
    for esi in 0..9u8 {
        same!(rt; object_answer(alloc, &mut decoder, (0, u32::from(esi), &[esi + 20]))?, None);
    }
    same!(rt; object_answer(alloc, &mut decoder, (0, 0, &[99]))?, None);
    refuses(&rt, alloc, &mut decoder)?;
    let object = object_answer(alloc, &mut decoder, (0, 9, &[29]))?;
    same!(rt; object.as_deref(), Some([20, 21, 22, 23, 24, 25, 26, 27, 28, 29].as_slice()));
    refuses(&rt, alloc, &mut decoder)
}

// The packets of an object that doesn't fill its last symbol, each behind a threshold.
fn steps(
    rt: &impl Abort,
    alloc: Global,
    table: &SystematicTable,
    information: ObjectTransmissionInformation,
) -> Result<Vec<(u32, EncodingPacket)>, Error> {
    let encoder = Encoder::new(alloc, table, &[7, 8, 9], information)?;
    holds!(rt; encoder.get_config() == information);
    let mut steps = Vec::new(alloc);
    for packet in encoder.get_encoded_packets(0)? {
        steps.push((0, packet))?;
    }
    Ok(steps)
}

#[test]
fn an_object_there_and_back(rt: HostRuntime) -> Result<(), Error> {
    let alloc = rt.alloc();
    let (table, information) = configured(alloc, (3, 2, 1, 1, 1))?;
    let steps = steps(&rt, alloc, &table, information)?;
    assert_eq!(rt; steps.len(), 2);
    same!(rt; steps[1].1.data(), [9, 0].as_slice());
    let object = decode_all(alloc, &table, information, steps)?;
    same!(rt; object.as_deref(), Some([7, 8, 9].as_slice()));
    Ok(())
}
