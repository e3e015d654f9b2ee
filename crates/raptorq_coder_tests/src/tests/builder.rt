//! Worked examples of encoders by their parameters.
use crate::compare::holds;
use raptorq::error::Error;
use raptorq::systematic_constants::SystematicTable;
use raptorq::{Encoder, EncoderBuilder, ObjectTransmissionInformation};

#[test]
fn defaults(rt: HostRuntime) -> Result<(), Error> {
    let alloc = rt.alloc();
    let table = SystematicTable::built_in(alloc)?;
    let mut builder = EncoderBuilder::new();
    holds!(rt; builder == EncoderBuilder::default());
    builder.set_max_packet_size(1024);
    let encoder = builder.build(alloc, &table, &[0, 1, 2, 3])?;
    holds!(rt; Encoder::with_defaults(alloc, &table, &[0, 1, 2, 3], 1024)? == encoder);
    Ok(())
}

// They are those of the length, the packets' size and the memory, of which there are worked examples.
#[test]
fn parameters(rt: HostRuntime) -> Result<(), Error> {
    let table = SystematicTable::built_in(rt.alloc())?;
    let mut builder = EncoderBuilder::new();
    builder.set_max_packet_size(500);
    builder.set_decoder_memory_requirement(1000);
    let config = builder.build(rt.alloc(), &table, &[7; 400])?.get_config();
    let wanted = ObjectTransmissionInformation::generate_encoding_parameters(
        &table, 400, 500, 1000,
    );
    holds!(rt; wanted == Ok(config));
    Ok(())
}
