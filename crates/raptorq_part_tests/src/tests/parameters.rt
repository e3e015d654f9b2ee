//! Default parameters of objects.
use crate::compare::same;
use raptorq::ObjectTransmissionInformation;
use raptorq::error::Error;
use raptorq::systematic_constants::SystematicTable;
use std::test::Fail;

// Symbol size, source blocks, sub-blocks and alignment of a configuration.
fn cut(
    configuration: Result<ObjectTransmissionInformation, Error>,
) -> Result<(u16, u8, u16, u8), Error> {
    let c = configuration?;
    Ok((
        c.symbol_size(),
        c.source_blocks(),
        c.sub_blocks(),
        c.symbol_alignment(),
    ))
}

#[test]
fn parameters(rt: HostRuntime) -> Result<(), Fail> {
    let table = SystematicTable::built_in(rt.alloc())?;
    let cases = [
        ((10000, 1400, 10485760), Ok((1400, 1, 1, 8))),
        ((10000, 500, 5000), Ok((496, 1, 3, 8))),
        ((400, 500, 1000), Ok((496, 1, 6, 8))),
        ((400, 500, 719), Err(Error::MemoryRequirementTooSmall)),
        ((10000, 64, 640), Ok((64, 16, 1, 8))),
        ((10000, 64, 64), Err(Error::MemoryRequirementTooSmall)),
        ((10000, 63, 64), Ok((63, 3, 63, 1))),
        ((0, 0, 1), Err(Error::PacketSizeZero)),
        ((942574504276, 1, 10485760), Err(Error::TransferTooLong)),
    ];
    for ((length, size, memory), wanted) in cases {
        let made = ObjectTransmissionInformation::generate_encoding_parameters(
            &table, length, size, memory,
        );
        same!(rt; cut(made), wanted);
    }
    Ok(())
}

#[test]
fn defaults(rt: HostRuntime) -> Result<(), Fail> {
    let table = SystematicTable::built_in(rt.alloc())?;
    let cases = [
        ((126735, 1), Ok((1, 255, 1, 1))),
        ((126736, 1), Err(Error::TooManyBlocks)),
        ((162220800, 1280), Ok((1280, 255, 1, 8))),
        ((162220801, 1280), Err(Error::TooManyBlocks)),
        ((8304691080, 65535), Ok((65528, 255, 4, 8))),
        ((8304691081, 65535), Err(Error::TooManyBlocks)),
        ((1, 0), Err(Error::PacketSizeZero)),
        ((0, 1), Err(Error::TransferLengthZero)),
    ];
    for ((length, size), wanted) in cases {
        same!(rt; cut(ObjectTransmissionInformation::with_defaults(&table, length, size)), wanted);
    }
    Ok(())
}
