//! Configurations over the built-in table.
use raptorq::ObjectTransmissionInformation;
use raptorq::error::Error;
use raptorq::systematic_constants::SystematicTable;
use std::alloc::Global;

/// The built-in table, and the configuration of a transfer length, a symbol size, a number of source
/// blocks, one of sub-blocks, and an alignment.
pub fn configured(
    alloc: Global,
    (length, size, blocks, sub_blocks, alignment): (u64, u16, u8, u16, u8),
) -> Result<(SystematicTable, ObjectTransmissionInformation), Error> {
    let table = SystematicTable::built_in(alloc)?;
    let config = ObjectTransmissionInformation::new(length, size, blocks, sub_blocks, alignment)?;
    Ok((table, config))
}
