//! In which configurations the parts of a stream are sent.
ghost use Rattle.std.specs.Prelude.{◌<◌, IfOk, IfErr, OnOk};
ghost use Rattle.rq_cast.specs.Preparing.{IsFitting, RefusesFitting, FitParts, RefusesParts};

use crate::order::Order;
use crate::parts::{MOST_PARTS, SEAL_LENGTH};
use raptorq::ObjectTransmissionInformation;
use raptorq::error::Error;
use raptorq::systematic_constants::SystematicTable;
use rq_rows::full_table;
use std::alloc::Global;

/// The rows over which an object of so many bytes is sent, the built-in ones where it fits them and else
/// all, and its default configuration for symbols of at most so many bytes.
///
/// Refuses what [`ObjectTransmissionInformation::with_defaults`] refuses over these rows.
/// [`Error::OutOfMemory`] may come before that.
pub fn fitting(
    alloc: Global,
    length: u64,
    symbol_size: u16,
) -> Result<(SystematicTable, ObjectTransmissionInformation), Error>
    ensures fits { IfOk result (λ r. IsFitting length symbol_size r.0 r.1) }
    ensures refused { IfErr result (RefusesFitting length symbol_size) }
{
    let table = SystematicTable::built_in(alloc)?;
    match ObjectTransmissionInformation::with_defaults(&table, length, symbol_size) {
        Ok(configuration) => Ok((table, configuration)),
        Err(Error::TooManyBlocks) => {
            let table = full_table(alloc)?;
            let configuration = ObjectTransmissionInformation::with_defaults(
                &table,
                length,
                symbol_size,
            )?;
            Ok((table, configuration))
        }
        Err(refusal) => Err(refusal),
    }
}

/// Refuses what [`send_stream`](crate::send_stream) refuses of the parts' number and of their configurations,
/// where so many bytes are sent, before one of them is read. [`Error::OutOfMemory`] may come before that.
pub fn check_length(alloc: Global, order: &Order, length: u64) -> Result<(), Error>
    requires { 0 < order.now.part }
    ensures fits { OnOk result (FitParts order.now length) }
    ensures refused { IfErr result (RefusesParts order.now length) }
{
    let last = length / order.part;
    if last > 0 {
        fitting(alloc, order.part, order.symbol_size)?;
    }
    if last >= u64::from(MOST_PARTS) {
        return Err(Error::TransferTooLong);
    }
    // Past 2^64 - 1 they are too long in any case.
    let sealed = (length % order.part).saturating_add(SEAL_LENGTH as u64);
    fitting(alloc, sealed, order.symbol_size)?;
    Ok(())
}
