//! The payloads of a block by encoding symbol id.
ghost use Rattle.std.specs.Prelude.{◌≡◌, ℕ, length, IfOk, OnOk, OnErr, not};
ghost use Rattle.rq_block.specs.Payloads.{payload_of, has_payload, KeepsFirst};
ghost use Rattle.rq_block.specs.RefusedBlocks.{size_refusal};

use rq_base::base::{EncodingPacket, ObjectTransmissionInformation};
use rq_bytes::error::Error;
use std::alloc::{AllocError, Global};
use std::collections::BTreeMap;
use std::collections::btree_map::Entry;

/// Refuses a packet whose payload hasn't the size of a symbol, by [`Error::WrongPayloadSize`]. Not in
/// the Rust crate.
pub fn check_size(
    config: &ObjectTransmissionInformation,
    packet: &EncodingPacket,
) -> Result<(), Error>
    ensures tests { result ≡ size_refusal config.now packet.now }
    ensures sized { OnOk result (length packet.now.payload ≡ config.now.symbol_size) }
{
    if packet.data().len() != usize::from(config.symbol_size()) {
        return Err(Error::WrongPayloadSize);
    }
    Ok(())
}

/// Keeps a payload, unless one of its id is there. Answers whether it was kept.
pub(crate) fn keep_first(
    received: &mut BTreeMap<u32, Vec<u8>>,
    esi: u32,
    payload: Vec<u8>,
) -> Result<bool, AllocError>
    ensures kept { IfOk result (λ kept. has_payload received.old esi ≡ not kept) }
    ensures ok { OnOk result (KeepsFirst esi payload.items received.old received.new) }
    ensures err { OnErr result ((e : ℕ) → payload_of received.new e ≡ payload_of received.old e) }
{
    match received.entry(esi)? {
        Entry::Occupied(_) => Ok(false),
        Entry::Vacant(vacant) => {
            let _kept = vacant.insert(payload);
            Ok(true)
        }
    }
}
