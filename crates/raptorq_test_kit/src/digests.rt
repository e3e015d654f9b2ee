//! Digests by which answers are compared with those of the Rust crate.
use raptorq::EncodingPacket;

// FNV-1a in 32 bits, over more bytes.
fn hash(before: u32, bytes: &[u8]) -> u32 {
    let mut hash = before;
    for byte in bytes {
        hash = (hash ^ u32::from(*byte)).wrapping_mul(0x01000193);
    }
    hash
}

/// FNV-1a in 32 bits of packets, one after another: their ids and payloads.
pub fn digest(packets: &[EncodingPacket]) -> u32 {
    let mut digest = 0x811c9dc5;
    for packet in packets {
        digest = hash(digest, &packet.payload_id().serialize());
        digest = hash(digest, packet.data());
    }
    digest
}

/// A digest of numbers with one number more. It starts at 0.
pub fn mixed(digest: u64, number: u64) -> u64 {
    digest
        .wrapping_mul(1099511628211)
        .wrapping_add(number)
        .wrapping_add(1)
}
