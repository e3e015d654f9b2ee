//! Hashes and orders of ids, of packets, of configurations and of operations.
use crate::compare::{holds, same};
use raptorq::error::Error;
use raptorq::octet::Octet;
use raptorq::operation_vector::SymbolOps;
use raptorq::{ObjectTransmissionInformation, PayloadId};
use raptorq_test_kit::packets::packet;
use std::alloc::Global;
use std::hash::{DefaultHasher, Hash, Hasher};
use std::test::Fail;

fn hash_of<T: Hash>(value: &T) -> u64 {
    let mut state = DefaultHasher::new();
    value.hash(&mut state);
    state.finish()
}

fn configuration(
    (length, size, blocks, sub_blocks, alignment): (u64, u16, u8, u16, u8),
) -> Result<ObjectTransmissionInformation, Error> {
    ObjectTransmissionInformation::new(length, size, blocks, sub_blocks, alignment)
}

// The block's number counts first, and then the symbol's.
#[test]
fn ids(rt: HostRuntime) -> Result<(), Fail> {
    let first = PayloadId::new(0, 9)?;
    let second = PayloadId::new(1, 7)?;
    holds!(rt; first < second);
    holds!(rt; second < PayloadId::new(1, 8)?);
    same!(rt; hash_of(&second), hash_of(&second.clone()?));
    holds!(rt; hash_of(&second) != hash_of(&PayloadId::new(7, 1)?));
    Ok(())
}

// Block number, encoding symbol id and payload of a packet.
type Parts<'a> = (u8, u32, &'a [u8]);

fn packet_hash(alloc: Global, (block, esi, payload): Parts<'_>) -> Result<u64, Error> {
    Ok(hash_of(&packet(alloc, block, esi, payload)?))
}

fn is_less(alloc: Global, left: Parts<'_>, right: Parts<'_>) -> Result<bool, Error> {
    let left = packet(alloc, left.0, left.1, left.2)?;
    Ok(left < packet(alloc, right.0, right.1, right.2)?)
}

// The block's number counts first, then the symbol's, and then the payload, octet by octet.
#[test]
fn packets(rt: HostRuntime) -> Result<(), Fail> {
    let cases: [(Parts<'_>, Parts<'_>); 3] = [
        ((0, 9, &[9]), (1, 7, &[9])),
        ((1, 7, &[9]), (1, 7, &[9, 0])),
        ((1, 7, &[9, 0]), (1, 8, &[1])),
    ];
    for (left, right) in cases {
        holds!(rt; is_less(rt.alloc(), left, right)?, left);
        let hash = packet_hash(rt.alloc(), left)?;
        same!(rt; packet_hash(rt.alloc(), left)?, hash);
        holds!(rt; packet_hash(rt.alloc(), right)? != hash, left);
    }
    Ok(())
}

// The fields of a configuration count in the order of `new`, the object's length first.
#[test]
fn configurations(rt: HostRuntime) -> Result<(), Fail> {
    let ascending: [(u64, u16, u8, u16, u8); 6] = [
        (8, 4, 2, 2, 2),
        (9, 2, 1, 1, 1),
        (9, 4, 1, 1, 1),
        (9, 4, 2, 1, 1),
        (9, 4, 2, 2, 1),
        (9, 4, 2, 2, 2),
    ];
    for at in 1..ascending.len() {
        let less = configuration(ascending[at - 1])?;
        let more = configuration(ascending[at])?;
        holds!(rt; less < more, ascending[at]);
        same!(rt; hash_of(&more), hash_of(&configuration(ascending[at])?));
        holds!(rt; hash_of(&less) != hash_of(&more), ascending[at]);
    }
    Ok(())
}

// The kind of operation counts first.
#[test]
fn operations(rt: HostRuntime) -> Result<(), Fail> {
    let alloc = rt.alloc();
    let addition = SymbolOps::AddAssign { dest: 7, src: 8 };
    let multiplication = SymbolOps::MulAssign {
        dest: 0,
        scalar: Octet::new(2),
    };
    let order = SymbolOps::Reorder {
        order: vec![in alloc; 1, 0]?,
    };
    holds!(rt; SymbolOps::AddAssign { dest: 6, src: 9 } < addition);
    holds!(rt; addition < multiplication);
    holds!(rt; multiplication < order);
    same!(rt; hash_of(&order), hash_of(&order.clone()?));
    holds!(rt; hash_of(&addition) != hash_of(&SymbolOps::AddAssign { dest: 8, src: 7 }));
    Ok(())
}
