//! Rows of bits of which the ones are stored.
use crate::compare::{holds, same};
use raptorq::error::Error;
use raptorq::iterators::OctetIter;
use raptorq::octet::Octet;
use raptorq::sparse_vec::SparseBinaryVec;
use std::alloc::Global;
use std::process::Abort;
use std::test::Fail;

// The ones at two indices.
fn pair(alloc: Global, first: u16, second: u16) -> Result<SparseBinaryVec, Error> {
    let mut row = SparseBinaryVec::with_capacity(alloc, 2)?;
    row.insert(usize::from(first), Octet::one())?;
    row.insert(usize::from(second), Octet::new(7))?;
    Ok(row)
}

#[test]
fn ones_in_a_range_of_columns(rt: HostRuntime) -> Result<(), Fail> {
    let mut row = SparseBinaryVec::with_capacity(rt.alloc(), 3)?;
    row.insert(6, Octet::one())?;
    row.insert(1, Octet::one())?;
    row.insert(4, Octet::one())?;
    let mut ones = OctetIter::new_sparse(2, 7, &row, &[0, 1, 2, 3, 4, 5, 6]);
    same!(rt; ones.next(), Some((4, Octet::one())));
    let mut copy = ones.clone(rt.alloc())?;
    same!(rt; copy.next(), Some((6, Octet::one())));
    same!(rt; copy.next(), None);
    Ok(())
}

// The ones at 1 and 4 and those at 4 and 65535, added.
fn sum_of_pairs(rt: &impl Abort, alloc: Global) -> Result<SparseBinaryVec, Error> {
    let mut row = pair(alloc, 4, 1)?;
    let other = pair(alloc, 4, 65535)?;
    let copy = other.clone()?;
    holds!(rt; copy == other);
    holds!(rt; row.add_assign(&other)?);
    Ok(row)
}

#[test]
fn sums(rt: HostRuntime) -> Result<(), Fail> {
    let row = sum_of_pairs(&rt, rt.alloc())?;
    let mut ones = row.keys_values();
    same!(rt; ones.next(), Some((1, Octet::one())));
    same!(rt; ones.next(), Some((65535, Octet::one())));
    same!(rt; ones.next(), None);
    assert!(rt; row.len() == 2);
    same!(rt; row.get_by_raw_index(1), (65535, Octet::one()));
    Ok(())
}

#[test]
fn single_bits(rt: HostRuntime) -> Result<(), Fail> {
    let mut row = sum_of_pairs(&rt, rt.alloc())?;
    same!(rt; row.remove(1), Some(Octet::one()));
    same!(rt; row.remove(1), None);
    same!(rt; row.get(65535), Some(Octet::one()));
    row.insert(65535, Octet::zero())?;
    same!(rt; row.get(65535), None);
    same!(rt; row.len(), 0);
    Ok(())
}

#[test]
fn ones_that_a_predicate_keeps(rt: HostRuntime) -> Result<(), Fail> {
    let mut row = sum_of_pairs(&rt, rt.alloc())?;
    row.retain(|one| one.0 > 1);
    same!(rt; row.get(1), None);
    same!(rt; row.get(65535), Some(Octet::one()));
    Ok(())
}
