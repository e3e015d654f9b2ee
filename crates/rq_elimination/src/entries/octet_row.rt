//! `EntryRow`: one row of the matrix U of RFC 6330 (section 5.4.2.2) to be read, as octets or as bits.
ghost use Rattle.std.specs.Prelude.{◌≡◌, ℕ, ◌+◌, ◌%◌, ◌^◌, ◌<◌, ◌≤◌, length, slice_index, IfSome};
ghost use Rattle.std.specs.Int.{bit_at};
ghost use Rattle.rq_elimination.specs.InactiveEntries.{IsNextOctet};
ghost use Rattle.rq_standard.specs.BitTableSteps.{bit_of};
ghost use Rattle.rq_elimination.specs.NonzeroOctets.{HasOnesAfter};

use rq_bytes::octet::Octet;
use rq_bytes::products::LANES;
use std::simd::prelude::*;

/// A row, to be read: its own octets where it has some, or else its bits.
#[derive(Drop)]
pub enum EntryRow<'a> {
    Octets(&'a [u8]),
    Bits(&'a [u64]),
}

/// The first column, from one on and before another, where there isn't 0, and what is there.
pub fn next_octet(octets: &[u8], from: usize, end: usize) -> Option<(usize, Octet)>
    requires { end ≤ length octets.now }
    ensures { IsNextOctet (slice_index octets.now) from end result }
{
    for column in from..end {
        let octet = octets[column];
        if octet != 0 {
            return Some((column, Octet::new(octet)));
        }
    }
    None
}

/// Which octets of the first vector but the first one aren't 0, as bits, the first lowest.
#[inline(always)]
pub fn nonzero_after_first(octets: &[u8]) -> u64
    requires { 32 ≤ length octets.now }
    ensures { HasOnesAfter octets.now 0 result }
{
    nonzero_lanes(octets, 0) & !1
}

/// The first octet that isn't 0, after a place and before an end, and where it is. `rest` has ones for
/// those in the place's vector that come after it, and so for the next that is found.
#[inline(always)]
pub fn next_in_vectors(
    octets: &[u8],
    place: usize,
    end: usize,
    rest: &mut u64,
) -> Option<(usize, Octet)>
    requires whole { length octets.now % 32 ≡ 0 }
    requires place { place < length octets.now }
    requires end { end ≤ length octets.now }
    requires rest { HasOnesAfter octets.now place rest.old }
    ensures next { IsNextOctet (slice_index octets.now) (place + 1) end result }
    ensures rest { IfSome result (λ found. HasOnesAfter octets.now found.0 rest.new) }
{
    let mut start = place - place % LANES;
    while *rest == 0 {
        start += LANES;
        if start >= end {
            return None;
        }
        *rest = nonzero_lanes(octets, start);
    }
    let found = start + rest.trailing_zeros() as usize;
    if found >= end {
        return None;
    }
    *rest &= *rest - 1;
    Some((found, Octet::new(octets[found])))
}

// Which octets of a vector aren't 0, as bits, the first lowest.
#[inline(always)]
fn nonzero_lanes(octets: &[u8], start: usize) -> u64
    requires { start + 32 ≤ length octets.now }
    ensures bits { (k : ℕ) → k < 32 → bit_at result k ≡ bit_of (slice_index octets.now (start + k)) }
    ensures few { result < 2 ^ 32 }
{
    u8x32::from_slice(&octets[start..])
        .simd_ne(u8x32::splat(0))
        .to_bitmask()
}

/// How many of the first octets aren't 0.
pub fn count_octets(octets: &[u8], count: usize) -> usize
    requires { count ≤ length octets.now }
    ensures { result ≤ count }
{
    let mut found = 0;
    for column in 0..count {
        found += (octets[column] != 0) as usize;
    }
    found
}
