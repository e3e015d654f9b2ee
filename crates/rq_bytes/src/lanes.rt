//! Operations on each octet of a row, whole vectors of them at once.
ghost use Rattle.std.specs.Prelude.{◌≡◌, ℕ, ◌+◌, ◌*◌, ◌/◌, ◌<◌, ◌≤◌, length};
ghost use Rattle.std.specs.List.{range_with_len};
ghost use Rattle.std.specs.Simd.Lanes.{zip2};
ghost use Rattle.rq_bytes.specs.Lanes.{made_upto};

use crate::products::LANES;
use std::simd::prelude::*;

/// What is made of the octet at each place of a row, by an operation on one octet and on a vector of
/// them.
pub(crate) trait LaneOperation {
    // what it makes of an octet at a place
    ghost made: { Self → ℕ → ℕ → ℕ };

    // how many places it knows
    ghost places: { Self → ℕ };

    /// What it makes of the octets from a place on.
    fn lanes(&self, octets: u8x32, place: usize) -> u8x32
        requires long { length octets ≡ 32 }
        requires within { place + 32 ≤ places self.now }
        ensures { result ≡ zip2 (made self.now) octets (range_with_len place (length octets)) };

    /// What it makes of the octet at a place.
    fn octet(&self, octet: u8, place: usize) -> u8
        requires { place < places self.now }
        ensures { result ≡ made self.now octet place };
}

/// Does an operation to each octet of a row, two vectors at once. It is compiled anew for each
/// operation.
#[inline(always)]
pub(crate) fn change_row<O: LaneOperation>(octets: &mut [u8], operation: &O)
    requires { length octets.old ≤ O.places operation.now }
    ensures { octets.new ≡ zip2 (O.made operation.now) octets.old (range_with_len 0 (length octets.old)) }
{
    change_pairs(octets, operation);
    // What is left is counted by rests of divisions, so that the compiler knows that it is little.
    let blocks = octets.len() / LANES;
    if blocks % 2 == 1 {
        let at = LANES * (blocks - 1);
        let made = operation.lanes(u8x32::from_slice(&octets[at..]), at);
        made.copy_to_slice(&mut octets[at..]);
    }
    for k in 0..octets.len() % LANES {
        let i = LANES * blocks + k;
        octets[i] = operation.octet(octets[i], i);
    }
}

// Does an operation to the whole pairs of vectors of a row.
#[inline(always)]
fn change_pairs<O: LaneOperation>(octets: &mut [u8], operation: &O)
    requires { length octets.old ≤ O.places operation.now }
    ensures { octets.new ≡ made_upto (O.made operation.now) (64 * (length octets.old / 64)) octets.old }
{
    for pair in 0..octets.len() / (2 * LANES) {
        // Both are made before the first is written, so that all reads go ahead of the writes.
        let at = 2 * LANES * pair;
        let second = at + LANES;
        let made = operation.lanes(u8x32::from_slice(&octets[at..]), at);
        let made_second = operation.lanes(u8x32::from_slice(&octets[second..]), second);
        made.copy_to_slice(&mut octets[at..]);
        made_second.copy_to_slice(&mut octets[second..]);
    }
}
