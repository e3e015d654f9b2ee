//! Multiples of a range of one buffer, added to other ranges of it; and a range that is doubled, takes
//! another one, and is then added to others.
ghost use Rattle.std.specs.Prelude.{◌≡◌, ◌+◌, ◌<◌, ◌≤◌, length, map, All};
ghost use Rattle.rq_bytes.specs.Ranges.{range_of};
ghost use Rattle.rq_bytes.specs.RangeSums.{with_row_added, with_multiples_added, with_doubled_sum, doubled_sum, by_one, IsRangeBeside, BeginsNotInside};
ghost use Rattle.rq_bytes.specs.Targets.{start_and_octet};

use crate::half_products::{HalfProducts, Halves};
use crate::products::{LANES, doubled_lanes, product};
use std::simd::Simd;
use std::simd::prelude::*;

/// Where a multiple is added, and the octet that multiplies.
#[derive(Clone, Copy)]
pub(crate) struct Target {
    pub(crate) start: usize,
    pub(crate) factor: HalfProducts,
}

/// Adds multiples of the `len` octets from `src` on to those from each target's start on, in one pass
/// over them: each piece is read and split into halves once. It is compiled anew for each known number
/// of targets.
#[inline(always)]
pub(crate) fn add_multiples(bytes: &mut [u8], src: usize, targets: &[Target], len: usize)
    requires src { src + len ≤ length bytes.old }
    requires targets { All (λ target. IsRangeBeside (length bytes.old) src len target.start) targets.now }
    ensures { bytes.new ≡ with_multiples_added bytes.old (range_of bytes.old src len) 0 (map start_and_octet targets.now) }
{
    let pieces = len / LANES;
    for piece in 0..pieces {
        add_multiples_of_piece(bytes, src, targets, LANES * piece);
    }
    for at in LANES * pieces..len {
        add_multiples_of_octet(bytes, src, targets, at);
    }
}

// Adds the multiples of one piece, the octets from `at` on of each range.
#[inline(always)]
fn add_multiples_of_piece(bytes: &mut [u8], src: usize, targets: &[Target], at: usize)
    requires src { src + at + 32 ≤ length bytes.old }
    requires targets { All (λ target. target.start + at + 32 ≤ length bytes.old) targets.now }
    ensures { bytes.new ≡ with_multiples_added bytes.old (range_of bytes.old (src + at) 32) at (map start_and_octet targets.now) }
{
    let halves = Halves::new(u8x32::from_slice(&bytes[src + at..]));
    for target in targets {
        add_piece(bytes, target.factor.products(&halves), target.start + at);
    }
}

// Adds the multiples of one octet, the one at `at` of each range. They are looked up: halves pay for a
// vector of octets.
#[inline(always)]
fn add_multiples_of_octet(bytes: &mut [u8], src: usize, targets: &[Target], at: usize)
    requires src { src + at < length bytes.old }
    requires targets { All (λ target. target.start + at < length bytes.old) targets.now }
    ensures { bytes.new ≡ with_multiples_added bytes.old (range_of bytes.old (src + at) 1) at (map start_and_octet targets.now) }
{
    let octet = bytes[src + at];
    for target in targets {
        let multiple = Simd::<u8, 1>::splat(product(target.factor.octet, octet));
        add_piece(bytes, multiple, target.start + at);
    }
}

/// Multiplies the `len` octets from `dest` on by 2, adds those from `src` on to them, and then adds
/// them to those from each target on, in one pass over all. No target begins inside the octets from
/// `src` on, since these would change before they are read. It is compiled anew for each known number
/// of targets.
#[inline(always)]
pub(crate) fn double_add_and_spread(
    bytes: &mut [u8],
    dest: usize,
    src: usize,
    targets: &[usize],
    len: usize,
)
    requires dest { dest + len ≤ length bytes.old }
    requires src { IsRangeBeside (length bytes.old) dest len src }
    requires targets { All (IsRangeBeside (length bytes.old) dest len) targets.now }
    requires unmixed { All (BeginsNotInside src len) targets.now }
    ensures { let sum = with_doubled_sum bytes.old dest src len in
        bytes.new ≡ with_multiples_added sum (range_of sum dest len) 0 (map by_one targets.now) }
{
    // A sum is written after those that it is added to: where places are a whole number of pages apart,
    // a load right behind a store to the other place is slow.
    let pieces = len / LANES;
    for piece in 0..pieces {
        let at = LANES * piece;
        let sum = sum_of_pieces(bytes, dest + at, src + at);
        add_piece_to_all(bytes, sum, targets, at);
        sum.copy_to_slice(&mut bytes[dest + at..]);
    }
    for at in LANES * pieces..len {
        let sum = Simd::<u8, 1>::splat(product(2, bytes[dest + at]) ^ bytes[src + at]);
        add_piece_to_all(bytes, sum, targets, at);
        sum.copy_to_slice(&mut bytes[dest + at..]);
    }
}

// The sum of a piece's multiple by 2 and another piece.
#[inline(always)]
fn sum_of_pieces(bytes: &[u8], dest: usize, src: usize) -> u8x32
    requires dest { dest + 32 ≤ length bytes.now }
    requires src { src + 32 ≤ length bytes.now }
    ensures { result ≡ doubled_sum bytes.now dest src 32 }
{
    let multiple = doubled_lanes(u8x32::from_slice(&bytes[dest..]));
    multiple ^ u8x32::from_slice(&bytes[src..])
}

// Adds a piece to the octets that begin `at` octets after each target.
#[inline(always)]
fn add_piece_to_all<const N: usize>(
    bytes: &mut [u8],
    piece: Simd<u8, N>,
    targets: &[usize],
    at: usize,
)
    requires lanes { N ≤ 64 }
    requires targets { All (λ target. target + at + N ≤ length bytes.old) targets.now }
    ensures { bytes.new ≡ with_multiples_added bytes.old piece.entry at (map by_one targets.now) }
{
    for target in targets {
        add_piece(bytes, piece, *target + at);
    }
}

// Adds a piece to the octets from `start` on.
#[inline(always)]
fn add_piece<const N: usize>(bytes: &mut [u8], piece: Simd<u8, N>, start: usize)
    requires lanes { N ≤ 64 }
    requires within { start + N ≤ length bytes.old }
    ensures { bytes.new ≡ with_row_added bytes.old start piece.entry }
{
    let sum = Simd::<u8, N>::from_slice(&bytes[start..]) ^ piece;
    sum.copy_to_slice(&mut bytes[start..]);
}
