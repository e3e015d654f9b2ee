//! Products of an octet and each lane of a vector.
ghost use Rattle.std.specs.Prelude.{◌≡◌, ℕ, ◌+◌, ◌*◌, ◌/◌, ◌%◌, ◌^◌, ◌<◌, ◌≤◌, length, map, slice_index, cond, ◌==◌};
ghost use Rattle.std.specs.Int.{bit_at};
ghost use Rattle.std.specs.List.{range_with_len};
ghost use Rattle.rq_standard.specs.Octets.{octet_double, octet_mul};
ghost use Rattle.rq_bytes.specs.BinaryOctetVec.{packed_bit};

use std::simd::prelude::*;

/// How many octets of a row a kernel takes at once.
pub const LANES: usize = 32;

// The place in its octet of each of 32 bits, as a mask.
const MASKS: [u8; 32] = [
    1, 2, 4, 8, 16, 32, 64, 128, 1, 2, 4, 8, 16, 32, 64, 128, 1, 2, 4, 8, 16, 32, 64, 128, 1, 2, 4,
    8, 16, 32, 64, 128,
];

// The octet in which each of 32 bits stands.
const PLACES: [usize; 32] = [
    0, 0, 0, 0, 0, 0, 0, 0, 1, 1, 1, 1, 1, 1, 1, 1, 2, 2, 2, 2, 2, 2, 2, 2, 3, 3, 3, 3, 3, 3, 3, 3,
];

// The product of an octet and x.
#[inline(always)]
fn double(a: u8) -> u8
    ensures { result ≡ octet_double a }
{
    if a < 128 { a << 1 } else { (a << 1) ^ 29 }
}

/// The product of two octets, for the few that fill no vector.
#[inline(always)]
pub(crate) fn product(a: u8, b: u8) -> u8
    ensures { result ≡ octet_mul a b }
{
    let mut sum = 0;
    let mut term = a;
    for k in 0..8u8 {
        if (b >> k) % 2 == 1 {
            sum ^= term;
        }
        term = double(term);
    }
    sum
}

/// The products of an octet and each lane, one bit of the lanes after another.
#[inline(always)]
pub(crate) fn plane_products(scalar: u8, lanes: u8x32) -> u8x32
    requires { length lanes ≡ 32 }
    ensures { result ≡ map (λ x. octet_mul scalar x) lanes }
{
    let mut sum = u8x32::splat(0);
    let mut term = scalar;
    for k in 0..8u8 {
        sum ^= plane(lanes, k, term);
        term = double(term);
    }
    sum
}

/// The products of x and each lane.
#[inline(always)]
pub(crate) fn doubled_lanes(lanes: u8x32) -> u8x32
    requires { length lanes ≡ 32 }
    ensures { result ≡ map (λ x. octet_mul 2 x) lanes }
{
    (lanes + lanes) ^ plane(lanes, 7, 29)
}

// An octet in the lanes that have a bit set, and 0 in the others.
#[inline(always)]
fn plane(lanes: u8x32, k: u8, term: u8) -> u8x32
    requires long { length lanes ≡ 32 }
    requires bit { k < 8 }
    ensures len { length result ≡ 32 }
    ensures each { (i : ℕ) → i < 32 → slice_index result i ≡ cond (slice_index lanes i / 2 ^ k % 2 == 1) term 0 }
{
    let bit = u8x32::splat(1 << k);
    (lanes & bit)
        .simd_eq(bit)
        .select(u8x32::splat(term), u8x32::splat(0))
}

/// The product of an octet and one bit.
#[inline(always)]
pub(crate) fn bit_product(scalar: u8, word: u64, bit: usize) -> u8
    requires { bit < 64 }
    ensures { result ≡ octet_mul scalar (bit_at word bit) }
{
    if (word >> bit) % 2 == 1 { scalar } else { 0 }
}

/// The products of an octet and each of the 32 lowest bits of a word.
#[inline(always)]
pub(crate) fn bit_products(scalar: u8, word: u64) -> u8x32
    ensures { result ≡ map (λ i. octet_mul scalar (bit_at word i)) (range_with_len 0 32) }
{
    let masks = u8x32::from_array(MASKS);
    let octets = u64x1::splat(word).to_le_bytes();
    (octets.swizzle(PLACES) & masks)
        .simd_eq(masks)
        .select(u8x32::splat(scalar), u8x32::splat(0))
}

/// A word whose 32 lowest bits are those from a place on. Its others may be anything.
#[inline(always)]
pub(crate) fn bits_from(words: &[u64], place: usize) -> u64
    requires { place + 32 ≤ 64 * length words.now }
    ensures { (i : ℕ) → i < 32 → bit_at result i ≡ packed_bit words.now (place + i) }
{
    let (word, shift) = (place / 64, place % 64);
    // Where they end in the same word it is joined again: at shift 0 with itself, else moved past bit 31.
    let last = words[word + (shift + 31) / 64];
    (words[word] >> shift) | (last << ((64 - shift) % 64))
}
