//! Two places of a list at once, and a rounded quotient.
ghost use Rattle.std.specs.Prelude.{◌≡◌, ◌≢◌, ◌⊎◌, ◌+◌, ◌-◌, ◌/◌, ◌<◌, ◌≤◌, length, slice_set, slice_index_or, vec_len};
ghost use Rattle.rq_bytes.specs.Ranges.{range_of, with_range, with_ranges, ranges_exchanged};
ghost use Rattle.std.specs.Borrow.{sem, LendsBoth, Array};
ghost use Rattle.std.specs.Vec.{vec_follows_range};

use std::alloc::Allocator;
use std::slice::{from_raw_parts, from_raw_parts_mut};

/// Lends the elements at two places for writing.
pub fn get_both_indices<T>(vector: &mut [T], i: usize, j: usize) -> (&mut T, &mut T)
    requires two { i ≢ j }
    requires first { i < length vector.old }
    requires second { j < length vector.old }
    ensures* writes_back { sem 𝓛 (LendsBoth (Array T.row 0) T.row T.row vector.entry result (λ x y. slice_set (slice_set vector.old i x) j y)) }
    ensures first { result.0.now ≡ slice_index_or vector.old i result.0.now }
    ensures second { result.1.now ≡ slice_index_or vector.old j result.1.now }
{
    if i < j {
        let (front, back) = vector.split_at_mut(j);
        (&mut front[i], &mut back[0])
    } else {
        let (front, back) = vector.split_at_mut(i);
        (&mut back[0], &mut front[j])
    }
}

/// Lends the `len` elements from each of two places on for writing. The two ranges have no place in
/// common.
pub fn get_both_ranges<T>(slice: &mut [T], i: usize, j: usize, len: usize) -> (&mut [T], &mut [T])
    requires apart { (i + len ≤ j) ⊎ (j + len ≤ i) }
    requires first { i + len ≤ length slice.old }
    requires second { j + len ≤ length slice.old }
    ensures* writes_back { sem 𝓛 (LendsBoth (Array T.row 0) (Array T.row 0) (Array T.row 0) slice.entry result (with_ranges slice.old i j)) }
    ensures first { result.0.now ≡ range_of slice.old i len }
    ensures second { result.1.now ≡ range_of slice.old j len }
{
    // What becomes of a part of a part is not known, so both are made at once.
    let start = slice.as_mut_ptr();
    unsafe {
        (
            from_raw_parts_mut(start.add(i), len),
            from_raw_parts_mut(start.add(j), len),
        )
    }
}

/// Writes bytes over those from a place on. Not in the Rust crate.
pub fn write_range(bytes: &mut [u8], start: usize, source: &[u8])
    requires { start + length source.now ≤ length bytes.old }
    ensures { bytes.new ≡ with_range bytes.old start source.now }
{
    bytes[start..start + source.len()].copy_from_slice(source);
}

/// Exchanges the `len` elements from each of two places on. The two ranges have no place in common.
/// Not in the Rust crate.
pub fn swap_ranges<T>(slice: &mut [T], i: usize, j: usize, len: usize)
    requires apart { (i + len ≤ j) ⊎ (j + len ≤ i) }
    requires first { i + len ≤ length slice.old }
    requires second { j + len ≤ length slice.old }
    ensures { slice.new ≡ ranges_exchanged slice.old i j len }
{
    let (first, second) = get_both_ranges(slice, i, j, len);
    first.swap_with_slice(second);
}

/// Lends the `len` elements from `dest` on for writing, and those from `src` on for reading. The two
/// ranges have no place in common.
pub(crate) fn get_range_pair<T, B: Allocator>(
    vector: &mut Vec<T, B>,
    dest: usize,
    src: usize,
    len: usize,
) -> (&mut [T], &[T])
    requires apart { (dest + len ≤ src) ⊎ (src + len ≤ dest) }
    requires dest_within { dest + len ≤ vec_len vector.old }
    requires src_within { src + len ≤ vec_len vector.old }
    ensures* writes_back { sem 𝓛 (vec_follows_range T.row B.row B.Allocator vector.entry dest result.0) }
    ensures dest { result.0.now ≡ range_of vector.old.items dest len }
    ensures src { result.1.now ≡ range_of vector.old.items src len }
{
    let start = vector.as_mut_slice().as_mut_ptr();
    unsafe {
        (
            from_raw_parts_mut(start.add(dest), len),
            from_raw_parts(start.add(src), len),
        )
    }
}

/// The quotient, rounded up.
///
/// Kept for the surface of `raptorq`; no coder calls it.
pub fn int_div_ceil(dividend: u64, divisor: u64) -> u64
    requires { 0 < divisor }
    ensures { result ≡ (dividend + divisor - 1) / divisor }
{
    if dividend % divisor == 0 {
        dividend / divisor
    } else {
        dividend / divisor + 1
    }
}
