//! Rows of octets and packed rows of bits.
ghost use Rattle.std.specs.Prelude.{◌≡◌, ◌↔◌, ◌+◌, ◌-◌, ◌*◌, ◌%◌, ◌^◌, ◌<◌, ◌≤◌, All, length, min, replicate, true, vec_len};
ghost use Rattle.std.specs.Int.Bits.{bit_xor};
ghost use Rattle.rq_bytes.specs.BinaryOctetVec.{octets_of_bits, padding_of, packed_bit, packed_bits};
ghost use Rattle.rq_standard.specs.Octets.{octet_mul};
ghost use Rattle.rq_standard.specs.Rows.{row_sum, row_multiple};

use crate::lane_multiples::{AddMultiple, Multiplier};
use crate::lanes::{LaneOperation, change_row};
use crate::octet::Octet;
use crate::products::{LANES, bit_product, bit_products, bits_from};
use crate::row_sums::add_rows;
use std::marker::Model;
use std::simd::prelude::*;

/// How many bits a word has.
pub const WORD_BITS: usize = 64;

/// A row of octets each of which is 0 or 1, packed in words. Contracts see it as the list of these
/// octets.
#[derive(Drop)]
pub struct BinaryOctetVec {
    elements: Vec<u64>,
    length: usize,
}

impl Model for BinaryOctetVec {
    ghost use Rattle.std.specs.Prelude.{◌≡◌, ◌+◌, ◌*◌, List, ℕ, vec_len};

    ghost Value = { List ℕ };

    ghost use Rattle.rq_bytes.specs.BinaryOctetVec.{padding_of, packed_bits};

    ghost view = { λ v. packed_bits v.elements.items v.length };

    ghost invariant = { λ v. padding_of v.length + v.length ≡ 64 * vec_len v.elements };
}

impl BinaryOctetVec {
    /// A row of `len` elements in as many words as it needs: element i stands at bit `padding_bits`
    /// + i, counted from the lowest bit of the first word. The bits below are ignored.
    pub fn new(elements: Vec<u64>, len: usize) -> Self
        requires { padding_of len + len ≡ 64 * vec_len elements }
        ensures bits { result ≡ packed_bits elements.items len }
        ensures len { length result ≡ len }
    {
        BinaryOctetVec {
            elements,
            length: len,
        }
    }

    /// The number of elements.
    pub fn len(&self) -> usize
        ensures { result ≡ length self.now }
    {
        self.length
    }

    /// The number of bits of the first word that stand before the first element.
    pub fn padding_bits(&self) -> usize
        ensures { result ≡ padding_of (length self.now) }
    {
        (WORD_BITS - self.length % WORD_BITS) % WORD_BITS
    }

    /// The word in which one bit alone is set.
    pub fn select_mask(bit: usize) -> u64
        requires { bit < 64 }
        ensures { result ≡ 2 ^ bit }
    {
        1 << bit
    }
}

/// Each octet is below 256: a fact for proofs. It reads nothing.
pub fn are_octets(octets: &[u8])
    ensures { All (λ x. x < 256) octets.now }
{}

/// Whether all octets are zeros.
pub fn is_zero(octets: &[u8]) -> bool
    ensures { (result ≡ true) ↔ (octets.now ≡ replicate (length octets.now) 0) }
{
    let blocks = octets.len() / LANES;
    for block in 0..blocks {
        if u8x32::from_slice(&octets[LANES * block..]).reduce_or() != 0 {
            return false;
        }
    }
    for i in LANES * blocks..octets.len() {
        if octets[i] != 0 {
            return false;
        }
    }
    true
}

/// Adds a row to a row of the same length.
pub fn add_assign(octets: &mut [u8], other: &[u8])
    requires { length other.now ≡ length octets.old }
    ensures { octets.new ≡ row_sum octets.old other.now }
{
    add_rows(octets, &[other]);
}

/// Multiplies a row by an octet.
///
/// Kept for the surface of `raptorq`; no coder calls it.
pub fn mulassign_scalar(octets: &mut [u8], scalar: &Octet)
    ensures octet { scalar.now < 256 }
    ensures multiple { octets.new ≡ row_multiple scalar.now octets.old }
{
    change_row(octets, &Multiplier::Planes(scalar.byte()));
}

/// Adds a multiple of a row to a row of the same length.
///
/// Kept for the surface of `raptorq`; no coder calls it.
pub fn fused_addassign_mul_scalar(octets: &mut [u8], other: &[u8], scalar: &Octet)
    requires { length other.now ≡ length octets.old }
    ensures octet { scalar.now < 256 }
    ensures sum { octets.new ≡ row_sum octets.old (row_multiple scalar.now other.now) }
{
    let multiplier = Multiplier::Planes(scalar.byte());
    change_row(octets, &AddMultiple { other, multiplier });
}

/// Adds a multiple of a packed row to a row of the same length.
///
/// Kept for the surface of `raptorq`; no coder calls it.
pub fn fused_addassign_mul_scalar_binary(octets: &mut [u8], other: &BinaryOctetVec, scalar: &Octet)
    requires { length other.now ≡ length octets.old }
    ensures octet { scalar.now < 256 }
    ensures sum { octets.new ≡ row_sum octets.old (row_multiple scalar.now other.now) }
{
    let from = other.padding_bits();
    let bits = other.elements.as_slice();
    let scalar = scalar.byte();
    change_row(octets, &BitMultiples { bits, from, scalar });
}

/// Adds a multiple of bits to as many octets, which fill whole vectors. Not in the Rust crate.
pub fn add_bit_multiples(octets: &mut [u8], bits: &[u64], scalar: u8)
    requires room { length octets.old ≤ 64 * length bits.now }
    requires whole { length octets.old % 32 ≡ 0 }
    ensures { octets.new ≡ row_sum octets.old (row_multiple scalar (octets_of_bits (length octets.old) bits.now)) }
{
    let from = 0;
    change_row(octets, &BitMultiples { bits, from, scalar });
}

// Adds an octet's multiples of packed bits, those from a place in the first word on.
#[derive(Clone, Copy)]
struct BitMultiples<'a> {
    bits: &'a [u64],
    from: usize,
    scalar: u8,
    ghost begins: { from < 64 },
}

impl<'a> LaneOperation for BitMultiples<'a> {
    ghost made = { λ s x i. bit_xor x (octet_mul s.scalar (packed_bit s.bits.now (s.from + i))) };

    // A row has fewer octets than 2 ^ 63, so its places and where the bits begin fit a `usize` together.
    ghost places = { λ s. min (64 * length s.bits.now - s.from) (2 ^ 63) };

    #[inline(always)]
    fn lanes(&self, octets: u8x32, place: usize) -> u8x32 {
        octets ^ bit_products(self.scalar, bits_from(self.bits, self.from + place))
    }

    #[inline(always)]
    fn octet(&self, octet: u8, place: usize) -> u8 {
        let bit = self.from + place;
        octet ^ bit_product(self.scalar, self.bits[bit / WORD_BITS], bit % WORD_BITS)
    }
}
