//! Products of an octet, looked up by the halves of bytes.
ghost use Rattle.std.specs.Prelude.{◌≡◌, ℕ, ◌<◌, length, map, slice_index};
ghost use Rattle.rq_standard.specs.Octets.{octet_mul};
ghost use Rattle.rq_bytes.specs.HalfProducts.{half_byte, AreHalfProducts};

use crate::products::LANES;
use std::marker::Model;
use std::simd::prelude::*;

// The products of each lower half of a byte and all halves: first the lower ones, then the upper ones. A
// constant in place of a static would be copied whole at each look-up.
static LOWER: [u8; 512] = [
    0, 0, 0, 0, 0, 0, 0, 0, 0, 0, 0, 0, 0, 0, 0, 0, 0, 0, 0, 0, 0, 0, 0, 0, 0, 0, 0, 0, 0, 0, 0, 0,
    0, 1, 2, 3, 4, 5, 6, 7, 8, 9, 10, 11, 12, 13, 14, 15, 0, 16, 32, 48, 64, 80, 96, 112, 128, 144,
    160, 176, 192, 208, 224, 240, 0, 2, 4, 6, 8, 10, 12, 14, 16, 18, 20, 22, 24, 26, 28, 30, 0, 32,
    64, 96, 128, 160, 192, 224, 29, 61, 93, 125, 157, 189, 221, 253, 0, 3, 6, 5, 12, 15, 10, 9, 24,
    27, 30, 29, 20, 23, 18, 17, 0, 48, 96, 80, 192, 240, 160, 144, 157, 173, 253, 205, 93, 109, 61,
    13, 0, 4, 8, 12, 16, 20, 24, 28, 32, 36, 40, 44, 48, 52, 56, 60, 0, 64, 128, 192, 29, 93, 157,
    221, 58, 122, 186, 250, 39, 103, 167, 231, 0, 5, 10, 15, 20, 17, 30, 27, 40, 45, 34, 39, 60,
    57, 54, 51, 0, 80, 160, 240, 93, 13, 253, 173, 186, 234, 26, 74, 231, 183, 71, 23, 0, 6, 12,
    10, 24, 30, 20, 18, 48, 54, 60, 58, 40, 46, 36, 34, 0, 96, 192, 160, 157, 253, 93, 61, 39, 71,
    231, 135, 186, 218, 122, 26, 0, 7, 14, 9, 28, 27, 18, 21, 56, 63, 54, 49, 36, 35, 42, 45, 0,
    112, 224, 144, 221, 173, 61, 77, 167, 215, 71, 55, 122, 10, 154, 234, 0, 8, 16, 24, 32, 40, 48,
    56, 64, 72, 80, 88, 96, 104, 112, 120, 0, 128, 29, 157, 58, 186, 39, 167, 116, 244, 105, 233,
    78, 206, 83, 211, 0, 9, 18, 27, 36, 45, 54, 63, 72, 65, 90, 83, 108, 101, 126, 119, 0, 144, 61,
    173, 122, 234, 71, 215, 244, 100, 201, 89, 142, 30, 179, 35, 0, 10, 20, 30, 40, 34, 60, 54, 80,
    90, 68, 78, 120, 114, 108, 102, 0, 160, 93, 253, 186, 26, 231, 71, 105, 201, 52, 148, 211, 115,
    142, 46, 0, 11, 22, 29, 44, 39, 58, 49, 88, 83, 78, 69, 116, 127, 98, 105, 0, 176, 125, 205,
    250, 74, 135, 55, 233, 89, 148, 36, 19, 163, 110, 222, 0, 12, 24, 20, 48, 60, 40, 36, 96, 108,
    120, 116, 80, 92, 72, 68, 0, 192, 157, 93, 39, 231, 186, 122, 78, 142, 211, 19, 105, 169, 244,
    52, 0, 13, 26, 23, 52, 57, 46, 35, 104, 101, 114, 127, 92, 81, 70, 75, 0, 208, 189, 109, 103,
    183, 218, 10, 206, 30, 115, 163, 169, 121, 20, 196, 0, 14, 28, 18, 56, 54, 36, 42, 112, 126,
    108, 98, 72, 70, 84, 90, 0, 224, 221, 61, 167, 71, 122, 154, 83, 179, 142, 110, 244, 20, 41,
    201, 0, 15, 30, 17, 60, 51, 34, 45, 120, 119, 102, 105, 68, 75, 90, 85, 0, 240, 253, 13, 231,
    23, 26, 234, 211, 35, 46, 222, 52, 196, 201, 57,
];

// Those of each upper half.
static UPPER: [u8; 512] = [
    0, 0, 0, 0, 0, 0, 0, 0, 0, 0, 0, 0, 0, 0, 0, 0, 0, 0, 0, 0, 0, 0, 0, 0, 0, 0, 0, 0, 0, 0, 0, 0,
    0, 16, 32, 48, 64, 80, 96, 112, 128, 144, 160, 176, 192, 208, 224, 240, 0, 29, 58, 39, 116,
    105, 78, 83, 232, 245, 210, 207, 156, 129, 166, 187, 0, 32, 64, 96, 128, 160, 192, 224, 29, 61,
    93, 125, 157, 189, 221, 253, 0, 58, 116, 78, 232, 210, 156, 166, 205, 247, 185, 131, 37, 31,
    81, 107, 0, 48, 96, 80, 192, 240, 160, 144, 157, 173, 253, 205, 93, 109, 61, 13, 0, 39, 78,
    105, 156, 187, 210, 245, 37, 2, 107, 76, 185, 158, 247, 208, 0, 64, 128, 192, 29, 93, 157, 221,
    58, 122, 186, 250, 39, 103, 167, 231, 0, 116, 232, 156, 205, 185, 37, 81, 135, 243, 111, 27,
    74, 62, 162, 214, 0, 80, 160, 240, 93, 13, 253, 173, 186, 234, 26, 74, 231, 183, 71, 23, 0,
    105, 210, 187, 185, 208, 107, 2, 111, 6, 189, 212, 214, 191, 4, 109, 0, 96, 192, 160, 157, 253,
    93, 61, 39, 71, 231, 135, 186, 218, 122, 26, 0, 78, 156, 210, 37, 107, 185, 247, 74, 4, 214,
    152, 111, 33, 243, 189, 0, 112, 224, 144, 221, 173, 61, 77, 167, 215, 71, 55, 122, 10, 154,
    234, 0, 83, 166, 245, 81, 2, 247, 164, 162, 241, 4, 87, 243, 160, 85, 6, 0, 128, 29, 157, 58,
    186, 39, 167, 116, 244, 105, 233, 78, 206, 83, 211, 0, 232, 205, 37, 135, 111, 74, 162, 19,
    251, 222, 54, 148, 124, 89, 177, 0, 144, 61, 173, 122, 234, 71, 215, 244, 100, 201, 89, 142,
    30, 179, 35, 0, 245, 247, 2, 243, 6, 4, 241, 251, 14, 12, 249, 8, 253, 255, 10, 0, 160, 93,
    253, 186, 26, 231, 71, 105, 201, 52, 148, 211, 115, 142, 46, 0, 210, 185, 107, 111, 189, 214,
    4, 222, 12, 103, 181, 177, 99, 8, 218, 0, 176, 125, 205, 250, 74, 135, 55, 233, 89, 148, 36,
    19, 163, 110, 222, 0, 207, 131, 76, 27, 212, 152, 87, 54, 249, 181, 122, 45, 226, 174, 97, 0,
    192, 157, 93, 39, 231, 186, 122, 78, 142, 211, 19, 105, 169, 244, 52, 0, 156, 37, 185, 74, 214,
    111, 243, 148, 8, 177, 45, 222, 66, 251, 103, 0, 208, 189, 109, 103, 183, 218, 10, 206, 30,
    115, 163, 169, 121, 20, 196, 0, 129, 31, 158, 62, 191, 33, 160, 124, 253, 99, 226, 66, 195, 93,
    220, 0, 224, 221, 61, 167, 71, 122, 154, 83, 179, 142, 110, 244, 20, 41, 201, 0, 166, 81, 247,
    162, 4, 243, 85, 89, 255, 8, 174, 251, 93, 170, 12, 0, 240, 253, 13, 231, 23, 26, 234, 211, 35,
    46, 222, 52, 196, 201, 57, 0, 187, 107, 208, 214, 109, 189, 6, 177, 10, 218, 97, 103, 220, 12,
    183,
];

// The first half of a vector, twice.
const FIRST_HALF: [usize; 32] = [
    0, 1, 2, 3, 4, 5, 6, 7, 8, 9, 10, 11, 12, 13, 14, 15, 0, 1, 2, 3, 4, 5, 6, 7, 8, 9, 10, 11, 12,
    13, 14, 15,
];

// The second half of a vector, twice.
const SECOND_HALF: [usize; 32] = [
    16, 17, 18, 19, 20, 21, 22, 23, 24, 25, 26, 27, 28, 29, 30, 31, 16, 17, 18, 19, 20, 21, 22, 23,
    24, 25, 26, 27, 28, 29, 30, 31,
];

/// The octets of a vector, each split into its lower and its upper half. Contracts see the octets.
#[derive(Drop)]
pub(crate) struct Halves {
    lower: u8x32,
    upper: u8x32,
}

impl Model for Halves {
    ghost use Rattle.std.specs.Prelude.{List, ℕ};
    ghost use Rattle.rq_bytes.specs.HalfProducts.{AreHalves, whole_bytes};

    ghost Value = { List ℕ };

    ghost view = { λ h. whole_bytes h.lower h.upper };

    ghost invariant = { λ h. AreHalves h.lower h.upper };
}

impl Halves {
    /// The halves of each lane.
    #[inline(always)]
    pub(crate) fn new(lanes: u8x32) -> Self
        requires { length lanes ≡ 32 }
        ensures { result ≡ lanes }
    {
        Halves {
            lower: lanes & u8x32::splat(15),
            upper: lanes >> u8x32::splat(4),
        }
    }
}

/// An octet with its products by all halves of a byte.
#[derive(Clone, Copy)]
pub(crate) struct HalfProducts {
    pub(crate) octet: u8,
    low: u8x32,
    high: u8x32,
    ghost products: { AreHalfProducts octet low high },
}

impl HalfProducts {
    /// Those of an octet.
    #[inline(always)]
    pub(crate) fn new(octet: u8) -> Self
        ensures { result.octet ≡ octet }
    {
        let products = half_products(octet);
        HalfProducts {
            octet,
            low: products.swizzle(FIRST_HALF),
            high: products.swizzle(SECOND_HALF),
        }
    }

    /// The products of the octet and each of those that were split.
    #[inline(always)]
    pub(crate) fn products(&self, halves: &Halves) -> u8x32
        ensures products { result ≡ map (λ x. octet_mul self.now.octet x) halves.now }
        ensures len { length result ≡ 32 }
    {
        let low = self.low.swizzle_dyn_within::<16>(halves.lower);
        let high = self.high.swizzle_dyn_within::<16>(halves.upper);
        low ^ high
    }
}

// The products of an octet and all halves of a byte: first the lower halves, then the upper ones. They
// are the sums of those of its own two halves.
#[inline(always)]
fn half_products(scalar: u8) -> u8x32
    ensures long { length result ≡ 32 }
    ensures each { (i : ℕ) → i < 32 → slice_index result i ≡ octet_mul scalar (half_byte i) }
{
    let lower = u8x32::from_slice(&LOWER[LANES * usize::from(scalar % 16)..]);
    let upper = u8x32::from_slice(&UPPER[LANES * usize::from(scalar / 16)..]);
    lower ^ upper
}
