//! Multiples by an octet.
ghost use Rattle.std.specs.Prelude.{◌^◌, length, get_or};
ghost use Rattle.std.specs.Int.Bits.{bit_xor};
ghost use Rattle.rq_standard.specs.Octets.{octet_mul};
ghost use Rattle.rq_bytes.specs.LaneMultiples.{octet_of};

use crate::half_products::{HalfProducts, Halves};
use crate::lanes::LaneOperation;
use crate::products::{doubled_lanes, plane_products, product};
use std::simd::prelude::*;

/// A way to multiply by an octet: by x, as most multiplications of a plan do, with nothing looked up,
/// by look-ups of halves, or by one bit of the lanes after another.
#[derive(Clone, Copy)]
pub(crate) enum Multiplier {
    Double,
    LookUp(HalfProducts),
    Planes(u8),
}

impl LaneOperation for Multiplier {
    ghost made = { λ s x i. octet_mul (octet_of s) x };

    ghost places = { λ s. 2 ^ 64 };

    #[inline(always)]
    fn lanes(&self, octets: u8x32, _place: usize) -> u8x32 {
        match self {
            Multiplier::Double => doubled_lanes(octets),
            Multiplier::LookUp(factor) => factor.products(&Halves::new(octets)),
            Multiplier::Planes(scalar) => plane_products(*scalar, octets),
        }
    }

    #[inline(always)]
    fn octet(&self, octet: u8, _place: usize) -> u8 {
        match self {
            Multiplier::Double => product(2, octet),
            Multiplier::LookUp(factor) => product(factor.octet, octet),
            Multiplier::Planes(scalar) => product(*scalar, octet),
        }
    }
}

/// Adds a multiple of another row.
#[derive(Clone, Copy)]
pub(crate) struct AddMultiple<'a> {
    pub(crate) other: &'a [u8],
    pub(crate) multiplier: Multiplier,
}

impl<'a> LaneOperation for AddMultiple<'a> {
    ghost made = { λ s x i. bit_xor x (octet_mul (octet_of s.multiplier) (get_or s.other.now i 0)) };

    ghost places = { λ s. length s.other.now };

    #[inline(always)]
    fn lanes(&self, octets: u8x32, place: usize) -> u8x32 {
        let other = self.other;
        let multiple = self
            .multiplier
            .lanes(u8x32::from_slice(&other[place..]), place);
        octets ^ multiple
    }

    #[inline(always)]
    fn octet(&self, octet: u8, place: usize) -> u8 {
        octet ^ self.multiplier.octet(self.other[place], place)
    }
}
