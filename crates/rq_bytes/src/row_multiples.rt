//! Multiples of long rows.
ghost use Rattle.std.specs.Prelude.{◌≡◌, ◌<◌, length, get_or};
ghost use Rattle.std.specs.Int.Bits.{bit_xor};
ghost use Rattle.rq_standard.specs.Octets.{octet_mul};
ghost use Rattle.rq_standard.specs.Rows.{row_sum, row_multiple};

use crate::half_products::HalfProducts;
use crate::lane_multiples::{AddMultiple, Multiplier};
use crate::lanes::{LaneOperation, change_row};
use crate::octet::Octet;
use crate::octets::add_assign;
use crate::products::{doubled_lanes, product};
use std::simd::prelude::*;

/// Multiplies a row by an octet. A multiple by 2 needs no look-up. Not in the Rust crate.
pub fn multiply_row(octets: &mut [u8], scalar: &Octet)
    ensures octet { scalar.now < 256 }
    ensures multiple { octets.new ≡ row_multiple scalar.now octets.old }
{
    if scalar.byte() == 2 {
        change_row(octets, &Multiplier::Double);
    } else {
        let products = HalfProducts::new(scalar.byte());
        change_row(octets, &Multiplier::LookUp(products));
    }
}

/// Adds an octet's multiple of a row to a row of the same length. A multiple by 1 needs no look-up.
/// Not in the Rust crate.
pub fn add_row_multiple(octets: &mut [u8], other: &[u8], scalar: &Octet)
    requires { length other.now ≡ length octets.old }
    ensures octet { scalar.now < 256 }
    ensures sum { octets.new ≡ row_sum octets.old (row_multiple scalar.now other.now) }
{
    if scalar.byte() == 1 {
        add_assign(octets, other);
    } else {
        let multiplier = Multiplier::LookUp(HalfProducts::new(scalar.byte()));
        change_row(octets, &AddMultiple { other, multiplier });
    }
}

/// Multiplies a row by 2 and adds another one of the same length, in one pass over both. Not in the
/// Rust crate.
pub fn double_and_add(octets: &mut [u8], other: &[u8])
    requires { length other.now ≡ length octets.old }
    ensures { octets.new ≡ row_sum (row_multiple 2 octets.old) other.now }
{
    change_row(octets, &DoubledAndAdded { other });
}

// Multiplies by x, and adds another row.
#[derive(Clone, Copy)]
struct DoubledAndAdded<'a> {
    other: &'a [u8],
}

impl<'a> LaneOperation for DoubledAndAdded<'a> {
    ghost made = { λ s x i. bit_xor (octet_mul 2 x) (get_or s.other.now i 0) };

    ghost places = { λ s. length s.other.now };

    #[inline(always)]
    fn lanes(&self, octets: u8x32, place: usize) -> u8x32 {
        let other = self.other;
        doubled_lanes(octets) ^ u8x32::from_slice(&other[place..])
    }

    #[inline(always)]
    fn octet(&self, octet: u8, place: usize) -> u8 {
        product(2, octet) ^ self.other[place]
    }
}
