//! The field of 256 elements.
ghost use Rattle.std.specs.Prelude.{◌≡◌, ◌≢◌, ℕ, ◌*◌, ◌%◌, ◌<◌, ◌≤◌, length, slice_index, EachIndex};
ghost use Rattle.rq_bytes.specs.ProductTables.{IsTableOf};
ghost use Rattle.std.specs.Int.Bits.{bit_xor};
ghost use Rattle.rq_standard.specs.Octets.{octet_mul, octet_div, octet_power};

use crate::logarithms::{logarithm, power};
use crate::products::product;
use std::marker::Model;
use std::ops::{Add, AddAssign, Div, Mul, Sub};

/// An element of the field of 256 elements: a polynomial of degree below 8 over two elements, taken
/// modulo x^8 + x^4 + x^3 + x^2 + 1 (RFC 6330, section 5.7). Contracts see it as a number below
/// 256.
#[derive(Clone, Debug, PartialEq, Eq, PartialOrd, Ord, Hash, Drop)]
pub struct Octet {
    value: u8,
}

impl Model for Octet {
    ghost Value = { ℕ };

    ghost view = { λ o. o.value };

    ghost inverse = { λ n. record { value = n } };
}

impl Octet {
    /// The octet with these coefficients: bit k is that of x^k.
    pub fn new(value: u8) -> Self
        ensures { result ≡ value }
    {
        Octet { value }
    }

    /// The neutral octet of sums.
    pub fn zero() -> Self
        ensures { result ≡ 0 }
    {
        Octet { value: 0 }
    }

    /// The neutral octet of products.
    pub fn one() -> Self
        ensures { result ≡ 1 }
    {
        Octet { value: 1 }
    }

    /// A power of alpha, which is the octet 2 (RFC 6330, section 5.7.2).
    pub fn alpha(exponent: usize) -> Self
        requires { exponent < 256 }
        ensures { result ≡ octet_power exponent }
    {
        Octet {
            value: power(exponent),
        }
    }

    /// The coefficients as a byte.
    pub fn byte(&self) -> u8
        ensures { result ≡ self.now }
    {
        self.value
    }

    /// Adds the product of two octets.
    pub fn fma(&mut self, left: &Octet, right: &Octet)
        ensures { self.new ≡ bit_xor self.old (octet_mul left.now right.now) }
    {
        *self += left * right;
    }
}

impl Add for Octet {
    type Output = Octet;

    ghost add_gives = { λ a b r. r ≡ bit_xor a b };

    fn add(self, other: Octet) -> Octet {
        &self + &other
    }
}

impl Add<&Octet> for &Octet {
    type Output = Octet;

    ghost add_gives = { λ a b r. r ≡ bit_xor a.now b.now };

    fn add(self, other: &Octet) -> Octet {
        Octet {
            value: self.value ^ other.value,
        }
    }
}

impl AddAssign for Octet {
    ghost add_assign_gives = { λ a b r. r ≡ bit_xor a b };

    fn add_assign(&mut self, other: Octet) {
        *self += &other;
    }
}

impl AddAssign<&Octet> for Octet {
    ghost add_assign_gives = { λ a b r. r ≡ bit_xor a b.now };

    fn add_assign(&mut self, other: &Octet) {
        self.value ^= other.value;
    }
}

impl Sub for Octet {
    type Output = Octet;

    ghost sub_gives = { λ a b r. r ≡ bit_xor a b };

    fn sub(self, other: Octet) -> Octet {
        &self + &other
    }
}

impl Mul for Octet {
    type Output = Octet;

    ghost mul_gives = { λ a b r. r ≡ octet_mul a b };

    fn mul(self, other: Octet) -> Octet {
        &self * &other
    }
}

impl Mul<&Octet> for &Octet {
    type Output = Octet;

    ghost mul_gives = { λ a b r. r ≡ octet_mul a.now b.now };

    fn mul(self, other: &Octet) -> Octet {
        if self.value == 0 || other.value == 0 {
            return Octet::zero();
        }
        let exponent = logarithm(self.value) as usize + logarithm(other.value) as usize;
        Octet {
            value: power(exponent),
        }
    }
}

/// The divisor must not be zero.
impl Div for Octet {
    type Output = Octet;

    ghost can_div = { λ _ b. b ≢ 0 };

    ghost div_gives = { λ a b r. r ≡ octet_div a b };

    fn div(self, other: Octet) -> Octet {
        &self / &other
    }
}

/// The divisor must not be zero.
impl Div<&Octet> for &Octet {
    type Output = Octet;

    ghost can_div = { λ _ b. b.now ≢ 0 };

    ghost div_gives = { λ a b r. r ≡ octet_div a.now b.now };

    fn div(self, other: &Octet) -> Octet {
        if self.value == 0 {
            return Octet::zero();
        }
        let exponent = logarithm(self.value) as usize + 255 - logarithm(other.value) as usize;
        Octet {
            value: power(exponent),
        }
    }
}

/// Fills a table with the products of all octets: row i has i times j at place j.
///
/// Kept for the surface of `raptorq`; no coder calls it.
pub fn octet_mul_table(table: &mut [[u8; 256]; 256])
    ensures { IsTableOf 256 256 octet_mul table.new }
{
    for i in 0..256usize {
        fill_row(&mut table[i], i as u8, 256, 1);
    }
}

/// Fills a table with the products of all octets and the upper half bytes: row i has i times 16 *
/// (j mod 16) at place j.
///
/// Kept for the surface of `raptorq`; no coder calls it.
pub fn octet_mul_hi_bits(table: &mut [[u8; 32]; 256])
    ensures { IsTableOf 256 32 (λ i j. octet_mul i (j % 16 * 16)) table.new }
{
    for i in 0..256usize {
        fill_row(&mut table[i], i as u8, 16, 16);
    }
}

/// Fills a table with the products of all octets and the lower half bytes: row i has i times (j mod
/// 16) at place j.
///
/// Kept for the surface of `raptorq`; no coder calls it.
pub fn octet_mul_low_bits(table: &mut [[u8; 32]; 256])
    ensures { IsTableOf 256 32 (λ i j. octet_mul i (j % 16)) table.new }
{
    for i in 0..256usize {
        fill_row(&mut table[i], i as u8, 16, 1);
    }
}

// Fills a row with the products of an octet and `step` times the places modulo `modulus`.
fn fill_row(row: &mut [u8], scalar: u8, modulus: usize, step: usize)
    requires some { 0 < modulus }
    requires octets { modulus * step ≤ 256 }
    ensures len { length row.new ≡ length row.old }
    ensures each { EachIndex row.new (λ j. slice_index row.new j ≡ octet_mul scalar (j % modulus * step)) }
{
    for j in 0..row.len() {
        row[j] = product(scalar, (j % modulus * step) as u8);
    }
}
