//! The random generator (RFC 6330, section 5.3.5.1).
ghost use Rattle.std.specs.Prelude.{◌≡◌, ◌<◌};
ghost use Rattle.rq_standard.specs.Rand.{rand, chosen_entry};

use rq_standard::random_numbers::{V0, V1, V2, V3};

/// Rand[y, i, m]: the bitwise sum, modulo m, of the entries of V0 to V3 that the bytes of `y` and
/// `i` choose (RFC 6330, section 5.3.5.1). The index of an entry wraps at 256.
pub fn rand(y: u32, i: u32, modulus: u32) -> u32
    requires { 0 < modulus }
    ensures value { result ≡ rand y i modulus }
    ensures below { result < modulus }
{
    let mixed = entry(&V0, y, i)
        ^ entry(&V1, y >> 8, i)
        ^ entry(&V2, y >> 16, i)
        ^ entry(&V3, y >> 24, i);
    mixed % modulus
}

// The entry of a table that `y` and `i` choose.
fn entry(table: &[u32; 256], y: u32, i: u32) -> u32
    ensures { result ≡ chosen_entry table.now y i }
{
    table[(y.wrapping_add(i) % 256) as usize]
}
