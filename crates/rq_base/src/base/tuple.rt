//! The degree and the tuple of an internal symbol id (RFC 6330, 5.3.5.2 and 5.3.5.4).
ghost use Rattle.std.specs.Prelude.{◌≡◌, ℕ, ◌-◌, ◌≤◌, ◌<◌, ◌^◌, min};
ghost use Rattle.rq_standard.specs.Tuple.{first_above, degree, IsBetween, tuple_of, IsTuple, multiplier_of, seed_of};

use rq_standard::degrees::DEGREE_STARTS;
use rq_tables::rng::rand;

/// Deg[v]: the degree that a number below 2^20 stands for, at most `lt_symbols - 2` (RFC 6330,
/// section 5.3.5.2).
pub fn deg(v: u32, lt_symbols: u32) -> u32
    requires v { v < 2 ^ 20 }
    requires w { 2 ≤ lt_symbols }
    ensures value { result ≡ degree v lt_symbols }
    ensures between { (d : ℕ) × (result ≡ min d (lt_symbols - 2)) × IsBetween v d }
{
    first_above(v, &DEGREE_STARTS).min(lt_symbols - 2)
}

/// The tuple (d, a, b, d1, a1, b1) of an internal symbol id, over a row of the table with W
/// `lt_symbols`, J `systematic_index` and P1 `p1` (RFC 6330, section 5.3.5.4). An internal symbol
/// id is an encoding symbol id, to which K' - K is added from K on.
pub fn intermediate_tuple(
    internal_symbol_id: u32,
    lt_symbols: u32,
    systematic_index: u32,
    p1: u32,
) -> (u32, u32, u32, u32, u32, u32)
    requires w { 3 ≤ lt_symbols }
    requires j { systematic_index ≤ 1000 }
    requires p1 { 2 ≤ p1 }
    ensures value { result ≡ tuple_of lt_symbols systematic_index p1 internal_symbol_id }
    ensures ranges { IsTuple lt_symbols p1 result }
{
    let y = seed(internal_symbol_id, systematic_index);
    let d = deg(rand(y, 0, 1 << 20), lt_symbols);
    let a = 1 + rand(y, 1, lt_symbols - 1);
    let b = rand(y, 2, lt_symbols);
    let d1 = if d < 4 {
        2 + rand(internal_symbol_id, 3, 2)
    } else {
        2
    };
    let a1 = 1 + rand(internal_symbol_id, 4, p1 - 1);
    let b1 = rand(internal_symbol_id, 5, p1);
    (d, a, b, d1, a1, b1)
}

// The number y that the tuple's first part is drawn from.
fn seed(internal_symbol_id: u32, systematic_index: u32) -> u32
    requires { systematic_index ≤ 1000 }
    ensures { result ≡ seed_of systematic_index internal_symbol_id }
{
    let start = 10267 * (u64::from(systematic_index) + 1);
    let multiplier = multiplier(systematic_index);
    ((start + u64::from(internal_symbol_id) * u64::from(multiplier)) % (1 << 32)) as u32
}

// The number A, by which y grows from one id to the next. It is made odd.
fn multiplier(systematic_index: u32) -> u32
    requires { systematic_index ≤ 1000 }
    ensures value { result ≡ multiplier_of systematic_index }
    ensures bound { result < 2 ^ 21 }
{
    let multiplier = 53591 + 997 * systematic_index;
    if multiplier % 2 == 0 {
        multiplier + 1
    } else {
        multiplier
    }
}

// The index of the first number above `v`, or the length.
fn first_above(v: u32, starts: &[u32; 31]) -> u32
    ensures { result ≡ first_above v starts.now }
{
    let mut index = 0;
    for start in starts {
        if v < *start {
            return index;
        }
        index += 1;
    }
    index
}
