//! Rows of bits, 64 to a word, the bit in column k at place k mod 64 of word k / 64. Not in the Rust
//! crate.
ghost use Rattle.std.specs.Prelude.{◌≡◌, ◌≢◌, ℕ, ◌+◌, ◌*◌, ◌^◌, ◌<◌, ◌≤◌, length, MatchOption};
ghost use Rattle.std.specs.Int.{bit_at};
ghost use Rattle.std.specs.Int.Bits.{bit_xor};
ghost use Rattle.rq_standard.specs.BitTableSteps.{bit_of, ones_below, ones_between};
ghost use Rattle.rq_bytes.specs.BinaryOctetVec.{packed_bit};
ghost use Rattle.rq_parts.specs.PackedBits.{word_count, IsWordWith, HasZerosBetween, IsLastOne, IsNextOne};

use rq_bytes::octet::Octet;
use rq_bytes::octets::{BinaryOctetVec, WORD_BITS};

/// The number of words that `width` bits need.
pub fn words_for(width: usize) -> usize
    requires { width < 2 ^ 40 }
    ensures { result ≡ word_count width }
{
    (width + WORD_BITS - 1) / WORD_BITS
}

/// The bit in a column of a row.
#[inline(always)]
pub fn get_bit(row: &[u64], column: usize) -> Octet
    requires { column < 64 * length row.now }
    ensures { result ≡ packed_bit row.now column }
{
    let word = row[column / WORD_BITS];
    Octet::new(((word >> (column % WORD_BITS)) % 2) as u8)
}

/// Sets the bit in a column of a row to 0 for the octet 0, and else to 1.
pub fn write_bit(row: &mut [u64], column: usize, value: Octet)
    requires { column < 64 * length row.old }
    ensures here { packed_bit row.new column ≡ bit_of value }
    ensures elsewhere { (k : ℕ) → k ≢ column → packed_bit row.new k ≡ packed_bit row.old k }
{
    if value == Octet::zero() {
        clear_bit(row, column);
    } else {
        set_bit(row, column);
    }
}

/// Sets the bit in a column of a row to 1.
#[inline(always)]
pub fn set_bit(row: &mut [u64], column: usize)
    requires { column < 64 * length row.old }
    ensures here { packed_bit row.new column ≡ 1 }
    ensures elsewhere { (k : ℕ) → k ≢ column → packed_bit row.new k ≡ packed_bit row.old k }
{
    let word = row[column / WORD_BITS];
    row[column / WORD_BITS] = word_with_one(word, column % WORD_BITS);
}

// Sets the bit in a column of a row to 0.
fn clear_bit(row: &mut [u64], column: usize)
    requires { column < 64 * length row.old }
    ensures here { packed_bit row.new column ≡ 0 }
    ensures elsewhere { (k : ℕ) → k ≢ column → packed_bit row.new k ≡ packed_bit row.old k }
{
    let word = row[column / WORD_BITS];
    row[column / WORD_BITS] = word_with_zero(word, column % WORD_BITS);
}

/// Sets the bit in a column of a row to 1 where it was 0, and to 0 where it was 1.
pub fn flip_bit(row: &mut [u64], column: usize)
    requires { column < 64 * length row.old }
    ensures here { packed_bit row.new column ≡ bit_xor (packed_bit row.old column) 1 }
    ensures elsewhere { (k : ℕ) → k ≢ column → packed_bit row.new k ≡ packed_bit row.old k }
{
    let word = row[column / WORD_BITS];
    row[column / WORD_BITS] = word_flipped(word, column % WORD_BITS);
}

/// Exchanges the bits in two columns of a row.
pub fn swap_bits(row: &mut [u64], i: usize, j: usize)
    requires first { i < 64 * length row.old }
    requires second { j < 64 * length row.old }
    ensures first { packed_bit row.new i ≡ packed_bit row.old j }
    ensures second { packed_bit row.new j ≡ packed_bit row.old i }
    ensures elsewhere { (k : ℕ) → k ≢ i → k ≢ j → packed_bit row.new k ≡ packed_bit row.old k }
{
    let first = get_bit(row, i);
    let second = get_bit(row, j);
    write_bit(row, i, second);
    write_bit(row, j, first);
}

/// The number of ones of a row in the columns from `start` on and before `end`.
pub fn count_ones(row: &[u64], start: usize, end: usize) -> usize
    requires range { start ≤ end }
    requires within { end ≤ 64 * length row.now }
    ensures { result ≡ ones_between (packed_bit row.now) start end }
{
    let mut ones = 0;
    let mut column = start;
    while column < end {
        let bit = column % WORD_BITS;
        let count = (WORD_BITS - bit).min(end - column);
        ones += ones_in_word(row[column / WORD_BITS], bit, count);
        column += count;
    }
    ones
}

/// The first column of a row, from one on and before another, in which it has a one.
pub fn next_one(row: &[u64], from: usize, end: usize) -> Option<usize>
    requires within { end ≤ 64 * length row.now }
    requires fits { end < 2 ^ 63 }
    ensures { MatchOption result (HasZerosBetween (packed_bit row.now) from end) (IsNextOne (packed_bit row.now) from end) }
{
    let mut column = from;
    while column < end {
        let rest = row[column / WORD_BITS] >> (column % WORD_BITS);
        if rest != 0 {
            let found = column + rest.trailing_zeros() as usize;
            return (found < end).then_some(found);
        }
        column += WORD_BITS - column % WORD_BITS;
    }
    None
}

/// The last of the bits before `end` that is set in a word.
pub fn last_one(word: u64, end: usize) -> Option<usize>
    requires some { 0 < end }
    requires within { end ≤ 64 }
    ensures { MatchOption result (HasZerosBetween (bit_at word) 0 end) (IsLastOne (bit_at word) end) }
{
    let bits = word & (u64::MAX >> (WORD_BITS - end));
    Some(bits.checked_ilog2()? as usize)
}

// A word with one bit set to 1.
#[inline(always)]
fn word_with_one(word: u64, bit: usize) -> u64
    requires { bit < 64 }
    ensures { IsWordWith word bit 1 result }
{
    word | 1 << bit
}

// A word with one bit set to 0.
fn word_with_zero(word: u64, bit: usize) -> u64
    requires { bit < 64 }
    ensures { IsWordWith word bit 0 result }
{
    word & !(1 << bit)
}

// A word with one bit flipped.
fn word_flipped(word: u64, bit: usize) -> u64
    requires { bit < 64 }
    ensures { IsWordWith word bit (bit_xor (bit_at word bit) 1) result }
{
    word ^ BinaryOctetVec::select_mask(bit)
}

// The number of ones among `count` bits of a word, from `bit` on.
fn ones_in_word(word: u64, bit: usize, count: usize) -> usize
    requires some { 0 < count }
    requires within { bit + count ≤ 64 }
    ensures ones { result ≡ ones_below (λ k. bit_at word (bit + k)) count }
    ensures few { result ≤ count }
{
    let bits = (word >> bit) & (u64::MAX >> (WORD_BITS - count));
    bits.count_ones() as usize
}
