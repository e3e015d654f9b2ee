//! A row of packed bits in words of its own, and parts of rows.
ghost use Rattle.std.specs.Prelude.{◌≡◌, ◌≢◌, ℕ, ◌*◌, ◌^◌, ◌<◌, ◌≤◌, length, replicate, slice_index, IfOk};
ghost use Rattle.std.specs.Int.Bits.{bit_xor};
ghost use Rattle.rq_standard.specs.BitTableSteps.{bit_of, AreBitsOf};
ghost use Rattle.rq_bytes.specs.BinaryOctetVec.{packed_bit};
ghost use Rattle.rq_parts.specs.PackedBits.{word_count};
ghost use Rattle.rq_matrix.specs.DenseTails.{with_word_added};

use rq_bytes::octet::Octet;
use rq_bytes::octets::{BinaryOctetVec, WORD_BITS};
use rq_parts::packed_bits::{flip_bit, get_bit, words_for, write_bit};
use std::alloc::{AllocError, Global};
use std::marker::Model;

/// The words of a row. Contracts see these.
#[derive(Debug, Drop)]
pub(crate) struct BitRow {
    words: Vec<u64>,
}

impl Model for BitRow {
    ghost use Rattle.std.specs.Prelude.{List, ℕ};

    ghost Value = { List ℕ };

    ghost view = { λ row. row.words.items };
}

impl Clone for BitRow {
    ghost is_clone = { λ a b. b ≡ a };

    fn clone(&self) -> Result<Self, AllocError> {
        Ok(BitRow {
            words: self.words.clone()?,
        })
    }
}

impl BitRow {
    /// A row of zeros.
    pub(crate) fn zero(alloc: Global, width: usize) -> Result<Self, AllocError>
        requires { width < 2 ^ 40 }
        ensures { IfOk result (λ row. row ≡ replicate (word_count width) 0) }
    {
        Ok(BitRow {
            words: vec![in alloc; 0; words_for(width)]?,
        })
    }

    /// The bit in a column.
    pub(crate) fn get(&self, column: usize) -> Octet
        requires { column < 64 * length self.now }
        ensures { result ≡ packed_bit self.now column }
    {
        get_bit(self.words.as_slice(), column)
    }

    /// Sets the bit in a column to 0 for the octet 0, and else to 1.
    pub(crate) fn set(&mut self, column: usize, value: Octet)
        requires { column < 64 * length self.old }
        ensures len { length self.new ≡ length self.old }
        ensures here { packed_bit self.new column ≡ bit_of value }
        ensures elsewhere { (k : ℕ) → k ≢ column → packed_bit self.new k ≡ packed_bit self.old k }
    {
        write_bit(self.words.as_mut_slice(), column, value);
    }

    /// Sets the bit in a column to 1 where it was 0, and to 0 where it was 1.
    pub(crate) fn flip(&mut self, column: usize)
        requires { column < 64 * length self.old }
        ensures len { length self.new ≡ length self.old }
        ensures here { packed_bit self.new column ≡ bit_xor (packed_bit self.old column) 1 }
        ensures elsewhere { (k : ℕ) → k ≢ column → packed_bit self.new k ≡ packed_bit self.old k }
    {
        flip_bit(self.words.as_mut_slice(), column);
    }

    /// The words, for reading.
    pub(crate) fn as_slice(&self) -> &[u64]
        ensures { result.now ≡ self.now }
    {
        self.words.as_slice()
    }

    // The words.
    fn into_words(self) -> Vec<u64>
        ensures { result.items ≡ self }
    {
        self.words
    }

    /// Adds a word to another one.
    pub(crate) fn add_word(&mut self, dest: usize, src: usize)
        requires dest { dest < length self.old }
        requires src { src < length self.old }
        ensures { self.new ≡ with_word_added self.old dest src }
    {
        let word = self.words[src];
        self.words[dest] ^= word;
    }

    /// A word.
    pub(crate) fn word(&self, i: usize) -> u64
        requires { i < length self.now }
        ensures { result ≡ slice_index self.now i }
    {
        self.words[i]
    }
}

/// The bits of a row in the columns from `start` on and before `end`.
pub(crate) fn part_of(
    alloc: Global,
    row: &[u64],
    start: usize,
    end: usize,
) -> Result<BinaryOctetVec, AllocError>
    requires range { start ≤ end }
    requires within { end ≤ 64 * length row.now }
    requires width { end < 65536 }
    ensures { IfOk result (λ octets. AreBitsOf (packed_bit row.now) start end octets) }
{
    let len = end - start;
    let mut part = BitRow::zero(alloc, len)?;
    let padding = (WORD_BITS - len % WORD_BITS) % WORD_BITS;
    for k in 0..len {
        part.set(padding + k, get_bit(row, start + k));
    }
    Ok(BinaryOctetVec::new(part.into_words(), len))
}
