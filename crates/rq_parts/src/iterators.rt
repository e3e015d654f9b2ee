//! Iterators over the octets of a row.
ghost use Rattle.std.specs.Prelude.{◌≡◌, ◌+◌, ◌-◌, ◌*◌, ◌<◌, ◌≤◌, [], ◌∷◌, All, length, MatchOption, IfOk, IfErr};
ghost use Rattle.std.specs.Iterator.{YieldsFirst, item_count};
ghost use Rattle.rq_bytes.specs.declared.error.Error.TheVariants.{OutOfMemory};
ghost use Rattle.rq_parts.specs.BitPairs.{bit_pairs, ones_among, sparse_pairs};

use crate::sparse_vec::SparseBinaryVec;
use rq_bytes::error::Error;
use rq_bytes::octet::Octet;
use rq_bytes::octets::WORD_BITS;
use std::alloc::Global;
use std::marker::Model;
use std::vec::IntoIter;

/// The octets of a row of a matrix in some of its columns: pairs of a column and the octet in it.
/// Contracts see the list of the pairs that are left.
#[derive(Debug, Drop)]
pub struct OctetIter<'a> {
    left: Left<'a>,
}

impl<'a> Model for OctetIter<'a> {
    ghost use Rattle.std.specs.Prelude.{ℕ, List};

    ghost Value = { List (ℕ × ℕ) };

    ghost use Rattle.rq_parts.specs.OctetIter.{pairs_left};

    ghost view = { λ s. pairs_left s.left };
}

// The columns that are left, each with its bit, or those that have a one.
#[derive(Debug, Drop)]
enum Left<'a> {
    Columns(DenseBits<'a>),
    Ones(DenseOnes<'a>),
    Sparse(SparseOnes<'a>),
}

impl<'a> OctetIter<'a> {
    /// The columns from `start_col` on and before `end_col`, with the bits of `elements` from bit
    /// `start_bit` of the first word on, the lowest bit of a word first.
    ///
    /// Kept for the surface of `raptorq`; no coder calls it.
    pub fn new_dense_binary(
        start_col: usize,
        end_col: usize,
        start_bit: usize,
        elements: &'a [u64],
    ) -> OctetIter<'a>
        requires range { start_col ≤ end_col }
        requires bit { start_bit < 64 }
        requires words { start_bit + (end_col - start_col) ≤ 64 * length elements.now }
        ensures { result ≡ bit_pairs elements.now start_bit start_col (end_col - start_col) }
    {
        OctetIter {
            left: Left::Columns(DenseBits::new(start_col, end_col, start_bit, elements)),
        }
    }

    /// The columns from `start_col` on and before `end_col` that have a one, in a row whose column k
    /// is bit k mod 64 of word k / 64.
    pub fn new_dense_ones(start_col: usize, end_col: usize, elements: &'a [u64]) -> OctetIter<'a>
        requires range { start_col ≤ end_col }
        requires words { end_col ≤ 64 * length elements.now }
        ensures { result ≡ ones_among (bit_pairs elements.now start_col start_col (end_col - start_col)) }
    {
        OctetIter {
            left: Left::Ones(DenseOnes::new(start_col, end_col, elements)),
        }
    }

    /// The columns from `start_col` on and before `end_col` that have a one: a one at index k of the
    /// row stands in the column that `physical_col_to_logical` has at k.
    pub fn new_sparse(
        start_col: usize,
        end_col: usize,
        sparse_elements: &'a SparseBinaryVec,
        physical_col_to_logical: &'a [u16],
    ) -> OctetIter<'a>
        requires range { start_col ≤ end_col }
        requires known { All (λ one. one < length physical_col_to_logical.now) sparse_elements.now }
        ensures { result ≡ sparse_pairs sparse_elements.now physical_col_to_logical.now start_col end_col }
    {
        OctetIter {
            left: Left::Sparse(SparseOnes {
                start: start_col,
                end: end_col,
                ones: sparse_elements.as_slice(),
                columns: physical_col_to_logical,
            }),
        }
    }

    /// The pairs that are left, in memory of their own.
    pub fn clone(&self, alloc: Global) -> Result<ClonedOctetIter, Error>
        ensures ok { IfOk result (λ pairs. pairs ≡ self.now) }
        ensures err { IfErr result (λ e. e ≡ OutOfMemory) }
    {
        let mut pairs = Vec::new(alloc);
        for pair in self.again() {
            pairs.push(pair)?;
        }
        Ok(ClonedOctetIter {
            pairs: pairs.into_iter(),
        })
    }

    // A copy of the pairs that are left.
    fn again(&self) -> OctetIter<'a>
        ensures { result ≡ self.now }
    {
        OctetIter {
            left: match &self.left {
                Left::Columns(bits) => Left::Columns(DenseBits { ..*bits }),
                Left::Ones(ones) => Left::Ones(DenseOnes { ..*ones }),
                Left::Sparse(ones) => Left::Sparse(SparseOnes { ..*ones }),
            },
        }
    }
}

impl Iterator for OctetIter<'_> {
    type Item = (usize, Octet);

    ghost next_gives = { YieldsFirst (λ s. s) };

    ghost remaining = { item_count (λ s. s) };

    #[inline(always)]
    fn next(&mut self) -> Option<(usize, Octet)> {
        match &mut self.left {
            Left::Columns(bits) => bits.next_column(),
            Left::Ones(ones) => ones.next_one(),
            Left::Sparse(ones) => ones.next_one(),
        }
    }
}

/// Pairs of a column and the octet in it. Contracts see the list of those that are left.
#[derive(Debug, Drop)]
pub struct ClonedOctetIter {
    pairs: IntoIter<(usize, Octet)>,
}

impl Model for ClonedOctetIter {
    ghost use Rattle.std.specs.Prelude.{ℕ, List};
    ghost use Rattle.std.specs.Vec.Iter.{into_iter_items};

    ghost Value = { List (ℕ × ℕ) };

    ghost view = { λ s. into_iter_items s.pairs };
}

impl Iterator for ClonedOctetIter {
    type Item = (usize, Octet);

    ghost next_gives = { YieldsFirst (λ s. s) };

    ghost remaining = { item_count (λ s. s) };

    fn next(&mut self) -> Option<(usize, Octet)> {
        self.pairs.next()
    }
}

// Columns and their bits, the first of them at a place of a word. Contracts see the list of the pairs
// that are left.
#[derive(Debug, Drop)]
struct DenseBits<'a> {
    column: usize,
    end: usize,
    words: &'a [u64],
    word: usize,
    bit: usize,
}

impl<'a> Model for DenseBits<'a> {
    ghost use Rattle.std.specs.Prelude.{ℕ, List, ◌+◌, ◌-◌, ◌*◌, ◌<◌, ◌≤◌, length};

    ghost Value = { List (ℕ × ℕ) };

    ghost use Rattle.rq_parts.specs.OctetIter.{bits_left, IsWithinWords};

    ghost view = { bits_left };

    ghost invariant = { IsWithinWords };
}

impl<'a> DenseBits<'a> {
    // The columns of a range, with the bits from one of the first word on.
    fn new(column: usize, end: usize, bit: usize, words: &'a [u64]) -> DenseBits<'a>
        requires range { column ≤ end }
        requires bit { bit < 64 }
        requires words { bit + (end - column) ≤ 64 * length words.now }
        ensures { result ≡ bit_pairs words.now bit column (end - column) }
    {
        DenseBits {
            column,
            end,
            words,
            word: 0,
            bit,
        }
    }

    // The next column.
    #[inline(always)]
    fn next_column(&mut self) -> Option<(usize, Octet)>
        ensures { MatchOption result ((self.old ≡ []) × (self.new ≡ [])) (λ p. self.old ≡ p ∷ self.new) }
    {
        if self.column == self.end {
            return None;
        }
        let column = self.column;
        let octet = Octet::new(((self.words[self.word] >> self.bit) % 2) as u8);
        self.column += 1;
        self.bit += 1;
        if self.bit == WORD_BITS {
            self.word += 1;
            self.bit = 0;
        }
        Some((column, octet))
    }
}

// The columns before `end` that have a one and weren't given yet. Column k is bit k mod 64 of the word
// at k / 64. Of the word at `word` the bits that are left are in `bits`, and of the words behind it all
// are left. Contracts see the list of the pairs that are left.
#[derive(Debug, Drop)]
struct DenseOnes<'a> {
    bits: u64,
    word: usize,
    words: &'a [u64],
    end: usize,
}

impl<'a> Model for DenseOnes<'a> {
    ghost use Rattle.std.specs.Prelude.{ℕ, List};

    ghost Value = { List (ℕ × ℕ) };

    ghost use Rattle.rq_parts.specs.OctetIter.{dense_ones_left, IsWithinRow};

    ghost view = { dense_ones_left };

    ghost invariant = { IsWithinRow };
}

impl<'a> DenseOnes<'a> {
    // The ones of a range of the columns.
    fn new(start: usize, end: usize, words: &'a [u64]) -> DenseOnes<'a>
        requires range { start ≤ end }
        requires words { end ≤ 64 * length words.now }
        ensures { result ≡ ones_among (bit_pairs words.now start start (end - start)) }
    {
        let word = start / WORD_BITS;
        let bits = if start < end {
            words[word] & (u64::MAX << (start % WORD_BITS))
        } else {
            0
        };
        DenseOnes {
            bits,
            word,
            words,
            end,
        }
    }

    // The next one.
    #[inline(always)]
    fn next_one(&mut self) -> Option<(usize, Octet)>
        ensures { MatchOption result ((self.old ≡ []) × (self.new ≡ [])) (λ p. self.old ≡ p ∷ self.new) }
    {
        while self.bits == 0 {
            if self.end - WORD_BITS * self.word <= WORD_BITS {
                return None;
            }
            self.word += 1;
            self.bits = self.words[self.word];
        }
        let column = WORD_BITS * self.word + self.bits.trailing_zeros() as usize;
        if column >= self.end {
            return None;
        }
        self.bits &= self.bits - 1;
        Some((column, Octet::one()))
    }
}

// The ones of a sparse row that are left, in the columns that a list has for them, as far as these lie
// in a range. Contracts see the list of the pairs that are left.
#[derive(Debug, Drop)]
struct SparseOnes<'a> {
    start: usize,
    end: usize,
    ones: &'a [u16],
    columns: &'a [u16],
}

impl<'a> Model for SparseOnes<'a> {
    ghost use Rattle.std.specs.Prelude.{ℕ, List, All, ◌<◌, length};

    ghost Value = { List (ℕ × ℕ) };

    ghost use Rattle.rq_parts.specs.BitPairs.{sparse_pairs};

    ghost view = { λ s. sparse_pairs s.ones.now s.columns.now s.start s.end };

    ghost invariant = { λ s. All (λ one. one < length s.columns.now) s.ones.now };
}

impl<'a> SparseOnes<'a> {
    // The next column in the range.
    fn next_one(&mut self) -> Option<(usize, Octet)>
        ensures { MatchOption result ((self.old ≡ []) × (self.new ≡ [])) (λ p. self.old ≡ p ∷ self.new) }
    {
        while let Some((one, rest)) = self.ones.split_first() {
            let column = usize::from(self.columns[usize::from(*one)]);
            self.ones = rest;
            if column >= self.start && column < self.end {
                return Some((column, Octet::one()));
            }
        }
        None
    }
}
