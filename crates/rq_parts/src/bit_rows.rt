//! Rows of packed bits in one buffer. Not in the Rust crate.
ghost use Rattle.std.specs.Prelude.{◌≡◌, ◌≢◌, ◌⊎◌, ◌+◌, ◌*◌, ◌^◌, ◌<◌, ◌≤◌, [], length, map, replicate, take, slice_index_or, slice_set, IfOk};
ghost use Rattle.std.proofs.Common.{rules};
ghost use Rattle.std.specs.Borrow.{sem};
ghost use Rattle.std.specs.Cmp.Rules.{comparing};
ghost use Rattle.std.specs.List.{swap};
ghost use Rattle.rq_bytes.specs.Ranges.{range_of, with_range, cut};
ghost use Rattle.rq_standard.specs.Rows.{row_sum};
ghost use Rattle.rq_parts.specs.PackedBits.{word_count};
ghost use Rattle.rq_parts.specs.BitRows.{same_rows};

use crate::packed_bits::words_for;
use rq_bytes::gf2::add_assign_binary;
use rq_bytes::slices::range;
use rq_bytes::util::{get_both_ranges, swap_ranges};
use std::alloc::{AllocError, Global};
use std::marker::Model;

/// Rows of bits, 64 to a word, each of as many words as the others. Contracts see the rows' words.
#[derive(Debug, Drop)]
pub struct BitRows {
    words: Vec<u64>,
    row_len: usize,
    count: usize,
}

impl Model for BitRows {
    ghost use Rattle.std.specs.Prelude.{◌≡◌, ◌*◌, List, ℕ, vec_len};
    ghost use Rattle.rq_bytes.specs.Ranges.{cut};

    ghost Value = { List (List ℕ) };

    ghost view = { λ r. cut r.count r.row_len r.words.items };

    ghost invariant = { λ r. vec_len r.words ≡ r.count * r.row_len };
}

impl Clone for BitRows {
    ghost is_clone = { λ a b. b ≡ a };

    fn clone(&self) -> Result<Self, AllocError> {
        Ok(BitRows {
            words: self.words.clone()?,
            row_len: self.row_len,
            count: self.count,
        })
    }
}

impl PartialEq for BitRows {
    ghost eq = { same_rows };

    ghost laws = { Prim.search (comparing, rules) };

    fn eq(&self, other: &BitRows) -> bool {
        if self.count != other.count {
            return false;
        }
        self.words == other.words
    }
}

impl Eq for BitRows {
    ghost laws = { Prim.search (comparing, rules) };
}

impl BitRows {
    ghost use Rattle.rq_parts.specs.RowLends.{LendsRow, IsRowWrite};

    /// `height` rows of `width` zeros each.
    pub fn zeros(alloc: Global, height: usize, width: usize) -> Result<Self, AllocError>
        requires height { height < 2 ^ 31 }
        requires width { width < 2 ^ 17 }
        ensures { IfOk result (λ rows. rows ≡ replicate height (replicate (word_count width) 0)) }
    {
        let row_len = words_for(width);
        Ok(BitRows {
            words: vec![in alloc; 0; height * row_len]?,
            row_len,
            count: height,
        })
    }

    /// The allocator that `zeros` was handed.
    pub fn allocator(&self) -> Global {
        *self.words.allocator()
    }

    /// The number of rows.
    pub fn len(&self) -> usize
        ensures { result ≡ length self.now }
    {
        self.count
    }

    /// The words of a row.
    pub fn row(&self, i: usize) -> &[u64]
        requires { i < length self.now }
        ensures { result.now ≡ slice_index_or self.now i [] }
    {
        let start = i * self.row_len;
        range(self.words.as_slice(), start, self.row_len)
    }

    /// The words of a row, for writing.
    pub fn row_mut(&mut self, i: usize) -> &mut [u64]
        requires { i < length self.old }
        ensures* writes_back { sem 𝓛 (LendsRow self.entry i result) }
        ensures whole_row { IsRowWrite self.old i }
        ensures row { result.now ≡ slice_index_or self.old i [] }
    {
        let len = self.row_len;
        let start = i * len;
        self.words.slice_mut(start..start + len)
    }

    /// Exchanges two rows.
    pub fn swap(&mut self, i: usize, j: usize)
        requires first { i < length self.old }
        requires second { j < length self.old }
        ensures { self.new ≡ swap self.old i j }
    {
        let len = self.row_len;
        if i != j {
            swap_ranges(self.words.as_mut_slice(), i * len, j * len, len);
        }
    }

    /// Adds a row to another one.
    pub fn add(&mut self, dest: usize, src: usize)
        requires two { dest ≢ src }
        requires dest { dest < length self.old }
        requires src { src < length self.old }
        ensures { self.new ≡ slice_set self.old dest (row_sum (slice_index_or self.old dest []) (slice_index_or self.old src [])) }
    {
        let len = self.row_len;
        add_range(self.words.as_mut_slice(), dest * len, src * len, len);
    }

    /// Keeps the first rows.
    pub fn truncate(&mut self, height: usize)
        requires { height ≤ length self.old }
        ensures { self.new ≡ take height self.old }
    {
        self.words.truncate(height * self.row_len);
        self.count = height;
    }

    /// Drops the words of each row that `width` columns don't need.
    pub fn narrow(&mut self, width: usize)
        requires { width < 65536 }
        ensures { self.new ≡ map (λ row. take (word_count width) row) self.old }
    {
        let kept = words_for(width).min(self.row_len);
        let words = self.words.as_mut_slice();
        gather_starts(words, self.count, self.row_len, kept);
        self.words.truncate(self.count * kept);
        self.row_len = kept;
    }
}

// Adds a range to another one.
fn add_range(words: &mut [u64], dest: usize, src: usize, len: usize)
    requires apart { (dest + len ≤ src) ⊎ (src + len ≤ dest) }
    requires dest { dest + len ≤ length words.old }
    requires src { src + len ≤ length words.old }
    ensures { words.new ≡ with_range words.old dest (row_sum (range_of words.old dest len) (range_of words.old src len)) }
{
    let (to, from) = get_both_ranges(words, dest, src, len);
    add_assign_binary(to, from);
}

// Moves the first `kept` words of each row together.
fn gather_starts(words: &mut [u64], count: usize, row_len: usize, kept: usize)
    requires kept { kept ≤ row_len }
    requires long { length words.old ≡ count * row_len }
    ensures { cut count kept words.new ≡ map (λ row. take kept row) (cut count row_len words.old) }
{
    for row in 0..count {
        let start = row * row_len;
        words.copy_within(start..start + kept, row * kept);
    }
}
