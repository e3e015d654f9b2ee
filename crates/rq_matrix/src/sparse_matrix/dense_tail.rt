//! The dense columns of a sparse matrix.
ghost use Rattle.std.specs.Prelude.{◌≡◌, ℕ, ◌-◌, ◌^◌, ◌<◌, ◌≤◌, length, map, replicate, All, IfOk, OnOk, OnErr, MatchOption};
ghost use Rattle.std.specs.Int.Bits.{bit_xor};
ghost use Rattle.rq_bytes.specs.BinaryOctetVec.{packed_bit};
ghost use Rattle.rq_standard.specs.BitTableSteps.{bit_of};
ghost use Rattle.rq_parts.specs.PackedBits.{word_count, HasZerosBetween, IsLastOne};
ghost use Rattle.rq_matrix.specs.DenseTails.{with_word_added, tail_bit, IsZeroTail, SetsTailBit, SetsTailOnes, AddsTailRow, PushesColumn};

use crate::bit_row::BitRow;
use rq_bytes::octet::Octet;
use rq_bytes::octets::WORD_BITS;
use rq_parts::packed_bits::{last_one, words_for};
use std::alloc::{AllocError, Global};
use std::marker::Model;

/// The last columns of the rows of a matrix, the last of them first, so that one more comes at the
/// end. Each block holds 64 of them, in a word for each row. Contracts see the blocks.
#[derive(Debug, Drop)]
pub(super) struct DenseTail {
    rows: usize,
    columns: usize,
    blocks: Vec<BitRow>,
}

impl Model for DenseTail {
    ghost use Rattle.rq_matrix.specs.DenseTails.{Tail, IsTail};

    ghost Value = { Tail };

    ghost view = { λ t. record { rows = t.rows; columns = t.columns; blocks = t.blocks.items } };

    ghost invariant = { λ t. IsTail (record { rows = t.rows; columns = t.columns; blocks = t.blocks.items }) };
}

impl Clone for DenseTail {
    ghost is_clone = { λ a b. b ≡ a };

    fn clone(&self) -> Result<Self, AllocError> {
        Ok(DenseTail {
            rows: self.rows,
            columns: self.columns,
            blocks: self.blocks.clone()?,
        })
    }
}

impl DenseTail {
    /// Dense columns of zeros: `columns` of them, in `rows` rows.
    pub(super) fn new(alloc: Global, rows: usize, columns: usize) -> Result<DenseTail, AllocError>
        requires rows { rows < 2 ^ 31 }
        requires columns { columns < 65536 }
        ensures { IfOk result (IsZeroTail rows columns) }
    {
        Ok(DenseTail {
            rows,
            columns,
            blocks: zero_rows(alloc, words_for(columns), WORD_BITS * rows)?,
        })
    }

    /// The bit of a row in a column.
    pub(super) fn get(&self, row: usize, column: usize) -> Octet
        requires row { row < self.now.rows }
        requires column { column < self.now.columns }
        ensures { result ≡ tail_bit self.now row column }
    {
        self.blocks[column / WORD_BITS].get(WORD_BITS * row + column % WORD_BITS)
    }

    /// The last column before `end` in which a row has a one.
    pub(super) fn last_one(&self, row: usize, mut end: usize) -> Option<usize>
        requires row { row < self.now.rows }
        requires within { end ≤ self.now.columns }
        ensures { MatchOption result (HasZerosBetween (tail_bit self.now row) 0 end) (IsLastOne (tail_bit self.now row) end) }
    {
        while end > 0 {
            let block = (end - 1) / WORD_BITS;
            let first = WORD_BITS * block;
            let word = self.blocks[block].word(row);
            if let Some(bit) = last_one(word, end - first) {
                return Some(first + bit);
            }
            end = first;
        }
        None
    }

    /// Sets the bit of a row in a column to 0 for the octet 0, and else to 1.
    pub(super) fn set(&mut self, row: usize, column: usize, value: Octet)
        requires row { row < self.old.rows }
        requires column { column < self.old.columns }
        ensures { SetsTailBit self.old row column (bit_of value) self.new }
    {
        self.blocks[column / WORD_BITS].set(WORD_BITS * row + column % WORD_BITS, value);
    }

    /// Sets the bit of a row in a column to 1 where it was 0, and to 0 where it was 1.
    pub(super) fn flip(&mut self, row: usize, column: usize)
        requires row { row < self.old.rows }
        requires column { column < self.old.columns }
        ensures { SetsTailBit self.old row column (bit_xor (tail_bit self.old row column) 1) self.new }
    {
        self.blocks[column / WORD_BITS].flip(WORD_BITS * row + column % WORD_BITS);
    }

    /// Sets the bits of some rows in a column.
    pub(super) fn set_ones(&mut self, rows: &[u32], column: usize)
        requires rows { All (λ row. row < self.old.rows) rows.now }
        requires column { column < self.old.columns }
        ensures { SetsTailOnes self.old rows.now column self.new }
    {
        for row in rows {
            self.set(*row as usize, column, Octet::one());
        }
    }

    /// Adds a row to another one.
    pub(super) fn add(&mut self, dest: usize, src: usize)
        requires dest { dest < self.old.rows }
        requires src { src < self.old.rows }
        ensures { AddsTailRow self.old dest src self.new }
    {
        add_words(self.blocks.as_mut_slice(), dest, src);
    }

    /// Makes room for one more column, of zeros.
    pub(super) fn push_column(&mut self, alloc: Global) -> Result<(), AllocError>
        requires { self.old.columns < 65536 }
        ensures ok { OnOk result (PushesColumn self.old self.new) }
        ensures refused { OnErr result (self.new ≡ self.old) }
    {
        if self.columns / WORD_BITS >= self.blocks.len() {
            let block = BitRow::zero(alloc, WORD_BITS * self.rows)?;
            self.blocks.push(block)?;
        }
        self.columns += 1;
        Ok(())
    }

    /// The bits of a row, that of the last column at the end.
    pub(super) fn row(&self, alloc: Global, row: usize) -> Result<BitRow, AllocError>
        requires row { row < self.now.rows }
        requires columns { self.now.columns < 65536 }
        ensures len { IfOk result (λ bits. length bits ≡ word_count self.now.columns) }
        ensures bits { IfOk result (λ bits. (k : ℕ) → k < self.now.columns → packed_bit bits k ≡ tail_bit self.now row (self.now.columns - 1 - k)) }
    {
        let mut bits = BitRow::zero(alloc, self.columns)?;
        for column in 0..self.columns {
            bits.set(column, self.get(row, self.columns - 1 - column));
        }
        Ok(bits)
    }
}

// `height` rows of `width` zeros each.
fn zero_rows(alloc: Global, height: usize, width: usize) -> Result<Vec<BitRow>, AllocError>
    requires { width < 2 ^ 40 }
    ensures { IfOk result (λ rows. rows.items ≡ replicate height (replicate (word_count width) 0)) }
{
    let mut rows = Vec::with_capacity(alloc, height)?;
    for _ in 0..height {
        rows.push(BitRow::zero(alloc, width)?)?;
    }
    Ok(rows)
}

// In each block adds the word of a row to that of another one.
fn add_words(blocks: &mut [BitRow], dest: usize, src: usize)
    requires dest { All (λ block. dest < length block) blocks.old }
    requires src { All (λ block. src < length block) blocks.old }
    ensures { blocks.new ≡ map (λ block. with_word_added block dest src) blocks.old }
{
    for block in 0..blocks.len() {
        blocks[block].add_word(dest, src);
    }
}
