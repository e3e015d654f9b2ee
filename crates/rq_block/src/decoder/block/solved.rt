//! A block's intermediate symbols, from what was received of it, and the block from both (RFC 6330,
//! section 5.4).
ghost use Rattle.std.specs.Prelude.{◌≡◌, [], IfOk, IfErr};

use super::SourceBlockDecoder;
use crate::buffer::LARGE_BLOCK;
use crate::decoder::fitting::solves_all;
use crate::decoder::known::{known_symbol_ids, known_symbol_values};
use crate::decoder::payloads::keep_first;
use crate::decoder::source_symbols::SourceSymbols;
use crate::enc::encoding_symbol;
use crate::solving::{BlockOperations, solve_or_show};
use rq_bytes::error::Error;
use rq_bytes::symbol_slab::SymbolSlab;
use rq_solver::pi_solver::Solved;
use std::alloc::AllocError;
use std::collections::BTreeMap;

impl SourceBlockDecoder {
    ghost use Rattle.rq_standard.specs.ReceivedBlock.{IsBlockWith};
    ghost use Rattle.rq_block.specs.Known.{FindsFromKnown, FindsKnown, SolvesBlock, IsReceivedSolution, HasLostSymbols};
    ghost use Rattle.rq_block.specs.SourceBlockDecoder.{received_of, solving_of};
    ghost use Rattle.rq_block.specs.Decoding.{IsUnanswered};

    /// The intermediate symbols, where what was received determines them.
    pub(super) fn solve(&mut self) -> Result<Option<SymbolSlab>, Error>
        ensures solved { IfOk result (λ r. SolvesBlock (received_of self.old) r) }
        ensures same { received_of self.new ≡ received_of self.old }
        ensures solving { solving_of self.new ≡ solving_of self.old }
        ensures unanswered { IfErr result (IsUnanswered (received_of self.old)) }
    {
        let Some(solution) = self.find_operations()? else {
            return Ok(None);
        };
        Ok(Some(self.replay(solution)?))
    }

    // The operations that make the intermediate symbols, where what was received determines them. Where
    // a column shows that it doesn't, nothing is solved. Where solving finds one, it is kept.
    fn find_operations(&mut self) -> Result<Option<BlockOperations>, Error>
        ensures found { IfOk result (FindsKnown (received_of self.old) self.old.received) }
        ensures received { self.new.received ≡ self.old.received }
        ensures same { received_of self.new ≡ received_of self.old }
        ensures solving { solving_of self.new ≡ solving_of self.old }
        ensures memory { IfErr result (λ e. e ≡ Error.OutOfMemory) }
    {
        let row = &self.row;
        if self.received.len() < self.source_symbols as usize {
            return Ok(None);
        }
        if self.column.is_some() {
            return Ok(None);
        }
        let ids = known_symbol_ids(self.alloc, row, self.source_symbols, &self.received)?;
        match solve_or_show(self.alloc, row, ids.as_slice(), self.sparse_threshold)? {
            Solved::Determined(solution) => Ok(Some(solution)),
            Solved::Undetermined(column) => {
                self.column = column;
                Ok(None)
            }
        }
    }

    // The intermediate symbols that operations make of what was received.
    fn replay(&self, solution: BlockOperations) -> Result<SymbolSlab, Error>
        requires { FindsFromKnown (received_of self.now) self.now.received solution }
        ensures solved { IfOk result (IsReceivedSolution (received_of self.now)) }
        ensures unanswered { IfErr result (IsUnanswered (received_of self.now)) }
    {
        let row = &self.row;
        // For the proof: the contract of `len` says that what was received is in the order of its
        // ids.
        let _count = self.received.len();
        let padding = (row.numbers.extended_symbols - self.source_symbols) as usize;
        let mut values = known_symbol_values(
            self.alloc,
            solution.precode_rows + padding,
            self.source_symbols,
            self.symbol_size(),
            &self.received,
        )?;
        // For the proof: the contract of `len` says that the values have one size.
        let _symbols = values.len();
        solution.operations.replay(&mut values)?;
        if solves_all(self.alloc, row, &solution, &values)? {
            Ok(values)
        } else {
            Err(Error::Contradiction)
        }
    }

    /// The block, from the source symbols that were received and the intermediate symbols. These are let
    /// go before there is a block, or their buffer becomes the block's: beside it stand what was received
    /// and the lost symbols alone.
    pub(super) fn rebuild(&self, intermediate: SymbolSlab) -> Result<Vec<u8>, AllocError>
        requires { IsReceivedSolution (received_of self.now) intermediate }
        ensures { IfOk result (λ block. IsBlockWith (received_of self.now) block.items) }
    {
        let lost = self.lost_symbols(&intermediate)?;
        let room = self.room_for_block(intermediate)?;
        let symbols = SourceSymbols {
            received: &self.received,
            lost: &lost,
        };
        self.layout().block_of_symbols(&symbols, room)
    }

    // The source symbols that didn't come, as sums of intermediate symbols.
    fn lost_symbols(&self, intermediate: &SymbolSlab) -> Result<BTreeMap<u32, Vec<u8>>, AllocError>
        requires { IsReceivedSolution (received_of self.now) intermediate.now }
        ensures { IfOk result (HasLostSymbols (received_of self.now) intermediate.now) }
    {
        let mut lost = BTreeMap::new(self.alloc);
        for e in 0..self.source_symbols {
            if !self.received.contains_key(&e) {
                let symbol = encoding_symbol(self.alloc, &self.row, intermediate, e)?;
                let _new = keep_first(&mut lost, e, symbol)?;
            }
        }
        Ok(lost)
    }

    // An empty buffer for the block's symbols. That of the intermediate symbols has room for them and for
    // more, and of a large block it is taken over, so that the pages of another need not be asked for.
    fn room_for_block(&self, intermediate: SymbolSlab) -> Result<Vec<u8>, AllocError>
        ensures { IfOk result (λ bytes. bytes.items ≡ []) }
    {
        let whole = self.length();
        if whole < LARGE_BLOCK {
            drop(intermediate);
            return Vec::with_capacity(self.alloc, whole);
        }
        let mut bytes = intermediate.into_bytes();
        bytes.clear();
        bytes.shrink_to(whole);
        Ok(bytes)
    }
}
