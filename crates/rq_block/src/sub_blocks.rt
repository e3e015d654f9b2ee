//! How the bytes of a source block and of its symbols lie in one another (RFC 6330, 4.4.1.2).
ghost use Rattle.std.specs.Prelude.{◌≡◌, ◌+◌, ◌*◌, ◌^◌, ◌<◌, ◌≤◌, [], ◌++◌, length, map, slice_index, IfOk, OnOk, OnErr, vec_len};
ghost use Rattle.std.specs.List.{range_with_len};
ghost use Rattle.rq_bytes.specs.SymbolSlab.{slab_of};
ghost use Rattle.rq_standard.specs.Configuration.{IsAligned};
ghost use Rattle.rq_standard.specs.Cutting.{sub_block_size, symbol_of_block};
ghost use Rattle.rq_block.specs.AppendedBlock.{KeepsFront};
ghost use Rattle.rq_block.specs.SourceSymbols.{source_symbol};
ghost use Rattle.rq_block.specs.SubBlocks.{AreSymbols, IsCutInto};

use crate::buffer::{PIECE, symbol_buffer};
use crate::decoder::source_symbols::SourceSymbols;
use rq_base::base::{ObjectTransmissionInformation, partition};
use rq_bytes::symbol_slab::SymbolSlab;
use std::alloc::{AllocError, Global};

/// The size of the sub-block that has this byte of a symbol, in bytes.
pub(crate) fn sub_block_size(config: &ObjectTransmissionInformation, byte: usize) -> usize
    requires { 0 < config.now.alignment }
    ensures { result ≡ sub_block_size config.now byte }
{
    let alignment = u32::from(config.symbol_alignment());
    let units = u32::from(config.symbol_size()) / alignment;
    let sub_blocks = u32::from(config.sub_blocks().max(1));
    let (larger, smaller, larger_count, _) = partition(units, sub_blocks);
    let larger_bytes = larger * larger_count * alignment;
    let width = if byte < larger_bytes as usize {
        larger
    } else {
        smaller
    };
    (width * alignment) as usize
}

// Appends the bytes of a block from a place on; past its end they are zeros.
fn append_padded(
    symbol: &mut Vec<u8>,
    block: &[u8],
    place: usize,
    width: usize,
) -> Result<(), AllocError>
    requires place { place + width < 2 ^ 64 }
    requires room { vec_len symbol.old + width < 2 ^ 64 }
    ensures padded { OnOk result (symbol.new.items ≡ symbol.old.items ++ map (λ i. slice_index block.now (place + i)) (range_with_len 0 width)) }
    ensures begun { OnErr result (KeepsFront symbol.old.items symbol.new.items) }
{
    let start = place.min(block.len());
    let end = (place + width).min(block.len());
    let whole = symbol.len() + width;
    extend_by_pieces(symbol, &block[start..end])?;
    symbol.resize(whole, 0)
}

// Appends bytes, a piece at a time.
fn extend_by_pieces(bytes: &mut Vec<u8>, more: &[u8]) -> Result<(), AllocError>
    ensures all { OnOk result (bytes.new.items ≡ bytes.old.items ++ more.now) }
    ensures begun { OnErr result (KeepsFront bytes.old.items bytes.new.items) }
{
    let mut start = 0;
    while start < more.len() {
        let end = start + PIECE.min(more.len() - start);
        bytes.extend_from_slice(&more[start..end])?;
        start = end;
    }
    Ok(())
}

// The bytes that a sub-block has of each symbol: `width` of them from `start` on.
#[derive(Clone, Copy)]
struct SubBlock {
    start: usize,
    width: usize,
}

/// How a source block is cut (RFC 6330, 4.4.1.2). Not in the Rust crate.
#[derive(Clone, Copy)]
pub struct BlockLayout {
    /// The configuration of its object.
    pub config: ObjectTransmissionInformation,
    /// The number of its source symbols (K).
    pub source_symbols: u32,
    pub ghost aligned: { IsAligned config },
}

impl BlockLayout {
    ghost use Rattle.rq_block.specs.BlockLayout.{bytes_by, cut_by, parts_by, slab_among_zeros};

    /// The symbols of a block, which may end before its last symbol does.
    pub(crate) fn symbols_of_block(
        &self,
        alloc: Global,
        block: &[u8],
    ) -> Result<SymbolSlab, AllocError>
        ensures small { OnOk result (self.now.config.symbol_size < 65536) }
        ensures symbols { IfOk result (λ slab. slab ≡ slab_of self.now.config.symbol_size (cut_by self.now block.now)) }
    {
        let size = usize::from(self.config.symbol_size());
        let count = self.source_symbols as usize;
        let mut bytes = Vec::with_capacity(alloc, count * size)?;
        self.append_symbols(&mut bytes, block)?;
        Ok(SymbolSlab::from_bytes(bytes, count, size))
    }

    /// The symbols of a block from place `start` on, and zeros in all others of `count` places.
    pub(crate) fn symbols_among_zeros(
        &self,
        alloc: Global,
        block: &[u8],
        start: usize,
        count: usize,
    ) -> Result<SymbolSlab, AllocError>
        requires fits { start + self.now.source_symbols ≤ count }
        requires few { count < 2 ^ 32 }
        ensures { IfOk result (λ slab. slab ≡ slab_among_zeros self.now start count block.now) }
    {
        let size = usize::from(self.config.symbol_size());
        let mut bytes = symbol_buffer(alloc, count, self.source_symbols, size)?;
        bytes.resize(start * size, 0)?;
        self.append_symbols(&mut bytes, block)?;
        bytes.resize(count * size, 0)?;
        Ok(SymbolSlab::from_bytes(bytes, count, size))
    }

    // Appends all symbols of a block, which may end before its last symbol does.
    fn append_symbols(&self, bytes: &mut Vec<u8>, block: &[u8]) -> Result<(), AllocError>
        ensures { OnOk result (bytes.new.items ≡ bytes.old.items ++ bytes_by self.now block.now) }
    {
        let size = usize::from(self.config.symbol_size());
        if sub_block_size(&self.config, 0) == size {
            // In a single sub-block they stand one after another.
            return append_padded(bytes, block, 0, self.source_symbols as usize * size);
        }
        for e in 0..self.source_symbols {
            self.append_source_symbol(bytes, block, e)?;
        }
        Ok(())
    }

    /// Appends symbol `e` of a block to bytes. The block may end before its last symbol does: the rest are
    /// zeros. Where there is no memory, a beginning of the symbol may be appended.
    pub fn append_source_symbol(
        &self,
        bytes: &mut Vec<u8>,
        block: &[u8],
        e: u32,
    ) -> Result<(), AllocError>
        ensures symbol { OnOk result (bytes.new.items ≡ bytes.old.items ++ symbol_of_block self.now.config self.now.source_symbols block.now e) }
        ensures begun { OnErr result (KeepsFront bytes.old.items bytes.new.items) }
    {
        let size = usize::from(self.config.symbol_size());
        let mut start = 0;
        while start < size {
            let width = sub_block_size(&self.config, start);
            let place = start * self.source_symbols as usize + width * e as usize;
            append_padded(bytes, block, place, width)?;
            start += width;
        }
        Ok(())
    }

    /// Puts a block together of its symbols, in a buffer that is empty.
    pub(crate) fn block_of_symbols(
        &self,
        symbols: &SourceSymbols,
        room: Vec<u8>,
    ) -> Result<Vec<u8>, AllocError>
        requires symbols { AreSymbols self.now.config self.now.source_symbols (source_symbol symbols.now) }
        requires empty { room.items ≡ [] }
        ensures long { IfOk result (λ block. length block.items ≡ self.now.source_symbols * self.now.config.symbol_size) }
        ensures each { IfOk result (λ block. IsCutInto self.now.config self.now.source_symbols block.items (source_symbol symbols.now)) }
    {
        let size = usize::from(self.config.symbol_size());
        let mut block = room;
        let mut start = 0;
        while start < size {
            let width = sub_block_size(&self.config, start);
            let part = SubBlock { start, width };
            self.append_sub_block(&mut block, symbols, part)?;
            start += width;
        }
        Ok(block)
    }

    // Appends a sub-block of the block that has these symbols.
    fn append_sub_block(
        &self,
        block: &mut Vec<u8>,
        symbols: &SourceSymbols,
        part: SubBlock,
    ) -> Result<(), AllocError>
        requires within { part.start + part.width ≤ self.now.config.symbol_size }
        requires symbols { AreSymbols self.now.config self.now.source_symbols (source_symbol symbols.now) }
        ensures { OnOk result (block.new.items ≡ block.old.items ++ parts_by self.now (source_symbol symbols.now) part.start part.width) }
    {
        for e in 0..self.source_symbols {
            let symbol = symbols.symbol(e);
            block.extend_from_slice(&symbol[part.start..part.start + part.width])?;
        }
        Ok(())
    }
}
