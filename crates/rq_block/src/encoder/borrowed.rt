//! A source block whose bytes are borrowed.
ghost use Rattle.std.specs.Prelude.{◌≡◌, ◌^◌, ◌<◌, ◌≤◌, length, IfOk, IfErr, OnOk, OnErr};
ghost use Rattle.rq_bytes.specs.SymbolSlab.{symbols_in};
ghost use Rattle.rq_standard.specs.Configuration.{IsAligned};
ghost use Rattle.rq_standard.specs.TableRows.{intermediate_symbols};
ghost use Rattle.rq_block.specs.BlockLayout.{HasOnlyColumn};

use crate::enc::add_encoding_symbol;
use crate::encoder::plan::SourceBlockEncodingPlan;
use crate::ids::internal_symbol_id;
use crate::sub_blocks::BlockLayout;
use rq_base::base::{ObjectTransmissionInformation, PayloadId};
use rq_bytes::error::Error;
use rq_bytes::symbol_slab::SymbolSlab;
use rq_tables::systematic_constants::CheckedRow;
use std::alloc::{AllocError, Global};

/// A source block whose bytes are borrowed: packets are made of them without a copy of its source
/// symbols (RFC 6330, sections 4.4.2 and 5.3). Not in the Rust crate.
#[derive(Drop)]
pub struct BorrowedBlock<'a> {
    number: u8,
    row: CheckedRow,
    layout: BlockLayout,
    block: &'a [u8],
    intermediate: SymbolSlab,
    pub ghost few: { layout.source_symbols ≤ row.numbers.extended_symbols },
    pub ghost sized: { intermediate.symbol_size ≡ layout.config.symbol_size },
    pub ghost enough: { intermediate_symbols row.numbers ≤ length (symbols_in intermediate) },
    pub ghost solved: { HasOnlyColumn row.numbers layout block.now intermediate },
}

impl<'a> BorrowedBlock<'a> {
    ghost use Rattle.rq_block.specs.AppendedBlock.{AppendsBlock, AppendsSymbol, KeepsFront};
    ghost use Rattle.rq_block.specs.BlockData.{block_by_plan};
    ghost use Rattle.rq_block.specs.BorrowedBlock.{borrowed_of};
    ghost use Rattle.rq_block.specs.SourceBlockEncodingPlan.{plan_of};

    /// The block of these bytes in as many symbols as a plan is for. The bytes may end before the last
    /// symbol does: the rest are zeros (RFC 6330, 4.4.1.2). Bytes behind it aren't read.
    pub fn new(
        alloc: Global,
        number: u8,
        config: &ObjectTransmissionInformation,
        block: &'a [u8],
        plan: &SourceBlockEncodingPlan,
    ) -> Result<BorrowedBlock<'a>, AllocError>
        requires { IsAligned config.now }
        ensures { IfOk result (λ b. borrowed_of b ≡ block_by_plan (plan_of plan.now) config.now number block.now) }
    {
        let layout = BlockLayout {
            config: *config,
            source_symbols: u32::from(plan.source_symbol_count()),
        };
        let intermediate = plan.intermediate_symbols(alloc, &layout, block)?;
        Ok(BorrowedBlock {
            number,
            row: plan.row(),
            layout,
            block,
            intermediate,
        })
    }

    /// The number of source symbols (K).
    pub fn source_symbol_count(&self) -> u32
        ensures { result ≡ length (borrowed_of self.now).source }
    {
        self.layout.source_symbols
    }

    /// Appends the packets with the encoding symbol ids before `end` to bytes, each its payload id of 4
    /// bytes and its symbol. The one error is [`Error::OutOfMemory`]: some may be appended then.
    pub fn append_packets(&self, end: u32, bytes: &mut Vec<u8>) -> Result<(), Error>
        requires { end ≤ 2 ^ 24 }
        ensures packets { OnOk result (AppendsBlock (borrowed_of self.now) end bytes.old.items bytes.new.items) }
        ensures begun { OnErr result (KeepsFront bytes.old.items bytes.new.items) }
        ensures memory { IfErr result (λ e. e ≡ Error.OutOfMemory) }
    {
        for esi in 0..end {
            bytes.extend_from_slice(&PayloadId::new(self.number, esi)?.serialize())?;
            self.append_symbol(esi, bytes)?;
        }
        Ok(())
    }

    // Appends the payload of an encoding symbol id to bytes: a source symbol, or a sum of intermediate
    // symbols.
    fn append_symbol(&self, esi: u32, bytes: &mut Vec<u8>) -> Result<(), AllocError>
        requires { esi < 2 ^ 24 }
        ensures symbol { OnOk result (AppendsSymbol (borrowed_of self.now) esi bytes.old.items bytes.new.items) }
        ensures begun { OnErr result (KeepsFront bytes.old.items bytes.new.items) }
    {
        if esi < self.layout.source_symbols {
            return self.layout.append_source_symbol(bytes, self.block, esi);
        }
        let start = bytes.len();
        let end = start + usize::from(self.layout.config.symbol_size());
        bytes.resize(end, 0)?;
        let (_, symbol) = bytes.as_mut_slice().split_at_mut(start);
        let id = internal_symbol_id(&self.row, self.layout.source_symbols, esi);
        add_encoding_symbol(&self.row, &self.intermediate, id, symbol);
        Ok(())
    }
}
