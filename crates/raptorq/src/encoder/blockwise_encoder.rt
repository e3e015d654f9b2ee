//! An object is cut into its source blocks, which are encoded one after another (RFC 6330, section
//! 4.4.1.2).
ghost use Rattle.std.specs.Prelude.{◌≡◌, ◌<◌, IfOk, IfErr, OnOk};
ghost use Rattle.rq_standard.specs.Configuration.{IsAccepted, largest_block};
ghost use Rattle.rq_standard.specs.Cutting.{block_symbols};
ghost use Rattle.rq_standard.specs.Headline.{HasNonsingularRows, IsNonsingular, block_row};
ghost use Rattle.rq_standard.specs.TableRows.{greatest_size, row_of};
ghost use Rattle.rq_block.specs.BlockData.{block_by_plan, IsPlanFor};
ghost use Rattle.rq_block.specs.SourceBlockEncodingPlan.{plan_of};

use crate::blocks::block_symbols;
use rq_base::base::ObjectTransmissionInformation;
use rq_block::encoder::SourceBlockEncodingPlan;
use rq_bytes::error::Error;
use rq_tables::systematic_constants::SystematicTable;
use std::alloc::Global;

/// What is left of an object, and the last block's plan: blocks of one size share it.
#[derive(Drop)]
pub(super) struct BlockwiseEncoder<'a> {
    pub(super) alloc: Global,
    pub(super) table: &'a SystematicTable,
    pub(super) config: &'a ObjectTransmissionInformation,
    rest: &'a [u8],
    pub(super) plan: SourceBlockEncodingPlan,
    pub ghost accepted: { IsAccepted (greatest_size table.now) config.now },
    pub ghost few: { largest_block config.now < 65536 },
    pub ghost planned: { (plan_of plan).row ≡ row_of table.now (plan_of plan).count },
}

impl<'a> BlockwiseEncoder<'a> {
    ghost use Rattle.raptorq.specs.BlockCutting.{CutsBlock, RefusesRows};

    /// All blocks of the object are left.
    pub(super) fn new(
        alloc: Global,
        table: &'a SystematicTable,
        object: &'a [u8],
        config: &'a ObjectTransmissionInformation,
    ) -> Result<BlockwiseEncoder<'a>, Error>
        requires accepted { IsAccepted (greatest_size table.now) config.now }
        requires few { largest_block config.now < 65536 }
        ensures table { IfOk result (λ blocks. blocks.table.now ≡ table.now) }
        ensures config { IfOk result (λ blocks. blocks.config.now ≡ config.now) }
        ensures whole { IfOk result (λ blocks. blocks.rest.now ≡ object.now) }
        ensures refused { IfErr result (RefusesRows table.now config.now) }
    {
        let count = block_symbols(config, 0) as u16;
        let plan = SourceBlockEncodingPlan::generate(alloc, table, count)?;
        Ok(BlockwiseEncoder {
            alloc,
            table,
            config,
            rest: object,
            plan,
        })
    }

    /// Cuts the bytes of the block with this number, which comes next, off what is left of the object,
    /// and makes a plan for it, unless the last one is.
    pub(super) fn next_block(&mut self, number: u8) -> Result<&'a [u8], Error>
        requires { number < self.old.config.now.source_blocks }
        ensures cut { IfOk result (λ block. CutsBlock number self.old (block_by_plan (plan_of self.new.plan) self.old.config.now number block.now) self.new) }
        ensures count { OnOk result ((plan_of self.new.plan).count ≡ block_symbols self.old.config.now number) }
        ensures nonsingular { OnOk result (IsNonsingular (block_row self.old.table.now self.old.config.now number)) }
        ensures table { self.new.table ≡ self.old.table }
        ensures config { self.new.config ≡ self.old.config }
        ensures refused { IfErr result (RefusesRows self.old.table.now self.old.config.now) }
    {
        let count = self.prepare_plan(number)?;
        // The object may end before its last blocks do.
        let size = usize::from(self.config.symbol_size());
        let whole = count as usize * size;
        let (block, behind) = self.rest.split_at(whole.min(self.rest.len()));
        self.rest = behind;
        Ok(block)
    }

    /// Whether no row of the object's blocks is singular.
    pub(super) fn check_rows(&mut self) -> Result<(), Error>
        ensures nonsingular { OnOk result (HasNonsingularRows self.old.table.now self.old.config.now) }
        ensures refused { IfErr result (RefusesRows self.old.table.now self.old.config.now) }
    {
        for number in 0..self.config.source_blocks() {
            self.prepare_plan(number)?;
        }
        Ok(())
    }

    // Makes a plan for the block with this number, unless the last one is, and answers the number of its
    // source symbols.
    fn prepare_plan(&mut self, number: u8) -> Result<u32, Error>
        requires { number < self.old.config.now.source_blocks }
        ensures count { IfOk result (λ count. count ≡ block_symbols self.old.config.now number) }
        ensures plan { IfOk result (λ count. IsPlanFor self.old.table.now count (plan_of self.new.plan)) }
        ensures nonsingular { OnOk result (IsNonsingular (block_row self.old.table.now self.old.config.now number)) }
        ensures table { self.new.table ≡ self.old.table }
        ensures config { self.new.config ≡ self.old.config }
        ensures rest { self.new.rest ≡ self.old.rest }
        ensures refused { IfErr result (RefusesRows self.old.table.now self.old.config.now) }
    {
        let count = block_symbols(self.config, number);
        if u32::from(self.plan.source_symbol_count()) != count {
            self.plan = SourceBlockEncodingPlan::generate(self.alloc, self.table, count as u16)?;
        }
        Ok(count)
    }
}
