//! Plans: what solves the equations of every block of one size.
ghost use Rattle.std.specs.Prelude.{◌≡◌, ◌⊎◌, ◌≤◌, length, Ok, IfOk, IfErr, OnOk};
ghost use Rattle.rq_bytes.specs.SymbolSlab.{symbols_in};
ghost use Rattle.rq_operations.specs.RecordedOperations.{operations_of};
ghost use Rattle.rq_standard.specs.Headline.{IsNonsingular, IsSingular};
ghost use Rattle.rq_standard.specs.TableRows.{row_of, intermediate_symbols};
ghost use Rattle.rq_block.specs.Allowed.{AreAllowedOver, AreAllowedOver-prop};
ghost use Rattle.rq_block.specs.BlockLayout.{values_by, HasOnlyColumn};
ghost use Rattle.rq_block.specs.Planned.{IsPlanOf};

use crate::encoder::SPARSE_MATRIX_THRESHOLD;
use crate::ids::padding_ids;
use crate::solving::solve_block;
use crate::sub_blocks::BlockLayout;
use rq_bytes::error::Error;
use rq_bytes::symbol_slab::SymbolSlab;
use rq_operations::recorded::RecordedOperations;
use rq_tables::systematic_constants::{CheckedRow, SystematicTable};
use std::alloc::{AllocError, Global};

/// The operations that make the intermediate symbols of a source block from its source symbols,
/// whatever the symbols and their size (RFC 6330, section 5.3.3.4.2). Blocks with one number of
/// source symbols share a plan.
///
/// ```
/// let plan = SourceBlockEncodingPlan::generate(alloc, table, 10)?; // for all blocks of 10 symbols
/// let encoder = SourceBlockEncoder::with_encoding_plan(alloc, 0, config, block, table, &plan)?;
/// ```
#[derive(Debug, PartialEq, Eq, Drop)]
pub struct SourceBlockEncodingPlan {
    operations: RecordedOperations,
    source_symbol_count: u16,
    row: CheckedRow,
    pub ghost nonsingular: { IsNonsingular row.numbers },
    pub ghost few: { source_symbol_count ≤ row.numbers.extended_symbols },
    pub ghost allowed: { AreAllowedOver row.numbers (operations_of operations) } by { AreAllowedOver-prop row.numbers (operations_of operations) },
    pub ghost finds: { IsPlanOf row.numbers (operations_of operations) },
}

impl SourceBlockEncodingPlan {
    ghost use Rattle.rq_block.specs.SourceBlockEncodingPlan.{plan_of, plan_refusal, RefusesPlan};

    /// The plan of source blocks with `source_symbol_count` source symbols, over their row of the
    /// table (RFC 6330, section 5.3.3.4).
    ///
    /// Refuses [`Error::BlockOverTable`] where the table has no row for these, and then
    /// [`Error::Singular`] where that row doesn't determine the intermediate symbols.
    pub fn generate(
        alloc: Global,
        table: &SystematicTable,
        source_symbol_count: u16,
    ) -> Result<Self, Error>
        ensures refused { IfErr result (RefusesPlan table.now source_symbol_count) }
        ensures taken { OnOk result (plan_refusal table.now source_symbol_count ≡ Ok tt) }
        ensures nonsingular { OnOk result (IsNonsingular (row_of table.now source_symbol_count)) }
        ensures count { IfOk result (λ p. (plan_of p).count ≡ source_symbol_count) }
        ensures row { IfOk result (λ p. (plan_of p).row ≡ row_of table.now source_symbol_count) }
        ensures plan { IfOk result (λ p. IsPlanOf (row_of table.now source_symbol_count) (plan_of p).operations) }
    {
        let count = u32::from(source_symbol_count);
        if count > table.greatest() {
            return Err(Error::BlockOverTable);
        }
        SourceBlockEncodingPlan::of_row(alloc, source_symbol_count, table.checked_row(count))
    }

    /// The plan over a row of a table.
    ///
    /// Refuses [`Error::Singular`] where the row doesn't determine the intermediate symbols.
    pub(crate) fn of_row(
        alloc: Global,
        source_symbol_count: u16,
        row: CheckedRow,
    ) -> Result<Self, Error>
        requires few { source_symbol_count ≤ row.numbers.extended_symbols }
        ensures count { IfOk result (λ p. (plan_of p).count ≡ source_symbol_count) }
        ensures row { IfOk result (λ p. (plan_of p).row ≡ row.numbers) }
        ensures plan { IfOk result (λ p. IsPlanOf row.numbers (plan_of p).operations) }
        ensures nonsingular { OnOk result (IsNonsingular row.numbers) }
        ensures refused { IfErr result (λ e. (e ≡ Error.OutOfMemory) ⊎ ((e ≡ Error.Singular) × IsSingular row.numbers)) }
    {
        let ids = padding_ids(alloc, &row, 0, row.extended_symbols())?;
        let Some(solution) = solve_block(alloc, &row, ids.as_slice(), SPARSE_MATRIX_THRESHOLD)?
        else {
            return Err(Error::Singular);
        };
        Ok(SourceBlockEncodingPlan {
            operations: solution.operations,
            source_symbol_count,
            row,
        })
    }

    /// The number of source symbols that the plan was made for. Not in the Rust crate.
    pub fn source_symbol_count(&self) -> u16
        ensures { result ≡ (plan_of self.now).count }
    {
        self.source_symbol_count
    }

    /// The row that the plan was made for.
    pub(crate) fn row(&self) -> CheckedRow
        ensures row { result.numbers ≡ (plan_of self.now).row }
        ensures nonsingular { IsNonsingular result.numbers }
    {
        self.row
    }

    /// The intermediate symbols of a block that is cut so, by a plan of its row.
    pub(crate) fn intermediate_symbols(
        &self,
        alloc: Global,
        layout: &BlockLayout,
        block: &[u8],
    ) -> Result<SymbolSlab, AllocError>
        requires few { layout.now.source_symbols ≤ (plan_of self.now).row.extended_symbols }
        ensures size { IfOk result (λ slab. slab.symbol_size ≡ layout.now.config.symbol_size) }
        ensures enough { IfOk result (λ slab. intermediate_symbols (plan_of self.now).row ≤ length (symbols_in slab)) }
        ensures column { IfOk result (HasOnlyColumn (plan_of self.now).row layout.now block.now) }
    {
        let mut symbols = source_values(alloc, &self.row, layout, block)?;
        self.operations.replay(&mut symbols)?;
        Ok(symbols)
    }
}

impl Clone for SourceBlockEncodingPlan {
    ghost use Rattle.rq_block.specs.SourceBlockEncodingPlan.{plan_of};

    ghost is_clone = { λ a b. plan_of b ≡ plan_of a };

    fn clone(&self) -> Result<SourceBlockEncodingPlan, AllocError> {
        Ok(SourceBlockEncodingPlan {
            operations: self.operations.clone()?,
            source_symbol_count: self.source_symbol_count,
            row: self.row,
        })
    }
}

// The values of the equations that determine a block's intermediate symbols: its source symbols, and
// zeros for all others.
fn source_values(
    alloc: Global,
    row: &CheckedRow,
    layout: &BlockLayout,
    block: &[u8],
) -> Result<SymbolSlab, AllocError>
    requires { layout.now.source_symbols ≤ row.now.numbers.extended_symbols }
    ensures { IfOk result (λ slab. slab ≡ values_by row.now.numbers layout.now block.now) }
{
    layout.symbols_among_zeros(alloc, block, row.precode_rows(), row.intermediate_symbols())
}
