//! The operations that make a block's intermediate symbols, or a column that shows that its equations
//! don't determine them.
ghost use Rattle.std.specs.Prelude.{◌≡◌, ◌^◌, ◌<◌, ◌≤◌, IfSome, IfOk, IfErr};
ghost use Rattle.rq_standard.specs.TableRows.{intermediate_symbols};
ghost use Rattle.rq_standard.specs.Equations.{equation_count};
ghost use Rattle.rq_block.specs.BlockSolutions.{FindsFrom, FindsListed, FindsWithoutHdpc, IsBlockOutcome, ShowsListed, SparesHdpc};
ghost use Rattle.rq_solver.specs.Solved.{found_of};

use rq_base::constraint_matrix::{
    generate_constraint_matrix_no_hdpc_of_row, generate_constraint_matrix_of_row,
};
use rq_bytes::error::Error;
use rq_matrix::matrix::{BinaryMatrix, DenseBinaryMatrix};
use rq_matrix::sparse_matrix::SparseBinaryMatrix;
use rq_null_vector::null_vector::null_vector;
use rq_operations::recorded::RecordedOperations;
use rq_solver::pi_solver::{IntermediateSymbolDecoder, Solved};
use rq_tables::systematic_constants::CheckedRow;
use std::alloc::Global;

/// The operations that make the intermediate symbols from the values of equations: `precode_rows`
/// zeros for the LDPC and HDPC equations, or those of LDPC alone, and then the symbols of the ids,
/// whatever these are.
#[derive(Drop)]
pub(crate) struct BlockOperations {
    pub precode_rows: usize,
    pub operations: RecordedOperations,
}

/// What makes the intermediate symbols from the symbols of a list of internal symbol ids. `None`
/// where the ids don't determine them. The matrix is sparse where the extended source block has
/// `sparse_threshold` symbols (K') or more, and dense else.
pub(crate) fn solve_block(
    alloc: Global,
    row: &CheckedRow,
    ids: &[u32],
    sparse_threshold: u32,
) -> Result<Option<BlockOperations>, Error>
    requires enough { intermediate_symbols row.now.numbers ≤ equation_count row.now.numbers ids.now }
    requires fits { equation_count row.now.numbers ids.now < 2 ^ 31 }
    ensures found { IfOk result (FindsListed row.now.numbers ids.now) }
    ensures spares { IfOk result (SparesHdpc row.now.numbers ids.now) }
    ensures memory { IfErr result (λ e. e ≡ Error.OutOfMemory) }
{
    let outcome = solve_or_show(alloc, row, ids, sparse_threshold)?;
    Ok(outcome.determined())
}

/// What [`solve_block`] finds, and where it finds nothing a column that shows it.
pub(crate) fn solve_or_show(
    alloc: Global,
    row: &CheckedRow,
    ids: &[u32],
    sparse_threshold: u32,
) -> Result<Solved<BlockOperations>, Error>
    requires enough { intermediate_symbols row.now.numbers ≤ equation_count row.now.numbers ids.now }
    requires fits { equation_count row.now.numbers ids.now < 2 ^ 31 }
    ensures outcome { IfOk result (IsBlockOutcome row.now.numbers ids.now) }
    ensures spares { IfOk result (λ outcome. SparesHdpc row.now.numbers ids.now (found_of outcome)) }
    ensures memory { IfErr result (λ e. e ≡ Error.OutOfMemory) }
{
    let listed = Listed { alloc, row, ids };
    if row.numbers.extended_symbols >= sparse_threshold {
        listed.find_over::<SparseBinaryMatrix>()
    } else {
        listed.find_over::<DenseBinaryMatrix>()
    }
}

// A list of internal symbol ids over a row, with as many equations as intermediate symbols or more.
#[derive(Drop)]
struct Listed<'a> {
    alloc: Global,
    row: &'a CheckedRow,
    ids: &'a [u32],
    ghost enough: { intermediate_symbols row.now.numbers ≤ equation_count row.now.numbers ids.now },
    ghost fits: { equation_count row.now.numbers ids.now < 2 ^ 31 },
}

impl Listed<'_> {
    // Over one kind of matrix: first without the HDPC equations, which are not needed where enough
    // symbols were received, and cost the most.
    fn find_over<T: BinaryMatrix>(&self) -> Result<Solved<BlockOperations>, Error>
        ensures outcome { IfOk result (IsBlockOutcome self.now.row.now.numbers self.now.ids.now) }
        ensures spares { IfOk result (λ outcome. SparesHdpc self.now.row.now.numbers self.now.ids.now (found_of outcome)) }
        ensures memory { IfErr result (λ e. e ≡ Error.OutOfMemory) }
    {
        if let Some(solution) = self.find_without_hdpc::<T>()? {
            return Ok(Solved::Determined(solution));
        }
        self.find_with_hdpc::<T>()
    }

    // By the LDPC equations and those of the ids alone, where they are as many as the intermediate
    // symbols. `None` says nothing of all equations.
    fn find_without_hdpc<T: BinaryMatrix>(&self) -> Result<Option<BlockOperations>, Error>
        ensures found { IfOk result (λ answer. IfSome answer (FindsFrom self.now.row.now.numbers self.now.ids.now)) }
        ensures alone { IfOk result (FindsWithoutHdpc self.now.row.now.numbers self.now.ids.now) }
        ensures memory { IfErr result (λ e. e ≡ Error.OutOfMemory) }
    {
        let precode_rows = self.row.ldpc_symbols();
        if precode_rows + self.ids.len() < self.row.intermediate_symbols() {
            return Ok(None);
        }
        let matrix = generate_constraint_matrix_no_hdpc_of_row::<T>(
            self.alloc, self.row, self.ids,
        )?;
        let solver = IntermediateSymbolDecoder::of_row_no_hdpc(self.alloc, self.row, matrix);
        let Some(operations) = solver.into_operations()? else {
            return Ok(None);
        };
        Ok(Some(BlockOperations {
            precode_rows,
            operations,
        }))
    }

    // By all equations.
    fn find_with_hdpc<T: BinaryMatrix>(&self) -> Result<Solved<BlockOperations>, Error>
        ensures outcome { IfOk result (IsBlockOutcome self.now.row.now.numbers self.now.ids.now) }
        ensures memory { IfErr result (λ e. e ≡ Error.OutOfMemory) }
    {
        let (matrix, hdpc) = generate_constraint_matrix_of_row::<T>(
            self.alloc, self.row, self.ids,
        )?;
        let solver = IntermediateSymbolDecoder::of_row(self.alloc, self.row, matrix, hdpc);
        match solver.solve()? {
            Solved::Determined(operations) => Ok(Solved::Determined(BlockOperations {
                precode_rows: self.row.precode_rows(),
                operations,
            })),
            Solved::Undetermined(column) => Ok(Solved::Undetermined(column)),
        }
    }
}

/// A column that isn't all zeros and solves the equations of a list of internal symbol ids with all
/// values zero. `None` where the ids determine the intermediate symbols. There may be any number of
/// ids. The matrix is sparse or dense as that of [`solve_block`].
pub(crate) fn homogeneous(
    alloc: Global,
    row: &CheckedRow,
    ids: &[u32],
    sparse_threshold: u32,
) -> Result<Option<Vec<u8>>, Error>
    requires fits { equation_count row.now.numbers ids.now < 2 ^ 31 }
    ensures shown { IfOk result (ShowsListed row.now.numbers ids.now) }
    ensures memory { IfErr result (λ e. e ≡ Error.OutOfMemory) }
{
    if row.numbers.extended_symbols >= sparse_threshold {
        null_vector_over::<SparseBinaryMatrix>(alloc, row, ids)
    } else {
        null_vector_over::<DenseBinaryMatrix>(alloc, row, ids)
    }
}

// Over one kind of matrix.
fn null_vector_over<T: BinaryMatrix>(
    alloc: Global,
    row: &CheckedRow,
    ids: &[u32],
) -> Result<Option<Vec<u8>>, Error>
    requires fits { equation_count row.now.numbers ids.now < 2 ^ 31 }
    ensures shown { IfOk result (ShowsListed row.now.numbers ids.now) }
    ensures memory { IfErr result (λ e. e ≡ Error.OutOfMemory) }
{
    let (matrix, hdpc) = generate_constraint_matrix_of_row::<T>(alloc, row, ids)?;
    null_vector(alloc, &matrix, row.lt_symbols(), &hdpc, row.ldpc_symbols())
}
