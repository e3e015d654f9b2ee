//! `IntermediateSymbolDecoder`: a block's equations in, its symbols, operations and counts out (RFC
//! 6330, section 5.4.2.1).
ghost use Rattle.std.specs.Prelude.{◌≡◌, ℕ, ◌+◌, ◌*◌, ◌<◌, ◌≤◌, None, Some, length, sum, slice_index, OnSome, IfSome, IfNone, IfOk, IfErr, Err};
ghost use Rattle.std.specs.Option.{ForSome};
ghost use Rattle.rq_standard.specs.TableRows.{greatest_size, row_of};
ghost use Rattle.rq_bytes.specs.declared.error.Error.TheVariants.{AlreadyExecuted, OutOfMemory};
ghost use Rattle.rq_elimination.specs.OperationCounts.{additions};
ghost use Rattle.rq_elimination.specs.PhaseCounts.{total_of};
ghost use Rattle.rq_solver.specs.Solving.{AreEquations, AreEquationsWithoutHdpc, AreValues, FindsOperations, solver_of, solver_without_hdpc, IsOutcome, IsSpent, SolvesOrShows};

mod first_phase;
mod fourth_phase;
mod homogeneous_column;
mod peeled;
mod phase_outcome;
mod phases;
mod redo_additions;
mod second_phase;
mod solved;
mod third_phase;

use phase_outcome::PhaseOutcome;
use phases::run_phases;
use rq_bytes::error::Error;
use rq_bytes::operation_vector::SymbolOps;
use rq_bytes::symbol_slab::SymbolSlab;
use rq_elimination::counts::OperationCounts;
use rq_matrix::matrix::BinaryMatrix;
use rq_operations::recorded::RecordedOperations;
use rq_parts::octet_matrix::DenseOctetMatrix;
pub use rq_peeling::row_selection::FirstPhaseRowSelectionStats;
use rq_peeling::system::System;
use rq_tables::systematic_constants::{CheckedRow, SystematicTable};
pub use solved::Solved;
use std::alloc::{AllocError, Global};

/// Solves the equations of a block for its intermediate symbols (RFC 6330, section 5.4.2.1), once.
/// Contracts see the equations, and the symbols until it has run, if it was handed some.
#[derive(Drop)]
pub struct IntermediateSymbolDecoder<T: BinaryMatrix> {
    alloc: Global,
    matrix: T,
    hdpc: DenseOctetMatrix,
    first_hdpc: usize,
    lt_columns: usize,
    symbols: Option<SymbolSlab>,
    counts: OperationCounts,
    pub ghost dense_columns: { lt_columns ≡ (T.content matrix).boundary },
    pub ghost octet_columns: { hdpc.width ≡ (T.content matrix).width },
    pub ghost unordered: { ForSome symbols (λ slab. slab.order ≡ None) },
    pub ghost within: { first_hdpc + length hdpc.rows ≤ (T.content matrix).height },
    pub ghost empty: { (i k : ℕ) → i < length hdpc.rows → k < (T.content matrix).width → (T.content matrix).bit (first_hdpc + i) k ≡ 0 },
    pub ghost counted: { ForSome symbols (λ slab. length slab.values ≡ (T.content matrix).height) },
    pub ghost few_hdpc: { length hdpc.rows ≤ (T.content matrix).width },
    pub ghost few_additions: { total_of counts.additions ≤ 2 * (T.content matrix).width * (T.content matrix).height },
}

impl<T: BinaryMatrix> IntermediateSymbolDecoder<T> {
    ghost use Rattle.rq_peeling.specs.System.{IsSystemOf};
    ghost use Rattle.rq_solver.specs.PhaseOutcome.{CountsOperations, RunsOverEquations, answered_operations, in_row_order};
    ghost use Rattle.rq_solver.specs.Phases.{SolvesRows};
    ghost use Rattle.rq_solver.specs.SolverState.{solver_state};

    /// A solver of the equations of a block with `num_source_symbols` source symbols (RFC 6330,
    /// section 5.4.2.1).
    ///
    /// They are a matrix of bits, L columns wide, with a row for each equation: S of LDPC, then H
    /// of zeros, then one for each internal symbol id; the HDPC rows, H of L octets each, which
    /// stand in the places of those zeros; and a slab with a symbol, the value, for each equation,
    /// in which no order is set. There are L equations or more.
    pub fn new(
        alloc: Global,
        table: &SystematicTable,
        matrix: T,
        hdpc: DenseOctetMatrix,
        symbols: SymbolSlab,
        num_source_symbols: u32,
    ) -> Self
        requires known { num_source_symbols ≤ greatest_size table.now }
        requires equations { AreEquations (row_of table.now num_source_symbols) (T.content matrix) hdpc }
        requires values { AreValues (T.content matrix).height symbols }
        ensures { solver_state result ≡ solver_of (row_of table.now num_source_symbols) (T.content matrix) hdpc (Some symbols) }
    {
        let row = table.checked_row(num_source_symbols);
        IntermediateSymbolDecoder::of_row(alloc, &row, matrix, hdpc).with_symbols(symbols)
    }

    /// A solver without symbols, for operations alone, of the equations of a block, over the block's
    /// row of a table: a matrix of bits, and the HDPC rows. Not in the Rust crate.
    pub fn of_row(alloc: Global, row: &CheckedRow, matrix: T, hdpc: DenseOctetMatrix) -> Self
        requires { AreEquations row.now.numbers (T.content matrix) hdpc }
        ensures { solver_state result ≡ solver_of row.now.numbers (T.content matrix) hdpc None }
    {
        IntermediateSymbolDecoder {
            alloc,
            matrix,
            hdpc,
            first_hdpc: row.ldpc_symbols(),
            lt_columns: row.lt_symbols(),
            symbols: None,
            counts: OperationCounts::none(),
        }
    }

    /// A solver of the equations of a block with `num_source_symbols` source symbols, but for those
    /// of HDPC: a matrix of bits, L columns wide, with a row for each equation, S of LDPC and then
    /// one for each internal symbol id; and a slab with a symbol for each. There are L equations or
    /// more.
    pub fn new_no_hdpc(
        alloc: Global,
        table: &SystematicTable,
        matrix: T,
        symbols: SymbolSlab,
        num_source_symbols: u32,
    ) -> Self
        requires known { num_source_symbols ≤ greatest_size table.now }
        requires equations { AreEquationsWithoutHdpc (row_of table.now num_source_symbols) (T.content matrix) }
        requires values { AreValues (T.content matrix).height symbols }
        ensures { solver_state result ≡ solver_without_hdpc (row_of table.now num_source_symbols) (T.content matrix) (Some symbols) }
    {
        let row = table.checked_row(num_source_symbols);
        IntermediateSymbolDecoder::of_row_no_hdpc(alloc, &row, matrix).with_symbols(symbols)
    }

    /// A solver without symbols, for operations alone, of the equations of a block but for those of HDPC,
    /// over the block's row of a table: a matrix of bits. Not in the Rust crate.
    pub fn of_row_no_hdpc(alloc: Global, row: &CheckedRow, matrix: T) -> Self
        requires { AreEquationsWithoutHdpc row.now.numbers (T.content matrix) }
        ensures { solver_state result ≡ solver_without_hdpc row.now.numbers (T.content matrix) None }
    {
        let hdpc = DenseOctetMatrix::without_rows(alloc, matrix.width());
        IntermediateSymbolDecoder {
            alloc,
            matrix,
            hdpc,
            first_hdpc: 0,
            lt_columns: row.lt_symbols(),
            symbols: None,
            counts: OperationCounts::none(),
        }
    }

    // The solver with a symbol for each of its equations.
    fn with_symbols(mut self, symbols: SymbolSlab) -> Self
        requires { AreValues (solver_state self).height symbols }
        ensures { solver_state result ≡ record (solver_state self) { symbols = Some symbols } }
    {
        self.symbols = Some(symbols);
        self
    }

    /// How many symbols were added, counting multiples that were added: at most twice the number of
    /// equations for each intermediate symbol. Zero until the operations are found, or it is found
    /// that there are none.
    pub fn get_symbol_add_ops(&self) -> u64
        ensures counted { result ≡ sum (solver_state self.now).additions }
        ensures few { result ≤ 2 * (solver_state self.now).width * (solver_state self.now).height }
    {
        self.counts.additions.total()
    }

    /// How many symbols were multiplied, counting multiples that were added. Zero until the operations
    /// are found, or it is found that there are none.
    pub fn get_symbol_mul_ops(&self) -> u64
        ensures { result ≡ sum (solver_state self.now).multiplications }
    {
        self.counts.multiplications.total()
    }

    /// How many symbols each of the five phases added, counting multiples that were added (RFC
    /// 6330, sections 5.4.2.2 to 5.4.2.6). What the third and the fifth do is counted as the fourth's.
    pub fn get_symbol_add_ops_by_phase(&self) -> [u64; 5]
        ensures counted { result ≡ (solver_state self.now).additions }
        ensures third { slice_index result 2 ≡ 0 }
        ensures fifth { slice_index result 4 ≡ 0 }
    {
        self.counts.additions.by_phase()
    }

    /// How many symbols each of the five phases multiplied, counting multiples that were added (RFC
    /// 6330, sections 5.4.2.2 to 5.4.2.6). What the third and the fifth do is counted as the fourth's.
    pub fn get_symbol_mul_ops_by_phase(&self) -> [u64; 5]
        ensures counted { result ≡ (solver_state self.now).multiplications }
        ensures third { slice_index result 2 ≡ 0 }
        ensures fifth { slice_index result 4 ≡ 0 }
    {
        self.counts.multiplications.by_phase()
    }

    /// Solves the equations: the slab with the intermediate symbols, and the operations that made
    /// it, which find the solution of the same equations with other symbols too. `None` where the
    /// equations don't determine the symbols.
    ///
    /// Refuses `AlreadyExecuted` in each call after the first, whatever that answered, and where there
    /// are no symbols; counts stay.
    ///
    /// Kept for the surface of `raptorq`; coders call `into_operations` and `solve`.
    pub fn execute(&mut self) -> Result<Option<(SymbolSlab, Vec<SymbolOps>)>, Error>
        ensures solved { IfSome (solver_state self.old).symbols (λ handed. IfOk result (IsOutcome (solver_state self.old) handed)) }
        ensures memory { OnSome (solver_state self.old).symbols (IfErr result (λ e. e ≡ OutOfMemory)) }
        ensures once { IfNone (solver_state self.old).symbols (result ≡ Err AlreadyExecuted) }
        ensures spent { IsSpent (solver_state self.old) (solver_state self.new) }
        ensures kept { IfNone (solver_state self.old).symbols (solver_state self.new ≡ solver_state self.old) }
        ensures bound { sum (solver_state self.new).additions ≤ 2 * (solver_state self.new).width * (solver_state self.new).height }
        ensures counted { IfOk result (λ answer. CountsOperations (solver_state self.old) (solver_state self.new) (answered_operations answer)) }
    {
        let Some(mut symbols) = self.symbols.take() else {
            return Err(Error::AlreadyExecuted);
        };
        let found = self.solve_equations()?;
        self.counts = found.operations.counts(found.ends);
        let Some(operations) = found.in_row_order().determined() else {
            return Ok(None);
        };
        operations.replay(&mut symbols)?;
        Ok(Some((symbols, operations.into_symbol_ops()?)))
    }

    /// The operations that find the solution of the equations from any symbols, where those that
    /// were handed in aren't wanted. `None` where the equations don't determine the symbols. The
    /// solver lets its symbols go at once, and its matrix once the ones of the rows are listed. Not in
    /// the Rust crate.
    pub fn into_operations(self) -> Result<Option<RecordedOperations>, AllocError>
        ensures found { IfOk result (FindsOperations (solver_state self)) }
    {
        Ok(self.solve()?.determined())
    }

    /// The operations as [`into_operations`](Self::into_operations) finds them, and a column that shows
    /// it where the equations don't determine the symbols. Want of memory for the column alone is no
    /// error. Not in the Rust crate.
    pub fn solve(self) -> Result<Solved<RecordedOperations>, AllocError>
        ensures solved { IfOk result (SolvesOrShows (solver_state self)) }
    {
        let alloc = self.alloc;
        let found = run_phases(alloc, self.into_system()?)?;
        Ok(found.in_row_order())
    }

    // The equations as the phases take them. The symbols are let go at once, and the matrix once the
    // ones of the rows are listed.
    fn into_system(self) -> Result<System, AllocError>
        ensures { IfOk result (IsSystemOf (T.content self.matrix) self.hdpc self.first_hdpc) }
    {
        let IntermediateSymbolDecoder {
            alloc,
            matrix,
            hdpc,
            first_hdpc,
            lt_columns,
            symbols,
            ..
        } = self;
        drop(symbols);
        System::of_matrix(alloc, &matrix, hdpc, first_hdpc, lt_columns)
    }

    // The equations as the phases take them, with a copy of the HDPC rows, so that matrix and rows stay.
    fn to_system(&self) -> Result<System, AllocError>
        ensures { IfOk result (IsSystemOf (T.content self.now.matrix) self.now.hdpc self.now.first_hdpc) }
    {
        let hdpc = self.hdpc.clone()?;
        System::of_matrix(
            self.alloc,
            &self.matrix,
            hdpc,
            self.first_hdpc,
            self.lt_columns,
        )
    }

    // Runs the phases, and leaves matrix and rows.
    fn solve_equations(&self) -> Result<PhaseOutcome, AllocError>
        ensures found { let s = solver_state self.now in IfOk result (λ found. SolvesRows s.height s.width s.rows (in_row_order found)) }
        ensures phases { IfOk result (RunsOverEquations (solver_state self.now)) }
        ensures few { IfOk result (λ found. additions found.operations ≤ 2 * (solver_state self.now).width * (solver_state self.now).height) }
    {
        run_phases(self.alloc, self.to_system()?)
    }
}

/// Solves the equations of a block with `num_source_symbols` source symbols, which are a matrix of
/// bits, the HDPC rows, and a symbol for each equation: the slab with the intermediate symbols, and
/// the operations that made it. `None` where the equations don't determine the symbols.
pub fn fused_inverse_mul_symbols<T: BinaryMatrix>(
    alloc: Global,
    table: &SystematicTable,
    matrix: T,
    hdpc: DenseOctetMatrix,
    symbols: SymbolSlab,
    num_source_symbols: u32,
) -> Result<Option<(SymbolSlab, Vec<SymbolOps>)>, Error>
    requires known { num_source_symbols ≤ greatest_size table.now }
    requires equations { AreEquations (row_of table.now num_source_symbols) (T.content matrix) hdpc }
    requires values { AreValues (T.content matrix).height symbols }
    ensures solved { IfOk result (IsOutcome (solver_of (row_of table.now num_source_symbols) (T.content matrix) hdpc (Some symbols)) symbols) }
    ensures memory { IfErr result (λ e. e ≡ OutOfMemory) }
{
    IntermediateSymbolDecoder::new(
        alloc,
        table,
        matrix,
        hdpc,
        symbols,
        num_source_symbols,
    ).execute()
}

/// Solves the equations of a block with `num_source_symbols` source symbols, but for those of HDPC: a
/// matrix of bits, and a symbol for each equation. It answers the slab with the intermediate symbols,
/// and the operations that made it. `None` where these equations don't determine the symbols; all
/// equations may.
pub fn fused_inverse_mul_symbols_no_hdpc<T: BinaryMatrix>(
    alloc: Global,
    table: &SystematicTable,
    matrix: T,
    symbols: SymbolSlab,
    num_source_symbols: u32,
) -> Result<Option<(SymbolSlab, Vec<SymbolOps>)>, Error>
    requires known { num_source_symbols ≤ greatest_size table.now }
    requires equations { AreEquationsWithoutHdpc (row_of table.now num_source_symbols) (T.content matrix) }
    requires values { AreValues (T.content matrix).height symbols }
    ensures solved { IfOk result (IsOutcome (solver_without_hdpc (row_of table.now num_source_symbols) (T.content matrix) (Some symbols)) symbols) }
    ensures memory { IfErr result (λ e. e ≡ OutOfMemory) }
{
    IntermediateSymbolDecoder::new_no_hdpc(
        alloc,
        table,
        matrix,
        symbols,
        num_source_symbols,
    ).execute()
}
