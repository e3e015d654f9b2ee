//! Whether intermediate symbols that were found solve all equations of a block.
ghost use Rattle.std.specs.Prelude.{◌≡◌, ◌+◌, ◌<◌, ◌↔◌, IsTrue, length, None, IfOk};
ghost use Rattle.rq_bytes.specs.SymbolSlab.{symbol_in};
ghost use Rattle.rq_standard.specs.Equations.{before_hdpc};
ghost use Rattle.rq_block.specs.BlockSolutions.{HasIntermediate, SolvesHdpc, Fits};
ghost use Rattle.rq_block.specs.HdpcSums.{AreHdpcSums, AreZeroWithLast};

use crate::solving::BlockOperations;
use rq_base::constraint_matrix::hdpc::ones_of_mt;
use rq_bytes::octet::Octet;
use rq_bytes::octets;
use rq_bytes::row_multiples::double_and_add;
use rq_bytes::symbol_slab::SymbolSlab;
use rq_parts::memory::want_of_memory;
use rq_tables::systematic_constants::CheckedRow;
use std::alloc::{AllocError, Global};

/// Whether the intermediate symbols that the operations of a solution left in `values` solve all
/// equations of its ids: the values that aren't read are zeros, and the HDPC equations have the sum
/// zero, which are tested where they weren't among those that were solved.
pub(crate) fn solves_all(
    alloc: Global,
    row: &CheckedRow,
    solution: &BlockOperations,
    values: &SymbolSlab,
) -> Result<bool, AllocError>
    requires { HasIntermediate row.now.numbers values.now }
    ensures { IfOk result (λ fits. IsTrue fits ↔ Fits row.now.numbers solution.now.precode_rows values.now) }
{
    if !values.is_zero_unread()? {
        return Ok(false);
    }
    if solution.precode_rows >= row.precode_rows() {
        return Ok(true);
    }
    solves_hdpc(alloc, row, values)
}

// Whether each HDPC equation has the sum zero. A column of their coefficients is alpha times the next
// one, and one more in the two rows where MT's own column has a one. So by Horner's rule no
// coefficient is made, and a symbol costs a few passes, however many equations there are.
fn solves_hdpc(
    alloc: Global,
    row: &CheckedRow,
    intermediate: &SymbolSlab,
) -> Result<bool, AllocError>
    requires { HasIntermediate row.now.numbers intermediate.now }
    ensures { IfOk result (λ solves. IsTrue solves ↔ SolvesHdpc row.now.numbers intermediate.now.symbol_size (symbol_in intermediate.now)) }
{
    let last = row.before_hdpc() - 1;
    let mut sums = first_sums(alloc, row, intermediate)?;
    for column in 0..last {
        add_column(&mut sums, row, intermediate, column);
    }
    Ok(are_zero_with_last(&mut sums, row.hdpc_symbols()))
}

// The HDPC symbols, with which the sums of their equations begin, and behind them symbol 0.
fn first_sums(
    alloc: Global,
    row: &CheckedRow,
    intermediate: &SymbolSlab,
) -> Result<SymbolSlab, AllocError>
    requires { HasIntermediate row.now.numbers intermediate.now }
    ensures { IfOk result (AreHdpcSums row.now.numbers (symbol_in intermediate.now) intermediate.now.symbol_size 0) }
{
    let start = row.before_hdpc();
    let end = row.intermediate_symbols();
    let mut places: Vec<usize> = (start..end).collect(alloc)?;
    places.push(0)?;
    let sums = intermediate
        .gather(places.as_slice())
        .map_err(want_of_memory)?;
    Ok(sums)
}

// Adds the last symbol to the sums of the two rows where a column of MT has a one. The last symbol
// is then multiplied by alpha, which is 2, and the symbol of the next column is added to it.
fn add_column(sums: &mut SymbolSlab, row: &CheckedRow, intermediate: &SymbolSlab, column: usize)
    requires intermediate { HasIntermediate row.now.numbers intermediate.now }
    requires column { column + 1 < before_hdpc row.now.numbers }
    requires sums { AreHdpcSums row.now.numbers (symbol_in intermediate.now) intermediate.now.symbol_size column sums.old }
    ensures { AreHdpcSums row.now.numbers (symbol_in intermediate.now) intermediate.now.symbol_size (column + 1) sums.new }
{
    let height = row.hdpc_symbols();
    let (first, second) = ones_of_mt(row, column);
    sums.add_assign(first, height);
    sums.add_assign(second, height);
    double_and_add(sums.get_mut(height), intermediate.get(column + 1));
}

// Whether each of the first `height` sums is zero once its power of alpha, times the symbol behind
// them, is added to it, as MT's last column has these powers.
fn are_zero_with_last(sums: &mut SymbolSlab, height: usize) -> bool
    requires few { height < 256 }
    requires order { sums.old.order ≡ None }
    requires count { length sums.old.values ≡ height + 1 }
    ensures { IsTrue result ↔ AreZeroWithLast height sums.old }
{
    for i in 0..height {
        sums.fma(i, height, &Octet::alpha(i));
        if !octets::is_zero(sums.get(i)) {
            return false;
        }
    }
    true
}
