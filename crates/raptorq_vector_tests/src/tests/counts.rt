//! How many operations are recorded for the equations of a block's first ids, as many as there are
//! intermediate symbols.
ghost use Rattle.std.specs.Prelude.{◌≤◌};
ghost use Rattle.rq_standard.specs.TableRows.{greatest_size};

use crate::compare::holds;
use crate::tests::matrices::first_ids;
use raptorq::constraint_matrix::generate_constraint_matrix;
use raptorq::error::Error;
use raptorq::matrix::{BinaryMatrix, DenseBinaryMatrix};
use raptorq::operation_vector::SymbolOps;
use raptorq::pi_solver::IntermediateSymbolDecoder;
use raptorq::symbol_slab::SymbolSlab;
use raptorq::systematic_constants::SystematicTable;
use std::alloc::Global;
use std::process::Abort;
use std::test::Fail;

// A solver of these equations, with symbols of zeros.
fn first_solver(
    alloc: Global,
    table: &SystematicTable,
    k: u32,
) -> Result<IntermediateSymbolDecoder<DenseBinaryMatrix>, Error>
    requires { k ≤ greatest_size table.now }
{
    let ids = first_ids(alloc, table.row(k).extended_symbols)?;
    let (bits, hdpc) = generate_constraint_matrix::<DenseBinaryMatrix>(
        alloc,
        table,
        k,
        ids.as_slice(),
    )?;
    let count = bits.height();
    let symbols = SymbolSlab::with_zeros(alloc, count, 1)?;
    Ok(IntermediateSymbolDecoder::new(alloc, table, bits, hdpc, symbols, k))
}

// The additions among operations, and the products but for those with 2: multiples that are added, and
// symbols that are multiplied.
fn counts(operations: &[SymbolOps]) -> (usize, usize) {
    let mut additions = 0usize;
    let mut products = 0usize;
    for operation in operations {
        let (adds, multiplies) = match operation {
            SymbolOps::AddAssign { .. } => (1, 0),
            SymbolOps::FMA { .. } => (1, 1),
            SymbolOps::MulAssign { scalar, .. } if scalar.byte() != 2 => (0, 1),
            _ => (0, 0),
        };
        additions = additions.saturating_add(adds);
        products = products.saturating_add(multiplies);
    }
    (additions, products)
}

// No more additions and multiplications than the Rust crate's solver counts for the same equations.
#[test]
fn operations_of_small_blocks(rt: HostRuntime) -> Result<(), Fail> {
    let table = SystematicTable::built_in(rt.alloc())?;
    for (k, additions, multiplications) in [(10, 415, 268), (101, 2935, 1251)] {
        assert!(rt; k <= table.greatest());
        let mut solver = first_solver(rt.alloc(), &table, k)?;
        holds!(rt; solver.execute()?.is_some(), k);
        holds!(rt; solver.get_symbol_add_ops() <= additions, k);
        holds!(rt; solver.get_symbol_mul_ops() <= multiplications, k);
    }
    Ok(())
}

// The operations that the equations of 497 symbols take, without symbols.
fn listed_operations(
    rt: &impl Abort,
    alloc: Global,
    table: &SystematicTable,
) -> Result<Vec<SymbolOps>, Error>
    requires { 497 ≤ greatest_size table.now }
{
    let found = first_solver(alloc, table, 497)?.into_operations()?;
    let operations = found.expect(rt, "the first ids determine the block");
    Ok(operations.into_symbol_ops()?)
}

// Few for the greatest block of the built-in table.
#[test]
fn operations_of_the_greatest_block(rt: HostRuntime) -> Result<(), Fail> {
    let table = SystematicTable::built_in(rt.alloc())?;
    assert!(rt; 497 <= table.greatest());
    let listed = listed_operations(&rt, rt.alloc(), &table)?;
    let (additions, products) = counts(listed.as_slice());
    holds!(rt; additions <= 10_500, additions);
    holds!(rt; products <= 520, products);
    Ok(())
}
