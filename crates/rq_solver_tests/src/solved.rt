//! Tests of solvers that answer operations or a column.
use crate::compare::{holds, same};
use crate::solver::late_solver;
use rq_bytes::error::Error;
use rq_matrix::matrix::DenseBinaryMatrix;
use rq_solver::pi_solver::{IntermediateSymbolDecoder, Solved};
use std::process::Abort;

// A solver's equations don't determine the symbols, as this column shows.
fn assert_open_column(
    rt: &impl Abort,
    solver: IntermediateSymbolDecoder<DenseBinaryMatrix>,
    expected: &[u8],
) -> Result<(), Error> {
    match solver.solve()? {
        Solved::Undetermined(Some(column)) => same!(rt; column.as_slice(), expected),
        _ => panic!(rt; "no column was shown"),
    }
    Ok(())
}

#[test]
fn the_column_of_the_last_hdpc_row_is_open_without_it(rt: HostRuntime) -> Result<(), Error> {
    let solver = late_solver(&rt, rt.alloc(), 9)?;
    let expected = [
        0, 0, 0, 0, 0, 0, 0, 0, 0, 1, 0, 0, 0, 0, 0, 0, 0, 0, 0, 0, 0, 0, 0, 0, 0, 0, 0,
    ];
    assert_open_column(&rt, solver, &expected)
}

#[test]
fn operations_alone_are_found(rt: HostRuntime) -> Result<(), Error> {
    let solved = late_solver(&rt, rt.alloc(), 10)?.solve()?;
    holds!(rt; matches!(solved, Solved::Determined(_)));
    Ok(())
}
