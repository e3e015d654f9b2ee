//! Tables: their sizes and look-ups, and rows that are refused.
use crate::compare::same;
use raptorq::error::Error;
use raptorq::systematic_constants::{SystematicTable, extended_source_block_symbols};
use std::alloc::Global;
use std::test::Fail;

fn greatest_with(alloc: Global, rows: &[(u32, u32, u32, u32, u32)]) -> Result<u32, Error> {
    let table = SystematicTable::with_rows(alloc, rows)?;
    Ok(table.greatest())
}

#[test]
fn sizes_of_blocks(rt: HostRuntime) {
    same!(rt; extended_source_block_symbols(0), Ok(10));
    same!(rt; extended_source_block_symbols(10), Ok(10));
    same!(rt; extended_source_block_symbols(11), Ok(12));
    same!(rt; extended_source_block_symbols(498), Ok(511));
    same!(rt; extended_source_block_symbols(56403), Ok(56403));
    same!(rt; extended_source_block_symbols(56404), Err(Error::TooManySymbols));
}

#[test]
fn rows_refused(rt: HostRuntime) {
    let cases = [
        ((511, 800, 37, 10, 37), 3),
        ((511, 800, 37, 1, 523), 4),
        ((511, 800, 37, 10, 500), 5),
        ((511, 800, 37, 2, 548), 5),
        ((511, 800, 37, 10, 540), 5),
        ((511, 800, 65535, 10, 66026), 6),
        ((511, 800, 36, 10, 523), 2),
        ((511, 1001, 37, 10, 523), 7),
        ((526, 923, 41, 10, 541), 1),
    ];
    for (row, check) in cases {
        same!(rt; greatest_with(rt.alloc(), &[row]), Err(Error::RowRefused { place: 0, check }));
    }
}

#[test]
fn rows_accepted(rt: HostRuntime) {
    let alloc = rt.alloc();
    same!(rt; greatest_with(alloc, &[]), Ok(497));
    same!(rt; greatest_with(alloc, &[(511, 800, 37, 10, 539)]), Ok(511));
    same!(rt; greatest_with(alloc, &[(511, 1000, 37, 10, 523)]), Ok(511));
    let first = (511, 800, 37, 10, 523);
    same!(rt; greatest_with(alloc, &[first, (526, 923, 41, 10, 541)]), Ok(526));
    same!(rt;
        greatest_with(alloc, &[first, (526, 923, 40, 10, 541)]),
        Err(Error::RowRefused { place: 1, check: 2 })
    );
}

#[test]
fn look_ups(rt: HostRuntime) -> Result<(), Fail> {
    let table = SystematicTable::built_in(rt.alloc())?.clone()?;
    assert_eq!(rt; table.greatest(), 497);
    let row = table.row(0);
    same!(rt; table.systematic_index(10), 254);
    same!(rt; table.num_ldpc_symbols(10), 7);
    same!(rt; table.num_hdpc_symbols(10), 10);
    same!(rt; table.num_lt_symbols(10), 17);
    same!(rt; table.num_intermediate_symbols(10), 27);
    same!(rt; table.num_pi_symbols(10), 10);
    same!(rt; table.calculate_p1(10), 11);
    same!(rt; row.extended_symbols, 10);
    Ok(())
}
