//! Tests of the solver.
ghost use Rattle.std.specs.Prelude.{◌≡◌, ℕ, ◌≤◌, ◌<◌, None, length, IfOk};
ghost use Rattle.rq_standard.specs.TableRows.{greatest_size, intermediate_symbols, row_of};
ghost use Rattle.rq_solver_tests.specs.Squares.{HasZeroRows, IsSquareOf};

use crate::compare::{holds, same};
use rq_bytes::error::Error;
use rq_bytes::octet::Octet;
use rq_bytes::symbol_slab::SymbolSlab;
use rq_matrix::matrix::{BinaryMatrix, DenseBinaryMatrix};
use rq_parts::octet_matrix::DenseOctetMatrix;
use rq_solver::pi_solver::{
    FirstPhaseRowSelectionStats, IntermediateSymbolDecoder, fused_inverse_mul_symbols,
    fused_inverse_mul_symbols_no_hdpc,
};
use rq_tables::systematic_constants::{CheckedRow, SystematicTable};
use std::alloc::Global;
use std::process::Abort;

// The built-in table, and its row of 10.
fn row_of_ten(rt: &impl Abort, alloc: Global) -> Result<(SystematicTable, CheckedRow), Error>
    ensures greatest { IfOk result (λ made. 10 ≤ greatest_size made.0) }
    ensures row { IfOk result (λ made. made.1.numbers ≡ row_of made.0 10) }
    ensures width { IfOk result (λ made. intermediate_symbols made.1.numbers ≡ 27) }
{
    let table = SystematicTable::built_in(alloc)?;
    assert!(rt; 10 <= table.greatest());
    let row = table.checked_row(10);
    assert_eq!(rt; row.intermediate_symbols(), 27);
    Ok((table, row))
}

// Bits of zeros.
fn zero_bits<T: BinaryMatrix>(alloc: Global, row: &CheckedRow) -> Result<T, Error>
    ensures square { IfOk result (λ bits. IsSquareOf row.now.numbers (T.content bits)) }
    ensures zeros { IfOk result (λ bits. let width = intermediate_symbols row.now.numbers in (i k : ℕ) → i < width → k < width → (T.content bits).bit i k ≡ 0) }
{
    let width = row.intermediate_symbols();
    T::new(alloc, width, width, width - row.lt_symbols())
}

// Bits of which the ones stand at pairs of a row and a column, but none in the HDPC rows.
fn bits_at<T: BinaryMatrix>(
    alloc: Global,
    row: &CheckedRow,
    ones: &[(usize, usize)],
) -> Result<T, Error>
    ensures square { IfOk result (λ bits. IsSquareOf row.now.numbers (T.content bits)) }
    ensures zeros { IfOk result (λ bits. HasZeroRows row.now.numbers (T.content bits) row.now.numbers.ldpc_symbols row.now.numbers.hdpc_symbols) }
{
    let mut bits: T = zero_bits(alloc, row)?;
    let width = row.intermediate_symbols();
    let first = row.ldpc_symbols();
    let after = row.precode_rows();
    for (i, k) in ones {
        if *i < width && *k < width && (*i < first || *i >= after) {
            bits.set(*i, *k, Octet::one())?;
        }
    }
    Ok(bits)
}

// Bits of which the ones stand in the last column of the first row, and so on to the first one.
fn mirrored_bits<T: BinaryMatrix>(alloc: Global, row: &CheckedRow) -> Result<T, Error>
    ensures square { IfOk result (λ bits. IsSquareOf row.now.numbers (T.content bits)) }
{
    let mut bits: T = zero_bits(alloc, row)?;
    let width = row.intermediate_symbols();
    for i in 0..width {
        bits.set(i, width - 1 - i, Octet::one())?;
    }
    Ok(bits)
}

// HDPC rows with these octets, each with its row and its column before it.
fn octets_at(
    alloc: Global,
    row: &CheckedRow,
    entries: &[(usize, usize, u8)],
) -> Result<DenseOctetMatrix, Error>
    ensures height { IfOk result (λ octets. length octets.rows ≡ row.now.numbers.hdpc_symbols) }
    ensures width { IfOk result (λ octets. octets.width ≡ intermediate_symbols row.now.numbers) }
{
    let height = row.hdpc_symbols();
    let width = row.intermediate_symbols();
    let mut octets = DenseOctetMatrix::new(alloc, height, width, 0)?;
    for (i, k, octet) in entries {
        if *i < height && *k < width {
            octets.set(*i, *k, Octet::new(*octet));
        }
    }
    Ok(octets)
}

// A solver over the built-in row of 10, of these ones and octets and of numbered symbols.
pub(crate) fn numbered_solver(
    rt: &impl Abort,
    alloc: Global,
    ones: &[(usize, usize)],
    octets: &[(usize, usize, u8)],
) -> Result<IntermediateSymbolDecoder<DenseBinaryMatrix>, Error> {
    let (table, row) = row_of_ten(rt, alloc)?;
    let bits = bits_at(alloc, &row, ones)?;
    let hdpc = octets_at(alloc, &row, octets)?;
    let symbols = numbered(alloc)?;
    Ok(IntermediateSymbolDecoder::new(alloc, &table, bits, hdpc, symbols, 10))
}

// The octets of symbols, one symbol after another.
pub(crate) fn octets_of(alloc: Global, slab: SymbolSlab) -> Result<Vec<u8>, Error> {
    let mut octets = Vec::new(alloc);
    for symbol in &slab.into_symbols()? {
        octets.extend_from_slice(symbol.as_bytes())?;
    }
    Ok(octets)
}

// How a solver ran. A test that held it itself would let its answer go, and
// it, at each of its calls.
#[derive(Drop)]
struct Run {
    is_solved: bool,
    additions: u64,
    multiplications: u64,
    additions_by_phase: [u64; 5],
    multiplications_by_phase: [u64; 5],
}

impl Run {
    fn new(
        rt: &impl Abort,
        alloc: Global,
        ones: &[(usize, usize)],
        octets: &[(usize, usize, u8)],
    ) -> Result<Run, Error> {
        Run::of(numbered_solver(rt, alloc, ones, octets)?)
    }

    fn of(solver: IntermediateSymbolDecoder<DenseBinaryMatrix>) -> Result<Run, Error> {
        let mut solver = solver;
        let is_solved = solver.execute()?.is_some();
        Ok(Run {
            is_solved,
            additions: solver.get_symbol_add_ops(),
            multiplications: solver.get_symbol_mul_ops(),
            additions_by_phase: solver.get_symbol_add_ops_by_phase(),
            multiplications_by_phase: solver.get_symbol_mul_ops_by_phase(),
        })
    }

    // What each phase added and multiplied.
    fn assert_phases(&self, rt: &impl Abort, additions: [u64; 5], multiplications: [u64; 5]) {
        same!(rt; self.additions_by_phase.as_slice(), additions.as_slice());
        same!(rt; self.multiplications_by_phase.as_slice(), multiplications.as_slice());
    }
}

// The row in which the k-th row of bits stands beside 10 HDPC rows behind 7 others.
fn bit_row(k: usize) -> usize
    requires { k < 1000 }
{
    if k < 7 { k } else { k + 10 }
}

// Symbols of one octet each, the number of their place.
fn numbered(alloc: Global) -> Result<SymbolSlab, Error>
    ensures order { IfOk result (λ slab. slab.order ≡ None) }
    ensures count { IfOk result (λ slab. length slab.values ≡ 27) }
{
    let mut symbols = SymbolSlab::with_zeros(alloc, 27, 1)?;
    let values = [
        0, 1, 2, 3, 4, 5, 6, 7, 8, 9, 10, 11, 12, 13, 14, 15, 16, 17, 18, 19, 20, 21, 22, 23, 24,
        25, 26,
    ];
    symbols.copy_block_from(0, &values);
    Ok(symbols)
}

// Rows of bits with a one each in the columns from 10 on.
fn late_ones(alloc: Global) -> Result<Vec<(usize, usize)>, Error> {
    let mut ones = Vec::new(alloc);
    for k in 0..17 {
        ones.push((bit_row(k), 10 + k))?;
    }
    Ok(ones)
}

// A 1 in each of the first `count` HDPC rows, in the columns from `start` on.
pub(crate) fn diagonal(
    alloc: Global,
    start: usize,
    count: usize,
) -> Result<Vec<(usize, usize, u8)>, Error>
    requires start { start < 1000 }
    requires count { count < 1000 }
{
    let mut octets = Vec::new(alloc);
    for i in 0..count {
        octets.push((i, start + i, 1))?;
    }
    Ok(octets)
}

// A solver of those rows and `count` HDPC rows, each with a column of the first ten.
pub(crate) fn late_solver(
    rt: &impl Abort,
    alloc: Global,
    count: usize,
) -> Result<IntermediateSymbolDecoder<DenseBinaryMatrix>, Error>
    requires { count < 1000 }
{
    let ones = late_ones(alloc)?;
    let octets = diagonal(alloc, 0, count)?;
    numbered_solver(rt, alloc, ones.as_slice(), octets.as_slice())
}

// Each of 17 rows has a one in the first column, and one in a column of its own, which for one row
// is the first.
fn chain(alloc: Global) -> Result<Vec<(usize, usize)>, Error> {
    let mut ones = Vec::new(alloc);
    for k in 0..17 {
        ones.push((bit_row(k), 0))?;
        ones.push((bit_row(k), (k + 9) % 17))?;
    }
    Ok(ones)
}

#[test]
fn rows_of_least_degree_take_few_additions(rt: HostRuntime) -> Result<(), Error> {
    let ones = chain(rt.alloc())?;
    let octets = diagonal(rt.alloc(), 17, 10)?;
    let run = Run::new(&rt, rt.alloc(), &ones, &octets)?;
    holds!(rt; run.is_solved);
    same!(rt; (run.additions, run.multiplications), (16, 0));
    run.assert_phases(&rt, [16, 0, 0, 0, 0], [0, 0, 0, 0, 0]);
    Ok(())
}

// Each row of bits has a one in a column of its own, and the last one has one in the first inactive
// column too.
fn separate_ones(alloc: Global) -> Result<Vec<(usize, usize)>, Error> {
    let mut ones = Vec::new(alloc);
    ones.push((26, 17))?;
    for k in 0..17 {
        ones.push((bit_row(k), k))?;
    }
    Ok(ones)
}

// So has each of the first `count` HDPC rows in an inactive column. The second one has a 1 in the first
// of them too, and the third one a 2 in its own.
fn separate_octets(alloc: Global, count: usize) -> Result<Vec<(usize, usize, u8)>, Error>
    requires { count < 1000 }
{
    let mut octets = diagonal(alloc, 17, count)?;
    octets.push((1, 17, 1))?;
    octets.push((2, 19, 2))?;
    Ok(octets)
}

// The first phase has nothing to clear. The second adds the first HDPC row to the second one and scales
// the third one, and the fourth adds the first to the last row of bits.
#[test]
fn each_phase_counts_its_own_operations(rt: HostRuntime) -> Result<(), Error> {
    let ones = separate_ones(rt.alloc())?;
    let octets = separate_octets(rt.alloc(), 10)?;
    let run = Run::new(&rt, rt.alloc(), &ones, &octets)?;
    holds!(rt; run.is_solved);
    run.assert_phases(&rt, [0, 1, 0, 1, 0], [0, 1, 0, 0, 0]);
    Ok(())
}

// In the chain 16 rows of bits have the column of the row with a single 1, and take it in the first
// phase. The 17 pivots stand in the columns in which HDPC rows have zeros, so that these take
// nothing. The columns from 17 on are inactive, in their own order. Of the two HDPC rows that have
// 1 in the first of them one takes the other in the second phase, and the row that has 2 in its own
// is scaled. No row has a 1 in the last one: there is no answer, and no later phase.
#[test]
fn phases_count_where_nothing_is_answered(rt: HostRuntime) -> Result<(), Error> {
    let ones = chain(rt.alloc())?;
    let octets = separate_octets(rt.alloc(), 9)?;
    let run = Run::new(&rt, rt.alloc(), &ones, &octets)?;
    holds!(rt; !run.is_solved);
    run.assert_phases(&rt, [16, 1, 0, 0, 0], [0, 1, 0, 0, 0]);
    Ok(())
}

// Rows of two ones each, which say that the first 17 unknowns are the same.
pub(crate) fn chain_alone(alloc: Global) -> Result<Vec<(usize, usize)>, Error> {
    let mut ones = Vec::new(alloc);
    for k in 1..17 {
        ones.push((bit_row(k), k - 1))?;
        ones.push((bit_row(k), k))?;
    }
    Ok(ones)
}

// A row of 17 ones, and behind it a chain of rows of two.
fn long_row_and_chain(alloc: Global) -> Result<Vec<(usize, usize)>, Error> {
    let mut ones = chain_alone(alloc)?;
    for k in 0..17 {
        ones.push((0, k))?;
    }
    Ok(ones)
}

#[test]
fn rows_of_two_ones_are_taken_before_longer_ones(rt: HostRuntime) -> Result<(), Error> {
    let ones = long_row_and_chain(rt.alloc())?;
    let octets = diagonal(rt.alloc(), 17, 10)?;
    let run = Run::new(&rt, rt.alloc(), &ones, &octets)?;
    holds!(rt; run.is_solved);
    // One column is inactive: a row of the chain takes one other at most, the long row all, and
    // each that one.
    holds!(rt; run.additions <= 48);
    Ok(())
}

// Row i is the unknown 26 - i.
fn mirrored_ones(alloc: Global) -> Result<Vec<(usize, usize)>, Error> {
    let mut ones = Vec::new(alloc);
    for i in 0..27 {
        ones.push((i, 26 - i))?;
    }
    Ok(ones)
}

// HDPC rows of twice that unknown, the first of which adds the unknown 0.
fn mirrored_octets(alloc: Global) -> Result<Vec<(usize, usize, u8)>, Error> {
    let mut octets = Vec::new(alloc);
    octets.push((0, 0, 1))?;
    for i in 0..10 {
        octets.push((i, 19 - i, 2))?;
    }
    Ok(octets)
}

// A solver of these rows.
pub(crate) fn mirrored_solver(
    rt: &impl Abort,
    alloc: Global,
) -> Result<IntermediateSymbolDecoder<DenseBinaryMatrix>, Error> {
    let ones = mirrored_ones(alloc)?;
    let octets = mirrored_octets(alloc)?;
    numbered_solver(rt, alloc, ones.as_slice(), octets.as_slice())
}

// Their solution.
pub(crate) const MIRRORED: [u8; 27] = [
    26, 25, 24, 23, 22, 21, 20, 19, 18, 17, 8, 137, 7, 136, 6, 139, 5, 138, 4, 128, 6, 5, 4, 3, 2,
    1, 0,
];

// The octets of the symbols that these equations have, solved in one call.
fn solved_octets(
    rt: &impl Abort,
    alloc: Global,
    ones: &[(usize, usize)],
    octets: &[(usize, usize, u8)],
) -> Result<Vec<u8>, Error> {
    let (table, row) = row_of_ten(rt, alloc)?;
    let bits: DenseBinaryMatrix = bits_at(alloc, &row, ones)?;
    let hdpc = octets_at(alloc, &row, octets)?;
    let symbols = numbered(alloc)?;
    let solved = fused_inverse_mul_symbols(alloc, &table, bits, hdpc, symbols, 10)?;
    let (slab, _) = solved.expect(rt, "the equations have one solution");
    octets_of(alloc, slab)
}

#[test]
fn equations_are_solved(rt: HostRuntime) -> Result<(), Error> {
    let ones = mirrored_ones(rt.alloc())?;
    let octets = mirrored_octets(rt.alloc())?;
    let found = solved_octets(&rt, rt.alloc(), ones.as_slice(), octets.as_slice())?;
    same!(rt; found.as_slice(), MIRRORED.as_slice());
    Ok(())
}

// The numbers of the places, from the last one on.
const REVERSED: [u8; 27] = [
    26, 25, 24, 23, 22, 21, 20, 19, 18, 17, 16, 15, 14, 13, 12, 11, 10, 9, 8, 7, 6, 5, 4, 3, 2, 1,
    0,
];

#[test]
fn equations_are_solved_without_hdpc(rt: HostRuntime) -> Result<(), Error> {
    let (table, row) = row_of_ten(&rt, rt.alloc())?;
    let bits: DenseBinaryMatrix = mirrored_bits(rt.alloc(), &row)?;
    let symbols = numbered(rt.alloc())?;
    let solved = fused_inverse_mul_symbols_no_hdpc(rt.alloc(), &table, bits, symbols, 10)?;
    let (slab, _) = solved.expect(&rt, "the equations have one solution");
    same!(rt; octets_of(rt.alloc(), slab)?.as_slice(), REVERSED.as_slice());
    Ok(())
}

#[test]
fn zeros_determine_nothing_without_hdpc(rt: HostRuntime) -> Result<(), Error> {
    let (table, row) = row_of_ten(&rt, rt.alloc())?;
    let bits: DenseBinaryMatrix = zero_bits(rt.alloc(), &row)?;
    let symbols = numbered(rt.alloc())?;
    let solver = IntermediateSymbolDecoder::new_no_hdpc(rt.alloc(), &table, bits, symbols, 10);
    holds!(rt; !Run::of(solver)?.is_solved);
    Ok(())
}

#[test]
fn the_row_with_fewest_ones_is_selected(rt: HostRuntime) -> Result<(), Error> {
    let mut bits = DenseBinaryMatrix::new(rt.alloc(), 3, 4, 0)?;
    bits.set(0, 0, Octet::one())?;
    bits.set(0, 1, Octet::one())?;
    bits.set(0, 2, Octet::one())?;
    bits.set(1, 1, Octet::one())?;
    bits.set(1, 3, Octet::one())?;
    let mut stats = FirstPhaseRowSelectionStats::new(rt.alloc(), &bits, 4, 3)?;
    let mut scratch = Vec::new(rt.alloc());
    let selected = stats.first_phase_selection(0, 3, &bits, &mut scratch);
    assert_eq!(rt; selected, Some((1, 2)));
    bits.swap_rows(0, 1);
    stats.swap_rows(0, 1);
    bits.swap_columns(0, 3, 0);
    stats.swap_columns(0, 3);
    bits.set(2, 3, Octet::one())?;
    stats.recompute_row(2, &bits);
    stats.resize(1, 3, 1, 4, &[], &bits);
    let selected = stats.first_phase_selection(1, 3, &bits, &mut scratch);
    assert_eq!(rt; selected, Some((2, 1)));
    Ok(())
}
