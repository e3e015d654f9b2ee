//! Symbols, slabs of them, operations on them, and the helpers of `util` and `gf2`.
ghost use Rattle.std.specs.Prelude.{◌≡◌, None, length, IfOk};
ghost use Rattle.rq_algebra.specs.Operations.{IsAllowed};
ghost use Rattle.rq_bytes.specs.SymbolOps.{operation_of};

use crate::compare::{holds, same};
use raptorq::error::Error;
use raptorq::gf2::add_assign_binary;
use raptorq::octet::Octet;
use raptorq::operation_vector::{SymbolOps, perform_op};
use raptorq::symbol::Symbol;
use raptorq::symbol_slab::SymbolSlab;
use raptorq::util::{get_both_indices, get_both_ranges, int_div_ceil};
use std::alloc::Global;
use std::test::Fail;

#[test]
fn words_and_lists(rt: HostRuntime) {
    let mut words = [0b1100, 7];
    add_assign_binary(&mut words, &[0b1010, 1, 9]);
    same!(rt; words.as_slice(), [0b0110, 6].as_slice());
    let mut list = [1, 2, 3, 4, 5];
    let (later, first) = get_both_indices(&mut list, 3, 0);
    *later = 7;
    *first = 8;
    same!(rt; list.as_slice(), [8, 2, 3, 7, 5].as_slice());
    let (back, front) = get_both_ranges(&mut list, 3, 0, 2);
    back.copy_from_slice(&[6, 6]);
    front.copy_from_slice(&[9, 9]);
    same!(rt; list.as_slice(), [9, 9, 3, 6, 6].as_slice());
    same!(rt; int_div_ceil(10, 5), 2);
    same!(rt; int_div_ceil(11, 5), 3);
}

#[test]
fn symbols_are_rows(rt: HostRuntime) -> Result<(), Fail> {
    let mut symbol = Symbol::new([1, 2].to_vec(rt.alloc())?);
    same!(rt; symbol.len(), 2);
    holds!(rt; !symbol.is_empty());
    let other = symbol.clone()?;
    same!(rt; &other, &symbol);
    symbol.mulassign_scalar(&Octet::new(2));
    same!(rt; symbol.as_bytes(), [2, 4].as_slice());
    symbol += &other;
    symbol.fused_addassign_mul_scalar(&other, &Octet::new(4));
    same!(rt; symbol.as_bytes(), [7, 14].as_slice());
    holds!(rt; other < symbol);
    let bytes = Symbol::zero(rt.alloc(), 3)?.into_bytes();
    same!(rt; bytes.as_slice(), [0, 0, 0].as_slice());
    Ok(())
}

// The symbols [0], [1], [2].
fn three(alloc: Global) -> Result<SymbolSlab, Error>
    ensures { IfOk result (λ slab. (slab.order ≡ None) × (length slab.values ≡ 3) × (slab.symbol_size ≡ 1)) }
{
    let mut slab = SymbolSlab::with_zeros(alloc, 3, 1)?;
    slab.copy_block_from(1, &[1, 2]);
    Ok(slab)
}

// The octets of symbols of one octet each, as they are read.
fn octets_of(alloc: Global, slab: SymbolSlab) -> Result<Vec<u8>, Error> {
    let mut octets = Vec::new(alloc);
    for symbol in &slab.into_symbols()? {
        octets.extend_from_slice(symbol.as_bytes())?;
    }
    Ok(octets)
}

#[test]
#[tactic(auto, unfolding(rq_algebra::specs::Operations::step))]
fn an_order_moves_no_symbol(rt: HostRuntime) -> Result<(), Error> {
    let mut slab = three(rt.alloc())?;
    slab.set_reorder([2, 0, 1].to_vec(rt.alloc())?);
    same!(rt; slab.len(), 3);
    same!(rt; slab.symbol_size(), 1);
    same!(rt; slab.get(0), [2].as_slice());
    same!(rt; slab.get(1), [0].as_slice());
    same!(rt; slab.get(2), [1].as_slice());
    Ok(())
}

#[test]
#[tactic(auto, unfolding(rq_algebra::specs::Operations::step))]
fn a_multiple_is_added(rt: HostRuntime) -> Result<(), Error> {
    let mut slab = SymbolSlab::with_zeros(rt.alloc(), 2, 1)?;
    slab.copy_block_from(0, &[1, 2]);
    slab.fma(0, 1, &Octet::new(3));
    same!(rt; slab.get(0), [7].as_slice());
    slab.add_all(1, &[0]);
    let octets = octets_of(rt.alloc(), slab)?;
    same!(rt; octets.as_slice(), [7, 5].as_slice());
    Ok(())
}

// Each symbol has more octets than a kernel takes at once.
#[test]
#[tactic(auto, unfolding(rq_algebra::specs::Operations::step, rq_algebra::specs::Operations::run))]
fn a_doubled_symbol_is_added_to_others(rt: HostRuntime) -> Result<(), Error> {
    let mut slab = SymbolSlab::with_zeros(rt.alloc(), 3, 33)?;
    slab.get_mut(0).copy_from_slice(&[128; 33]);
    slab.get_mut(1).copy_from_slice(&[3; 33]);
    slab.get_mut(2).copy_from_slice(&[5; 33]);
    slab.double_add_and_spread(0, 1, &[2, 1]);
    same!(rt; slab.get(0), [30; 33].as_slice());
    same!(rt; slab.get(1), [29; 33].as_slice());
    same!(rt; slab.get(2), [27; 33].as_slice());
    Ok(())
}

// What the symbols [0], [1], [2] are after an operation, as they are read.
fn performed(alloc: Global, operation: SymbolOps) -> Result<Vec<u8>, Error>
    requires { IsAllowed 3 None (operation_of operation) }
{
    let mut slab = three(alloc)?;
    perform_op(&operation, &mut slab)?;
    octets_of(alloc, slab)
}

#[test]
fn operations_are_performed(rt: HostRuntime) -> Result<(), Error> {
    let alloc = rt.alloc();
    let sum = performed(alloc, SymbolOps::AddAssign { dest: 1, src: 2 })?;
    same!(rt; sum.as_slice(), [0, 3, 2].as_slice());
    let scalar = Octet::new(3);
    let with_multiple = performed(
        alloc,
        SymbolOps::FMA {
            dest: 0,
            src: 1,
            scalar,
        },
    )?;
    same!(rt; with_multiple.as_slice(), [3, 1, 2].as_slice());
    let scalar = Octet::new(128);
    let product = performed(alloc, SymbolOps::MulAssign { dest: 2, scalar })?;
    same!(rt; product.as_slice(), [0, 1, 29].as_slice());
    let order = [2, 0].to_vec(alloc)?;
    let ordered = performed(alloc, SymbolOps::Reorder { order })?;
    same!(rt; ordered.as_slice(), [2, 0].as_slice());
    Ok(())
}

#[test]
fn symbols_are_gathered_and_joined(rt: HostRuntime) -> Result<(), Error> {
    let gathered = three(rt.alloc())?.gather(&[2, 0])?;
    same!(rt; octets_of(rt.alloc(), gathered.clone()?)?.as_slice(), [2, 0].as_slice());
    let symbols = vec![in rt.alloc(); Symbol::zero(rt.alloc(), 2)?]?;
    let slab = SymbolSlab::from_symbols(rt.alloc(), symbols, 2)?;
    same!(rt; slab.into_bytes().as_slice(), [0, 0].as_slice());
    Ok(())
}

#[test]
fn symbols_are_written_to(rt: HostRuntime) -> Result<(), Error> {
    let mut slab = three(rt.alloc())?;
    slab.get_mut(0).copy_from_slice(&[9]);
    same!(rt; slab.into_bytes().as_slice(), [9, 1, 2].as_slice());
    let mut slab = three(rt.alloc())?;
    let (dest, src) = slab.get_pair_mut(1, 2);
    dest.copy_from_slice(src);
    same!(rt; slab.into_bytes().as_slice(), [0, 2, 2].as_slice());
    Ok(())
}
