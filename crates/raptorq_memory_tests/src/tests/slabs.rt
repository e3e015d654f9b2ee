//! Symbols in one buffer where memory is refused.
use crate::compare::holds;
use raptorq::symbol_slab::SymbolSlab;
use rq_memory_kit::Shortage;
use std::alloc::AllocError;
use std::process::Abort;
use std::test::Fail;

// A symbol for which room was reserved takes no memory, and one for which none was does.
#[test]
fn a_reserved_symbol(rt: HostRuntime) -> Result<(), Fail> {
    let alloc = rt.alloc();
    let mut other = SymbolSlab::from_bytes(Vec::new(alloc), 0, 100);
    let mut reserved = SymbolSlab::from_bytes(Vec::new(alloc), 0, 100);
    reserved.reserve(1)?;
    let shortage = Shortage::new(alloc, 0, 0)?;
    let refused = other.push_zeros();
    let pushed = reserved.push_zeros();
    let is_whole = shortage.is_whole();
    drop(shortage);
    holds!(rt; is_whole);
    holds!(rt; refused == Err(AllocError));
    holds!(rt; pushed == Ok(()));
    Ok(())
}
