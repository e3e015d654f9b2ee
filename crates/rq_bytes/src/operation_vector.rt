//! Recorded operations on symbols.
ghost use Rattle.std.specs.Prelude.{◌≡◌, OnOk, IfErr};
ghost use Rattle.rq_bytes.specs.declared.error.Error.TheVariants.{OutOfMemory};
ghost use Rattle.rq_bytes.specs.SymbolSlab.{after, Allows};
ghost use Rattle.rq_bytes.specs.SymbolOps.{operation_of, IsReorder};

use crate::error::Error;
use crate::octet::Octet;
use crate::symbol_slab::SymbolSlab;

/// An operation on the symbols of a slab.
#[derive(Clone, Debug, PartialEq, Eq, PartialOrd, Ord, Hash, Drop)]
pub enum SymbolOps {
    /// Adds the symbol at `src` to the one at `dest`.
    AddAssign {
        dest: usize,
        src: usize,
    },
    /// Multiplies the symbol at `dest` by an octet.
    MulAssign {
        dest: usize,
        scalar: Octet,
    },
    /// Adds a multiple of the symbol at `src` to the one at `dest`.
    FMA {
        dest: usize,
        src: usize,
        scalar: Octet,
    },
    /// Sets the order in which places are read.
    Reorder {
        order: Vec<usize>,
    },
}

/// Performs an operation on the symbols of a slab. `Reorder` alone takes memory, for a copy of its
/// order.
///
/// Kept for the surface of `raptorq`; no coder calls it.
pub fn perform_op(op: &SymbolOps, symbols: &mut SymbolSlab) -> Result<(), Error>
    requires { Allows symbols.old (operation_of op.now) }
    ensures ok { OnOk result (symbols.new ≡ after (operation_of op.now) symbols.old) }
    ensures err { IfErr result (λ e. (e ≡ OutOfMemory) × IsReorder op.now × (symbols.new ≡ symbols.old)) }
{
    match op {
        SymbolOps::AddAssign { dest, src } => symbols.add_assign(*dest, *src),
        SymbolOps::MulAssign { dest, scalar } => symbols.mulassign_scalar(*dest, scalar),
        SymbolOps::FMA { dest, src, scalar } => symbols.fma(*dest, *src, scalar),
        SymbolOps::Reorder { order } => symbols.set_reorder(order.clone()?),
    }
    Ok(())
}
