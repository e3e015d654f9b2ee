//! Steps: operations on symbols at places that fit 32 bits.
ghost use Rattle.std.specs.Prelude.{◌≡◌};
ghost use Rattle.rq_bytes.specs.SymbolOps.{operation_of};
ghost use Rattle.rq_operations.specs.RecordedSteps.{operation_of_step};

use rq_bytes::octet::Octet;
use rq_bytes::operation_vector::SymbolOps;

/// An operation on the symbols of a slab that sets no order, as the solver records it: the places
/// are below 2^32. A step takes 12 octets of memory. Not in the Rust crate.
// The octet stands beside the tag, or each step would take 16 octets.
#[derive(Clone, Debug, PartialEq, Eq, Drop)]
pub enum Step {
    /// Adds the symbol at `src` to the one at `dest`.
    Add { dest: u32, src: u32 },
    /// Multiplies the symbol at `dest` by an octet.
    Multiply { scalar: Octet, dest: u32 },
    /// Adds a multiple of the symbol at `src` to the one at `dest`.
    AddMultiple { scalar: Octet, dest: u32, src: u32 },
}

impl Step {
    /// The operation that the step is. Not in the Rust crate.
    pub fn to_operation(&self) -> SymbolOps
        ensures { operation_of result ≡ operation_of_step self.now }
    {
        match self {
            Step::Add { dest, src } => SymbolOps::AddAssign {
                dest: *dest as usize,
                src: *src as usize,
            },
            Step::Multiply { scalar, dest } => SymbolOps::MulAssign {
                dest: *dest as usize,
                scalar: Octet::new(scalar.byte()),
            },
            Step::AddMultiple { scalar, dest, src } => SymbolOps::FMA {
                dest: *dest as usize,
                src: *src as usize,
                scalar: Octet::new(scalar.byte()),
            },
        }
    }
}
