//! The operations of a plan or of a solution.
ghost use Rattle.std.specs.Prelude.{◌≡◌, ◌++◌, ◌∷◌, [], length, map, IfOk, OnOk, OnErr};
ghost use Rattle.rq_algebra.specs.Operations.{AreAllowed, Reorder};
ghost use Rattle.rq_bytes.specs.SymbolOps.{operation_of};
ghost use Rattle.rq_bytes.specs.SymbolSlab.{after_all};
ghost use Rattle.rq_operations.specs.RecordedSteps.{operation_of_step};

use crate::replay::replay;
use crate::steps::Step;
use rq_bytes::operation_vector::SymbolOps;
use rq_bytes::symbol_slab::SymbolSlab;
use std::alloc::AllocError;

/// The operations that make intermediate symbols from the values of equations (RFC 6330, section
/// 5.4.2): steps, and then the order in which the symbols are read. Not in the Rust crate.
#[derive(Debug, PartialEq, Eq, Drop)]
pub struct RecordedOperations {
    steps: Vec<Step>,
    order: Vec<usize>,
}

impl RecordedOperations {
    ghost use Rattle.rq_operations.specs.RecordedOperations.{operations_of};

    /// Steps, and the order that is set after them.
    pub fn new(steps: Vec<Step>, order: Vec<usize>) -> Self
        ensures { operations_of result ≡ map operation_of_step steps.items ++ Reorder order.items ∷ [] }
    {
        RecordedOperations { steps, order }
    }

    /// Performs the operations on the symbols of a slab, first to last. Where memory for a copy of the
    /// order is refused, the slab stays as it was.
    pub fn replay(&self, symbols: &mut SymbolSlab) -> Result<(), AllocError>
        requires { AreAllowed (length symbols.old.values) symbols.old.order (operations_of self.now) }
        ensures ok { OnOk result (symbols.new ≡ after_all (operations_of self.now) symbols.old) }
        ensures unchanged { OnErr result (symbols.new ≡ symbols.old) }
    {
        let order = self.order.clone()?;
        replay(self.steps.as_slice(), symbols);
        symbols.set_reorder(order);
        Ok(())
    }

    /// The operations one by one, as the Rust crate records them.
    pub fn into_symbol_ops(self) -> Result<Vec<SymbolOps>, AllocError>
        ensures { IfOk result (λ operations. map operation_of operations.items ≡ operations_of self) }
    {
        let RecordedOperations { steps, order } = self;
        let mut operations = Vec::with_capacity(*steps.allocator(), steps.len() + 1)?;
        for step in steps.as_slice() {
            operations.push(step.to_operation())?;
        }
        operations.push(SymbolOps::Reorder { order })?;
        Ok(operations)
    }
}

impl Clone for RecordedOperations {
    ghost use Rattle.rq_operations.specs.RecordedOperations.{operations_of};

    ghost is_clone = { λ a b. operations_of b ≡ operations_of a };

    fn clone(&self) -> Result<Self, AllocError> {
        Ok(RecordedOperations {
            steps: self.steps.clone()?,
            order: self.order.clone()?,
        })
    }
}
