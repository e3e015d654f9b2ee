//! Tests of recorded operations.
ghost use Rattle.std.specs.Prelude.{None, IfOk};
ghost use Rattle.rq_algebra.specs.Operations.{AreAllowed};
ghost use Rattle.rq_operations.specs.RecordedOperations.{operations_of};

use crate::compare::{holds, same};
use crate::solver::octets_of;
use rq_bytes::error::Error;
use rq_bytes::octet::Octet;
use rq_bytes::symbol_slab::SymbolSlab;
use rq_operations::recorded::RecordedOperations;
use rq_operations::steps::Step;
use std::alloc::Global;

// A run of additions, a symbol that is doubled and added to, a multiple that is added, and an order.
fn recorded_operations(alloc: Global) -> Result<RecordedOperations, Error>
    ensures { IfOk result (λ recorded. AreAllowed 3 None (operations_of recorded)) }
{
    let steps = vec![in alloc;
        Step::Add { dest: 0, src: 1 },
        Step::Add { dest: 0, src: 2 },
        Step::Multiply {
            scalar: Octet::new(2),
            dest: 1,
        },
        Step::Add { dest: 1, src: 0 },
        Step::AddMultiple {
            scalar: Octet::new(3),
            dest: 2,
            src: 1,
        },
    ]?;
    let order = vec![in alloc; 2, 0, 1]?;
    Ok(RecordedOperations::new(steps, order))
}

#[test]
fn operations_are_replayed(rt: HostRuntime) -> Result<(), Error> {
    let mut slab = SymbolSlab::with_zeros(rt.alloc(), 3, 2)?;
    slab.copy_block_from(0, &[1, 2, 3, 200, 5, 6]);
    recorded_operations(rt.alloc())?.replay(&mut slab)?;
    let octets = octets_of(rt.alloc(), slab)?;
    same!(rt; octets.as_slice(), [6, 197, 7, 204, 1, 65].as_slice());
    Ok(())
}

#[test]
fn recorded_operations_are_copied(rt: HostRuntime) -> Result<(), Error> {
    let recorded = recorded_operations(rt.alloc())?;
    holds!(rt; recorded.clone()? == recorded);
    Ok(())
}
