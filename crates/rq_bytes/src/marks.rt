//! Which of several values an order reads.
ghost use Rattle.std.specs.Prelude.{IfOk};
ghost use Rattle.rq_algebra.specs.Operations.{IsOrder};
ghost use Rattle.rq_bytes.specs.SymbolSlab.{MarksRead};

use std::alloc::{AllocError, Global};

/// For each of `count` values whether the order reads it.
pub(crate) fn marks_of(
    alloc: Global,
    order: &[usize],
    count: usize,
) -> Result<Vec<bool>, AllocError>
    requires { IsOrder count order.now }
    ensures { IfOk result (λ marks. MarksRead count order.now marks.items) }
{
    let mut marks = vec![in alloc; false; count]?;
    for i in order {
        marks[*i] = true;
    }
    Ok(marks)
}
