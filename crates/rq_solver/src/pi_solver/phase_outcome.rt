//! `PhaseOutcome`: what the phases make of a system in the end (RFC 6330, sections 5.4.2.2 to 5.4.2.6).
ghost use Rattle.std.specs.Prelude.{◌≡◌};
ghost use Rattle.std.specs.Option.{option_map};
ghost use Rattle.rq_operations.specs.RecordedOperations.{operations_of};

use super::solved::Solved;
use rq_elimination::counts::{OperationList, PhaseEnds};
use rq_operations::recorded::RecordedOperations;

/// What was recorded, where the stretches of each phase end in it, and the order in which the rows then
/// leave the column that solves them, or else a column that shows that they don't determine one. The
/// first two stand here in both cases, for `execute` counts what was tried.
#[derive(Drop)]
pub(super) struct PhaseOutcome {
    pub operations: OperationList,
    pub ends: PhaseEnds,
    pub order: Solved<Vec<usize>>,
}

impl PhaseOutcome {
    ghost use Rattle.rq_solver.specs.PhaseOutcome.{in_row_order};
    ghost use Rattle.rq_solver.specs.Solved.{found_of, shown_of};

    /// The operations that take values of the rows to the column that solves the rows with them, or else
    /// a column that shows that there are none, if there was memory for it.
    pub(super) fn in_row_order(self) -> Solved<RecordedOperations>
        ensures found { option_map operations_of (found_of result) ≡ in_row_order self }
        ensures shown { shown_of result ≡ shown_of self.order }
    {
        let PhaseOutcome {
            operations,
            order,
            ..
        } = self;
        match order {
            Solved::Determined(rows) => {
                Solved::Determined(RecordedOperations::new(operations.into_steps(), rows))
            }
            Solved::Undetermined(column) => Solved::Undetermined(column),
        }
    }
}
