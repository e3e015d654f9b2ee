//! `OperationList`: the operations that the phases record for the symbols, where each phase's stretches
//! end in it, and how many they are (RFC 6330, sections 5.4.2.2 to 5.4.2.6). What the third and the
//! fifth do is counted as the fourth's.
ghost use Rattle.std.specs.Prelude.{◌≡◌, ℕ, ◌+◌, ◌<◌, ◌≤◌, ◌^◌, ◌∷◌, [], ◌++◌, List, Some, length, map, slice_index_or, IfOk, OnOk};
ghost use Rattle.rq_algebra.specs.Operations.{Operation, AddAssign};
ghost use Rattle.rq_operations.specs.RecordedSteps.{operation_of_step};
ghost use Rattle.rq_elimination.specs.OperationCounts.{additions, multiplications};

use rq_operations::steps::Step;
use std::alloc::{AllocError, Global};
use std::marker::Model;

/// How many operations of a kind each phase recorded.
#[derive(Clone, Copy)]
pub struct PhaseCounts {
    pub first: u64,
    pub second: u64,
    pub fourth: u64,
    pub ghost fits: { first + second + fourth < 2 ^ 64 },
}

impl PhaseCounts {
    /// The counts where no phase recorded an operation.
    pub fn none() -> PhaseCounts
        ensures { result.first + result.second + result.fourth ≡ 0 }
    {
        PhaseCounts {
            first: 0,
            second: 0,
            fourth: 0,
        }
    }

    /// The count of all phases together.
    pub fn total(&self) -> u64
        ensures { result ≡ self.now.first + self.now.second + self.now.fourth }
    {
        self.first + self.second + self.fourth
    }

    /// The counts of the five phases in turn. The third's and the fifth's stand in the fourth's.
    pub fn by_phase(&self) -> [u64; 5]
        ensures { result ≡ self.now.first ∷ self.now.second ∷ 0 ∷ self.now.fourth ∷ 0 ∷ [] }
    {
        [self.first, self.second, 0, self.fourth, 0]
    }
}

/// How many additions and multiplications each phase recorded.
#[derive(Clone, Copy)]
pub struct OperationCounts {
    pub additions: PhaseCounts,
    pub multiplications: PhaseCounts,
}

impl OperationCounts {
    /// The counts where no phase recorded an operation.
    pub fn none() -> OperationCounts
        ensures additions { result.additions.first + result.additions.second + result.additions.fourth ≡ 0 }
        ensures multiplications { result.multiplications.first + result.multiplications.second + result.multiplications.fourth ≡ 0 }
    {
        OperationCounts {
            additions: PhaseCounts::none(),
            multiplications: PhaseCounts::none(),
        }
    }
}

// How many of the steps add symbols, and how many multiply them.
fn count_steps(steps: &[Step]) -> (u64, u64)
    ensures additions { result.0 ≡ additions (map operation_of_step steps.now) }
    ensures multiplications { result.1 ≡ multiplications (map operation_of_step steps.now) }
    ensures few_additions { result.0 ≤ length steps.now }
    ensures few_multiplications { result.1 ≤ length steps.now }
{
    let mut added = 0;
    let mut multiplied = 0;
    for step in steps {
        if !matches!(step, Step::Multiply { .. }) {
            added += 1;
        }
        if !matches!(step, Step::Add { .. }) {
            multiplied += 1;
        }
    }
    (added, multiplied)
}

/// Where the stretches of operations end that the phases record, one behind the other (RFC 6330,
/// sections 5.4.2.2 to 5.4.2.6). The third's stands between the two of the second. The last is the
/// fourth's, with the fifth's in it, and ends with the list.
#[derive(Clone, Copy)]
pub struct PhaseEnds {
    /// The end of the first phase.
    pub cleared: usize,
    /// The end of the second phase's elimination.
    pub eliminated: usize,
    /// The end of the third phase.
    pub sparsified: usize,
    /// The end of the second phase's substitution back.
    pub substituted: usize,
}

/// Operations that are recorded, as steps. Contracts see the operations.
#[derive(Drop)]
pub struct OperationList {
    steps: Vec<Step>,
}

impl Model for OperationList {
    ghost use Rattle.std.specs.Prelude.{List, map};
    ghost use Rattle.rq_algebra.specs.Operations.{Operation};
    ghost use Rattle.rq_operations.specs.RecordedSteps.{operation_of_step};

    ghost Value = { List Operation };

    ghost view = { λ l. map operation_of_step l.steps.items };
}

impl OperationList {
    ghost use Rattle.rq_elimination.specs.PhaseCounts.{AreCountsOf, AreInOrder};

    /// Nothing is recorded yet. There is room for `room` operations before the list grows.
    pub fn with_room(alloc: Global, room: usize) -> Result<OperationList, AllocError>
        ensures { IfOk result (λ list. list ≡ []) }
    {
        Ok(OperationList {
            steps: Vec::with_capacity(alloc, room)?,
        })
    }

    /// The allocator of the list.
    pub fn allocator(&self) -> Global {
        *self.steps.allocator()
    }

    /// Records a step.
    #[inline(always)]
    pub fn push(&mut self, step: Step) -> Result<(), AllocError>
        ensures { OnOk result (self.new ≡ self.old ++ operation_of_step step ∷ []) }
    {
        self.steps.push(step)?;
        Ok(())
    }

    /// How many were recorded.
    pub fn len(&self) -> usize
        ensures { result ≡ length self.now }
    {
        self.steps.len()
    }

    /// The symbol that an operation adds to another one, where it does that alone.
    #[inline(always)]
    pub fn source(&self, place: usize) -> Option<usize>
        requires { place < length self.now }
        ensures { (dest src : ℕ) (d : Operation) → slice_index_or self.now place d ≡ AddAssign dest src → result ≡ Some src }
    {
        match &self.steps[place] {
            Step::Add { src, .. } => Some(*src as usize),
            _ => None,
        }
    }

    /// How many were recorded of each kind, by phases.
    pub fn counts(&self, ends: PhaseEnds) -> OperationCounts
        requires { AreInOrder ends (length self.now) }
        ensures { AreCountsOf ends self.now result }
    {
        let steps = self.steps.as_slice();
        let (cleared, sparsified) = (ends.cleared, ends.sparsified);
        let clearing = count_steps(&steps[..cleared]);
        let forward = count_steps(&steps[cleared..ends.eliminated]);
        let sparsifying = count_steps(&steps[ends.eliminated..sparsified]);
        let back = count_steps(&steps[sparsified..ends.substituted]);
        let last = count_steps(&steps[ends.substituted..]);
        OperationCounts {
            additions: PhaseCounts {
                first: clearing.0,
                second: forward.0 + back.0,
                fourth: sparsifying.0 + last.0,
            },
            multiplications: PhaseCounts {
                first: clearing.1,
                second: forward.1 + back.1,
                fourth: sparsifying.1 + last.1,
            },
        }
    }

    /// The steps.
    pub fn into_steps(self) -> Vec<Step>
        ensures { map operation_of_step result.items ≡ self }
    {
        let OperationList { steps } = self;
        steps
    }
}
