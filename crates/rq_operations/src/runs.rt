//! Steps of one kind that follow each other, so that they are done in one pass over a symbol.
ghost use Rattle.std.specs.Prelude.{◌≡◌, ◌≤◌, length, map, take, IfSome};
ghost use Rattle.rq_algebra.specs.Operations.{Operation, AddAssign, Fma};
ghost use Rattle.rq_operations.specs.RecordedSteps.{operation_of_step};

use crate::steps::Step;
use rq_bytes::symbol_slab::Multiple;

/// Steps that differ in one item alone.
pub(crate) trait StepKind {
    /// What a step of this kind has of its own.
    type Item: Copy;

    ghost operation: { Self → Self.Item → Operation };

    /// What a step has of its own. `None` where it isn't of this kind.
    fn item_of(&self, step: &Step) -> Option<Self::Item>
        ensures { IfSome result (λ item. operation_of_step step.now ≡ operation self.now item) };
}

/// Additions to the symbol at a place, each with its source.
#[derive(Drop)]
pub(crate) struct AdditionsTo {
    pub(crate) dest: u32,
}

impl StepKind for AdditionsTo {
    type Item = usize;

    ghost operation = { λ additions src. AddAssign additions.dest src };

    fn item_of(&self, step: &Step) -> Option<usize> {
        match step {
            Step::Add { dest, src } if *dest == self.dest => Some(*src as usize),
            _ => None,
        }
    }
}

/// Additions of the symbol at a place, each with the place of the symbol that it is added to.
#[derive(Drop)]
pub(crate) struct AdditionsOf {
    pub(crate) src: u32,
}

impl StepKind for AdditionsOf {
    type Item = usize;

    ghost operation = { λ additions dest. AddAssign dest additions.src };

    fn item_of(&self, step: &Step) -> Option<usize> {
        match step {
            Step::Add { dest, src } if *src == self.src => Some(*dest as usize),
            _ => None,
        }
    }
}

/// Additions of multiples of the symbol at a place.
#[derive(Drop)]
pub(crate) struct MultiplesOf {
    pub(crate) src: u32,
}

impl StepKind for MultiplesOf {
    type Item = Multiple;

    ghost operation = { λ multiples m. Fma m.dest multiples.src m.scalar };

    fn item_of(&self, step: &Step) -> Option<Multiple> {
        match step {
            Step::AddMultiple { scalar, dest, src } if *src == self.src => Some(Multiple {
                dest: *dest as usize,
                scalar: scalar.byte(),
            }),
            _ => None,
        }
    }
}

/// Writes the items of the first steps, as far as these are of a kind and there is room. Returns how
/// many steps these are.
pub(crate) fn read_run<K: StepKind>(kind: &K, steps: &[Step], items: &mut [K::Item]) -> usize
    ensures room { result ≤ length items.new }
    ensures within { result ≤ length steps.now }
    ensures run { take result (map operation_of_step steps.now) ≡ map (K.operation kind.now) (take result items.new) }
{
    let most = items.len().min(steps.len());
    for count in 0..most {
        match kind.item_of(&steps[count]) {
            Some(item) => items[count] = item,
            None => return count,
        }
    }
    most
}
