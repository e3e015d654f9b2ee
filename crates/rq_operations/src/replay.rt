//! Steps that are done to symbols.
ghost use Rattle.std.specs.Prelude.{◌≡◌, ◌∷◌, length, map, replicate, true};
ghost use Rattle.rq_algebra.specs.Operations.{MulAssign, AddAssign, Fma, AreAllowed};
ghost use Rattle.rq_algebra.specs.Symbols.{AreSymbols};
ghost use Rattle.rq_bytes.specs.SymbolSlab.{after_all, HasPlace, symbol_in};
ghost use Rattle.rq_standard.specs.OctetField.{octets};
ghost use Rattle.rq_operations.specs.RecordedSteps.{operation_of_step, PerformsFirst};

use crate::runs::{AdditionsOf, AdditionsTo, MultiplesOf, StepKind, read_run};
use crate::steps::Step;
use rq_bytes::octet::Octet;
use rq_bytes::octets;
use rq_bytes::symbol_slab::{Multiple, SymbolSlab};

// How many additions to one symbol are done in one pass over it, at most: as many as `add_all` does.
const RUN: usize = 8;

// How many multiples of one symbol are added in one pass over it, at most. More at once gain little
// for long symbols, and lose for short ones.
const MULTIPLES: usize = 4;

// How many additions of a symbol to others are done in one pass with its doubling, at most: as many as
// `double_add_and_spread` does.
const TARGETS: usize = 2;

/// Performs steps on the symbols of a slab, first to last.
pub(crate) fn replay(steps: &[Step], symbols: &mut SymbolSlab)
    requires { AreAllowed (length symbols.old.values) symbols.old.order (map operation_of_step steps.now) }
    ensures { symbols.new ≡ after_all (map operation_of_step steps.now) symbols.old }
{
    let mut performer = Performer::new();
    let mut left = steps;
    while let Some((step, behind)) = left.split_first() {
        let count = performer.perform(step, behind, symbols);
        left = &behind[count..];
    }
}

// What is kept while steps are performed.
#[derive(Debug, Drop)]
struct Performer {
    // Room for the sources, the multiples and the targets of one pass, so that no pass sets up its own.
    sources: [usize; RUN],
    multiples: [Multiple; MULTIPLES],
    targets: [usize; TARGETS],
    // Whether all symbols whose multiples were asked for are zeros.
    still_zeros: bool,
}

impl Performer {
    // That of a replay of which no step was performed.
    fn new() -> Self
        ensures { result.still_zeros ≡ true }
    {
        Performer {
            sources: [0; RUN],
            multiples: [Multiple { dest: 0, scalar: 0 }; MULTIPLES],
            targets: [0; TARGETS],
            still_zeros: true,
        }
    }

    // Performs a step, and those behind it that are done in the same pass over a symbol. Returns how
    // many of those behind it these are.
    fn perform(&mut self, step: &Step, behind: &[Step], symbols: &mut SymbolSlab) -> usize
        requires { AreAllowed (length symbols.old.values) symbols.old.order (operation_of_step step.now ∷ map operation_of_step behind.now) }
        ensures { PerformsFirst (operation_of_step step.now) (map operation_of_step behind.now) result symbols.old symbols.new }
    {
        match step {
            Step::Add { dest, src } => self.add(*dest, *src, behind, symbols),
            Step::Multiply { scalar, dest } => self.multiply(*dest, scalar, behind, symbols),
            Step::AddMultiple { scalar, dest, src } => {
                let first = Multiple {
                    dest: *dest as usize,
                    scalar: scalar.byte(),
                };
                self.add_multiples(first, *src, behind, symbols)
            }
        }
    }

    // Performs an addition, and the additions to the same symbol that follow, as far as there is room.
    // Returns how many follow.
    fn add(&mut self, dest: u32, src: u32, behind: &[Step], symbols: &mut SymbolSlab) -> usize
        requires { AreAllowed (length symbols.old.values) symbols.old.order (AddAssign dest src ∷ map operation_of_step behind.now) }
        ensures { PerformsFirst (AddAssign dest src) (map operation_of_step behind.now) result symbols.old symbols.new }
    {
        self.sources[0] = src as usize;
        let more = read_run(&AdditionsTo { dest }, behind, &mut self.sources[1..]);
        symbols.add_all(dest as usize, &self.sources[..1 + more]);
        more
    }

    // Performs a multiplication. Where it is a doubling and the next step adds to the same symbol, both
    // are done in one pass, and so are the steps behind them that add this symbol to others, as far as
    // there is room. Returns how many steps follow the multiplication.
    fn multiply(
        &mut self,
        dest: u32,
        scalar: &Octet,
        behind: &[Step],
        symbols: &mut SymbolSlab,
    ) -> usize
        requires { AreAllowed (length symbols.old.values) symbols.old.order (MulAssign dest scalar.now ∷ map operation_of_step behind.now) }
        ensures { PerformsFirst (MulAssign dest scalar.now) (map operation_of_step behind.now) result symbols.old symbols.new }
    {
        if scalar.byte() == 2
            && let Some((next, rest)) = behind.split_first()
            && let Some(src) = (AdditionsTo { dest }).item_of(next)
        {
            let more = read_run(&AdditionsOf { src: dest }, rest, &mut self.targets);
            symbols.double_add_and_spread(dest as usize, src, &self.targets[..more]);
            return 1 + more;
        }
        if !self.is_found_zero(symbols, dest) {
            symbols.mulassign_scalar(dest as usize, scalar);
        }
        0
    }

    // Performs the addition of a multiple of the symbol at `src`, and those that follow, as far as there
    // is room. Multiples of zeros are left out. Returns how many follow.
    fn add_multiples(
        &mut self,
        first: Multiple,
        src: u32,
        behind: &[Step],
        symbols: &mut SymbolSlab,
    ) -> usize
        requires { AreAllowed (length symbols.old.values) symbols.old.order (Fma first.dest src first.scalar ∷ map operation_of_step behind.now) }
        ensures { PerformsFirst (Fma first.dest src first.scalar) (map operation_of_step behind.now) result symbols.old symbols.new }
    {
        self.multiples[0] = first;
        let more = read_run(&MultiplesOf { src }, behind, &mut self.multiples[1..]);
        if !self.is_found_zero(symbols, src) {
            symbols.add_multiples(src as usize, &self.multiples[..1 + more]);
        }
        more
    }

    // Whether the symbol at a place was found to be zeros, so that its multiples change nothing. The
    // first multiples that the solver records are such: they are of the sum of the HDPC equations'
    // values, which are all zeros. So a symbol is looked at only while all before it were zeros.
    fn is_found_zero(&mut self, symbols: &SymbolSlab, place: u32) -> bool
        requires { HasPlace symbols.now place }
        ensures zeros { (result ≡ true) → (symbol_in symbols.now place ≡ replicate symbols.now.symbol_size 0) }
        ensures symbols { AreSymbols octets symbols.now.symbol_size (length symbols.now.values) symbols.now.values }
        ensures kept { self.new ≡ record self.old { still_zeros = result } }
    {
        // For the proof: the contract of `symbol_size` says that each symbol has that size.
        let _size = symbols.symbol_size();
        self.still_zeros = self.still_zeros && octets::is_zero(symbols.get(place as usize));
        self.still_zeros
    }
}
