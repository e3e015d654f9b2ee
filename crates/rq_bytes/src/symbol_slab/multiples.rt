//! Multiples of one symbol that are added to others.
ghost use Rattle.std.specs.Prelude.{◌≡◌, ◌<◌, ◌≤◌, length, map, All};
ghost use Rattle.rq_algebra.specs.Operations.{Fma};
ghost use Rattle.rq_bytes.specs.SymbolSlab.{after_all, Allows, HasPlace};

use super::SymbolSlab;
use crate::half_products::HalfProducts;
use crate::octet::Octet;
use crate::range_multiples::{Target, add_multiples};

/// A multiple that is added to the symbol at a place: the octet multiplies another symbol. Not in the
/// Rust crate.
#[derive(Clone, Copy, Debug)]
pub struct Multiple {
    /// The place of the symbol that it is added to.
    pub dest: usize,
    /// The octet that multiplies.
    pub scalar: u8,
}

impl SymbolSlab {
    ghost use Rattle.rq_bytes.specs.Targets.{start_and_octet, start_and_octet_in};

    /// Adds multiples of one symbol to several others: in one pass over its octets where they are at
    /// most eight, and else one after another. Not in the Rust crate.
    pub fn add_multiples(&mut self, src: usize, multiples: &[Multiple])
        requires { All (λ m. Allows self.old (Fma m.dest src m.scalar)) multiples.now }
        ensures { self.new ≡ after_all (map (λ m. Fma m.dest src m.scalar) multiples.now) self.old }
    {
        // Where their number is known, no loop over them is left in the pass. One alone is quicker on
        // its own way.
        match multiples.len() {
            2 => self.add_multiples_of::<2>(src, multiples),
            3 => self.add_multiples_of::<3>(src, multiples),
            4 => self.add_multiples_of::<4>(src, multiples),
            5 => self.add_multiples_of::<5>(src, multiples),
            6 => self.add_multiples_of::<6>(src, multiples),
            7 => self.add_multiples_of::<7>(src, multiples),
            8 => self.add_multiples_of::<8>(src, multiples),
            _ => {
                for multiple in multiples {
                    self.fma(multiple.dest, src, &Octet::new(multiple.scalar));
                }
            }
        }
    }

    // Adds C multiples of a symbol, in one pass over its octets. Where the others begin is found once,
    // and their octets' products too.
    #[inline(always)]
    fn add_multiples_of<const C: usize>(&mut self, src: usize, multiples: &[Multiple])
        requires some { 0 < C }
        requires few { C ≤ 8 }
        requires count { length multiples.now ≡ C }
        requires multiples { All (λ m. Allows self.old (Fma m.dest src m.scalar)) multiples.now }
        ensures { self.new ≡ after_all (map (λ m. Fma m.dest src m.scalar) multiples.now) self.old }
    {
        let size = self.symbol_size;
        let start = self.start_of(src);
        let targets = self.targets_of::<C>(multiples);
        add_multiples(self.data.as_mut_slice(), start, &targets, size);
    }

    // Where the symbols that C multiples are added to begin in the buffer, and the octets with their
    // products.
    fn targets_of<const C: usize>(&self, multiples: &[Multiple]) -> [Target; C]
        requires count { length multiples.now ≡ C }
        requires places { All (λ m. HasPlace self.now m.dest) multiples.now }
        ensures { map start_and_octet result ≡ map (start_and_octet_in self.now) multiples.now }
    {
        let nothing = Target {
            start: 0,
            factor: HalfProducts::new(0),
        };
        let mut targets = [nothing; C];
        for i in 0..C {
            targets[i] = Target {
                start: self.start_of(multiples[i].dest),
                factor: HalfProducts::new(multiples[i].scalar),
            };
        }
        targets
    }
}
